//! The interfaces of firewalld's objects.
ghost use Rattle.std.specs.Prelude.{◌≡◌};
ghost use Rattle.fw_calls.specs.Interfaces.{script_name};

/// An interface (firewalld.dbus(5)): `org.fedoraproject.FirewallD1` itself, or one whose name goes on behind that.
#[derive(Clone, Copy, Debug, PartialEq, Eq)]
pub enum Interface {
    /// `org.fedoraproject.FirewallD1` itself.
    Root,
    Zone,
    Policy,
    Ipset,
    Config,
    ConfigZone,
    ConfigPolicy,
}

impl Interface {
    /// Its name in scripts: what it has behind `org.fedoraproject.FirewallD1.`, and `root` for that itself.
    pub fn script_name(self) -> &'static str
        ensures { result.now ≡ script_name self }
    {
        match self {
            Interface::Root => "root",
            Interface::Zone => "zone",
            Interface::Policy => "policy",
            Interface::Ipset => "ipset",
            Interface::Config => "config",
            Interface::ConfigZone => "config.zone",
            Interface::ConfigPolicy => "config.policy",
        }
    }
}
