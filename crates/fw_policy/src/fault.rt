//! What is wrong with a policy.
ghost use Rattle.std.specs.Prelude.{◌≡◌};
ghost use Rattle.fw_policy.specs.Faults.{code_of};

use fw_model::Code;

/// What is wrong with a policy, in the order in which it is told.
#[derive(Clone, Copy, Debug, PartialEq, Eq)]
pub enum Fault {
    /// Its priority is 0, which is that of the zones, or isn't from -32768 to 32767.
    Priority,
    /// No zone has the name at this place of its ingress zones.
    UnknownIngress(usize),
    /// No zone has the name at this place of its egress zones.
    UnknownEgress(usize),
    /// `HOST` or `ANY` stands beside other names.
    NotAlone,
    /// It stands between the host and the host.
    HostToHost,
    /// It masquerades, and its ingress isn't `ANY` or its egress is `HOST`.
    Masquerade,
    /// It forwards a port to the host itself and its egress isn't `HOST`, or to another and its egress isn't `ANY`.
    Forward,
    /// It marks packets, and its egress isn't `ANY`.
    Mark,
}

impl Fault {
    /// The code by which a call is refused that would make such a policy (firewalld.dbus(5), "Exceptions").
    pub fn code(self) -> Code
        ensures { result ≡ code_of self }
    {
        match self {
            Fault::Priority => Code::InvalidPriority,
            _ => Code::InvalidZone,
        }
    }
}
