//! The members of firewalld's D-Bus interfaces, by what they do.

/// What a call does with an entry.
#[derive(Clone, Copy, Debug, PartialEq, Eq)]
pub enum Verb {
    Add,
    Remove,
    Query,
}

/// What a call does with an interface or a source of a zone.
#[derive(Clone, Copy, Debug, PartialEq, Eq)]
pub enum BindingVerb {
    Add,
    Remove,
    Query,
    /// It goes to the zone, whichever had it.
    Change,
}

/// The kinds of a zone's settings.
#[derive(Clone, Copy, Debug, PartialEq, Eq)]
pub enum SettingKind {
    Service,
    Port,
    SourcePort,
    Protocol,
    IcmpBlock,
    Masquerade,
    ForwardPort,
    RichRule,
}

/// What binds packets to a zone.
#[derive(Clone, Copy, Debug, PartialEq, Eq)]
pub enum BindingKind {
    Interface,
    Source,
}

/// A member of an interface (firewalld.dbus(5)).
#[derive(Clone, Copy, Debug, PartialEq, Eq)]
pub enum Member {
    Zone(ZoneMember),
    Policy(PolicyMember),
    Ipset(IpsetMember),
    Root(RootMember),
    Config(ConfigMember),
    ConfigZone(ObjectMember),
    ConfigPolicy(ObjectMember),
}

/// A member of the interface `org.fedoraproject.FirewallD1.zone`.
#[derive(Clone, Copy, Debug, PartialEq, Eq)]
pub enum ZoneMember {
    /// `addPort`, `removePort`, `queryPort` and their kin.
    Setting(Verb, SettingKind),
    /// `addIcmpBlockInversion` and its kin.
    Inversion(Verb),
    /// `addInterface`, `changeZoneOfInterface` and their kin.
    Binding(BindingVerb, BindingKind),
    /// `getZoneOfInterface`, `getZoneOfSource`.
    ZoneOf(BindingKind),
    /// `getZones`.
    Zones,
    /// `getActiveZones`.
    ActiveZones,
    /// `getZoneSettings2`.
    Settings,
    /// `setZoneSettings2`.
    SetSettings,
}

/// A member of the interface `org.fedoraproject.FirewallD1.policy`.
#[derive(Clone, Copy, Debug, PartialEq, Eq)]
pub enum PolicyMember {
    /// `getPolicies`.
    Policies,
    /// `getActivePolicies`.
    ActivePolicies,
    /// `getPolicySettings`.
    Settings,
    /// `setPolicySettings`.
    SetSettings,
}

/// A member of the interface `org.fedoraproject.FirewallD1.ipset`.
#[derive(Clone, Copy, Debug, PartialEq, Eq)]
pub enum IpsetMember {
    /// `getIPSets`.
    Ipsets,
    /// `queryIPSet`.
    HasIpset,
    /// `addEntry`, `removeEntry`, `queryEntry`.
    Entry(Verb),
    /// `getEntries`.
    Entries,
    /// `setEntries`.
    SetEntries,
}

/// A member of the interface `org.fedoraproject.FirewallD1` itself.
#[derive(Clone, Copy, Debug, PartialEq, Eq)]
pub enum RootMember {
    /// `getDefaultZone`.
    DefaultZone,
    /// `setDefaultZone`.
    SetDefaultZone,
    /// `getLogDenied`.
    LogDenied,
    /// `setLogDenied`.
    SetLogDenied,
    /// `queryPanicMode`.
    PanicMode,
    /// `enablePanicMode`.
    EnablePanicMode,
    /// `disablePanicMode`.
    DisablePanicMode,
    /// `listServices`.
    Services,
    /// `reload`.
    Reload,
    /// `completeReload`.
    CompleteReload,
    /// `runtimeToPermanent`.
    RuntimeToPermanent,
}

/// A member of the interface `org.fedoraproject.FirewallD1.config`.
#[derive(Clone, Copy, Debug, PartialEq, Eq)]
pub enum ConfigMember {
    /// `getZoneNames`.
    ZoneNames,
    /// `getPolicyNames`.
    PolicyNames,
    /// `getZoneByName`.
    ZoneByName,
    /// `getPolicyByName`.
    PolicyByName,
    /// `addZone2`.
    AddZone,
    /// `addPolicy`.
    AddPolicy,
}

/// A member of the interface of a zone or a policy of the permanent settings.
#[derive(Clone, Copy, Debug, PartialEq, Eq)]
pub enum ObjectMember {
    /// `getSettings2` of a zone, `getSettings` of a policy.
    Settings,
    /// `update2` of a zone, `update` of a policy.
    Update,
    /// `remove`.
    Remove,
}
