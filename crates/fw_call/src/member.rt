//! The members of firewalld's D-Bus interfaces that a script may call.
ghost use Rattle.std.specs.Prelude.{◌≡◌};
ghost use Rattle.fw_text.specs.Names.{named};
ghost use Rattle.fw_call.specs.Members.{binding_members, ipset_members, members, root_members, setting_members};

/// What a call does with an entry of a zone.
#[derive(Clone, Copy, Debug, PartialEq, Eq)]
pub enum Verb {
    Add,
    Remove,
    Query,
}

/// The kinds of a zone's settings.
#[derive(Clone, Copy, Debug, PartialEq, Eq)]
pub enum SettingKind {
    Port,
    SourcePort,
    Protocol,
    IcmpBlock,
    Service,
    RichRule,
}

/// What binds packets to a zone.
#[derive(Clone, Copy, Debug, PartialEq, Eq)]
pub enum BindingKind {
    Interface,
    Source,
}

/// A member of an interface (firewalld.dbus(5)).
#[derive(Clone, Copy, Debug, PartialEq, Eq)]
pub enum Member {
    /// `addPort`, `removePort`, `queryPort` and their kin.
    Setting(Verb, SettingKind),
    /// `addIcmpBlockInversion` and its kin.
    Inversion(Verb),
    /// `addInterface`, `addSource` and their kin.
    Binding(Verb, BindingKind),
    /// `changeZoneOfInterface`, `changeZoneOfSource`.
    ChangeZone(BindingKind),
    /// `getZoneOfInterface`, `getZoneOfSource`.
    ZoneOf(BindingKind),
    /// `getZones`.
    Zones,
    /// `getActiveZones`.
    ActiveZones,
    /// `getDefaultZone`.
    DefaultZone,
    /// `listServices`.
    Services,
    /// `getIPSets`.
    Ipsets,
    /// `queryIPSet`.
    HasIpset,
    /// `addEntry`, `removeEntry`, `queryEntry`.
    Entry(Verb),
    /// `getEntries`.
    Entries,
    /// `setEntries`.
    SetEntries,
}

/// The member of this name: its interface's name in scripts, a dot, and its own name. There is none for another name.
#[tactic(auto, using(crate::proofs::Tables::named_joined))]
pub fn read_member(name: &str) -> Option<Member>
    ensures { result ≡ named members name.now }
{
    setting_member(name)
        .or_else(|| binding_member(name))
        .or_else(|| root_member(name))
        .or_else(|| ipset_member(name))
}

/// Settings of zones.
#[tactic(auto, unfolding(crate::specs::Members::setting_members))]
fn setting_member(name: &str) -> Option<Member>
    ensures { result ≡ named setting_members name.now }
{
    match name {
        "zone.addPort" => Some(Member::Setting(Verb::Add, SettingKind::Port)),
        "zone.removePort" => Some(Member::Setting(Verb::Remove, SettingKind::Port)),
        "zone.queryPort" => Some(Member::Setting(Verb::Query, SettingKind::Port)),
        "zone.addSourcePort" => Some(Member::Setting(Verb::Add, SettingKind::SourcePort)),
        "zone.removeSourcePort" => Some(Member::Setting(Verb::Remove, SettingKind::SourcePort)),
        "zone.querySourcePort" => Some(Member::Setting(Verb::Query, SettingKind::SourcePort)),
        "zone.addProtocol" => Some(Member::Setting(Verb::Add, SettingKind::Protocol)),
        "zone.removeProtocol" => Some(Member::Setting(Verb::Remove, SettingKind::Protocol)),
        "zone.queryProtocol" => Some(Member::Setting(Verb::Query, SettingKind::Protocol)),
        "zone.addIcmpBlock" => Some(Member::Setting(Verb::Add, SettingKind::IcmpBlock)),
        "zone.removeIcmpBlock" => Some(Member::Setting(Verb::Remove, SettingKind::IcmpBlock)),
        "zone.queryIcmpBlock" => Some(Member::Setting(Verb::Query, SettingKind::IcmpBlock)),
        "zone.addService" => Some(Member::Setting(Verb::Add, SettingKind::Service)),
        "zone.removeService" => Some(Member::Setting(Verb::Remove, SettingKind::Service)),
        "zone.queryService" => Some(Member::Setting(Verb::Query, SettingKind::Service)),
        "zone.addRichRule" => Some(Member::Setting(Verb::Add, SettingKind::RichRule)),
        "zone.removeRichRule" => Some(Member::Setting(Verb::Remove, SettingKind::RichRule)),
        "zone.queryRichRule" => Some(Member::Setting(Verb::Query, SettingKind::RichRule)),
        "zone.addIcmpBlockInversion" => Some(Member::Inversion(Verb::Add)),
        "zone.removeIcmpBlockInversion" => Some(Member::Inversion(Verb::Remove)),
        "zone.queryIcmpBlockInversion" => Some(Member::Inversion(Verb::Query)),
        _ => None,
    }
}

/// Bindings of zones, and which zones there are.
#[tactic(auto, unfolding(crate::specs::Members::binding_members))]
fn binding_member(name: &str) -> Option<Member>
    ensures { result ≡ named binding_members name.now }
{
    match name {
        "zone.addInterface" => Some(Member::Binding(Verb::Add, BindingKind::Interface)),
        "zone.removeInterface" => Some(Member::Binding(Verb::Remove, BindingKind::Interface)),
        "zone.queryInterface" => Some(Member::Binding(Verb::Query, BindingKind::Interface)),
        "zone.addSource" => Some(Member::Binding(Verb::Add, BindingKind::Source)),
        "zone.removeSource" => Some(Member::Binding(Verb::Remove, BindingKind::Source)),
        "zone.querySource" => Some(Member::Binding(Verb::Query, BindingKind::Source)),
        "zone.changeZoneOfInterface" => Some(Member::ChangeZone(BindingKind::Interface)),
        "zone.changeZoneOfSource" => Some(Member::ChangeZone(BindingKind::Source)),
        "zone.getZoneOfInterface" => Some(Member::ZoneOf(BindingKind::Interface)),
        "zone.getZoneOfSource" => Some(Member::ZoneOf(BindingKind::Source)),
        "zone.getZones" => Some(Member::Zones),
        "zone.getActiveZones" => Some(Member::ActiveZones),
        _ => None,
    }
}

/// The firewall as a whole.
#[tactic(auto, unfolding(crate::specs::Members::root_members))]
fn root_member(name: &str) -> Option<Member>
    ensures { result ≡ named root_members name.now }
{
    match name {
        "root.getDefaultZone" => Some(Member::DefaultZone),
        "root.listServices" => Some(Member::Services),
        _ => None,
    }
}

/// Ipsets.
#[tactic(auto, unfolding(crate::specs::Members::ipset_members))]
fn ipset_member(name: &str) -> Option<Member>
    ensures { result ≡ named ipset_members name.now }
{
    match name {
        "ipset.getIPSets" => Some(Member::Ipsets),
        "ipset.queryIPSet" => Some(Member::HasIpset),
        "ipset.addEntry" => Some(Member::Entry(Verb::Add)),
        "ipset.removeEntry" => Some(Member::Entry(Verb::Remove)),
        "ipset.queryEntry" => Some(Member::Entry(Verb::Query)),
        "ipset.getEntries" => Some(Member::Entries),
        "ipset.setEntries" => Some(Member::SetEntries),
        _ => None,
    }
}
