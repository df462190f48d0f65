//! The table of members: of each member of each interface its name, its arguments, its answer and its signals.
ghost use Rattle.std.specs.Prelude.{◌≡◌};
ghost use Rattle.fw_text.specs.Names.{named};
ghost use Rattle.fw_calls.specs.Table.{adding_rows, binding_rows, config_policy_rows, config_rows, config_zone_rows, ipset_rows, policy_rows, querying_rows, removing_rows, root_rows, rows, zone_rows};

use super::shape::{adds, asks, binds, member_row, removes, silent, telling};
use super::{
    BindingKind, BindingVerb, ConfigMember, Interface, IpsetMember, Member, ObjectMember,
    PolicyMember, RootMember, Row, SettingKind, SignalKind, Signals, Verb, ZoneMember,
};

/// The row of an interface's member of this name. There is none for another name.
#[tactic(auto, unfolding(crate::specs::Table::rows), using(crate::proofs::Tables::named_joined))]
pub fn row_of(interface: Interface, name: &str) -> Option<Row>
    ensures { result ≡ named (rows interface) name.now }
{
    match interface {
        Interface::Zone => adding_row(name)
            .or_else(|| removing_row(name))
            .or_else(|| querying_row(name))
            .or_else(|| binding_row(name))
            .or_else(|| zone_row(name)),
        Interface::Policy => policy_row(name),
        Interface::Ipset => ipset_row(name),
        Interface::Root => root_row(name),
        Interface::Config => config_row(name),
        Interface::ConfigZone => config_zone_row(name),
        Interface::ConfigPolicy => config_policy_row(name),
    }
}

/// Calls that add a setting to a zone; the last argument is its timeout.
#[tactic(auto, unfolding(crate::specs::Table::adding_rows))]
fn adding_row(name: &str) -> Option<Row>
    ensures { result ≡ named adding_rows name.now }
{
    match name {
        "addService" => Some(adds(SettingKind::Service, "ssi", SignalKind::ZoneServiceAdded)),
        "addPort" => Some(adds(SettingKind::Port, "sssi", SignalKind::ZonePortAdded)),
        "addSourcePort" => Some(adds(
            SettingKind::SourcePort,
            "sssi",
            SignalKind::ZoneSourcePortAdded,
        )),
        "addProtocol" => Some(adds(SettingKind::Protocol, "ssi", SignalKind::ZoneProtocolAdded)),
        "addIcmpBlock" => Some(adds(
            SettingKind::IcmpBlock,
            "ssi",
            SignalKind::ZoneIcmpBlockAdded,
        )),
        "addMasquerade" => Some(adds(
            SettingKind::Masquerade,
            "si",
            SignalKind::ZoneMasqueradeAdded,
        )),
        "addForwardPort" => Some(adds(
            SettingKind::ForwardPort,
            "sssssi",
            SignalKind::ZoneForwardPortAdded,
        )),
        "addRichRule" => Some(adds(SettingKind::RichRule, "ssi", SignalKind::ZoneRichRuleAdded)),
        "addIcmpBlockInversion" => Some(telling(
            Member::Zone(ZoneMember::Inversion(Verb::Add)),
            "s",
            "s",
            SignalKind::ZoneIcmpBlockInversionAdded,
        )),
        _ => None,
    }
}

/// Calls that remove a setting from a zone.
#[tactic(auto, unfolding(crate::specs::Table::removing_rows))]
fn removing_row(name: &str) -> Option<Row>
    ensures { result ≡ named removing_rows name.now }
{
    match name {
        "removeService" => Some(removes(
            SettingKind::Service,
            "ss",
            SignalKind::ZoneServiceRemoved,
        )),
        "removePort" => Some(removes(SettingKind::Port, "sss", SignalKind::ZonePortRemoved)),
        "removeSourcePort" => Some(removes(
            SettingKind::SourcePort,
            "sss",
            SignalKind::ZoneSourcePortRemoved,
        )),
        "removeProtocol" => Some(removes(
            SettingKind::Protocol,
            "ss",
            SignalKind::ZoneProtocolRemoved,
        )),
        "removeIcmpBlock" => Some(removes(
            SettingKind::IcmpBlock,
            "ss",
            SignalKind::ZoneIcmpBlockRemoved,
        )),
        "removeMasquerade" => Some(removes(
            SettingKind::Masquerade,
            "s",
            SignalKind::ZoneMasqueradeRemoved,
        )),
        "removeForwardPort" => Some(removes(
            SettingKind::ForwardPort,
            "sssss",
            SignalKind::ZoneForwardPortRemoved,
        )),
        "removeRichRule" => Some(removes(
            SettingKind::RichRule,
            "ss",
            SignalKind::ZoneRichRuleRemoved,
        )),
        "removeIcmpBlockInversion" => Some(telling(
            Member::Zone(ZoneMember::Inversion(Verb::Remove)),
            "s",
            "s",
            SignalKind::ZoneIcmpBlockInversionRemoved,
        )),
        _ => None,
    }
}

/// Calls that ask whether a zone has a setting.
#[tactic(auto, unfolding(crate::specs::Table::querying_rows))]
fn querying_row(name: &str) -> Option<Row>
    ensures { result ≡ named querying_rows name.now }
{
    match name {
        "queryService" => Some(asks(SettingKind::Service, "ss")),
        "queryPort" => Some(asks(SettingKind::Port, "sss")),
        "querySourcePort" => Some(asks(SettingKind::SourcePort, "sss")),
        "queryProtocol" => Some(asks(SettingKind::Protocol, "ss")),
        "queryIcmpBlock" => Some(asks(SettingKind::IcmpBlock, "ss")),
        "queryMasquerade" => Some(asks(SettingKind::Masquerade, "s")),
        "queryForwardPort" => Some(asks(SettingKind::ForwardPort, "sssss")),
        "queryRichRule" => Some(asks(SettingKind::RichRule, "ss")),
        "queryIcmpBlockInversion" => Some(silent(
            Member::Zone(ZoneMember::Inversion(Verb::Query)),
            "s",
            "b",
        )),
        _ => None,
    }
}

/// Calls on the interfaces and sources of zones.
#[tactic(auto, unfolding(crate::specs::Table::binding_rows))]
fn binding_row(name: &str) -> Option<Row>
    ensures { result ≡ named binding_rows name.now }
{
    match name {
        "addInterface" => Some(binds(
            BindingVerb::Add,
            BindingKind::Interface,
            SignalKind::ZoneInterfaceAdded,
        )),
        "removeInterface" => Some(binds(
            BindingVerb::Remove,
            BindingKind::Interface,
            SignalKind::ZoneInterfaceRemoved,
        )),
        "queryInterface" => Some(silent(
            Member::Zone(ZoneMember::Binding(BindingVerb::Query, BindingKind::Interface)),
            "ss",
            "b",
        )),
        "changeZoneOfInterface" => Some(binds(
            BindingVerb::Change,
            BindingKind::Interface,
            SignalKind::ZoneOfInterfaceChanged,
        )),
        "getZoneOfInterface" => Some(silent(
            Member::Zone(ZoneMember::ZoneOf(BindingKind::Interface)),
            "s",
            "s",
        )),
        "addSource" => Some(binds(
            BindingVerb::Add,
            BindingKind::Source,
            SignalKind::ZoneSourceAdded,
        )),
        "removeSource" => Some(binds(
            BindingVerb::Remove,
            BindingKind::Source,
            SignalKind::ZoneSourceRemoved,
        )),
        "querySource" => Some(silent(
            Member::Zone(ZoneMember::Binding(BindingVerb::Query, BindingKind::Source)),
            "ss",
            "b",
        )),
        "changeZoneOfSource" => Some(binds(
            BindingVerb::Change,
            BindingKind::Source,
            SignalKind::ZoneOfSourceChanged,
        )),
        "getZoneOfSource" => Some(silent(
            Member::Zone(ZoneMember::ZoneOf(BindingKind::Source)),
            "s",
            "s",
        )),
        _ => None,
    }
}

/// Calls on zones as wholes.
#[tactic(auto, unfolding(crate::specs::Table::zone_rows))]
fn zone_row(name: &str) -> Option<Row>
    ensures { result ≡ named zone_rows name.now }
{
    match name {
        "getZones" => Some(silent(Member::Zone(ZoneMember::Zones), "", "as")),
        "getActiveZones" => Some(silent(Member::Zone(ZoneMember::ActiveZones), "", "a{sa{sas}}")),
        "getZoneSettings2" => Some(silent(Member::Zone(ZoneMember::Settings), "s", "a{sv}")),
        "setZoneSettings2" => Some(telling(
            Member::Zone(ZoneMember::SetSettings),
            "sa{sv}",
            "",
            SignalKind::ZoneUpdated,
        )),
        _ => None,
    }
}

/// Policies at runtime.
#[tactic(auto, unfolding(crate::specs::Table::policy_rows))]
fn policy_row(name: &str) -> Option<Row>
    ensures { result ≡ named policy_rows name.now }
{
    match name {
        "getPolicies" => Some(silent(Member::Policy(PolicyMember::Policies), "", "as")),
        "getActivePolicies" => Some(silent(
            Member::Policy(PolicyMember::ActivePolicies),
            "",
            "a{sa{sas}}",
        )),
        "getPolicySettings" => Some(silent(Member::Policy(PolicyMember::Settings), "s", "a{sv}")),
        "setPolicySettings" => Some(telling(
            Member::Policy(PolicyMember::SetSettings),
            "sa{sv}",
            "",
            SignalKind::PolicyUpdated,
        )),
        _ => None,
    }
}

/// Ipsets.
#[tactic(auto, unfolding(crate::specs::Table::ipset_rows))]
fn ipset_row(name: &str) -> Option<Row>
    ensures { result ≡ named ipset_rows name.now }
{
    match name {
        "getIPSets" => Some(silent(Member::Ipset(IpsetMember::Ipsets), "", "as")),
        "queryIPSet" => Some(silent(Member::Ipset(IpsetMember::HasIpset), "s", "b")),
        "addEntry" => Some(telling(
            Member::Ipset(IpsetMember::Entry(Verb::Add)),
            "ss",
            "",
            SignalKind::IpsetEntryAdded,
        )),
        "removeEntry" => Some(telling(
            Member::Ipset(IpsetMember::Entry(Verb::Remove)),
            "ss",
            "",
            SignalKind::IpsetEntryRemoved,
        )),
        "queryEntry" => Some(silent(Member::Ipset(IpsetMember::Entry(Verb::Query)), "ss", "b")),
        "getEntries" => Some(silent(Member::Ipset(IpsetMember::Entries), "s", "as")),
        "setEntries" => Some(member_row(
            Member::Ipset(IpsetMember::SetEntries),
            "sas",
            "",
            Signals::Two(SignalKind::IpsetEntryRemoved, SignalKind::IpsetEntryAdded),
        )),
        _ => None,
    }
}

/// The firewall as a whole.
#[tactic(auto, unfolding(crate::specs::Table::root_rows))]
fn root_row(name: &str) -> Option<Row>
    ensures { result ≡ named root_rows name.now }
{
    match name {
        "getDefaultZone" => Some(silent(Member::Root(RootMember::DefaultZone), "", "s")),
        "setDefaultZone" => Some(telling(
            Member::Root(RootMember::SetDefaultZone),
            "s",
            "",
            SignalKind::RootDefaultZoneChanged,
        )),
        "getLogDenied" => Some(silent(Member::Root(RootMember::LogDenied), "", "s")),
        "setLogDenied" => Some(member_row(
            Member::Root(RootMember::SetLogDenied),
            "s",
            "",
            Signals::Two(SignalKind::RootLogDeniedChanged, SignalKind::RootReloaded),
        )),
        "queryPanicMode" => Some(silent(Member::Root(RootMember::PanicMode), "", "b")),
        "enablePanicMode" => Some(telling(
            Member::Root(RootMember::EnablePanicMode),
            "",
            "",
            SignalKind::RootPanicModeEnabled,
        )),
        "disablePanicMode" => Some(telling(
            Member::Root(RootMember::DisablePanicMode),
            "",
            "",
            SignalKind::RootPanicModeDisabled,
        )),
        "listServices" => Some(silent(Member::Root(RootMember::Services), "", "as")),
        "reload" => Some(telling(
            Member::Root(RootMember::Reload),
            "",
            "",
            SignalKind::RootReloaded,
        )),
        "completeReload" => Some(telling(
            Member::Root(RootMember::CompleteReload),
            "",
            "",
            SignalKind::RootReloaded,
        )),
        "runtimeToPermanent" => Some(silent(Member::Root(RootMember::RuntimeToPermanent), "", "")),
        _ => None,
    }
}

/// The permanent settings.
#[tactic(auto, unfolding(crate::specs::Table::config_rows))]
fn config_row(name: &str) -> Option<Row>
    ensures { result ≡ named config_rows name.now }
{
    match name {
        "getZoneNames" => Some(silent(Member::Config(ConfigMember::ZoneNames), "", "as")),
        "getPolicyNames" => Some(silent(Member::Config(ConfigMember::PolicyNames), "", "as")),
        "getZoneByName" => Some(silent(Member::Config(ConfigMember::ZoneByName), "s", "o")),
        "getPolicyByName" => Some(silent(Member::Config(ConfigMember::PolicyByName), "s", "o")),
        "addZone2" => Some(silent(Member::Config(ConfigMember::AddZone), "sa{sv}", "o")),
        "addPolicy" => Some(silent(Member::Config(ConfigMember::AddPolicy), "sa{sv}", "o")),
        _ => None,
    }
}

/// A zone of the permanent settings.
#[tactic(auto, unfolding(crate::specs::Table::config_zone_rows))]
fn config_zone_row(name: &str) -> Option<Row>
    ensures { result ≡ named config_zone_rows name.now }
{
    match name {
        "getSettings2" => Some(silent(Member::ConfigZone(ObjectMember::Settings), "", "a{sv}")),
        "update2" => Some(silent(Member::ConfigZone(ObjectMember::Update), "a{sv}", "")),
        "remove" => Some(silent(Member::ConfigZone(ObjectMember::Remove), "", "")),
        _ => None,
    }
}

/// A policy of the permanent settings.
#[tactic(auto, unfolding(crate::specs::Table::config_policy_rows))]
fn config_policy_row(name: &str) -> Option<Row>
    ensures { result ≡ named config_policy_rows name.now }
{
    match name {
        "getSettings" => Some(silent(Member::ConfigPolicy(ObjectMember::Settings), "", "a{sv}")),
        "update" => Some(silent(Member::ConfigPolicy(ObjectMember::Update), "a{sv}", "")),
        "remove" => Some(silent(Member::ConfigPolicy(ObjectMember::Remove), "", "")),
        _ => None,
    }
}
