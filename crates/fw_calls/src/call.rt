//! Calls of firewalld's D-Bus interfaces, with their arguments as they came.
use super::{BindingKind, BindingVerb, Dict, Verb};
use fw_base::{Seq, Text};

/// A call (firewalld.dbus(5)), by its interface.
#[derive(Drop)]
pub enum Call {
    Zone(ZoneCall),
    Policy(PolicyCall),
    Ipset(IpsetCall),
    Root(RootCall),
    Config(ConfigCall),
    /// A call on the zone of this number in the permanent settings.
    ConfigZone { number: u64, call: ObjectCall },
    /// A call on the policy of this number in the permanent settings.
    ConfigPolicy { number: u64, call: ObjectCall },
}

/// A call on zones at runtime. An empty zone is the default zone.
#[derive(Drop)]
pub enum ZoneCall {
    Setting {
        verb: SettingVerb,
        zone: Text,
        setting: SettingWords,
    },
    Inversion {
        verb: Verb,
        zone: Text,
    },
    Binding {
        verb: BindingVerb,
        zone: Text,
        binding: BindingWord,
    },
    ZoneOf {
        binding: BindingWord,
    },
    Zones,
    ActiveZones,
    Settings {
        zone: Text,
    },
    SetSettings {
        zone: Text,
        settings: Dict,
    },
}

/// What a call does with a setting of a zone.
#[derive(Clone, Copy, Debug, PartialEq, Eq)]
pub enum SettingVerb {
    Add {
        /// How long the setting stays, in seconds; 0 is for good.
        timeout: i32,
    },
    Remove,
    Query,
}

/// A setting as a call's arguments name it.
#[derive(Drop)]
pub enum SettingWords {
    Service {
        name: Text,
    },
    Port {
        port: Text,
        protocol: Text,
    },
    SourcePort {
        port: Text,
        protocol: Text,
    },
    Protocol {
        protocol: Text,
    },
    IcmpBlock {
        name: Text,
    },
    Masquerade,
    /// An empty port or address to which packets go is none.
    ForwardPort {
        port: Text,
        protocol: Text,
        to_port: Text,
        to_address: Text,
    },
    RichRule {
        rule: Text,
    },
}

/// An interface or a source as a call's argument names it.
#[derive(Drop)]
pub struct BindingWord {
    pub kind: BindingKind,
    pub text: Text,
}

/// A call on policies at runtime.
#[derive(Drop)]
pub enum PolicyCall {
    Policies,
    ActivePolicies,
    Settings { policy: Text },
    SetSettings { policy: Text, settings: Dict },
}

/// A call on ipsets.
#[derive(Drop)]
pub enum IpsetCall {
    Ipsets,
    HasIpset {
        ipset: Text,
    },
    /// `addEntry`, `removeEntry`, `queryEntry`.
    Entry {
        verb: Verb,
        ipset: Text,
        entry: Text,
    },
    Entries {
        ipset: Text,
    },
    SetEntries {
        ipset: Text,
        entries: Seq<Text>,
    },
}

/// A call on the firewall as a whole.
#[derive(Drop)]
pub enum RootCall {
    DefaultZone,
    SetDefaultZone { zone: Text },
    LogDenied,
    SetLogDenied { value: Text },
    PanicMode,
    EnablePanicMode,
    DisablePanicMode,
    Services,
    Reload,
    CompleteReload,
    RuntimeToPermanent,
}

/// A call on the permanent settings.
#[derive(Drop)]
pub enum ConfigCall {
    ZoneNames,
    PolicyNames,
    ZoneByName { zone: Text },
    PolicyByName { policy: Text },
    AddZone { name: Text, settings: Dict },
    AddPolicy { name: Text, settings: Dict },
}

/// A call on one zone or policy of the permanent settings.
#[derive(Drop)]
pub enum ObjectCall {
    Settings,
    Update { settings: Dict },
    Remove,
}
