//! Calls of firewalld's D-Bus interface, with their arguments as they came.
use super::{BindingKind, Verb};
use fw_base::{Seq, Text};

/// What the words of a call ask for.
#[derive(Drop)]
pub enum Request {
    Call(Call),
    /// An argument isn't of its type; the types of all arguments as a D-Bus signature (D-Bus Specification, "Type System").
    Unfit { signature: Text },
}

/// A call (firewalld.dbus(5)), by what it is about.
#[derive(Drop)]
pub enum Call {
    Zone(ZoneCall),
    Ipset(IpsetCall),
}

/// A call on zones, or for lists of the whole firewall. An empty zone is the default zone.
#[derive(Drop)]
pub enum ZoneCall {
    Setting {
        verb: Verb,
        zone: Text,
        setting: SettingWords,
    },
    Inversion {
        verb: Verb,
        zone: Text,
    },
    Binding {
        verb: Verb,
        zone: Text,
        binding: BindingWord,
    },
    ChangeZone {
        zone: Text,
        binding: BindingWord,
    },
    ZoneOf {
        binding: BindingWord,
    },
    Zones,
    ActiveZones,
    DefaultZone,
    Services,
}

/// A setting as a call's arguments name it.
#[derive(Drop)]
pub enum SettingWords {
    Port { port: Text, protocol: Text },
    SourcePort { port: Text, protocol: Text },
    Protocol { protocol: Text },
    IcmpBlock { name: Text },
    Service { name: Text },
    RichRule { rule: Text },
}

/// An interface or a source as a call's argument names it.
#[derive(Drop)]
pub struct BindingWord {
    pub kind: BindingKind,
    pub text: Text,
}

/// A call on ipsets.
#[derive(Drop)]
pub enum IpsetCall {
    /// `getIPSets`.
    Ipsets,
    /// `queryIPSet`.
    HasIpset { ipset: Text },
    /// A call on the entries of an ipset.
    OnEntries { ipset: Text, call: EntriesCall },
}

/// A call on the entries of an ipset.
#[derive(Drop)]
pub enum EntriesCall {
    /// `addEntry`, `removeEntry`, `queryEntry`.
    One { verb: Verb, entry: Text },
    /// `getEntries`.
    List,
    /// `setEntries`.
    Replace { entries: Seq<Text> },
}
