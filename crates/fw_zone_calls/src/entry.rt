//! Interfaces and sources as the arguments of calls name them, and the zones that list them.
ghost use Rattle.std.specs.Prelude.{◌≡◌, codes, None, IfOk};
ghost use Rattle.std.specs.List.{list_any};
ghost use Rattle.std.specs.Str.{bytes_eq};
ghost use Rattle.fw_addr.specs.Hardware.{mac};
ghost use Rattle.fw_addr.specs.Interfaces.{interface};
ghost use Rattle.fw_addr.specs.Nets.{net};
ghost use Rattle.fw_words.specs.Keys.{after_key};
ghost use Rattle.fw_zone_calls.specs.Entries.{address_source, entry_of, entry_text, interface_from, lists, set_source, source_from, source_text};
ghost use Rattle.fw_answer.specs.Refusals.{Reads};

use fw_addr::{Iface, is_well_formed_name, read_iface, read_mac, read_net};
use fw_answer::{Stop, refuse};
use fw_base::{Memory, Text};
use fw_call::{BindingKind, BindingWord};
use fw_model::{Binding, Code, IpSet, Zone};
use fw_words::after_key;
use std::alloc::Global;

/// What binds packets to a zone.
#[derive(Drop)]
pub enum Entry {
    Interface(Iface),
    Source(Binding),
}

/// The entry that an argument spells; an ipset is one of the configuration's.
pub fn read_entry(alloc: Global, ipsets: &[IpSet], word: &BindingWord) -> Result<Entry, Stop>
    ensures { Reads result (entry_of ipsets.now word.now) }
{
    match word.kind {
        BindingKind::Interface => read_interface(alloc, word.text.as_str()),
        BindingKind::Source => read_source(alloc, ipsets, word.text.as_str()),
    }
}

fn read_interface(alloc: Global, text: &str) -> Result<Entry, Stop>
    ensures { Reads result (interface_from text.now (interface text.now)) }
{
    match read_iface(text) {
        Ok(iface) => Ok(Entry::Interface(iface)),
        Err(_) => Err(Stop::Refused(refuse(alloc, Code::InvalidInterface, text)?)),
    }
}

fn read_source(alloc: Global, ipsets: &[IpSet], text: &str) -> Result<Entry, Stop>
    ensures { Reads result (source_from ipsets.now text.now (after_key (codes "ipset:") text.now)) }
{
    if let Some(name) = after_key("ipset:", text) {
        return read_set(alloc, ipsets, text, name);
    }
    read_address(alloc, text)
}

fn read_address(alloc: Global, text: &str) -> Result<Entry, Stop>
    ensures { Reads result (address_source text.now (net text.now) (mac text.now)) }
{
    match read_net(text) {
        Ok(net) => Ok(Entry::Source(Binding::Net(net))),
        Err(_) => read_hardware(alloc, text),
    }
}

fn read_hardware(alloc: Global, text: &str) -> Result<Entry, Stop>
    ensures { Reads result (address_source text.now None (mac text.now)) }
{
    match read_mac(text) {
        Ok(mac) => Ok(Entry::Source(Binding::Mac(mac))),
        Err(_) => Err(Stop::Refused(refuse(alloc, Code::InvalidAddr, text)?)),
    }
}

fn read_set(alloc: Global, ipsets: &[IpSet], text: &str, name: &str) -> Result<Entry, Stop>
    ensures { Reads result (set_source ipsets.now text.now name.now) }
{
    if !is_well_formed_name(name) {
        return Err(Stop::Refused(refuse(alloc, Code::InvalidAddr, text)?));
    }
    if !has_set(ipsets, name) {
        return Err(Stop::Refused(refuse(alloc, Code::InvalidIpset, text)?));
    }
    Ok(Entry::Source(Binding::Set(Text::of(alloc, name)?)))
}

/// Whether there is an ipset of a name.
pub fn has_set(ipsets: &[IpSet], name: &str) -> bool
    ensures { result ≡ list_any (λ set. bytes_eq set.name name.now) ipsets.now }
{
    ipsets.iter().any(|set| set.name.as_str() == name)
}

/// A source's canonical text.
pub fn source_text(alloc: Global, source: &Binding) -> Result<Text, Memory>
    ensures { IfOk result (λ text. text ≡ source_text source.now) }
{
    match source {
        Binding::Net(net) => Ok(Text::from_string(format!(in alloc; "{net}")?)),
        Binding::Mac(mac) => Ok(Text::from_string(format!(in alloc; "{mac}")?)),
        Binding::Set(name) => Ok(Text::from_string(format!(in alloc; "ipset:{name}")?)),
    }
}

impl Entry {
    /// The entry's canonical text.
    pub fn text(&self, alloc: Global) -> Result<Text, Memory>
        ensures { IfOk result (λ text. text ≡ entry_text self.now) }
    {
        match self {
            Entry::Interface(iface) => Text::of(alloc, iface.as_str()),
            Entry::Source(source) => source_text(alloc, source),
        }
    }

    /// Whether a zone lists the entry.
    pub fn is_listed(&self, zone: &Zone) -> bool
        ensures { result ≡ lists self.now zone.now }
    {
        match self {
            Entry::Interface(iface) => zone.interfaces.as_slice().contains(iface),
            Entry::Source(source) => zone.sources.as_slice().contains(source),
        }
    }
}
