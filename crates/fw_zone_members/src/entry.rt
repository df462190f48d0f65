//! Interfaces and sources as the arguments of calls name them.
ghost use Rattle.std.specs.Prelude.{codes, None};
ghost use Rattle.fw_act.specs.Acts.{Reads};
ghost use Rattle.fw_addr.specs.Hardware.{mac};
ghost use Rattle.fw_addr.specs.Interfaces.{interface};
ghost use Rattle.fw_addr.specs.Nets.{net};
ghost use Rattle.fw_words.specs.Keys.{after_key};
ghost use Rattle.fw_zone_members.specs.Reading.{address_source, entry_of, interface_from, set_source, source_from};

use super::rich::has_set;
use fw_act::{Stop, refuse};
use fw_addr::{is_well_formed_name, read_iface, read_mac, read_net};
use fw_base::Text;
use fw_calls::{BindingKind, BindingWord};
use fw_model::{Binding, Code, IpSet};
use fw_words::after_key;
use fw_zone_edits::Entry;
use std::alloc::Global;

/// The entry that an argument spells; an ipset is one of those that there are.
#[tactic(auto, unfolding(crate::specs::Reading::entry_of))]
pub fn read_entry(alloc: Global, ipsets: &[IpSet], word: &BindingWord) -> Result<Entry, Stop>
    ensures { Reads result (entry_of ipsets.now word.now) }
{
    match word.kind {
        BindingKind::Interface => read_interface(alloc, word.text.as_str()),
        BindingKind::Source => read_source(alloc, ipsets, word.text.as_str()),
    }
}

/// The interface that an argument names.
pub fn read_interface(alloc: Global, text: &str) -> Result<Entry, Stop>
    ensures { Reads result (interface_from text.now (interface text.now)) }
{
    match read_iface(text) {
        Ok(iface) => Ok(Entry::Interface(iface)),
        Err(_) => Err(Stop::Refused(refuse(alloc, Code::InvalidInterface, text)?)),
    }
}

/// The source that an argument names; an ipset is one of those that there are.
pub fn read_source(alloc: Global, ipsets: &[IpSet], text: &str) -> Result<Entry, Stop>
    ensures { Reads result (source_from ipsets.now text.now (after_key (codes "ipset:") text.now)) }
{
    if let Some(name) = after_key("ipset:", text) {
        return read_set(alloc, ipsets, text, name);
    }
    read_address(alloc, text)
}

fn read_address(alloc: Global, text: &str) -> Result<Entry, Stop>
    ensures { Reads result (address_source text.now (net text.now) (mac text.now)) }
{
    match read_net(text) {
        Ok(net) => Ok(Entry::Source(Binding::Net(net))),
        Err(_) => read_hardware(alloc, text),
    }
}

fn read_hardware(alloc: Global, text: &str) -> Result<Entry, Stop>
    ensures { Reads result (address_source text.now None (mac text.now)) }
{
    match read_mac(text) {
        Ok(mac) => Ok(Entry::Source(Binding::Mac(mac))),
        Err(_) => Err(Stop::Refused(refuse(alloc, Code::InvalidAddr, text)?)),
    }
}

fn read_set(alloc: Global, ipsets: &[IpSet], text: &str, name: &str) -> Result<Entry, Stop>
    ensures { Reads result (set_source ipsets.now text.now name.now) }
{
    if !is_well_formed_name(name) {
        return Err(Stop::Refused(refuse(alloc, Code::InvalidAddr, text)?));
    }
    if !has_set(ipsets, name) {
        return Err(Stop::Refused(refuse(alloc, Code::InvalidIpset, text)?));
    }
    Ok(Entry::Source(Binding::Set(Text::of(alloc, name)?)))
}
