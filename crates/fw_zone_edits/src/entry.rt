//! Interfaces and sources that zones list.
ghost use Rattle.std.specs.Prelude.{◌≡◌, IfOk};
ghost use Rattle.fw_zone_edits.specs.Entries.{entry_text, lists, source_text};

use fw_addr::Iface;
use fw_base::{Memory, Text};
use fw_model::{Binding, Zone};
use std::alloc::Global;

/// What binds packets to a zone.
#[derive(Drop)]
pub enum Entry {
    Interface(Iface),
    Source(Binding),
}

/// A source's canonical text: a net, a hardware address, or `ipset:` and a name.
pub fn source_text(alloc: Global, source: &Binding) -> Result<Text, Memory>
    ensures { IfOk result (λ text. text ≡ source_text source.now) }
{
    match source {
        Binding::Net(net) => Ok(Text::from_string(format!(in alloc; "{net}")?)),
        Binding::Mac(mac) => Ok(Text::from_string(format!(in alloc; "{mac}")?)),
        Binding::Set(name) => Ok(Text::from_string(format!(in alloc; "ipset:{name}")?)),
    }
}

impl Entry {
    /// The entry's canonical text.
    pub fn text(&self, alloc: Global) -> Result<Text, Memory>
        ensures { IfOk result (λ text. text ≡ entry_text self.now) }
    {
        match self {
            Entry::Interface(iface) => Text::of(alloc, iface.as_str()),
            Entry::Source(source) => source_text(alloc, source),
        }
    }

    /// Whether a zone lists the entry. Names of interfaces are compared as texts.
    pub fn is_listed(&self, zone: &Zone) -> bool
        ensures { result ≡ lists self.now zone.now }
    {
        match self {
            Entry::Interface(iface) => zone.interfaces.as_slice().contains(iface),
            Entry::Source(source) => zone.sources.as_slice().contains(source),
        }
    }
}
