//! Interfaces and sources as a zone's dict lists them.
ghost use Rattle.std.specs.Prelude.{◌≡◌, ◌++◌, OnOk};
ghost use Rattle.std.specs.List.{list_any};
ghost use Rattle.fw_act.specs.Acts.{Makes, Reads};
ghost use Rattle.fw_dicts.specs.Bindings.{entries_told, entry_key, entry_told, with_all, with_new, without_entries};
ghost use Rattle.fw_zone_edits.specs.Entries.{lists, with_entry};
ghost use Rattle.fw_zone_members.specs.Reading.{entry_from};

use super::values::texts_at;
use fw_act::{Stop, require};
use fw_base::{Memory, Seq, Text};
use fw_calls::{BindingKind, DictField};
use fw_model::{Code, IpSet, Zone};
use fw_zone_edits::Entry;
use fw_zone_members::{read_interface, read_source};
use std::alloc::Global;

/// Takes what a dict says of a zone's interfaces or of its sources; repeated elements are kept once, and where their key is absent,
/// they stay. Refuses the first element that is none, or that one of the other zones has: those before the zone and behind it.
#[tactic(auto, unfolding(crate::specs::Bindings::entries_told))]
pub fn read_entries(
    alloc: Global,
    ipsets: &[IpSet],
    before: &[Zone],
    behind: &[Zone],
    fields: &[(Text, DictField)],
    kind: BindingKind,
    zone: &mut Zone,
) -> Result<(), Stop>
    ensures { Makes zone.new result (entries_told ipsets.now (before.now ++ behind.now) fields.now kind zone.old) }
{
    match texts_at(fields, entry_key(kind)) {
        Some(texts) => {
            empty_entries(alloc, kind, zone);
            add_entries(alloc, ipsets, before, behind, kind, texts, zone)
        }
        None => Ok(()),
    }
}

fn add_entries(
    alloc: Global,
    ipsets: &[IpSet],
    before: &[Zone],
    behind: &[Zone],
    kind: BindingKind,
    texts: &[Text],
    zone: &mut Zone,
) -> Result<(), Stop>
    ensures { Makes zone.new result (with_all ipsets.now (before.now ++ behind.now) kind zone.old texts.now) }
{
    for text in texts {
        let entry = read_free(alloc, ipsets, before, behind, kind, text.as_str())?;
        add_once(zone, entry)?;
    }
    Ok(())
}

/// The entry that a text says, unless another zone lists it.
#[tactic(auto, unfolding(crate::specs::Bindings::entry_told))]
fn read_free(
    alloc: Global,
    ipsets: &[IpSet],
    before: &[Zone],
    behind: &[Zone],
    kind: BindingKind,
    text: &str,
) -> Result<Entry, Stop>
    ensures { Reads result (entry_told ipsets.now (before.now ++ behind.now) kind text.now) }
{
    let entry = read_entry(alloc, ipsets, kind, text)?;
    let is_free = !is_listed_elsewhere(before, behind, &entry);
    require(alloc, is_free, Code::ZoneConflict, text)?;
    Ok(entry)
}

fn read_entry(alloc: Global, ipsets: &[IpSet], kind: BindingKind, text: &str) -> Result<Entry, Stop>
    ensures { Reads result (entry_from ipsets.now kind text.now) }
{
    match kind {
        BindingKind::Interface => read_interface(alloc, text),
        BindingKind::Source => read_source(alloc, ipsets, text),
    }
}

/// Whether a zone of two lists has an entry.
fn is_listed_elsewhere(before: &[Zone], behind: &[Zone], entry: &Entry) -> bool
    ensures { result ≡ list_any (lists entry.now) (before.now ++ behind.now) }
{
    is_listed(before, entry) || is_listed(behind, entry)
}

fn is_listed(zones: &[Zone], entry: &Entry) -> bool
    ensures { result ≡ list_any (lists entry.now) zones.now }
{
    zones.iter().any(|zone| entry.is_listed(zone))
}

/// Lists an entry, unless it is there.
#[tactic(auto, unfolding(crate::specs::Bindings::with_new))]
fn add_once(zone: &mut Zone, entry: Entry) -> Result<(), Memory>
    ensures { OnOk result (zone.new ≡ with_new zone.old entry) }
{
    if entry.is_listed(zone) {
        return Ok(());
    }
    append(zone, entry)
}

fn append(zone: &mut Zone, entry: Entry) -> Result<(), Memory>
    ensures { OnOk result (zone.new ≡ with_entry zone.old entry) }
{
    match entry {
        Entry::Interface(iface) => zone.interfaces.push(iface),
        Entry::Source(source) => zone.sources.push(source),
    }
}

fn empty_entries(alloc: Global, kind: BindingKind, zone: &mut Zone)
    ensures { zone.new ≡ without_entries kind zone.old }
{
    match kind {
        BindingKind::Interface => zone.interfaces = Seq::new(alloc),
        BindingKind::Source => zone.sources = Seq::new(alloc),
    }
}

/// The key of a zone's interfaces, or of its sources.
pub fn entry_key(kind: BindingKind) -> &'static str
    ensures { result.now ≡ entry_key kind }
{
    match kind {
        BindingKind::Interface => "interfaces",
        BindingKind::Source => "sources",
    }
}
