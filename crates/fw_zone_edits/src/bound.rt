//! The zones that list an interface or a source, and edits of them.
ghost use Rattle.std.specs.Prelude.{◌≡◌, ℕ, ◌<◌, length, slice_get, Some, Ok, OnErr};
ghost use Rattle.fw_model.specs.declared.zone.Zone.{Zone};
ghost use Rattle.fw_zone_edits.specs.Entries.{bound, moved, unbound};
ghost use Rattle.fw_zone_edits.specs.Settled.{settled, settled_move};
ghost use Rattle.fw_act.specs.Acts.{Edits};
ghost use Rattle.fw_zone_edits.specs.declared.entry.Entry.TheVariants as entries;

use super::Entry;
use fw_act::EditError;
use fw_addr::Iface;
use fw_base::Seq;
use fw_model::{Binding, Code, Zone};
use fw_zone::{
    BindError, bind_iface, bind_source, move_iface, move_source, unbind_iface, unbind_source,
};

/// An edit of bindings, with the codes of its refusals.
fn settled(edited: Result<(), BindError>, unknown: Code) -> Result<(), EditError>
    ensures { result ≡ settled unknown edited }
{
    match edited {
        Ok(()) => Ok(()),
        Err(BindError::ZoneAlreadySet) => Err(EditError::Refused(Code::ZoneAlreadySet)),
        Err(BindError::ZoneConflict) => Err(EditError::Refused(Code::ZoneConflict)),
        Err(BindError::Unknown) => Err(EditError::Refused(unknown)),
        Err(BindError::Memory) => Err(EditError::Memory),
    }
}

/// Binds an entry to the zone at a place.
pub fn bind(zones: &mut Seq<Zone>, place: usize, entry: Entry) -> Result<(), EditError>
    requires { place < length zones.old }
    ensures edits { (zone : Zone) → slice_get zones.old place ≡ Some zone
        → Edits zones.old zones.new result (bound zones.old (record { place = place; zone = zone }) entry) }
    ensures err { OnErr result (zones.new ≡ zones.old) }
{
    match entry {
        Entry::Interface(iface) => bind_interface(zones, place, iface),
        Entry::Source(source) => bind_other(zones, place, source),
    }
}

fn bind_interface(zones: &mut Seq<Zone>, place: usize, iface: Iface) -> Result<(), EditError>
    requires { place < length zones.old }
    ensures edits { (zone : Zone) → slice_get zones.old place ≡ Some zone
        → Edits zones.old zones.new result (bound zones.old (record { place = place; zone = zone }) (entries.Interface iface)) }
    ensures err { OnErr result (zones.new ≡ zones.old) }
{
    settled(bind_iface(zones, place, iface), Code::UnknownInterface)
}

fn bind_other(zones: &mut Seq<Zone>, place: usize, source: Binding) -> Result<(), EditError>
    requires { place < length zones.old }
    ensures edits { (zone : Zone) → slice_get zones.old place ≡ Some zone
        → Edits zones.old zones.new result (bound zones.old (record { place = place; zone = zone }) (entries.Source source)) }
    ensures err { OnErr result (zones.new ≡ zones.old) }
{
    settled(bind_source(zones, place, source), Code::UnknownSource)
}

/// Takes an entry from the zone at a place.
pub fn unbind(zones: &mut Seq<Zone>, place: usize, entry: &Entry) -> Result<(), EditError>
    requires { place < length zones.old }
    ensures edits { (zone : Zone) → slice_get zones.old place ≡ Some zone
        → Edits zones.old zones.new result (unbound zones.old (record { place = place; zone = zone }) entry.now) }
    ensures err { OnErr result (zones.new ≡ zones.old) }
{
    match entry {
        Entry::Interface(iface) => unbind_interface(zones, place, iface),
        Entry::Source(source) => unbind_other(zones, place, source),
    }
}

fn unbind_interface(zones: &mut Seq<Zone>, place: usize, iface: &Iface) -> Result<(), EditError>
    requires { place < length zones.old }
    ensures edits { (zone : Zone) → slice_get zones.old place ≡ Some zone
        → Edits zones.old zones.new result (unbound zones.old (record { place = place; zone = zone }) (entries.Interface iface.now)) }
    ensures err { OnErr result (zones.new ≡ zones.old) }
{
    settled(unbind_iface(zones, place, iface), Code::UnknownInterface)
}

fn unbind_other(zones: &mut Seq<Zone>, place: usize, source: &Binding) -> Result<(), EditError>
    requires { place < length zones.old }
    ensures edits { (zone : Zone) → slice_get zones.old place ≡ Some zone
        → Edits zones.old zones.new result (unbound zones.old (record { place = place; zone = zone }) (entries.Source source.now)) }
    ensures err { OnErr result (zones.new ≡ zones.old) }
{
    settled(unbind_source(zones, place, source), Code::UnknownSource)
}

/// Binds an entry to the zone at a place, whichever had it. Where the zone has it already nothing changes.
pub fn move_to(zones: &mut Seq<Zone>, place: usize, entry: Entry) -> Result<(), EditError>
    requires { place < length zones.old }
    ensures edits { (zone : Zone) → slice_get zones.old place ≡ Some zone
        → Edits zones.old zones.new result (Ok (moved zones.old (record { place = place; zone = zone }) entry)) }
    ensures err { OnErr result (zones.new ≡ zones.old) }
{
    match entry {
        Entry::Interface(iface) => move_interface(zones, place, iface),
        Entry::Source(source) => move_other(zones, place, source),
    }
}

/// An edit that moves an entry; one that is bound there already needs none.
fn settled_move(edited: Result<(), BindError>) -> Result<(), EditError>
    ensures { result ≡ settled_move edited }
{
    match edited {
        Ok(()) | Err(BindError::ZoneAlreadySet) => Ok(()),
        Err(BindError::ZoneConflict | BindError::Unknown | BindError::Memory) => {
            Err(EditError::Memory)
        }
    }
}

fn move_interface(zones: &mut Seq<Zone>, place: usize, iface: Iface) -> Result<(), EditError>
    requires { place < length zones.old }
    ensures edits { (zone : Zone) → slice_get zones.old place ≡ Some zone
        → Edits zones.old zones.new result (Ok (moved zones.old (record { place = place; zone = zone }) (entries.Interface iface))) }
    ensures err { OnErr result (zones.new ≡ zones.old) }
{
    settled_move(move_iface(zones, place, iface))
}

fn move_other(zones: &mut Seq<Zone>, place: usize, source: Binding) -> Result<(), EditError>
    requires { place < length zones.old }
    ensures edits { (zone : Zone) → slice_get zones.old place ≡ Some zone
        → Edits zones.old zones.new result (Ok (moved zones.old (record { place = place; zone = zone }) (entries.Source source))) }
    ensures err { OnErr result (zones.new ≡ zones.old) }
{
    settled_move(move_source(zones, place, source))
}
