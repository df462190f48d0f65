//! Bindings of interfaces and sources to zones.
ghost use Rattle.std.specs.Prelude.{◌≡◌, ◌≢◌, ℕ, ◌<◌, ◌↔◌, length, IfSome, IsErr, IsOk, IsSome, IsTrue, OnOk, OnErr, Err, slice_get, Some};
ghost use Rattle.fw_zone.specs.Bindings.{IsBound, IsFirstListed, IsInConflict, IsListed, IsListedAt, IsMoved, IsMovedFrom, IsUnbound};
ghost use Rattle.fw_zone.specs.Lists.{IsFirstPlace};
ghost use Rattle.fw_model.specs.declared.zone.Zone.{Zone};

use super::entries::Entry;
use super::lists::{contains, place_of};
use fw_base::{Memory, Seq};
use fw_model::Zone;
use std::error::Error;
use std::fmt;

/// Why a binding isn't changed.
#[derive(Clone, Copy, Debug, PartialEq, Eq)]
pub enum BindError {
    /// The zone lists the entry already.
    ZoneAlreadySet,
    /// Another zone lists it.
    ZoneConflict,
    /// No zone lists it.
    Unknown,
    /// No memory was found.
    Memory,
}

impl fmt::Display for BindError {
    fn fmt<W: fmt::Write>(&self, f: &mut fmt::Formatter<W>) -> fmt::Result {
        f.write_str(match self {
            BindError::ZoneAlreadySet => "bound to this zone already",
            BindError::ZoneConflict => "bound to another zone",
            BindError::Unknown => "bound to no zone",
            BindError::Memory => "out of memory",
        })
    }
}

impl Error for BindError {}

impl From<Memory> for BindError {
    fn from(_error: Memory) -> BindError {
        BindError::Memory
    }
}

/// Whether the zone at a place lists an entry.
fn lists<T: Entry>(zones: &[Zone], place: usize, entry: &T) -> bool
    requires { place < length zones.now }
    ensures { IsTrue result ↔ IsListedAt T.of T.with zones.now place entry.now }
{
    contains(T::entries(&zones[place]), entry)
}

/// The first zone that lists an entry.
pub fn zone_of<T: Entry>(zones: &[Zone], entry: &T) -> Option<usize>
    ensures first { IfSome result (λ place. IsFirstListed T.of T.with zones.now place entry.now) }
    ensures listed { IsSome result ↔ IsListed T.of T.with zones.now entry.now }
{
    for place in 0..zones.len() {
        if lists(zones, place, entry) {
            return Some(place);
        }
    }
    None
}

/// Appends an entry to the zone at a place.
fn append_at<T: Entry>(zones: &mut Seq<Zone>, place: usize, entry: T) -> Result<(), Memory>
    requires { place < length zones.old }
    ensures bound { OnOk result (IsBound T.of T.with zones.old place entry zones.new) }
    ensures err { OnErr result (zones.new ≡ zones.old) }
{
    entry.append(zones.get_mut(place))
}

/// Takes an entry out of the zone at a place, which lists it.
fn take_from<T: Entry>(zones: &mut Seq<Zone>, place: usize, entry: &T)
    requires { IsListedAt T.of T.with zones.old place entry.now }
    ensures { IsUnbound T.of T.with zones.old place entry.now zones.new }
{
    let zone = zones.get_mut(place);
    if let Some(at) = place_of(T::entries(zone), entry) {
        T::take_out(zone, at);
    }
}

/// Which zone lists an entry, as seen from one of them.
#[derive(Clone, Copy, Debug, PartialEq, Eq)]
enum Standing {
    /// That zone.
    Here,
    /// Another, and not that one.
    Elsewhere,
    /// None.
    Nowhere,
}

fn standing_of<T: Entry>(zones: &[Zone], place: usize, entry: &T) -> Standing
    requires { place < length zones.now }
    ensures here { (result ≡ Standing.Here) ↔ IsListedAt T.of T.with zones.now place entry.now }
    ensures elsewhere { (result ≡ Standing.Elsewhere) ↔ IsInConflict T.of T.with zones.now place entry.now }
    ensures nowhere { (result ≡ Standing.Nowhere) ↔ (¬ (IsListed T.of T.with zones.now entry.now)) }
{
    if lists(zones, place, entry) {
        return Standing::Here;
    }
    match zone_of(zones, entry) {
        Some(_) => Standing::Elsewhere,
        None => Standing::Nowhere,
    }
}

/// Binds an entry to the zone at a place.
pub fn bind<T: Entry + Drop>(zones: &mut Seq<Zone>, place: usize, entry: T) -> Result<(), BindError>
    requires { place < length zones.old }
    ensures bound { OnOk result (IsBound T.of T.with zones.old place entry zones.new) }
    ensures already { (result ≡ Err BindError.ZoneAlreadySet) ↔ IsListedAt T.of T.with zones.old place entry }
    ensures conflict { (result ≡ Err BindError.ZoneConflict) ↔ IsInConflict T.of T.with zones.old place entry }
    ensures known { result ≢ Err BindError.Unknown }
    ensures err { OnErr result (zones.new ≡ zones.old) }
{
    match standing_of(zones.as_slice(), place, &entry) {
        Standing::Here => Err(BindError::ZoneAlreadySet),
        Standing::Elsewhere => Err(BindError::ZoneConflict),
        Standing::Nowhere => match append_at(zones, place, entry) {
            Ok(()) => Ok(()),
            Err(_) => Err(BindError::Memory),
        },
    }
}

/// Takes an entry from the zone at a place.
pub fn unbind<T: Entry>(zones: &mut Seq<Zone>, place: usize, entry: &T) -> Result<(), BindError>
    requires { place < length zones.old }
    ensures unbound { OnOk result (IsUnbound T.of T.with zones.old place entry.now zones.new) }
    ensures done { IsOk result ↔ IsListedAt T.of T.with zones.old place entry.now }
    ensures conflict { (result ≡ Err BindError.ZoneConflict) ↔ IsInConflict T.of T.with zones.old place entry.now }
    ensures unknown { (result ≡ Err BindError.Unknown) ↔ (¬ (IsListed T.of T.with zones.old entry.now)) }
    ensures err { OnErr result (zones.new ≡ zones.old) }
{
    match standing_of(zones.as_slice(), place, entry) {
        Standing::Here => {
            take_from(zones, place, entry);
            Ok(())
        }
        Standing::Elsewhere => Err(BindError::ZoneConflict),
        Standing::Nowhere => Err(BindError::Unknown),
    }
}

/// Where an entry stands in the list of a zone that lists it.
fn place_in<T: Entry>(zones: &[Zone], place: usize, entry: &T) -> usize
    requires { IsListedAt T.of T.with zones.now place entry.now }
    ensures { (zone : Zone) → slice_get zones.now place ≡ Some zone
        → IsFirstPlace (T.of zone) result entry.now }
{
    match place_of(T::entries(&zones[place]), entry) {
        Some(at) => at,
        None => unreachable!(),
    }
}

/// Binds an entry to the zone at a place, and takes it from another that lists it.
fn move_from<T: Entry + Drop>(
    zones: &mut Seq<Zone>,
    from: usize,
    place: usize,
    entry: T,
) -> Result<(), Memory>
    requires here { place < length zones.old }
    requires there { IsListedAt T.of T.with zones.old from entry }
    requires other { from ≢ place }
    ensures moved { OnOk result (IsMovedFrom T.of T.with zones.old from place entry zones.new) }
    ensures err { OnErr result (zones.new ≡ zones.old) }
{
    let at = place_in(zones.as_slice(), from, &entry);
    append_at(zones, place, entry)?;
    T::take_out(zones.get_mut(from), at);
    Ok(())
}

/// Binds an entry to the zone at a place, and where another zone lists it, takes it from there.
pub fn move_to<T: Entry + Drop>(
    zones: &mut Seq<Zone>,
    place: usize,
    entry: T,
) -> Result<(), BindError>
    requires { place < length zones.old }
    ensures moved { OnOk result (IsMoved T.of T.with zones.old place entry zones.new) }
    ensures already { (result ≡ Err BindError.ZoneAlreadySet) ↔ IsListedAt T.of T.with zones.old place entry }
    ensures no_conflict { result ≢ Err BindError.ZoneConflict }
    ensures known { result ≢ Err BindError.Unknown }
    ensures err { OnErr result (zones.new ≡ zones.old) }
{
    if lists(zones.as_slice(), place, &entry) {
        return Err(BindError::ZoneAlreadySet);
    }
    let moved = match zone_of(zones.as_slice(), &entry) {
        Some(from) => move_from(zones, from, place, entry),
        None => append_at(zones, place, entry),
    };
    match moved {
        Ok(()) => Ok(()),
        Err(_) => Err(BindError::Memory),
    }
}
