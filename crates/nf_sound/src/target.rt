//! The chains to which statements lead, one after another.
ghost use Rattle.std.specs.Prelude.{◌≡◌, [], ◌∷◌, MatchOption, length, map, slice_get};
ghost use Rattle.nf_sound.specs.Names.{AreByName, IsByName, map_of};
ghost use Rattle.nf_sound.specs.Targets.{map_values, targets, values};

use crate::named::place_of;
use fw_base::Text;
use nf_rules::{MapBody, NfMap, Ruleset, Stmt};

/// How many chains a statement may lead to.
pub fn target_count(rules: &Ruleset, statement: &Stmt) -> usize
    requires { AreByName rules.now }
    ensures { result ≡ length (targets rules.now.maps statement.now) }
{
    match statement {
        Stmt::Jump(_) | Stmt::Goto(_) => 1,
        Stmt::VmapIn(name) | Stmt::VmapOut(name) | Stmt::VmapSrc(name) | Stmt::VmapDst(name) => {
            value_count(rules.maps.as_slice(), name)
        }
        _ => 0,
    }
}

/// The name of the chain at a place among those to which a statement may lead.
pub fn target<'a>(rules: &'a Ruleset, statement: &'a Stmt, place: usize) -> Option<&'a str>
    requires { AreByName rules.now }
    ensures { MatchOption result (slice_get (targets rules.now.maps statement.now) place ≡ None)
        (λ name. slice_get (targets rules.now.maps statement.now) place ≡ Some name.now) }
{
    match statement {
        Stmt::Jump(name) | Stmt::Goto(name) => only(name, place),
        Stmt::VmapIn(name) | Stmt::VmapOut(name) | Stmt::VmapSrc(name) | Stmt::VmapDst(name) => {
            value_of(rules.maps.as_slice(), name, place)
        }
        _ => None,
    }
}

/// The one name, at the first place.
fn only(name: &Text, place: usize) -> Option<&str>
    ensures { MatchOption result (slice_get (name.now ∷ []) place ≡ None)
        (λ found. slice_get (name.now ∷ []) place ≡ Some found.now) }
{
    if place == 0 {
        Some(name.as_str())
    } else {
        None
    }
}

/// How many keys the map of a name has.
fn value_count(maps: &[NfMap], name: &Text) -> usize
    requires { IsByName (λ map. map.name) maps.now }
    ensures { result ≡ length (map_values (map_of maps.now name.now)) }
{
    match place_of(maps, name.as_str()) {
        Some(place) => key_count(&maps[place].body),
        None => 0,
    }
}

fn key_count(body: &MapBody) -> usize
    ensures { result ≡ length (values body.now) }
{
    match body {
        MapBody::Ifaces(pairs) => pairs.as_slice().len(),
        MapBody::Nets(pairs) => pairs.as_slice().len(),
    }
}

/// The chain of the key at a place of the map of a name.
fn value_of<'a>(maps: &'a [NfMap], name: &Text, place: usize) -> Option<&'a str>
    requires { IsByName (λ map. map.name) maps.now }
    ensures { MatchOption result (slice_get (map_values (map_of maps.now name.now)) place ≡ None)
        (λ found. slice_get (map_values (map_of maps.now name.now)) place ≡ Some found.now) }
{
    let at = place_of(maps, name.as_str())?;
    value_at(&maps[at].body, place)
}

/// The chain of the key at a place of a map.
pub fn value_at(body: &MapBody, place: usize) -> Option<&str>
    ensures { MatchOption result (slice_get (values body.now) place ≡ None)
        (λ found. slice_get (values body.now) place ≡ Some found.now) }
{
    match body {
        MapBody::Ifaces(pairs) => pair_value(pairs.as_slice(), place),
        MapBody::Nets(pairs) => pair_value(pairs.as_slice(), place),
    }
}

fn pair_value<K>(pairs: &[(K, Text)], place: usize) -> Option<&str>
    ensures { MatchOption result (slice_get (map (λ pair. pair.1) pairs.now) place ≡ None)
        (λ found. slice_get (map (λ pair. pair.1) pairs.now) place ≡ Some found.now) }
{
    match pairs.get(place) {
        Some(pair) => Some(pair.1.as_str()),
        None => None,
    }
}
