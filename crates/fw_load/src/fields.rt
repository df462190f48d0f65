//! Members of objects, and lists.
ghost use Rattle.std.specs.Prelude.{◌≡◌, [], ◌∷◌, ◌++◌, IfOk, decimal, option_map};
ghost use Rattle.std.specs.Option.{option_copied};
ghost use Rattle.fw_load.specs.Answers.{Says};
ghost use Rattle.fw_load.specs.Fields.{behind, elements, field, found_by, keys_in, known, list_in, stray};
ghost use Rattle.fw_words.specs.Keys.{texts};
ghost use Rattle.serde_json.specs.View.{items_view, members_view, view};

use crate::stop::{Stop, here};
use crate::told::Told;
use fw_base::{Memory, Seq, Text};
use serde_json::{Map, Value};
use std::alloc::Global;
use std::cmp::Ordering;

/// What stands under a key of an object. Fault: it is missing, or the way to the first fault in it.
#[tactic(auto, unfolding(crate::specs::Fields::field))]
pub fn field<T: Told>(alloc: Global, key: &str, value: &Value) -> Result<T, Stop>
    ensures { Says result (field T.reading key.now (view value.now)) }
{
    match found_by(alloc, value.get(key)) {
        Ok(item) => Ok(item),
        Err(Stop::Fault(way)) => Err(Stop::Fault(behind_key(alloc, key, way.as_str())?)),
        Err(Stop::Memory) => Err(Stop::Memory),
    }
}

/// A value that may be missing.
fn found_by<T: Told>(alloc: Global, value: Option<&Value>) -> Result<T, Stop>
    ensures { Says result (found_by T.reading (option_map (λ v. view v.now) value.entry)) }
{
    match value {
        Some(value) => T::read(alloc, value),
        None => Err(here(alloc)),
    }
}

/// A way behind a key.
fn behind_key(alloc: Global, key: &str, way: &str) -> Result<Text, Memory>
    ensures { IfOk result (λ text. text ≡ 46 ∷ key.now ++ way.now) }
{
    Ok(Text::from_string(format!(in alloc; ".{key}{way}")?))
}

/// A way behind the place of an element.
fn behind_place(alloc: Global, place: usize, way: &str) -> Result<Text, Memory>
    ensures { IfOk result (λ text. text ≡ (91 ∷ decimal place ++ 93 ∷ []) ++ way.now) }
{
    Ok(Text::from_string(format!(in alloc; "[{place}]{way}")?))
}

/// Looks whether an object has exactly the keys of a table, which is in byte order. Fault: it is no object, or the way to the least key that it
/// lacks or has besides.
#[tactic(auto, unfolding(crate::specs::Fields::known))]
pub fn known(alloc: Global, keys: &[&str], value: &Value) -> Result<(), Stop>
    ensures { Says result (known (texts keys.now) (view value.now)) }
{
    let Some(members) = value.as_object() else {
        return Err(here(alloc));
    };
    match stray(keys, members) {
        Some(key) => Err(Stop::Fault(behind_key(alloc, key, "")?)),
        None => Ok(()),
    }
}

/// The least key that only a table or an object has.
#[tactic(auto, using(crate::proofs::Keys::entry_keys))]
fn stray<'a>(keys: &[&'a str], members: &'a Map<String, Value>) -> Option<&'a str>
    ensures { option_copied result ≡ stray (texts keys.now) (keys_in (members_view members.now.entries)) }
{
    let mut place = 0;
    for key in members.keys() {
        if place == keys.len() {
            return Some(key.as_str());
        }
        match keys[place].cmp(key.as_str()) {
            Ordering::Less => return Some(keys[place]),
            Ordering::Equal => place += 1,
            Ordering::Greater => return Some(key.as_str()),
        }
    }
    if place == keys.len() {
        None
    } else {
        Some(keys[place])
    }
}

impl<T: Told + Drop> Told for Seq<T> {
    ghost reading = { list_in T.Told.reading };

    #[tactic(auto, unfolding(crate::specs::Fields::list_in))]
    fn read(alloc: Global, value: &Value) -> Result<Seq<T>, Stop> {
        match value.as_array() {
            Some(items) => elements(alloc, items.as_slice()),
            None => Err(here(alloc)),
        }
    }
}

/// The elements of an array, in their order.
fn elements<T: Told + Drop>(alloc: Global, items: &[Value]) -> Result<Seq<T>, Stop>
    ensures { Says result (elements T.reading 0 (items_view items.now)) }
{
    let mut found = Seq::new(alloc);
    for place in 0..items.len() {
        found.push(element(alloc, place, &items[place])?)?;
    }
    Ok(found)
}

/// The element at a place.
fn element<T: Told>(alloc: Global, place: usize, value: &Value) -> Result<T, Stop>
    ensures { Says result (behind (91 ∷ decimal place ++ 93 ∷ []) (T.reading (view value.now))) }
{
    match T::read(alloc, value) {
        Ok(item) => Ok(item),
        Err(Stop::Fault(way)) => Err(Stop::Fault(behind_place(alloc, place, way.as_str())?)),
        Err(Stop::Memory) => Err(Stop::Memory),
    }
}
