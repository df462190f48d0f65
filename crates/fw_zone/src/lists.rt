//! Items in lists, by their places.
ghost use Rattle.std.specs.Prelude.{◌≡◌, ◌↔◌, ◌∷◌, [], ◌++◌, IsTrue, IfSome, IsErr, IsSome, OnOk, OnErr, Err};
ghost use Rattle.fw_zone.specs.Lists.{IsFirstPlace, IsIn, IsRemoved};

use super::same::Same;
use super::{AddError, NotEnabled};
use fw_base::Seq;

/// The first place where an item stands.
pub fn place_of<T: Same>(items: &[T], item: &T) -> Option<usize>
    ensures found { IfSome result (λ place. IsFirstPlace items.now place item.now) }
    ensures listed { IsSome result ↔ IsIn item.now items.now }
{
    for place in 0..items.len() {
        if items[place].same(item) {
            return Some(place);
        }
    }
    None
}

/// Whether an item stands in a list.
pub fn contains<T: Same>(items: &[T], item: &T) -> bool
    ensures { IsTrue result ↔ IsIn item.now items.now }
{
    place_of(items, item).is_some()
}

/// Appends an item.
///
/// Refuses one that is there already, and for want of memory; the list is then as before.
pub fn add_item<T: Same + Drop>(items: &mut Seq<T>, item: T) -> Result<(), AddError>
    ensures added { OnOk result (items.new ≡ items.old ++ item ∷ []) }
    ensures already { (result ≡ Err AddError.AlreadyEnabled) ↔ IsIn item items.old }
    ensures err { OnErr result (items.new ≡ items.old) }
{
    if contains(items.as_slice(), &item) {
        return Err(AddError::AlreadyEnabled);
    }
    match items.push(item) {
        Ok(()) => Ok(()),
        Err(_) => Err(AddError::Memory),
    }
}

/// Takes an item out of its list; those behind it move up. It takes no memory.
///
/// Refuses one that isn't there; the list is then as before.
#[tactic(auto, using(crate::proofs::Items::removed_at))]
pub fn remove_item<T: Same + Drop>(items: &mut Seq<T>, item: &T) -> Result<(), NotEnabled>
    ensures removed { OnOk result (IsRemoved item.now items.old items.new) }
    ensures absent { IsErr result ↔ (¬ (IsIn item.now items.old)) }
    ensures err { OnErr result (items.new ≡ items.old) }
{
    match place_of(items.as_slice(), item) {
        Some(place) => {
            let _ = items.remove(place);
            Ok(())
        }
        None => Err(NotEnabled),
    }
}
