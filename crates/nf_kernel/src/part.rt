//! The parts of a ruleset, each kind in order of its names.
ghost use Rattle.std.specs.Prelude.{◌≡◌, ℕ, List, None, Some, IfOk, MatchBool};
ghost use Rattle.nf_sound.specs.Names.{IsByName};
ghost use Rattle.nf_kernel.specs.Parts.{Lies, delete, put};

use fw_base::{Memory, Seq};
use nf_rules::{Chain, NfMap, NfSet};

/// A part of a ruleset, which has a name.
pub trait Part: Drop {
    /// The name.
    ghost name_of: { Self → List ℕ };

    /// The name.
    fn name(&self) -> &str
        ensures { result.now ≡ name_of self.now };
}

impl Part for Chain {
    ghost name_of = { λ chain. chain.name };

    fn name(&self) -> &str {
        self.name.as_str()
    }
}

impl Part for NfSet {
    ghost name_of = { λ set. set.name };

    fn name(&self) -> &str {
        self.name.as_str()
    }
}

impl Part for NfMap {
    ghost name_of = { λ map. map.name };

    fn name(&self) -> &str {
        self.name.as_str()
    }
}

/// Where the part of a name stands, or before which place it would stand. It is found by halves.
fn place_in<T: Part>(parts: &[T], name: &str) -> Result<usize, usize>
    requires { IsByName T.name_of parts.now }
    ensures { Lies T.name_of name.now parts.now result }
{
    parts.binary_search_by(|part| part.name().cmp(name))
}

/// The parts with one more, at its place in the order of names, or with it in the place of the one of its name.
pub fn with_part<T: Part>(parts: Seq<T>, part: T) -> Result<Seq<T>, Memory>
    requires { IsByName T.name_of parts }
    ensures put { IfOk result (λ after. after ≡ put T.name_of part parts) }
    ensures by_name { IfOk result (λ after. IsByName T.name_of after) }
{
    let place = place_in(parts.as_slice(), part.name());
    let mut items = parts.into_vec();
    match place {
        Ok(place) => items[place] = part,
        Err(place) => items.insert(place, part)?,
    }
    Ok(Seq::from_vec(items))
}

/// Takes the part of a name away; answers whether there was one.
pub fn take_part<T: Part>(parts: &mut Seq<T>, name: &str) -> bool
    requires { IsByName T.name_of parts.old }
    ensures by_name { IsByName T.name_of parts.new }
    ensures taken { MatchBool result (delete T.name_of name.now parts.old ≡ Some parts.new) (delete T.name_of name.now parts.old ≡ None) }
{
    match place_in(parts.as_slice(), name) {
        Ok(place) => {
            let _ = parts.remove(place);
            true
        }
        Err(_) => false,
    }
}
