//! Chains, sets and maps by their names.
ghost use Rattle.std.specs.Prelude.{◌≡◌, ℕ, ◌↔◌, List, None, IsTrue, MatchOption, is_some, option_copied};
ghost use Rattle.std.specs.Cmp.Lexicographic.{slice_cmp};
ghost use Rattle.std.specs.Ordering.{is_lt, nat_cmp};
ghost use Rattle.nf_sound.specs.Names.{IsByName, StandsAt, called, chain_of, map_of};

use nf_rules::{Chain, NfMap, NfSet};

/// What has a name of its own.
pub trait Named {
    /// The name.
    ghost name_of: { Self → List ℕ };

    /// The name.
    fn name(&self) -> &str
        ensures { result.now ≡ name_of self.now };
}

impl Named for Chain {
    ghost name_of = { λ chain. chain.name };

    fn name(&self) -> &str {
        self.name.as_str()
    }
}

impl Named for NfSet {
    ghost name_of = { λ set. set.name };

    fn name(&self) -> &str {
        self.name.as_str()
    }
}

impl Named for NfMap {
    ghost name_of = { λ map. map.name };

    fn name(&self) -> &str {
        self.name.as_str()
    }
}

fn is_before<T: Named>(one: &T, other: &T) -> bool
    ensures { result ≡ is_lt (slice_cmp nat_cmp (T.name_of one.now) (T.name_of other.now)) }
{
    one.name().cmp(other.name()).is_lt()
}

/// Whether each name is before those behind it.
pub fn is_by_name<T: Named>(items: &[T]) -> bool
    ensures { IsTrue result ↔ IsByName T.name_of items.now }
{
    items.is_sorted_by(|one, other| is_before(one, other))
}

/// The place of the one of a name. It is found by halves, since they stand in order of their names.
pub fn place_of<T: Named>(items: &[T], name: &str) -> Option<usize>
    requires { IsByName T.name_of items.now }
    ensures { MatchOption result (called T.name_of name.now items.now ≡ None)
        (StandsAt T.name_of name.now items.now) }
{
    items.binary_search_by(|item| item.name().cmp(name)).ok()
}

/// Whether there is one of a name.
pub fn is_there<T: Named>(items: &[T], name: &str) -> bool
    requires { IsByName T.name_of items.now }
    ensures { result ≡ is_some (called T.name_of name.now items.now) }
{
    place_of(items, name).is_some()
}

/// The chain of a name, among chains that stand in order of their names. It is found by halves.
pub fn chain_called<'a>(chains: &'a [Chain], name: &str) -> Option<&'a Chain>
    requires { IsByName (λ chain. chain.name) chains.now }
    ensures { option_copied result ≡ chain_of chains.now name.now }
{
    Some(&chains[place_of(chains, name)?])
}

/// The map of a name, among maps that stand in order of their names. It is found by halves.
pub fn map_called<'a>(maps: &'a [NfMap], name: &str) -> Option<&'a NfMap>
    requires { IsByName (λ map. map.name) maps.now }
    ensures { option_copied result ≡ map_of maps.now name.now }
{
    Some(&maps[place_of(maps, name)?])
}
