//! Sound rulesets.
ghost use Rattle.std.specs.Prelude.{◌↔◌, IsTrue};
ghost use Rattle.nf_sound.specs.Sound.{SoundRules};

use crate::links::paths_are_short;
use crate::stands::{are_by_name, chains_stand, maps_stand};
use nf_rules::Ruleset;
use std::alloc::Global;

/// Whether a ruleset is sound: chains, sets and maps are each in order of names and have each name once; each chain that
/// is jumped to, each set and each map that is looked up is there; and no chain of jumps and gotos, maps among them, has
/// more than 16 links.
///
/// Names are found by halves, and each chain's links are walked once. It takes memory for that where there is some, and
/// answers the same where there's none.
pub fn is_sound(alloc: Global, rules: &Ruleset) -> bool
    ensures { IsTrue result ↔ SoundRules rules.now }
{
    are_by_name(rules) && chains_stand(rules) && maps_stand(rules) && paths_are_short(alloc, rules)
}
