//! The settings of a zone or a policy.
ghost use Rattle.std.specs.Prelude.{◌≡◌, ◌↔◌, IsTrue};

use crate::lists::same_items;
use fw_model::{Notes, Rules};

/// Whether two version, name and description texts are one.
#[tactic(auto, using(crate::proofs::Fields::notes_from_fields))]
pub fn same_notes(one: &Notes, other: &Notes) -> bool
    ensures { IsTrue result ↔ (one.now ≡ other.now) }
{
    one.version == other.version && one.short == other.short && one.description == other.description
}

/// Whether two are one.
#[tactic(auto, using(crate::proofs::Fields::rules_from_fields))]
pub fn same_rules(one: &Rules, other: &Rules) -> bool
    ensures { IsTrue result ↔ (one.now ≡ other.now) }
{
    same_items(one.services.as_slice(), other.services.as_slice())
        && same_items(one.ports.as_slice(), other.ports.as_slice())
        && same_items(one.protocols.as_slice(), other.protocols.as_slice())
        && same_items(one.source_ports.as_slice(), other.source_ports.as_slice())
        && same_items(one.icmp_blocks.as_slice(), other.icmp_blocks.as_slice())
        && one.masquerade == other.masquerade
        && same_items(one.forwards.as_slice(), other.forwards.as_slice())
        && same_items(one.rich.as_slice(), other.rich.as_slice())
}
