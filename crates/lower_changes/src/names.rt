//! The names of chains, in firewalld's manner.
ghost use Rattle.std.specs.Prelude.{◌≡◌, ◌++◌, IfOk};
ghost use Rattle.lower_changes.specs.Names.{base_name, start};

use fw_base::{Memory, Text};
use fw_verdict::Side;
use std::alloc::Global;

/// The name of the base chain of a side.
pub fn base_name(side: Side) -> &'static str
    ensures { result.now ≡ base_name side }
{
    match side {
        Side::Marked => "mangle_PREROUTING",
        Side::Translated => "nat_PREROUTING",
        Side::Leaving => "nat_POSTROUTING",
    }
}

/// What the names of the chains of zones begin with.
pub fn start(side: Side) -> &'static str
    ensures { result.now ≡ start side }
{
    match side {
        Side::Marked => "mangle_PRE_",
        Side::Translated => "nat_PRE_",
        Side::Leaving => "nat_POST_",
    }
}

/// The name of the chain of a zone.
pub fn zone_name(alloc: Global, side: Side, zone: &Text) -> Result<Text, Memory>
    ensures { IfOk result (λ name. name ≡ start side ++ zone.now) }
{
    let start = start(side);
    let string = format!(in alloc; "{start}{zone}")?;
    Ok(Text::from_string(string))
}
