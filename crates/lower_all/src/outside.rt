//! The chains outside the filter.
ghost use Rattle.std.specs.Prelude.{IfOk};
ghost use Rattle.fw_order.specs.Borrowed.{lent};
ghost use Rattle.lower_all.specs.Joined.{AreOutside};
ghost use Rattle.lower_changes.specs.Sides.{IsWritten};

use fw_base::{Memory, Seq};
use fw_model::{Config, Zone};
use fw_verdict::Side;
use lower_blocks::push_block;
use lower_changes::side_chains;
use nf_rules::Chain;
use std::alloc::Global;

/// What marks packets of these zones, what translates their destination, and what has them leave with the host's own address: each in
/// chains of its own, where any settings do such a thing.
pub fn outside_chains(alloc: Global, config: &Config, zones: &[&Zone]) -> Result<Seq<Chain>, Memory>
    ensures { IfOk result (λ chains. IsWritten config.now (lent zones.now) → AreOutside config.now (lent zones.now) chains) }
{
    let mut chains = side_chains(alloc, config, Side::Marked, zones)?;
    push_block(
        side_chains(alloc, config, Side::Translated, zones)?,
        &mut chains,
    )?;
    push_block(
        side_chains(alloc, config, Side::Leaving, zones)?,
        &mut chains,
    )?;
    Ok(chains)
}
