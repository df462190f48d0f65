//! The chains of a side.
ghost use Rattle.std.specs.Prelude.{IfOk};
ghost use Rattle.fw_order.specs.Borrowed.{lent};
ghost use Rattle.lower_changes.specs.Sides.{IsSide, IsWritten};

use crate::blocks::settings_chains;
use crate::hook::hook_chains;
use fw_base::{Memory, Seq};
use fw_model::{Config, Zone};
use fw_verdict::Side;
use lower_blocks::push_block;
use nf_rules::Chain;
use std::alloc::Global;

/// The chains of a side, for the zones that packets may belong to: none where no settings that they may meet do anything on that side;
/// else a base chain, behind it a chain for each zone, and the chains of these settings.
///
/// Refuses for want of memory alone.
pub fn side_chains(
    alloc: Global,
    config: &Config,
    side: Side,
    zones: &[&Zone],
) -> Result<Seq<Chain>, Memory>
    ensures { IfOk result (λ chains. IsWritten config.now (lent zones.now) → IsSide config.now side (lent zones.now) chains) }
{
    let blocks = settings_chains(alloc, config, side, zones)?;
    if blocks.as_slice().is_empty() {
        return Ok(blocks);
    }
    let mut chains = hook_chains(alloc, config, side, zones)?;
    push_block(blocks, &mut chains)?;
    Ok(chains)
}
