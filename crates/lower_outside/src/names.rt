//! The names of chains.
ghost use Rattle.std.specs.Prelude.{◌≡◌, ◌<◌, ◌^◌, IfOk};
ghost use Rattle.lower_outside.specs.Names.{block_name, front, own_name, policy_block, policy_word, zone_block, zone_word};

use fw_base::{Memory, Text};
use fw_verdict::Side;
use std::alloc::Global;

fn zone_word(side: Side) -> &'static str
    ensures { result.now ≡ zone_word side }
{
    match side {
        Side::Marked => "MARK_ZONE_",
        Side::Translated => "DNAT_ZONE_",
        Side::Leaving => "MASQ_ZONE_",
    }
}

fn policy_word(side: Side) -> &'static str
    ensures { result.now ≡ policy_word side }
{
    match side {
        Side::Marked => "MARK_POLICY_",
        Side::Translated => "DNAT_POLICY_",
        Side::Leaving => "MASQ_POLICY_",
    }
}

fn front(side: Side) -> &'static str
    ensures { result.now ≡ front side }
{
    match side {
        Side::Marked => "mangle_",
        Side::Translated => "nat_",
        Side::Leaving => "nat_",
    }
}

/// The name of the block of a zone's settings.
pub fn zone_block(alloc: Global, side: Side, zone: &Text) -> Result<Text, Memory>
    ensures { IfOk result (λ name. name ≡ zone_block side zone.now) }
{
    let word = zone_word(side);
    let string = format!(in alloc; "{word}{zone}")?;
    Ok(Text::from_string(string))
}

/// The name of the block of a policy's settings.
pub fn policy_block(alloc: Global, side: Side, policy: &Text) -> Result<Text, Memory>
    ensures { IfOk result (λ name. name ≡ policy_block side policy.now) }
{
    let word = policy_word(side);
    let string = format!(in alloc; "{word}{policy}")?;
    Ok(Text::from_string(string))
}

/// The name of a block's chain.
pub fn block_name(alloc: Global, side: Side, block: &Text) -> Result<Text, Memory>
    ensures { IfOk result (λ name. name ≡ block_name side block.now) }
{
    let word = front(side);
    let string = format!(in alloc; "{word}{block}")?;
    Ok(Text::from_string(string))
}

/// The name of a chain for one step, by its number in the block.
pub fn own_name(alloc: Global, side: Side, number: usize, block: &Text) -> Result<Text, Memory>
    ensures named { IfOk result (λ name. name ≡ own_name side number block.now) }
    ensures fits { number < 2 ^ 64 }
{
    let word = front(side);
    let string = format!(in alloc; "{word}own{number}_{block}")?;
    Ok(Text::from_string(string))
}

/// The name of the chain of a zone's settings on a side.
///
/// Refuses for want of memory alone.
pub fn zone_chain_name(alloc: Global, side: Side, zone: &Text) -> Result<Text, Memory>
    ensures { IfOk result (λ name. name ≡ block_name side (zone_block side zone.now)) }
{
    let block = zone_block(alloc, side, zone)?;
    block_name(alloc, side, &block)
}

/// The name of the chain of a policy's settings on a side.
///
/// Refuses for want of memory alone.
pub fn policy_chain_name(alloc: Global, side: Side, policy: &Text) -> Result<Text, Memory>
    ensures { IfOk result (λ name. name ≡ block_name side (policy_block side policy.now)) }
{
    let block = policy_block(alloc, side, policy)?;
    block_name(alloc, side, &block)
}
