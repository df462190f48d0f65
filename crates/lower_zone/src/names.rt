//! The names of chains.
ghost use Rattle.std.specs.Prelude.{◌≡◌, ◌<◌, ◌^◌, IfOk};
ghost use Rattle.lower_zone.specs.Names.{block_name, own_name, part_name, part_word, policy_block, zone_block};

use fw_base::{Memory, Text};
use fw_verdict::Part;
use std::alloc::Global;

/// The name of the block of a zone's settings for packets to the host.
pub fn zone_block(alloc: Global, zone: &Text) -> Result<Text, Memory>
    ensures { IfOk result (λ name. name ≡ zone_block zone.now) }
{
    let string = format!(in alloc; "IN_{zone}")?;
    Ok(Text::from_string(string))
}

/// The name of the block of a policy's settings.
pub fn policy_block(alloc: Global, policy: &Text) -> Result<Text, Memory>
    ensures { IfOk result (λ name. name ≡ policy_block policy.now) }
{
    let string = format!(in alloc; "POLICY_{policy}")?;
    Ok(Text::from_string(string))
}

/// The name of a block's chain.
pub fn block_name(alloc: Global, block: &Text) -> Result<Text, Memory>
    ensures { IfOk result (λ name. name ≡ block_name block.now) }
{
    let string = format!(in alloc; "filter_{block}")?;
    Ok(Text::from_string(string))
}

fn part_word(part: Part) -> &'static str
    ensures { result.now ≡ part_word part }
{
    match part {
        Part::Pre => "filter_pre_",
        Part::Log => "filter_log_",
        Part::Deny => "filter_deny_",
        Part::Allow => "filter_allow_",
        Part::Post => "filter_post_",
    }
}

/// The name of the chain of a block's part.
pub fn part_name(alloc: Global, part: Part, block: &Text) -> Result<Text, Memory>
    ensures { IfOk result (λ name. name ≡ part_name part block.now) }
{
    let word = part_word(part);
    let string = format!(in alloc; "{word}{block}")?;
    Ok(Text::from_string(string))
}

/// The name of a chain for one condition, by its number in the block.
pub fn own_name(alloc: Global, number: usize, block: &Text) -> Result<Text, Memory>
    ensures named { IfOk result (λ name. name ≡ own_name number block.now) }
    ensures fits { number < 2 ^ 64 }
{
    let string = format!(in alloc; "filter_own{number}_{block}")?;
    Ok(Text::from_string(string))
}
