//! The names of chains, and what lines begin with, in firewalld's manner. Those of the hooks go on with the name of a zone; a `/`, which no zone's name has, stands
//! between the names of two.
ghost use Rattle.std.specs.Prelude.{◌≡◌, ◌++◌, IfOk, string_bytes};
ghost use Rattle.lower_hooks.specs.Names.{pair_start};
ghost use Rattle.lower_zone.specs.Names.{block_name, policy_block, zone_block};

use fw_base::{Memory, Text};
use std::alloc::Global;

/// A text, and then a name.
pub fn joined(alloc: Global, start: &str, name: &Text) -> Result<Text, Memory>
    ensures { IfOk result (λ made. made ≡ start.now ++ name.now) }
{
    let string = format!(in alloc; "{start}{name}")?;
    Ok(Text::from_string(string))
}

/// What the names of the chains begin with for packets that are forwarded from a zone to others.
pub fn pair_start(alloc: Global, from: &Text) -> Result<Text, Memory>
    ensures { IfOk result (λ made. made ≡ pair_start from.now) }
{
    let string = format!(in alloc; "filter_FORWARD_{from}/")?;
    Ok(Text::from_string(string))
}

/// What the line of a zone begins with: a text, the zone's name, and another text.
pub fn zone_prefix(alloc: Global, front: &str, zone: &Text, end: &str) -> Result<Text, Memory>
    ensures { IfOk result (λ made. made ≡ front.now ++ zone.now ++ end.now) }
{
    let string = format!(in alloc; "{front}{zone}{end}")?;
    Ok(Text::from_string(string))
}

/// The name of the chain of a zone's settings.
pub fn zone_block_name(alloc: Global, zone: &Text) -> Result<Text, Memory>
    ensures { IfOk result (λ made. made ≡ block_name (zone_block zone.now)) }
{
    joined(alloc, "filter_IN_", zone)
}

/// The name of the chain of a policy's settings.
pub fn policy_block_name(alloc: Global, policy: &Text) -> Result<Text, Memory>
    ensures { IfOk result (λ made. made ≡ block_name (policy_block policy.now)) }
{
    joined(alloc, "filter_POLICY_", policy)
}
