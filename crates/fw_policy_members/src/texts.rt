//! Lists of policies that replies carry.
ghost use Rattle.std.specs.Prelude.{◌≡◌, map, IfOk};
ghost use Rattle.std.specs.List.{filter};
ghost use Rattle.fw_policy_members.specs.Asking.{is_active, sides};

use super::active::is_active;
use fw_base::{Memory, Seq, Text, TryCopy};
use fw_calls::Active;
use fw_model::{Policy, Zone};
use std::alloc::Global;

/// The names of policies.
pub fn policy_names(alloc: Global, policies: &[Policy]) -> Result<Seq<Text>, Memory>
    ensures { IfOk result (λ names. names ≡ map (λ policy. policy.name) policies.now) }
{
    let mut names = Seq::new(alloc);
    for policy in policies {
        names.push(Text::of(alloc, policy.name.as_str())?)?;
    }
    Ok(names)
}

/// The policies that packets can meet on both sides, with their names of zones.
pub fn active_policies(
    alloc: Global,
    zones: &[Zone],
    policies: &[Policy],
) -> Result<Seq<Active>, Memory>
    ensures { IfOk result (λ found. found ≡ map sides (filter (is_active zones.now) policies.now)) }
{
    let mut found = Seq::new(alloc);
    for policy in policies {
        if is_active(zones, policy) {
            found.push(sides(alloc, policy)?)?;
        }
    }
    Ok(found)
}

/// A policy's name, and its names of zones on both sides.
fn sides(alloc: Global, policy: &Policy) -> Result<Active, Memory>
    ensures { IfOk result (λ made. made ≡ sides policy.now) }
{
    Ok(Active {
        name: Text::of(alloc, policy.name.as_str())?,
        first: policy.ingress.copy(alloc)?,
        second: policy.egress.copy(alloc)?,
    })
}
