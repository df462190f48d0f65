//! The policy that a call names.
ghost use Rattle.std.specs.Prelude.{◌≡◌, ◌<◌, Some, Ok, length, position, slice_get, IfOk, MatchResult};
ghost use Rattle.std.specs.Str.{bytes_eq};
ghost use Rattle.fw_act.specs.Acts.{Stops};
ghost use Rattle.fw_policy_members.specs.Finding.{look_up};

use fw_act::{Stop, refuse};
use fw_model::{Code, Config, Policy};
use std::alloc::Global;

/// A policy, and its place in the list of policies.
#[derive(Clone, Copy)]
pub struct FoundPolicy<'a> {
    pub place: usize,
    pub policy: &'a Policy,
}

/// The policy that a call names. Refuses an unknown one.
#[tactic(auto, unfolding(crate::specs::Finding::look_up))]
pub fn find_policy<'a>(
    alloc: Global,
    config: &'a Config,
    name: &str,
) -> Result<FoundPolicy<'a>, Stop>
    ensures found { MatchResult result
        (λ found. look_up config.now name.now ≡ Ok (record { place = found.place; policy = found.policy.now }))
        (λ stop. Stops stop (look_up config.now name.now)) }
    ensures within { IfOk result (λ found. found.place < length config.now.policies) }
{
    let policies = config.policies.as_slice();
    match place_named(policies, name) {
        Some(place) => Ok(FoundPolicy {
            place,
            policy: &policies[place],
        }),
        None => Err(Stop::Refused(refuse(alloc, Code::InvalidPolicy, name)?)),
    }
}

/// The place of the first policy of a name.
fn place_named(policies: &[Policy], name: &str) -> Option<usize>
    ensures { result ≡ position (λ policy. bytes_eq policy.name name.now) policies.now }
{
    policies
        .iter()
        .position(|policy| policy.name.as_str() == name)
}
