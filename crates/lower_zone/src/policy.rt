//! The chains of a policy.
ghost use Rattle.std.specs.Prelude.{◌≡◌, ◌<◌, Some, IfOk, false, length, slice_get};
ghost use Rattle.fw_model.specs.declared.policy.Policy.{Policy};
ghost use Rattle.fw_verdict.specs.Items.{items};
ghost use Rattle.fw_verdict.specs.Walk.{walk};
ghost use Rattle.lower_zone.specs.Evaluates.{Evaluates};
ghost use Rattle.lower_zone.specs.Names.{NamesDiffer, block_name, policy_block};
ghost use Rattle.lower_zone.specs.Stands.{StandAlone};

use crate::block::block_chains;
use crate::names::policy_block;
use fw_base::{Memory, Seq};
use fw_model::{Config, Policy, Runtime};
use nf_rules::Chain;
use std::alloc::Global;

/// The policy at a place.
fn policy_at(config: &Config, policy: usize) -> &Policy
    requires { policy < length config.now.policies }
    ensures { slice_get config.now.policies policy ≡ Some result.now }
{
    &config.policies.as_slice()[policy]
}

/// The chains of the policy at a place, for the packets that it applies to: a jump to that of its block, `filter_POLICY_` and the
/// policy's name, does with a packet what the policy's settings do (firewalld.policies(5), firewalld.richlanguage(5)). They are those that a
/// zone of the same settings has. A policy has no inversion of ICMP types.
///
/// Refuses for want of memory alone.
pub fn policy_chains(alloc: Global, runtime: &Runtime, policy: usize) -> Result<Seq<Chain>, Memory>
    requires { policy < length runtime.now.config.policies }
    ensures evaluates { IfOk result (λ chains. (it : Policy) → slice_get runtime.now.config.policies policy ≡ Some it
        → Evaluates runtime.now.config chains (block_name (policy_block it.name)) (walk (items runtime.now.config it.rules false))) }
    ensures names { IfOk result (λ chains. (it : Policy) → slice_get runtime.now.config.policies policy ≡ Some it → NamesDiffer (policy_block it.name) chains) }
    ensures stands { IfOk result (λ chains. (it : Policy) → slice_get runtime.now.config.policies policy ≡ Some it
        → StandAlone runtime.now.config chains (block_name (policy_block it.name))) }
{
    let config = &runtime.config;
    let policy = policy_at(config, policy);
    let block = policy_block(alloc, &policy.name)?;
    block_chains(alloc, config, &block, &policy.rules, false)
}
