//! The member that gives a policy other settings.
ghost use Rattle.std.specs.Prelude.{◌≡◌, ◌<◌, [], ◌∷◌, length, IfOk, OnErr};
ghost use Rattle.fw_act.specs.Acts.{Acts, Reads};
ghost use Rattle.fw_calls.specs.declared.reply.Reply.TheVariants as reply;
ghost use Rattle.fw_policy_members.specs.Updates.{set_policy_settings_member, update_of, updated_signal, with_update};

use super::find::find_policy;
use fw_act::{Answer, Stop, told};
use fw_base::{Memory, Seq, Text, TryCopy};
use fw_calls::{Arg, Dict, Reply, Signal, SignalKind};
use fw_dicts::read_policy;
use fw_model::Policy;
use fw_settings::Settings;
use std::alloc::Global;

/// A policy as it will be at its place.
#[derive(Drop)]
pub struct Update {
    pub place: usize,
    pub policy: Policy,
}

/// `setPolicySettings`: a policy in force has the settings that a dict says. An absent key leaves what there is, and repeated elements
/// are kept once.
///
/// Refuses, in this order, an unknown policy; the least unknown key; by key order a target and an element of a list; and the first rule
/// on policies that it would break. Nothing changes then, nor for want of memory.
#[tactic(auto, unfolding(crate::specs::Updates::set_policy_settings_member))]
pub fn set_policy_settings_member(
    alloc: Global,
    settings: &mut Settings,
    policy: &str,
    dict: &Dict,
) -> Result<Answer, Stop>
    ensures acts { Acts settings.new result (set_policy_settings_member settings.old policy.now dict.now) }
    ensures err { OnErr result (settings.new ≡ settings.old) }
{
    let update = read_update(alloc, settings, policy, dict)?;
    let answer = updated(alloc, &update.policy)?;
    put(settings, update);
    Ok(answer)
}

/// What a dict makes of the policy that a call names. Nothing changes yet.
#[tactic(auto, unfolding(crate::specs::Updates::update_of))]
fn read_update(
    alloc: Global,
    settings: &Settings,
    policy: &str,
    dict: &Dict,
) -> Result<Update, Stop>
    ensures reads { Reads result (update_of settings.entry.now policy.now dict.now) }
    ensures within { IfOk result (λ update. update.place < length settings.entry.now.runtime.config.policies) }
{
    let config = &settings.runtime.config;
    let found = find_policy(alloc, config, policy)?;
    let policy = read_policy(alloc, config, found.policy, dict)?;
    Ok(Update {
        place: found.place,
        policy,
    })
}

/// The policy comes into force. It takes no memory.
fn put(settings: &mut Settings, update: Update)
    requires { update.place < length settings.old.runtime.config.policies }
    ensures { settings.new ≡ with_update settings.old update }
{
    let Update { place, policy } = update;
    *settings.runtime.config.policies.get_mut(place) = policy;
}

/// What is told of a policy that has other settings.
fn updated(alloc: Global, policy: &Policy) -> Result<Answer, Memory>
    ensures { IfOk result (λ answer. answer ≡ record { signals = updated_signal policy.now ∷ []; reply = reply.None }) }
{
    let signal = updated_signal(alloc, policy)?;
    told(alloc, signal, Reply::None)
}

/// The signal of it: the policy's name, and all its settings.
#[tactic(auto, unfolding(crate::specs::Updates::updated_signal))]
fn updated_signal(alloc: Global, policy: &Policy) -> Result<Signal, Memory>
    ensures { IfOk result (λ signal. signal ≡ updated_signal policy.now) }
{
    let mut args = Seq::new(alloc);
    args.push(Arg::Text(Text::of(alloc, policy.name.as_str())?))?;
    args.push(Arg::Policy(policy.copy(alloc)?))?;
    Ok(Signal {
        kind: SignalKind::PolicyUpdated,
        args,
    })
}
