//! Members that ask for policies.
ghost use Rattle.std.specs.Prelude.{◌≡◌, IfOk};
ghost use Rattle.fw_act.specs.Acts.{Acts};
ghost use Rattle.fw_policy_members.specs.Asking.{active_policies_member, policies_member, policy_settings_member};

use super::find::find_policy;
use super::texts::{active_policies, policy_names};
use fw_act::{Answer, Stop, replied};
use fw_base::{Memory, TryCopy};
use fw_calls::Reply;
use fw_settings::Settings;
use std::alloc::Global;

/// `getPolicies`: the names of the policies in force, as they are listed.
pub fn policies_member(alloc: Global, settings: &Settings) -> Result<Answer, Memory>
    ensures { IfOk result (λ answer. policies_member settings.entry.now ≡ record { signals = answer.signals; reply = answer.reply; after = settings.entry.now }) }
{
    let names = policy_names(alloc, settings.runtime.config.policies.as_slice())?;
    Ok(replied(alloc, Reply::Texts(names)))
}

/// `getActivePolicies`: the policies in force whose two sides each have a name that packets can meet (`HOST`, `ANY`, or a zone with
/// bindings), as they are listed, each with all names of its sides.
pub fn active_policies_member(alloc: Global, settings: &Settings) -> Result<Answer, Memory>
    ensures { IfOk result (λ answer. active_policies_member settings.entry.now ≡ record { signals = answer.signals; reply = answer.reply; after = settings.entry.now }) }
{
    let config = &settings.runtime.config;
    let policies = active_policies(alloc, config.zones.as_slice(), config.policies.as_slice())?;
    Ok(replied(alloc, Reply::ActivePolicies(policies)))
}

/// `getPolicySettings`: all settings of a policy in force. Refuses an unknown policy.
#[tactic(auto, unfolding(crate::specs::Asking::policy_settings_member))]
pub fn policy_settings_member(
    alloc: Global,
    settings: &Settings,
    policy: &str,
) -> Result<Answer, Stop>
    ensures { Acts settings.entry.now result (policy_settings_member settings.entry.now policy.now) }
{
    let found = find_policy(alloc, &settings.runtime.config, policy)?;
    let policy = found.policy.copy(alloc)?;
    Ok(replied(alloc, Reply::PolicySettings(policy)))
}
