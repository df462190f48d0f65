//! Calls on policies in force.
ghost use Rattle.std.specs.Prelude.{◌≡◌, false};
ghost use Rattle.fw_act.specs.Acts.{Acts};
ghost use Rattle.fw_machine.specs.Asking.{Tells};
ghost use Rattle.fw_machine.specs.Policies.{policy_asks, policy_called};

use fw_act::{Answer, Stop};
use fw_calls::PolicyCall;
use fw_policy_members::{
    active_policies_member, policies_member, policy_settings_member, set_policy_settings_member,
};
use fw_settings::Settings;
use std::alloc::Global;

/// What a call on policies is told, where it only asks.
#[tactic(auto, unfolding(crate::specs::Policies::policy_called, crate::specs::Policies::policy_asks))]
pub fn ask_policy(
    alloc: Global,
    settings: &Settings,
    call: &PolicyCall,
) -> Result<Option<Answer>, Stop>
    ensures { Tells settings.entry.now (policy_asks call.now) result (policy_called settings.entry.now call.now) }
{
    match call {
        PolicyCall::Policies => Ok(Some(policies_member(alloc, settings)?)),
        PolicyCall::ActivePolicies => Ok(Some(active_policies_member(alloc, settings)?)),
        PolicyCall::Settings { policy } => {
            Ok(Some(policy_settings_member(alloc, settings, policy.as_str())?))
        }
        PolicyCall::SetSettings { .. } => Ok(None),
    }
}

/// Carries out a call on policies that doesn't only ask.
#[tactic(auto, unfolding(crate::specs::Policies::policy_called, crate::specs::Policies::policy_asks))]
pub fn change_policy(
    alloc: Global,
    settings: &mut Settings,
    call: &PolicyCall,
) -> Result<Answer, Stop>
    requires { policy_asks call.now ≡ false }
    ensures { Acts settings.new result (policy_called settings.old call.now) }
{
    match call {
        PolicyCall::SetSettings {
            policy,
            settings: dict,
        } => set_policy_settings_member(alloc, settings, policy.as_str(), dict),
        PolicyCall::Policies | PolicyCall::ActivePolicies | PolicyCall::Settings { .. } => {
            unreachable!()
        }
    }
}
