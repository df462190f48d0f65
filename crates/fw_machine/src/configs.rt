//! Calls on the permanent settings.
ghost use Rattle.std.specs.Prelude.{◌≡◌, false};
ghost use Rattle.fw_act.specs.Acts.{Acts};
ghost use Rattle.fw_machine.specs.Asking.{Tells};
ghost use Rattle.fw_machine.specs.Configs.{config_asks, config_called};

use fw_act::{Answer, Stop};
use fw_calls::ConfigCall;
use fw_config_members::{
    add_policy_member, add_zone_member, policy_by_name_member, policy_names_member,
    zone_by_name_member, zone_names_member,
};
use fw_settings::Settings;
use std::alloc::Global;

/// What a call on the permanent settings is told, where it only asks.
#[tactic(auto, unfolding(crate::specs::Configs::config_called, crate::specs::Configs::config_asks))]
pub fn ask_config(
    alloc: Global,
    settings: &Settings,
    call: &ConfigCall,
) -> Result<Option<Answer>, Stop>
    ensures { Tells settings.entry.now (config_asks call.now) result (config_called settings.entry.now call.now) }
{
    match call {
        ConfigCall::ZoneNames => Ok(Some(zone_names_member(alloc, settings)?)),
        ConfigCall::PolicyNames => Ok(Some(policy_names_member(alloc, settings)?)),
        ConfigCall::ZoneByName { zone } => {
            Ok(Some(zone_by_name_member(alloc, settings, zone.as_str())?))
        }
        ConfigCall::PolicyByName { policy } => {
            Ok(Some(policy_by_name_member(alloc, settings, policy.as_str())?))
        }
        ConfigCall::AddZone { .. } | ConfigCall::AddPolicy { .. } => Ok(None),
    }
}

/// Carries out a call on the permanent settings that doesn't only ask.
#[tactic(auto, unfolding(crate::specs::Configs::config_called, crate::specs::Configs::config_asks))]
pub fn change_config(
    alloc: Global,
    settings: &mut Settings,
    call: &ConfigCall,
) -> Result<Answer, Stop>
    requires { config_asks call.now ≡ false }
    ensures { Acts settings.new result (config_called settings.old call.now) }
{
    match call {
        ConfigCall::AddZone {
            name,
            settings: dict,
        } => add_zone_member(alloc, settings, name.as_str(), dict),
        ConfigCall::AddPolicy {
            name,
            settings: dict,
        } => add_policy_member(alloc, settings, name.as_str(), dict),
        ConfigCall::ZoneNames
        | ConfigCall::PolicyNames
        | ConfigCall::ZoneByName { .. }
        | ConfigCall::PolicyByName { .. } => unreachable!(),
    }
}
