//! Calls on a zone or a policy of the permanent settings, by its number.
ghost use Rattle.std.specs.Prelude.{◌≡◌, false};
ghost use Rattle.fw_act.specs.Acts.{Acts};
ghost use Rattle.fw_machine.specs.Asking.{Tells};
ghost use Rattle.fw_machine.specs.Objects.{object_asks, policy_object_called, zone_object_called};

use fw_act::{Answer, Stop};
use fw_calls::ObjectCall;
use fw_object_members::{
    policy_settings_member, remove_policy_member, remove_zone_member, update_policy_member,
    update_zone_member, zone_settings_member,
};
use fw_settings::Settings;
use std::alloc::Global;

/// What a call on a permanent zone is told, where it only asks.
#[tactic(auto, unfolding(crate::specs::Objects::zone_object_called, crate::specs::Objects::object_asks))]
pub fn ask_zone_object(
    alloc: Global,
    settings: &Settings,
    number: u64,
    call: &ObjectCall,
) -> Result<Option<Answer>, Stop>
    ensures { Tells settings.entry.now (object_asks call.now) result (zone_object_called settings.entry.now number call.now) }
{
    match call {
        ObjectCall::Settings => Ok(Some(zone_settings_member(alloc, settings, number)?)),
        ObjectCall::Update { .. } | ObjectCall::Remove => Ok(None),
    }
}

/// Carries out a call on a permanent zone that doesn't only ask.
#[tactic(auto, unfolding(crate::specs::Objects::zone_object_called, crate::specs::Objects::object_asks))]
pub fn change_zone_object(
    alloc: Global,
    settings: &mut Settings,
    number: u64,
    call: &ObjectCall,
) -> Result<Answer, Stop>
    requires { object_asks call.now ≡ false }
    ensures { Acts settings.new result (zone_object_called settings.old number call.now) }
{
    match call {
        ObjectCall::Update { settings: dict } => update_zone_member(alloc, settings, number, dict),
        ObjectCall::Remove => remove_zone_member(alloc, settings, number),
        ObjectCall::Settings => unreachable!(),
    }
}

/// What a call on a permanent policy is told, where it only asks.
#[tactic(auto, unfolding(crate::specs::Objects::policy_object_called, crate::specs::Objects::object_asks))]
pub fn ask_policy_object(
    alloc: Global,
    settings: &Settings,
    number: u64,
    call: &ObjectCall,
) -> Result<Option<Answer>, Stop>
    ensures { Tells settings.entry.now (object_asks call.now) result (policy_object_called settings.entry.now number call.now) }
{
    match call {
        ObjectCall::Settings => Ok(Some(policy_settings_member(alloc, settings, number)?)),
        ObjectCall::Update { .. } | ObjectCall::Remove => Ok(None),
    }
}

/// Carries out a call on a permanent policy that doesn't only ask.
#[tactic(auto, unfolding(crate::specs::Objects::policy_object_called, crate::specs::Objects::object_asks))]
pub fn change_policy_object(
    alloc: Global,
    settings: &mut Settings,
    number: u64,
    call: &ObjectCall,
) -> Result<Answer, Stop>
    requires { object_asks call.now ≡ false }
    ensures { Acts settings.new result (policy_object_called settings.old number call.now) }
{
    match call {
        ObjectCall::Update { settings: dict } => update_policy_member(
            alloc, settings, number, dict,
        ),
        ObjectCall::Remove => remove_policy_member(alloc, settings, number),
        ObjectCall::Settings => unreachable!(),
    }
}
