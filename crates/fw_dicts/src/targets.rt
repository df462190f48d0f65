//! The texts of targets.
ghost use Rattle.std.specs.Prelude.{◌≡◌};
ghost use Rattle.std.specs.Option.{option_copied};
ghost use Rattle.fw_act.specs.Acts.{Reads};
ghost use Rattle.fw_dicts.specs.Targets.{policy_target, policy_target_text, policy_target_told, zone_target, zone_target_text, zone_target_told};

use fw_act::{Stop, refuse};
use fw_model::{Code, PolicyTarget, ZoneTarget};
use std::alloc::Global;

/// The target of a zone that a dict says; an absent one stays. Refuses a text that is no target.
#[tactic(auto, unfolding(crate::specs::Targets::zone_target_told))]
pub fn read_zone_target(
    alloc: Global,
    text: Option<&str>,
    target: ZoneTarget,
) -> Result<ZoneTarget, Stop>
    ensures { Reads result (zone_target_told target (option_copied text.entry)) }
{
    let Some(text) = text else {
        return Ok(target);
    };
    match zone_target(text) {
        Some(told) => Ok(told),
        None => Err(Stop::Refused(refuse(alloc, Code::InvalidTarget, text)?)),
    }
}

/// The target of a policy that a dict says, likewise.
#[tactic(auto, unfolding(crate::specs::Targets::policy_target_told))]
pub fn read_policy_target(
    alloc: Global,
    text: Option<&str>,
    target: PolicyTarget,
) -> Result<PolicyTarget, Stop>
    ensures { Reads result (policy_target_told target (option_copied text.entry)) }
{
    let Some(text) = text else {
        return Ok(target);
    };
    match policy_target(text) {
        Some(told) => Ok(told),
        None => Err(Stop::Refused(refuse(alloc, Code::InvalidTarget, text)?)),
    }
}

#[tactic(auto, unfolding(crate::specs::Targets::zone_target))]
fn zone_target(text: &str) -> Option<ZoneTarget>
    ensures { result ≡ zone_target text.now }
{
    match text {
        "default" => Some(ZoneTarget::Default),
        "ACCEPT" => Some(ZoneTarget::Accept),
        "%%REJECT%%" => Some(ZoneTarget::Reject),
        "DROP" => Some(ZoneTarget::Drop),
        _ => None,
    }
}

#[tactic(auto, unfolding(crate::specs::Targets::policy_target))]
fn policy_target(text: &str) -> Option<PolicyTarget>
    ensures { result ≡ policy_target text.now }
{
    match text {
        "CONTINUE" => Some(PolicyTarget::Continue),
        "ACCEPT" => Some(PolicyTarget::Accept),
        "REJECT" => Some(PolicyTarget::Reject),
        "DROP" => Some(PolicyTarget::Drop),
        _ => None,
    }
}

/// The text of a zone's target.
pub fn zone_target_text(target: ZoneTarget) -> &'static str
    ensures { result.now ≡ zone_target_text target }
{
    match target {
        ZoneTarget::Default => "default",
        ZoneTarget::Accept => "ACCEPT",
        ZoneTarget::Reject => "%%REJECT%%",
        ZoneTarget::Drop => "DROP",
    }
}

/// The text of a policy's target.
pub fn policy_target_text(target: PolicyTarget) -> &'static str
    ensures { result.now ≡ policy_target_text target }
{
    match target {
        PolicyTarget::Continue => "CONTINUE",
        PolicyTarget::Accept => "ACCEPT",
        PolicyTarget::Reject => "REJECT",
        PolicyTarget::Drop => "DROP",
    }
}
