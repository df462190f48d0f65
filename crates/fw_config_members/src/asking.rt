//! Members that ask which zones and policies the permanent settings have.
ghost use Rattle.std.specs.Prelude.{◌≡◌, map, IfOk};
ghost use Rattle.fw_act.specs.Acts.{Acts, Reads, found_or};
ghost use Rattle.fw_config_members.specs.Asking.{policy_by_name_member, policy_names_member, zone_by_name_member, zone_names_member};

use super::named::{policy_number, zone_number};
use super::paths::{policy_path, zone_path};
use fw_act::{Answer, Stop, refuse, replied};
use fw_base::{Memory, Seq, Text};
use fw_calls::Reply;
use fw_model::{Code, Policy, Zone};
use fw_settings::Settings;
use std::alloc::Global;

/// `getZoneNames`: the names of the permanent zones, as they are listed.
pub fn zone_names_member(alloc: Global, settings: &Settings) -> Result<Answer, Memory>
    ensures { IfOk result (λ answer. zone_names_member settings.entry.now ≡ record { signals = answer.signals; reply = answer.reply; after = settings.entry.now }) }
{
    let names = zone_names(alloc, settings.permanent.zones.as_slice())?;
    Ok(replied(alloc, Reply::Texts(names)))
}

/// `getPolicyNames`: the names of the permanent policies, as they are listed.
pub fn policy_names_member(alloc: Global, settings: &Settings) -> Result<Answer, Memory>
    ensures { IfOk result (λ answer. policy_names_member settings.entry.now ≡ record { signals = answer.signals; reply = answer.reply; after = settings.entry.now }) }
{
    let names = policy_names(alloc, settings.permanent.policies.as_slice())?;
    Ok(replied(alloc, Reply::Texts(names)))
}

/// `getZoneByName`: the path of a permanent zone's object. Refuses an unknown zone, the empty name too.
#[tactic(auto, unfolding(crate::specs::Asking::zone_by_name_member))]
pub fn zone_by_name_member(alloc: Global, settings: &Settings, zone: &str) -> Result<Answer, Stop>
    ensures { Acts settings.entry.now result (zone_by_name_member settings.entry.now zone.now) }
{
    let number = known(alloc, zone_number(settings, zone), Code::InvalidZone, zone)?;
    let path = zone_path(alloc, number)?;
    Ok(replied(alloc, Reply::Path(path)))
}

/// `getPolicyByName`: the path of a permanent policy's object. Refuses an unknown policy.
#[tactic(auto, unfolding(crate::specs::Asking::policy_by_name_member))]
pub fn policy_by_name_member(
    alloc: Global,
    settings: &Settings,
    policy: &str,
) -> Result<Answer, Stop>
    ensures { Acts settings.entry.now result (policy_by_name_member settings.entry.now policy.now) }
{
    let number = known(
        alloc,
        policy_number(settings, policy),
        Code::InvalidPolicy,
        policy,
    )?;
    let path = policy_path(alloc, number)?;
    Ok(replied(alloc, Reply::Path(path)))
}

/// A number that was found; where none was, the name is refused.
fn known(alloc: Global, found: Option<u64>, code: Code, name: &str) -> Result<u64, Stop>
    ensures { Reads result (found_or code name.now found) }
{
    match found {
        Some(number) => Ok(number),
        None => Err(Stop::Refused(refuse(alloc, code, name)?)),
    }
}

fn zone_names(alloc: Global, zones: &[Zone]) -> Result<Seq<Text>, Memory>
    ensures { IfOk result (λ names. names ≡ map (λ zone. zone.name) zones.now) }
{
    let mut names = Seq::new(alloc);
    for zone in zones {
        names.push(Text::of(alloc, zone.name.as_str())?)?;
    }
    Ok(names)
}

fn policy_names(alloc: Global, policies: &[Policy]) -> Result<Seq<Text>, Memory>
    ensures { IfOk result (λ names. names ≡ map (λ policy. policy.name) policies.now) }
{
    let mut names = Seq::new(alloc);
    for policy in policies {
        names.push(Text::of(alloc, policy.name.as_str())?)?;
    }
    Ok(names)
}
