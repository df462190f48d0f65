//! Members that add a zone or a policy to the permanent settings.
ghost use Rattle.std.specs.Prelude.{◌≡◌, OnOk};
ghost use Rattle.fw_act.specs.Acts.{Acts, Keeps, Reads};
ghost use Rattle.fw_config_members.specs.Adding.{add_policy_member, add_zone_member, added_policy, added_zone, has_policy, has_zone, may_name_zone, with_policy, with_zone};

use super::named::policy_place;
use super::paths::{policy_path, zone_path};
use fw_act::{Answer, Stop, replied, require};
use fw_addr::is_well_formed_name;
use fw_base::Memory;
use fw_calls::{Dict, Reply};
use fw_dicts::{new_policy, new_zone, read_policy, read_zone};
use fw_model::{Code, Config, Policy, Zone};
use fw_settings::Settings;
use fw_zone_edits::zone_named;
use std::alloc::Global;

/// `addZone2`: a zone more in the permanent settings, behind the others, with the settings of a dict; an absent key gives its default.
/// The answer is the path of its object, which has the next number; there is no signal.
///
/// Refuses, in this order, a name that isn't well formed or is `HOST` or `ANY`, a name that a permanent zone has, and what `read_zone`
/// refuses; nothing changes then.
#[tactic(auto, unfolding(crate::specs::Adding::add_zone_member))]
pub fn add_zone_member(
    alloc: Global,
    settings: &mut Settings,
    name: &str,
    dict: &Dict,
) -> Result<Answer, Stop>
    ensures acts { Acts settings.new result (add_zone_member settings.old name.now dict.now) }
    ensures kept { Keeps settings.old settings.new result }
{
    let zone = read_added_zone(alloc, &settings.permanent, name, dict)?;
    let path = zone_path(alloc, settings.next_zone)?;
    push_zone(settings, zone)?;
    Ok(replied(alloc, Reply::Path(path)))
}

/// `addPolicy`: a policy more in the permanent settings, behind the others, with the settings of a dict; an absent key gives its default.
/// The answer is the path of its object, which has the next number; there is no signal.
///
/// Refuses, in this order, a name that isn't well formed, a name that a permanent policy has, and what `read_policy` refuses; nothing
/// changes then.
#[tactic(auto, unfolding(crate::specs::Adding::add_policy_member))]
pub fn add_policy_member(
    alloc: Global,
    settings: &mut Settings,
    name: &str,
    dict: &Dict,
) -> Result<Answer, Stop>
    ensures acts { Acts settings.new result (add_policy_member settings.old name.now dict.now) }
    ensures kept { Keeps settings.old settings.new result }
{
    let policy = read_added_policy(alloc, &settings.permanent, name, dict)?;
    let path = policy_path(alloc, settings.next_policy)?;
    push_policy(settings, policy)?;
    Ok(replied(alloc, Reply::Path(path)))
}

/// The zone that a name and a dict say, beside those that there are.
#[tactic(auto, unfolding(crate::specs::Adding::added_zone))]
fn read_added_zone(alloc: Global, config: &Config, name: &str, dict: &Dict) -> Result<Zone, Stop>
    ensures { Reads result (added_zone config.now name.now dict.now) }
{
    require(alloc, may_name_zone(name), Code::InvalidName, name)?;
    require(alloc, !has_zone(config, name), Code::NameConflict, name)?;
    let zone = new_zone(alloc, name)?;
    read_zone(alloc, config, &[], config.zones.as_slice(), &zone, dict)
}

/// The policy that a name and a dict say, beside those that there are.
#[tactic(auto, unfolding(crate::specs::Adding::added_policy))]
fn read_added_policy(
    alloc: Global,
    config: &Config,
    name: &str,
    dict: &Dict,
) -> Result<Policy, Stop>
    ensures { Reads result (added_policy config.now name.now dict.now) }
{
    require(alloc, is_well_formed_name(name), Code::InvalidName, name)?;
    require(alloc, !has_policy(config, name), Code::NameConflict, name)?;
    let policy = new_policy(alloc, name)?;
    read_policy(alloc, config, &policy, dict)
}

/// Whether a zone may have a name: it is well formed, and means neither the host nor every zone.
fn may_name_zone(name: &str) -> bool
    ensures { result ≡ may_name_zone name.now }
{
    is_well_formed_name(name) && name != "HOST" && name != "ANY"
}

fn has_zone(config: &Config, name: &str) -> bool
    ensures { result ≡ has_zone config.now name.now }
{
    zone_named(config.zones.as_slice(), name).is_some()
}

fn has_policy(config: &Config, name: &str) -> bool
    ensures { result ≡ has_policy config.now name.now }
{
    policy_place(config.policies.as_slice(), name).is_some()
}

/// A zone more, behind the others; it gets the next number.
#[tactic(auto, unfolding(crate::specs::Adding::with_zone))]
fn push_zone(settings: &mut Settings, zone: Zone) -> Result<(), Memory>
    ensures { OnOk result (settings.new ≡ with_zone settings.old zone) }
{
    settings.permanent.zones.push(zone)?;
    settings.zone_ids.push(settings.next_zone)?;
    settings.next_zone = settings.next_zone.saturating_add(1);
    Ok(())
}

/// A policy more, behind the others; it gets the next number.
#[tactic(auto, unfolding(crate::specs::Adding::with_policy))]
fn push_policy(settings: &mut Settings, policy: Policy) -> Result<(), Memory>
    ensures { OnOk result (settings.new ≡ with_policy settings.old policy) }
{
    settings.permanent.policies.push(policy)?;
    settings.policy_ids.push(settings.next_policy)?;
    settings.next_policy = settings.next_policy.saturating_add(1);
    Ok(())
}
