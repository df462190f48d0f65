//! Members on a policy of the permanent settings.
ghost use Rattle.std.specs.Prelude.{◌≡◌, ◌<◌, length, slice_set, OnErr};
ghost use Rattle.fw_act.specs.Acts.{Acts};
ghost use Rattle.fw_object_members.specs.Policies.{policy_settings_member, remove_policy_member, update_policy_member, with_policy_at, without_policy_at};

use super::object::find_policy;
use fw_act::{Answer, Stop, replied};
use fw_base::{Seq, TryCopy};
use fw_calls::{Dict, Reply};
use fw_dicts::read_policy;
use fw_model::Policy;
use fw_settings::Settings;
use std::alloc::Global;

/// `getSettings`: all settings of a permanent policy. Refuses a number that no policy has.
#[tactic(auto, unfolding(crate::specs::Policies::policy_settings_member))]
pub fn policy_settings_member(
    alloc: Global,
    settings: &Settings,
    number: u64,
) -> Result<Answer, Stop>
    ensures { Acts settings.entry.now result (policy_settings_member settings.entry.now number) }
{
    let found = find_policy(alloc, settings, number)?;
    let policy = found.policy.copy(alloc)?;
    Ok(replied(alloc, Reply::PolicySettings(policy)))
}

/// `update`: a dict makes another policy of a permanent policy, which keeps its name, its place and its number; there is no signal.
///
/// Refuses a number that no policy has, and what `read_policy` refuses; nothing changes then.
#[tactic(auto, unfolding(crate::specs::Policies::update_policy_member))]
pub fn update_policy_member(
    alloc: Global,
    settings: &mut Settings,
    number: u64,
    dict: &Dict,
) -> Result<Answer, Stop>
    ensures acts { Acts settings.new result (update_policy_member settings.old number dict.now) }
    ensures err { OnErr result (settings.new ≡ settings.old) }
{
    let found = find_policy(alloc, settings, number)?;
    let place = found.place;
    let policy = read_policy(alloc, &settings.permanent, found.policy, dict)?;
    put_policy(settings, place, policy);
    Ok(replied(alloc, Reply::None))
}

/// `remove`: a policy goes from the permanent settings, with its number, which isn't given again; there is no signal.
///
/// Refuses a number that no policy has; nothing changes then.
#[tactic(auto, unfolding(crate::specs::Policies::remove_policy_member))]
pub fn remove_policy_member(
    alloc: Global,
    settings: &mut Settings,
    number: u64,
) -> Result<Answer, Stop>
    ensures acts { Acts settings.new result (remove_policy_member settings.old number) }
    ensures err { OnErr result (settings.new ≡ settings.old) }
{
    let found = find_policy(alloc, settings, number)?;
    let place = found.place;
    remove_policy(settings, place);
    Ok(replied(alloc, Reply::None))
}

/// Another policy at a place.
#[tactic(auto, unfolding(crate::specs::Policies::with_policy_at))]
fn put_policy(settings: &mut Settings, place: usize, policy: Policy)
    requires { place < length settings.old.permanent.policies }
    ensures { settings.new ≡ with_policy_at settings.old place policy }
{
    put(&mut settings.permanent.policies, place, policy);
}

fn put(policies: &mut Seq<Policy>, place: usize, policy: Policy)
    requires { place < length policies.old }
    ensures { policies.new ≡ slice_set policies.old place policy }
{
    *policies.get_mut(place) = policy;
}

/// Takes out the policy at a place, and its number.
#[tactic(auto, unfolding(crate::specs::Policies::without_policy_at))]
fn remove_policy(settings: &mut Settings, place: usize)
    requires within { place < length settings.old.permanent.policies }
    requires numbered { place < length settings.old.policy_ids }
    ensures { settings.new ≡ without_policy_at settings.old place }
{
    let _ = settings.permanent.policies.remove(place);
    let _ = settings.policy_ids.remove(place);
}
