//! Permanent zones and policies by their numbers.
ghost use Rattle.std.specs.Prelude.{◌≡◌, ◌<◌, None, Ok, Some, length, slice_get, IfOk, IfSome, MatchOption, MatchResult};
ghost use Rattle.std.specs.Fmt.{decimal};
ghost use Rattle.fw_act.specs.Acts.{Stops};
ghost use Rattle.fw_object_members.specs.Objects.{place_of, policy_meant, policy_numbered, zone_meant, zone_numbered};

use fw_act::{Stop, refuse};
use fw_base::{Memory, Text};
use fw_calls::Refusal;
use fw_model::{Code, Policy};
use fw_settings::Settings;
use fw_zone_edits::FoundZone;
use std::alloc::Global;

/// A policy, and its place in the list of policies.
#[derive(Clone, Copy)]
pub struct FoundPolicy<'a> {
    pub place: usize,
    pub policy: &'a Policy,
}

/// The permanent zone with a number. Refuses a number that none has.
#[tactic(auto, unfolding(crate::specs::Objects::zone_meant))]
pub fn find_zone<'a>(
    alloc: Global,
    settings: &'a Settings,
    number: u64,
) -> Result<FoundZone<'a>, Stop>
    ensures found { MatchResult result
        (λ found. zone_meant settings.entry.now number ≡ Ok (record { place = found.place; zone = found.zone.now }))
        (λ stop. Stops stop (zone_meant settings.entry.now number)) }
    ensures at { IfOk result (λ found. slice_get settings.entry.now.permanent.zones found.place ≡ Some found.zone.now) }
    ensures within { IfOk result (λ found. found.place < length settings.entry.now.permanent.zones) }
    ensures numbered { IfOk result (λ found. found.place < length settings.entry.now.zone_ids) }
{
    match zone_numbered(settings, number) {
        Some(found) => Ok(found),
        None => Err(Stop::Refused(refuse_number(alloc, Code::InvalidZone, number)?)),
    }
}

fn zone_numbered(settings: &Settings, number: u64) -> Option<FoundZone<'_>>
    ensures found { MatchOption result (zone_numbered settings.entry.now number ≡ None)
        (λ found. zone_numbered settings.entry.now number ≡ Some (record { place = found.place; zone = found.zone.now })) }
    ensures at { IfSome result (λ found. slice_get settings.entry.now.permanent.zones found.place ≡ Some found.zone.now) }
    ensures within { IfSome result (λ found. found.place < length settings.entry.now.permanent.zones) }
    ensures numbered { IfSome result (λ found. found.place < length settings.entry.now.zone_ids) }
{
    let place = place_of(settings.zone_ids.as_slice(), number)?;
    let zone = settings.permanent.zones.as_slice().get(place)?;
    Some(FoundZone { place, zone })
}

/// The permanent policy with a number. Refuses a number that none has.
#[tactic(auto, unfolding(crate::specs::Objects::policy_meant))]
pub fn find_policy<'a>(
    alloc: Global,
    settings: &'a Settings,
    number: u64,
) -> Result<FoundPolicy<'a>, Stop>
    ensures found { MatchResult result
        (λ found. policy_meant settings.entry.now number ≡ Ok (record { place = found.place; policy = found.policy.now }))
        (λ stop. Stops stop (policy_meant settings.entry.now number)) }
    ensures at { IfOk result (λ found. slice_get settings.entry.now.permanent.policies found.place ≡ Some found.policy.now) }
    ensures within { IfOk result (λ found. found.place < length settings.entry.now.permanent.policies) }
    ensures numbered { IfOk result (λ found. found.place < length settings.entry.now.policy_ids) }
{
    match policy_numbered(settings, number) {
        Some(found) => Ok(found),
        None => Err(Stop::Refused(refuse_number(alloc, Code::InvalidPolicy, number)?)),
    }
}

fn policy_numbered(settings: &Settings, number: u64) -> Option<FoundPolicy<'_>>
    ensures found { MatchOption result (policy_numbered settings.entry.now number ≡ None)
        (λ found. policy_numbered settings.entry.now number ≡ Some (record { place = found.place; policy = found.policy.now })) }
    ensures at { IfSome result (λ found. slice_get settings.entry.now.permanent.policies found.place ≡ Some found.policy.now) }
    ensures within { IfSome result (λ found. found.place < length settings.entry.now.permanent.policies) }
    ensures numbered { IfSome result (λ found. found.place < length settings.entry.now.policy_ids) }
{
    let place = place_of(settings.policy_ids.as_slice(), number)?;
    let policy = settings.permanent.policies.as_slice().get(place)?;
    Some(FoundPolicy { place, policy })
}

/// The first place of a number.
fn place_of(numbers: &[u64], number: u64) -> Option<usize>
    ensures found { result ≡ place_of numbers.now number }
    ensures within { IfSome result (λ place. place < length numbers.now) }
{
    numbers.iter().position(|listed| *listed == number)
}

/// A refusal of an object by its number.
pub fn refuse_number(alloc: Global, code: Code, number: u64) -> Result<Refusal, Memory>
    ensures { IfOk result (λ refusal. refusal ≡ record { code = code; subject = decimal number }) }
{
    let text = Text::from_string(format!(in alloc; "{number}")?);
    refuse(alloc, code, text.as_str())
}
