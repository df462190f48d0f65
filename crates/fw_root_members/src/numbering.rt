//! The settings in force become the permanent ones.
ghost use Rattle.std.specs.Prelude.{◌≡◌, ℕ, List, position, IfOk, OnErr, OnOk};
ghost use Rattle.std.specs.Str.{bytes_eq};
ghost use Rattle.fw_root_members.specs.Numbering.{behind, lasting, number_of, numbered, policy_numbers, to_permanent_member, with_number, zone_numbers};

use fw_act::{Answer, replied};
use fw_base::{Memory, Seq, TryCopy};
use fw_calls::Reply;
use fw_model::{Config, Policy, Timed, Zone};
use fw_settings::Settings;
use fw_zone_edits::end_all;
use std::alloc::Global;

/// The numbers of objects by their places, and the next number.
#[derive(Drop)]
pub struct Numbers {
    pub numbers: Seq<u64>,
    pub next: u64,
}

/// Objects that have names and numbers.
trait Named {
    ghost name_of: { Self → List ℕ };

    fn name(&self) -> &str
        ensures { result.now ≡ name_of self.now };
}

impl Named for Zone {
    ghost name_of = { λ zone. zone.name };

    fn name(&self) -> &str {
        self.name.as_str()
    }
}

impl Named for Policy {
    ghost name_of = { λ policy. policy.name };

    fn name(&self) -> &str {
        self.name.as_str()
    }
}

fn place_of<T: Named>(objects: &[T], name: &str) -> Option<usize>
    ensures { result ≡ position (λ object. bytes_eq (T.name_of object) name.now) objects.now }
{
    objects.iter().position(|object| object.name() == name)
}

/// The number of the object of a name, of objects and their numbers.
fn number_of<T: Named>(objects: &[T], numbers: &[u64], name: &str) -> Option<u64>
    ensures { result ≡ number_of T.name_of objects.now numbers.now name.now }
{
    match place_of(objects, name) {
        Some(place) => numbers.get(place).copied(),
        None => None,
    }
}

/// The next number but one; the last number stays.
fn behind(number: u64) -> u64
    ensures { result ≡ behind number }
{
    number.saturating_add(1)
}

/// Numbers an object more: it keeps its number, or gets the next.
fn number_one(so_far: &mut Numbers, number: Option<u64>) -> Result<(), Memory>
    ensures { OnOk result (so_far.new ≡ with_number so_far.old number) }
{
    match number {
        Some(number) => so_far.numbers.push(number),
        None => {
            so_far.numbers.push(so_far.next)?;
            so_far.next = behind(so_far.next);
            Ok(())
        }
    }
}

/// The numbers of new objects, by those of old ones.
fn numbered<T: Named>(
    alloc: Global,
    objects: &[T],
    numbers: &[u64],
    next: u64,
    new: &[T],
) -> Result<Numbers, Memory>
    ensures { IfOk result (λ made. made ≡ numbered T.name_of objects.now numbers.now next new.now) }
{
    let mut made = Numbers {
        numbers: Seq::new(alloc),
        next,
    };
    for object in new {
        number_one(&mut made, number_of(objects, numbers, object.name()))?;
    }
    Ok(made)
}

/// The numbers of the zones in force, as they will be the permanent ones.
fn zone_numbers(alloc: Global, settings: &Settings) -> Result<Numbers, Memory>
    ensures { IfOk result (λ made. made ≡ zone_numbers settings.entry.now) }
{
    numbered(
        alloc,
        settings.permanent.zones.as_slice(),
        settings.zone_ids.as_slice(),
        settings.next_zone,
        settings.runtime.config.zones.as_slice(),
    )
}

/// Those of the policies in force.
fn policy_numbers(alloc: Global, settings: &Settings) -> Result<Numbers, Memory>
    ensures { IfOk result (λ made. made ≡ policy_numbers settings.entry.now) }
{
    numbered(
        alloc,
        settings.permanent.policies.as_slice(),
        settings.policy_ids.as_slice(),
        settings.next_policy,
        settings.runtime.config.policies.as_slice(),
    )
}

/// A configuration in which all that ends by itself ended.
fn lasting(alloc: Global, config: &Config, timers: &[Timed]) -> Result<Config, Memory>
    ensures { IfOk result (λ made. made ≡ lasting config.now timers.now) }
{
    let mut made = config.copy(alloc)?;
    end_all(&mut made.zones, timers);
    Ok(made)
}

/// `runtimeToPermanent`: the settings in force become the permanent ones, but for those that end by themselves. Zones and policies keep
/// their numbers; new ones get the next.
///
/// Refuses for want of memory alone; nothing changes then.
#[tactic(auto, unfolding(crate::specs::Numbering::to_permanent))]
pub fn to_permanent_member(alloc: Global, settings: &mut Settings) -> Result<Answer, Memory>
    ensures acts { IfOk result (λ answer. to_permanent_member settings.old ≡ record { signals = answer.signals; reply = answer.reply; after = settings.new }) }
    ensures err { OnErr result (settings.new ≡ settings.old) }
{
    let zones = zone_numbers(alloc, settings)?;
    let policies = policy_numbers(alloc, settings)?;
    let config = lasting(alloc, &settings.runtime.config, settings.timers.as_slice())?;
    settings.permanent = config;
    settings.zone_ids = zones.numbers;
    settings.next_zone = zones.next;
    settings.policy_ids = policies.numbers;
    settings.next_policy = policies.next;
    Ok(replied(alloc, Reply::None))
}
