//! Numbers that the program has are in their ranges. The functions here are laws: their clauses are all of them.
ghost use Rattle.fw_machine_law.specs.Ranges.{AreInRange, CanBeTold, IsCallInRange, IsInRange, IsZoneInRange};

use fw_calls::{Call, Event, ZoneCall};
use fw_kept_valid::verbs_are_timed;
use fw_settings::Settings;

/// The numbers of the next zone and of the next policy are of 64 bits.
pub fn settings_are_in_range(settings: &Settings)
    ensures { AreInRange settings.entry.now }
{
    prove!(settings.next_zone <= u64::MAX && settings.next_policy <= u64::MAX);
}

/// Timeouts are of 32 bits.
#[tactic(auto, unfolding(crate::specs::Ranges::IsZoneInRange))]
fn zone_calls_are_in_range(call: &ZoneCall)
    ensures { IsZoneInRange call.now }
{
    match call {
        ZoneCall::Setting { verb, .. } => verbs_are_timed(*verb),
        ZoneCall::Inversion { .. } => {}
        ZoneCall::Binding { .. } => {}
        ZoneCall::ZoneOf { .. } => {}
        ZoneCall::Zones => {}
        ZoneCall::ActiveZones => {}
        ZoneCall::Settings { .. } => {}
        ZoneCall::SetSettings { .. } => {}
    }
}

#[tactic(auto, unfolding(crate::specs::Ranges::IsCallInRange))]
fn calls_are_in_range(call: &Call)
    ensures { IsCallInRange call.now }
{
    match call {
        Call::Zone(zone) => zone_calls_are_in_range(zone),
        Call::Policy(_) => {}
        Call::Ipset(_) => {}
        Call::Root(_) => {}
        Call::Config(_) => {}
        Call::ConfigZone { .. } => {}
        Call::ConfigPolicy { .. } => {}
    }
}

/// An event is in range, unless it tells a time that is too late.
#[tactic(auto, unfolding(crate::specs::Ranges::IsInRange, crate::specs::Ranges::CanBeTold))]
pub fn events_are_in_range(event: &Event)
    requires { CanBeTold event.now }
    ensures { IsInRange event.now }
{
    match event {
        Event::Open => {}
        Event::Call { call, .. } => calls_are_in_range(call),
        Event::Tick { .. } => {}
        Event::Link { .. } => {}
        Event::Shut { .. } => {}
    }
}
