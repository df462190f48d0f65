//! Calls by their interfaces.
ghost use Rattle.std.specs.Prelude.{◌≡◌, ◌≤◌, false};
ghost use Rattle.fw_act.specs.Acts.{Acts};
ghost use Rattle.fw_machine.specs.Asking.{Tells};
ghost use Rattle.fw_machine.specs.Machine.{asks, called, takes_none};
ghost use Rattle.fw_settings.specs.Valid.{last_time};
ghost use Rattle.fw_zone_members.specs.Flags.{Flags};

use super::configs::{ask_config, change_config};
use super::objects::{
    ask_policy_object, ask_zone_object, change_policy_object, change_zone_object,
};
use super::policies::{ask_policy, change_policy};
use super::roots::{ask_root, change_root, root_flag};
use super::zones::{ask_zone, change_zone, zone_flag};
use fw_act::{Answer, Stop};
use fw_calls::Call;
use fw_ipset_members::{ask_ipset, ipset_member};
use fw_settings::Settings;
use std::alloc::Global;

/// The flag that a call is told, where it is a query that takes no memory and isn't refused.
#[tactic(auto, unfolding(crate::specs::Machine::called, crate::specs::Machine::takes_none))]
pub fn flag(settings: &Settings, call: &Call) -> Option<bool>
    ensures { Flags settings.entry.now (takes_none call.now) result (called settings.entry.now call.now) }
{
    match call {
        Call::Zone(call) => zone_flag(settings, call),
        Call::Root(call) => root_flag(settings, call),
        Call::Policy(_)
        | Call::Ipset(_)
        | Call::Config(_)
        | Call::ConfigZone { .. }
        | Call::ConfigPolicy { .. } => None,
    }
}

/// What a call is told, where it only asks. Nothing is copied but what it is told.
#[tactic(auto, unfolding(crate::specs::Machine::called, crate::specs::Machine::asks))]
pub fn ask(alloc: Global, settings: &Settings, call: &Call) -> Result<Option<Answer>, Stop>
    ensures { Tells settings.entry.now (asks call.now) result (called settings.entry.now call.now) }
{
    match call {
        Call::Zone(call) => ask_zone(alloc, settings, call),
        Call::Policy(call) => ask_policy(alloc, settings, call),
        Call::Ipset(call) => ask_ipset(alloc, settings, call),
        Call::Root(call) => ask_root(alloc, settings, call),
        Call::Config(call) => ask_config(alloc, settings, call),
        Call::ConfigZone { number, call } => ask_zone_object(alloc, settings, *number, call),
        Call::ConfigPolicy { number, call } => ask_policy_object(alloc, settings, *number, call),
    }
}

/// Carries out a call that doesn't only ask. After a refusal the settings may be anything.
#[tactic(auto, unfolding(crate::specs::Machine::called, crate::specs::Machine::asks))]
pub fn change(alloc: Global, settings: &mut Settings, call: &Call) -> Result<Answer, Stop>
    requires change { asks call.now ≡ false }
    requires now { settings.old.now ≤ last_time }
    ensures { Acts settings.new result (called settings.old call.now) }
{
    match call {
        Call::Zone(call) => change_zone(alloc, settings, call),
        Call::Policy(call) => change_policy(alloc, settings, call),
        Call::Ipset(call) => ipset_member(alloc, settings, call),
        Call::Root(call) => change_root(alloc, settings, call),
        Call::Config(call) => change_config(alloc, settings, call),
        Call::ConfigZone { number, call } => change_zone_object(alloc, settings, *number, call),
        Call::ConfigPolicy { number, call } => change_policy_object(alloc, settings, *number, call),
    }
}
