//! Values that are told by one of a few names.
ghost use Rattle.std.specs.Prelude.{◌≡◌};
ghost use Rattle.fw_load.specs.Values.{family_names, kind_names, log_denied_names, policy_target_names, text_by, zone_target_names};
ghost use Rattle.fw_text.specs.Names.{named};

use crate::stop::{Stop, or_fault};
use crate::told::Told;
use fw_addr::Family;
use fw_model::{LogDenied, PolicyTarget, SetKind, ZoneTarget};
use serde_json::Value;
use std::alloc::Global;

impl Told for LogDenied {
    ghost reading = { text_by (named log_denied_names) };

    fn read(alloc: Global, value: &Value) -> Result<LogDenied, Stop> {
        or_fault(alloc, value.as_str().and_then(log_denied))
    }
}

#[tactic(auto, unfolding(crate::specs::Values::log_denied_names))]
fn log_denied(text: &str) -> Option<LogDenied>
    ensures { result ≡ named log_denied_names text.now }
{
    match text {
        "off" => Some(LogDenied::Off),
        "all" => Some(LogDenied::All),
        "unicast" => Some(LogDenied::Unicast),
        "broadcast" => Some(LogDenied::Broadcast),
        "multicast" => Some(LogDenied::Multicast),
        _ => None,
    }
}

impl Told for ZoneTarget {
    ghost reading = { text_by (named zone_target_names) };

    fn read(alloc: Global, value: &Value) -> Result<ZoneTarget, Stop> {
        or_fault(alloc, value.as_str().and_then(zone_target))
    }
}

fn zone_target(text: &str) -> Option<ZoneTarget>
    ensures { result ≡ named zone_target_names text.now }
{
    match text {
        "default" => Some(ZoneTarget::Default),
        "ACCEPT" => Some(ZoneTarget::Accept),
        "%%REJECT%%" => Some(ZoneTarget::Reject),
        "DROP" => Some(ZoneTarget::Drop),
        _ => None,
    }
}

impl Told for PolicyTarget {
    ghost reading = { text_by (named policy_target_names) };

    fn read(alloc: Global, value: &Value) -> Result<PolicyTarget, Stop> {
        or_fault(alloc, value.as_str().and_then(policy_target))
    }
}

fn policy_target(text: &str) -> Option<PolicyTarget>
    ensures { result ≡ named policy_target_names text.now }
{
    match text {
        "CONTINUE" => Some(PolicyTarget::Continue),
        "ACCEPT" => Some(PolicyTarget::Accept),
        "REJECT" => Some(PolicyTarget::Reject),
        "DROP" => Some(PolicyTarget::Drop),
        _ => None,
    }
}

impl Told for SetKind {
    ghost reading = { text_by (named kind_names) };

    fn read(alloc: Global, value: &Value) -> Result<SetKind, Stop> {
        or_fault(alloc, value.as_str().and_then(kind))
    }
}

fn kind(text: &str) -> Option<SetKind>
    ensures { result ≡ named kind_names text.now }
{
    match text {
        "hash:ip" => Some(SetKind::Ip),
        "hash:net" => Some(SetKind::Net),
        "hash:mac" => Some(SetKind::Mac),
        _ => None,
    }
}

impl Told for Family {
    ghost reading = { text_by (named family_names) };

    fn read(alloc: Global, value: &Value) -> Result<Family, Stop> {
        or_fault(alloc, value.as_str().and_then(family))
    }
}

fn family(text: &str) -> Option<Family>
    ensures { result ≡ named family_names text.now }
{
    match text {
        "inet" => Some(Family::V4),
        "inet6" => Some(Family::V6),
        _ => None,
    }
}
