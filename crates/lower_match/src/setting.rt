//! The alternatives of a setting.
ghost use Rattle.std.specs.Prelude.{IfOk};
ghost use Rattle.lower_match.specs.Lowers.{Lowers};
ghost use Rattle.lower_match.specs.Stands.{Stand};

use crate::alternatives::{alone, both, port_test, source_port_test};
use crate::icmp::icmp_matches;
use crate::rich::rich_matches;
use crate::service::service_matches;
use fw_addr::Family;
use fw_base::{Memory, Seq};
use fw_model::{IpSet, Service, Setting};
use nf_rules::{Match, Test};
use std::alloc::Global;

/// The alternatives of a setting, with the services and ipsets of its configuration: it is about a packet exactly where all
/// matches of one alternative hold, in every ruleset in which each ipset stands as the set `ipset_` and its name. They
/// look up no other sets.
///
/// Refuses for want of memory alone.
pub fn matches_of(
    alloc: Global,
    setting: &Setting,
    services: &[Service],
    ipsets: &[IpSet],
) -> Result<Seq<Seq<Match>>, Memory>
    ensures tells { IfOk result (λ alternatives. Lowers services.now ipsets.now setting.now alternatives) }
    ensures stand { IfOk result (Stand ipsets.now) }
{
    match setting {
        Setting::Service(name) => service_matches(alloc, services, name.as_str()),
        Setting::Port(port) => alone(alloc, port_test(port)),
        Setting::Protocol(protocol) => alone(alloc, Test::Proto(*protocol)),
        Setting::SourcePort(port) => alone(alloc, source_port_test(port)),
        Setting::IcmpBlock(name) => icmp_matches(alloc, name.as_str()),
        Setting::Masquerade => alone(alloc, Test::Family(Family::V4)),
        Setting::Forward(forward) => both(
            alloc,
            Test::Family(Family::V4),
            port_test(&forward.port),
        ),
        Setting::Rich(rule) => rich_matches(alloc, rule, services, ipsets),
    }
}
