//! The alternatives of services, with all that they include.
ghost use Rattle.std.specs.Prelude.{◌≡◌, ◌++◌, ℕ, List, Option, IfOk, OnOk};
ghost use Rattle.std.specs.List.{flat_map};
ghost use Rattle.fw_model.specs.declared.packet.Packet.{Packet};
ghost use Rattle.fw_hits.specs.Services.{service_hits};
ghost use Rattle.lower_match.specs.Forms.{at_end, at_ends, destination, each_at, ends, member_alternatives, place_alternatives, port_test, source_port_test};
ghost use Rattle.lower_match.specs.Lowers.{one_holds};
ghost use Rattle.lower_match.specs.Stands.{StandAnywhere};
ghost use Rattle.nf_rules.specs.declared.set.NfSet.{NfSet};
ghost use Rattle.nf_rules.specs.declared.test.Test.TheVariants as test;

use crate::alternatives::{of_one, of_two, port_test, source_port_test};
use fw_addr::{Family, Net, Proto};
use fw_base::{Memory, Seq, TryCopy};
use fw_closure::{chains_are_short, closure};
use fw_model::{Port, Service};
use nf_rules::{Match, Test};
use std::alloc::Global;

/// The alternatives of the service of a name and of all to which its includes lead (firewalld.service(5)): one for each port,
/// protocol and source port at each destination.
pub fn service_matches(
    alloc: Global,
    services: &[Service],
    name: &str,
) -> Result<Seq<Seq<Match>>, Memory>
    ensures tells { IfOk result (λ alternatives. (leaving : Option (List ℕ)) (sets : List NfSet) (packet : Packet)
        → service_hits services.now name.now packet ≡ one_holds leaving sets packet alternatives) }
    ensures stand { IfOk result StandAnywhere }
{
    chains_are_short();
    let places = closure(alloc, services, name)?;
    matches_at(alloc, services, &places)
}

/// The alternatives of the services at some places.
fn matches_at(
    alloc: Global,
    services: &[Service],
    places: &[usize],
) -> Result<Seq<Seq<Match>>, Memory>
    ensures { IfOk result (λ alternatives. alternatives ≡ flat_map (place_alternatives services.now) places.now) }
{
    let mut alternatives = Seq::new(alloc);
    for place in places {
        push_place(alloc, services, *place, &mut alternatives)?;
    }
    Ok(alternatives)
}

fn push_place(
    alloc: Global,
    services: &[Service],
    place: usize,
    alternatives: &mut Seq<Seq<Match>>,
) -> Result<(), Memory>
    ensures { OnOk result (alternatives.new ≡ alternatives.old ++ place_alternatives services.now place) }
{
    match services.get(place) {
        Some(service) => push_member(alloc, service, alternatives),
        None => Ok(()),
    }
}

/// Appends the alternatives of one service, without those that it includes.
fn push_member(
    alloc: Global,
    service: &Service,
    alternatives: &mut Seq<Seq<Match>>,
) -> Result<(), Memory>
    ensures { OnOk result (alternatives.new ≡ alternatives.old ++ member_alternatives service.now) }
{
    let ends = ends(alloc, service)?;
    let ends = ends.as_slice();
    push_ports(alloc, service.ports.as_slice(), ends, alternatives)?;
    push_protocols(alloc, service.protocols.as_slice(), ends, alternatives)?;
    push_source_ports(alloc, service.source_ports.as_slice(), ends, alternatives)
}

/// Where the packets of a service go: each of its destinations, or anywhere (None) where it has no destination.
fn ends(alloc: Global, service: &Service) -> Result<Seq<Option<Net>>, Memory>
    ensures { IfOk result (λ places. places ≡ ends service.now) }
{
    let mut ends = Seq::new(alloc);
    if service.v4.is_none() && service.v6.is_none() {
        ends.push(None)?;
    } else {
        push_destination(Family::V4, service.v4, &mut ends)?;
        push_destination(Family::V6, service.v6, &mut ends)?;
    }
    Ok(ends)
}

/// Appends a destination of a family. A net of the other family holds no packet of this one.
fn push_destination(
    family: Family,
    net: Option<Net>,
    ends: &mut Seq<Option<Net>>,
) -> Result<(), Memory>
    ensures { OnOk result (ends.new ≡ ends.old ++ destination family net) }
{
    match net {
        Some(net) if net.addr().family() == family => ends.push(Some(net)),
        _ => Ok(()),
    }
}

fn push_ports(
    alloc: Global,
    ports: &[Port],
    ends: &[Option<Net>],
    alternatives: &mut Seq<Seq<Match>>,
) -> Result<(), Memory>
    ensures { OnOk result (alternatives.new ≡ alternatives.old ++ each_at ends.now port_test ports.now) }
{
    for port in ports {
        push_at_ends(alloc, &port_test(port), ends, alternatives)?;
    }
    Ok(())
}

fn push_protocols(
    alloc: Global,
    protocols: &[Proto],
    ends: &[Option<Net>],
    alternatives: &mut Seq<Seq<Match>>,
) -> Result<(), Memory>
    ensures { OnOk result (alternatives.new ≡ alternatives.old ++ each_at ends.now test.Proto protocols.now) }
{
    for protocol in protocols {
        push_at_ends(alloc, &Test::Proto(*protocol), ends, alternatives)?;
    }
    Ok(())
}

fn push_source_ports(
    alloc: Global,
    ports: &[Port],
    ends: &[Option<Net>],
    alternatives: &mut Seq<Seq<Match>>,
) -> Result<(), Memory>
    ensures { OnOk result (alternatives.new ≡ alternatives.old ++ each_at ends.now source_port_test ports.now) }
{
    for port in ports {
        push_at_ends(alloc, &source_port_test(port), ends, alternatives)?;
    }
    Ok(())
}

/// Appends a test at each place where packets go.
fn push_at_ends(
    alloc: Global,
    test: &Test,
    ends: &[Option<Net>],
    alternatives: &mut Seq<Seq<Match>>,
) -> Result<(), Memory>
    ensures { OnOk result (alternatives.new ≡ alternatives.old ++ at_ends ends.now test.now) }
{
    for end in ends {
        alternatives.push(at_end(alloc, test, end)?)?;
    }
    Ok(())
}

/// A test, and the destination where there is one.
fn at_end(alloc: Global, test: &Test, end: &Option<Net>) -> Result<Seq<Match>, Memory>
    ensures { IfOk result (λ matches. matches ≡ at_end test.now end.now) }
{
    let test = test.copy(alloc)?;
    match end {
        Some(net) => of_two(alloc, test, Test::Dst(*net)),
        None => of_one(alloc, test),
    }
}
