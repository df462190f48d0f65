//! Which packets a service is about, with all that it includes (firewalld.service(5)).
ghost use Rattle.std.specs.Prelude.{◌≡◌, IfOk, slice_get};
ghost use Rattle.std.specs.List.{list_any};
ghost use Rattle.fw_hits.specs.Members.{any_member_hits, hits_among, is_hit, may_hit, own_hits};
ghost use Rattle.fw_hits.specs.Services.{allows_destination, destination_for, entries_match, goes_anywhere, holds, member_hits, service_hits};

use crate::hits::{any_port, any_protocol, any_source_port};
use crate::sources::is_v4;
use fw_addr::{Addr, Net};
use fw_base::{Memory, Text};
use fw_closure::{chains_are_short, closure};
use fw_model::{Packet, Service};
use std::alloc::Global;

/// Whether the service of a name, or one to which includes lead from there, is about a packet. Includes are followed only
/// where the service isn't about the packet by itself and some other one is, so that a service without includes takes no memory.
///
/// Refuses for want of memory alone.
pub fn service_hits(
    alloc: Global,
    services: &[Service],
    name: &str,
    packet: &Packet,
) -> Result<bool, Memory>
    ensures { IfOk result (λ hit. hit ≡ service_hits services.now name.now packet.now) }
{
    chains_are_short();
    if !may_hit(services, name, packet) {
        return Ok(false);
    }
    if own_hits(services, name, packet) {
        return Ok(true);
    }
    // No chain of includes can lead to a service that hits where none does.
    if !any_member_hits(services, packet) {
        return Ok(false);
    }
    let places = closure(alloc, services, name)?;
    Ok(hits_among(services, &places, packet))
}

/// Whether a service of the name is about the packet by itself, or includes others.
fn may_hit(services: &[Service], name: &str, packet: &Packet) -> bool
    ensures { result ≡ may_hit services.now name.now packet.now }
{
    services.iter().any(|service| {
        service.name.as_str() == name
            && (member_hits(service, packet) || !service.includes.as_slice().is_empty())
    })
}

/// Whether a service of the name is about the packet by itself.
fn own_hits(services: &[Service], name: &str, packet: &Packet) -> bool
    ensures { result ≡ own_hits services.now name.now packet.now }
{
    services.iter().any(|service| service.name.as_str() == name && member_hits(service, packet))
}

/// Whether any service is about the packet by itself.
fn any_member_hits(services: &[Service], packet: &Packet) -> bool
    ensures { result ≡ any_member_hits services.now packet.now }
{
    services.iter().any(|service| member_hits(service, packet))
}

/// Whether one of the services at some places is about the packet by itself.
fn hits_among(services: &[Service], places: &[usize], packet: &Packet) -> bool
    ensures { result ≡ hits_among services.now places.now packet.now }
{
    places.iter().any(|place| hits_at(services, *place, packet))
}

fn hits_at(services: &[Service], place: usize, packet: &Packet) -> bool
    ensures { result ≡ is_hit packet.now (slice_get services.now place) }
{
    match services.get(place) {
        Some(service) => member_hits(service, packet),
        None => false,
    }
}

/// Whether a service is about a packet by itself.
fn member_hits(service: &Service, packet: &Packet) -> bool
    ensures { result ≡ member_hits service.now packet.now }
{
    entries_match(service, packet) && allows_destination(service, packet.dst)
}

/// Whether one of a service's ports, protocols and source ports matches.
fn entries_match(service: &Service, packet: &Packet) -> bool
    ensures { result ≡ entries_match service.now packet.now }
{
    any_port(service.ports.as_slice(), packet)
        || any_protocol(service.protocols.as_slice(), packet)
        || any_source_port(service.source_ports.as_slice(), packet)
}

/// Whether a service has no destination, or one of the address's family that holds it.
fn allows_destination(service: &Service, address: Addr) -> bool
    ensures { result ≡ allows_destination service.now address }
{
    goes_anywhere(service) || holds(destination_for(service, address), address)
}

fn goes_anywhere(service: &Service) -> bool
    ensures { result ≡ goes_anywhere service.now }
{
    service.v4.is_none() && service.v6.is_none()
}

fn destination_for(service: &Service, address: Addr) -> Option<Net>
    ensures { result ≡ destination_for service.now address }
{
    if is_v4(address) {
        service.v4
    } else {
        service.v6
    }
}

fn holds(destination: Option<Net>, address: Addr) -> bool
    ensures { result ≡ holds destination address }
{
    match destination {
        Some(net) => net.contains(&address),
        None => false,
    }
}

/// Whether one of some services, or one that it includes, is about a packet.
///
/// Refuses for want of memory alone.
pub fn any_service(
    alloc: Global,
    services: &[Service],
    names: &[Text],
    packet: &Packet,
) -> Result<bool, Memory>
    ensures { IfOk result (λ hit. hit ≡ list_any (λ name. service_hits services.now name packet.now) names.now) }
{
    for name in names {
        if service_hits(alloc, services, name.as_str(), packet)? {
            return Ok(true);
        }
    }
    Ok(false)
}
