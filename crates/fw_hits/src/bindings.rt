//! To which zone a packet belongs.
ghost use Rattle.std.specs.Prelude.{◌≡◌, Some};
ghost use Rattle.std.specs.Option.{option_copied};
ghost use Rattle.fw_hits.specs.Bindings.{default_zone, earlier, egress, has_source, ingress, source_zone, zone_of, zone_order};

use crate::interfaces::{interface_zone, zone_order};
use crate::sources::{Peer, matches_source};
use fw_model::{Config, Origin, Packet, Zone};

fn has_source(config: &Config, peer: &Peer, zone: &Zone) -> bool
    ensures { result ≡ has_source config.now peer.now.address peer.now.mac zone.now }
{
    let sets = config.ipsets.as_slice();
    zone.sources
        .as_slice()
        .iter()
        .any(|source| matches_source(sets, peer, source))
}

fn earlier<'a>(zone: &'a Zone, behind: Option<&'a Zone>) -> &'a Zone
    ensures { Some result.now ≡ earlier zone_order zone.now (option_copied behind.entry) }
{
    match behind {
        None => zone,
        Some(other) => {
            if zone_order(zone, other).is_gt() {
                other
            } else {
                zone
            }
        }
    }
}

/// The first zone by name with a source that matches.
fn source_zone<'a>(config: &'a Config, peer: &Peer) -> Option<&'a Zone>
    ensures { option_copied result ≡ source_zone config.now peer.now.address peer.now.mac }
{
    let zones = config.zones.as_slice();
    let mut first = None;
    for place in (0..zones.len()).rev() {
        let zone = &zones[place];
        if has_source(config, peer, zone) {
            first = Some(earlier(zone, first));
        }
    }
    first
}

fn default_zone(config: &Config) -> Option<&Zone>
    ensures { option_copied result ≡ default_zone config.now }
{
    let name = config.default_zone.as_str();
    config
        .zones
        .as_slice()
        .iter()
        .find(|zone| zone.name.as_str() == name)
}

/// The zone of one who is reached by an interface: sources decide, else interfaces, else it is the default zone.
fn zone_of<'a>(config: &'a Config, peer: &Peer, name: &str) -> Option<&'a Zone>
    ensures { option_copied result ≡ zone_of config.now peer.now.address peer.now.mac name.now }
{
    if let Some(zone) = source_zone(config, peer) {
        return Some(zone);
    }
    if let Some(zone) = interface_zone(config, name) {
        return Some(zone);
    }
    default_zone(config)
}

/// The zone that a packet comes from (firewalld.zones(5)). There is none for a packet of the host, and where the default zone
/// is asked for and isn't there.
pub fn ingress<'a>(config: &'a Config, packet: &Packet) -> Option<&'a Zone>
    ensures { option_copied result ≡ ingress config.now packet.now }
{
    match &packet.origin {
        Origin::Host => None,
        Origin::Link(name) => {
            let peer = Peer {
                address: packet.src,
                mac: packet.mac,
            };
            zone_of(config, &peer, name.as_str())
        }
    }
}

/// The zone that a packet goes to by an interface. Sources are compared with its destination; hardware addresses never
/// match.
pub fn egress<'a>(config: &'a Config, packet: &Packet, name: &str) -> Option<&'a Zone>
    ensures { option_copied result ≡ egress config.now packet.now name.now }
{
    let peer = Peer {
        address: packet.dst,
        mac: None,
    };
    zone_of(config, &peer, name)
}
