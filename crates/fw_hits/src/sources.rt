//! Which senders the sources of a zone mean.
ghost use Rattle.std.specs.Prelude.{◌≡◌, ◌&&◌};
ghost use Rattle.std.specs.List.{list_any};
ghost use Rattle.std.specs.Str.{bytes_eq};
ghost use Rattle.fw_model.specs.Packets.{is_v4};
ghost use Rattle.fw_hits.specs.Sources.{entries_hold, is_mac, is_of_family, item_has_address, item_has_mac, matches_source, set_holds};

use fw_addr::{Addr, Family, Mac};
use fw_model::{Binding, IpSet, Item, SetKind};

/// One of the two who exchange packets: its address, and its hardware address where that is known.
#[derive(Clone, Copy)]
pub struct Peer {
    pub address: Addr,
    pub mac: Option<Mac>,
}

fn is_mac(hardware: &Mac, peer: &Peer) -> bool
    ensures { result ≡ is_mac hardware.now peer.now.mac }
{
    match &peer.mac {
        Some(mac) => hardware == mac,
        None => false,
    }
}

/// Whether an address is of IPv4.
pub fn is_v4(address: Addr) -> bool
    ensures { result ≡ is_v4 address }
{
    match address {
        Addr::V4(_) => true,
        Addr::V6(_) => false,
    }
}

pub fn is_of_family(family: Family, address: Addr) -> bool
    ensures { result ≡ is_of_family family address }
{
    match family {
        Family::V4 => is_v4(address),
        Family::V6 => !is_v4(address),
    }
}

fn item_has_address(peer: &Peer, item: &Item) -> bool
    ensures { result ≡ item_has_address peer.now.address item.now }
{
    match item {
        Item::Net(net) => net.contains(&peer.address),
        Item::Mac(_) => false,
    }
}

fn item_has_mac(peer: &Peer, item: &Item) -> bool
    ensures { result ≡ item_has_mac peer.now.mac item.now }
{
    match item {
        Item::Net(_) => false,
        Item::Mac(hardware) => is_mac(hardware, peer),
    }
}

fn has_address(peer: &Peer, items: &[Item]) -> bool
    ensures { result ≡ list_any (item_has_address peer.now.address) items.now }
{
    items.iter().any(|item| item_has_address(peer, item))
}

fn has_mac(peer: &Peer, items: &[Item]) -> bool
    ensures { result ≡ list_any (item_has_mac peer.now.mac) items.now }
{
    items.iter().any(|item| item_has_mac(peer, item))
}

fn entries_hold(set: &IpSet, peer: &Peer) -> bool
    ensures { result ≡ entries_hold set.now.kind set.now.family set.now.items peer.now.address peer.now.mac }
{
    let items = set.items.as_slice();
    match set.kind {
        SetKind::Ip => is_of_family(set.family, peer.address) && has_address(peer, items),
        SetKind::Net => is_of_family(set.family, peer.address) && has_address(peer, items),
        SetKind::Mac => has_mac(peer, items),
    }
}

fn set_holds(set: &IpSet, peer: &Peer) -> bool
    ensures { result ≡ set_holds set.now peer.now.address peer.now.mac }
{
    !set.timeout && entries_hold(set, peer)
}

fn named_set_holds(sets: &[IpSet], name: &str, peer: &Peer) -> bool
    ensures { result ≡ list_any (λ set. bytes_eq set.name name.now && set_holds set peer.now.address peer.now.mac) sets.now }
{
    sets.iter()
        .any(|set| set.name.as_str() == name && set_holds(set, peer))
}

/// Whether a source of a zone means a peer: its address lies in the net, it has the hardware address, or the set that it names holds one of the two (firewalld.zone(5), `source`). A set that isn't known
/// holds nothing, nor does one with the option `timeout`.
pub fn matches_source(sets: &[IpSet], peer: &Peer, source: &Binding) -> bool
    ensures { result ≡ matches_source sets.now peer.now.address peer.now.mac source.now }
{
    match source {
        Binding::Net(net) => net.contains(&peer.address),
        Binding::Mac(hardware) => is_mac(hardware, peer),
        Binding::Set(name) => named_set_holds(sets, name.as_str(), peer),
    }
}
