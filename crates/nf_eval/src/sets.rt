//! What named sets hold.
ghost use Rattle.std.specs.Prelude.{◌≡◌, ◌==◌};
ghost use Rattle.std.specs.List.{list_any};
ghost use Rattle.fw_addr.specs.Ports.{in_range};
ghost use Rattle.fw_addr.specs.Subnets.{in_net};
ghost use Rattle.nf_eval.specs.Sets.{has_address, has_mac, has_port, holds_address, holds_mac, holds_port};

use fw_addr::{Addr, Mac, Net, PortRange};
use nf_rules::{NfSet, SetBody};

/// Whether the set of a name holds an address.
pub fn holds_address(sets: &[NfSet], name: &str, address: &Addr) -> bool
    ensures { result ≡ holds_address sets.now name.now address.now }
{
    sets.iter().any(|set| set.name.as_str() == name && has_address(address, &set.body))
}

/// Whether the set of a name holds a hardware address.
pub fn holds_mac(sets: &[NfSet], name: &str, mac: Mac) -> bool
    ensures { result ≡ holds_mac sets.now name.now mac }
{
    sets.iter()
        .any(|set| set.name.as_str() == name && has_mac(mac, &set.body))
}

/// Whether the set of a name holds a port.
pub fn holds_port(sets: &[NfSet], name: &str, port: u16) -> bool
    ensures { result ≡ holds_port sets.now name.now port }
{
    sets.iter().any(|set| set.name.as_str() == name && has_port(port, &set.body))
}

fn has_address(address: &Addr, body: &SetBody) -> bool
    ensures { result ≡ has_address address.now body.now }
{
    match body {
        SetBody::Nets(nets) => any_contains(nets.as_slice(), address),
        _ => false,
    }
}

fn has_mac(mac: Mac, body: &SetBody) -> bool
    ensures { result ≡ has_mac mac body.now }
{
    match body {
        SetBody::Macs(macs) => is_among(macs.as_slice(), mac),
        _ => false,
    }
}

fn has_port(port: u16, body: &SetBody) -> bool
    ensures { result ≡ has_port port body.now }
{
    match body {
        SetBody::Ports(ranges) => any_has(ranges.as_slice(), port),
        _ => false,
    }
}

fn any_contains(nets: &[Net], address: &Addr) -> bool
    ensures { result ≡ list_any (λ net. in_net net address.now) nets.now }
{
    nets.iter().any(|net| net.contains(address))
}

fn is_among(macs: &[Mac], mac: Mac) -> bool
    ensures { result ≡ list_any (λ one. one == mac) macs.now }
{
    macs.iter().any(|one| *one == mac)
}

fn any_has(ranges: &[PortRange], port: u16) -> bool
    ensures { result ≡ list_any (λ range. in_range range port) ranges.now }
{
    ranges.iter().any(|range| range.contains(port))
}
