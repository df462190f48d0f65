//! The built-in services.
ghost use Rattle.std.specs.Prelude.{◌≡◌, IfOk, None, map};
ghost use Rattle.fw_service.specs.Services.{built_in_services, ipv4_address, ipv6_net, service, service_of, service_with, tcp, udp};

use super::texts::texts;
use fw_addr::{Addr, Net, PortProto, PortRange};
use fw_base::{Memory, Seq, Text};
use fw_model::{Port, Service};
use std::alloc::Global;

/// fe80::/64, the addresses of one link (RFC 4291, section 2.5.6).
const LINK_LOCAL: u128 = 0xfe80_0000_0000_0000_0000_0000_0000_0000;

/// 224.0.0.251, multicast DNS in IPv4 (RFC 6762, section 3).
const MDNS_V4: u32 = 0xe000_00fb;

/// ff02::fb, multicast DNS in IPv6.
const MDNS_V6: u128 = 0xff02_0000_0000_0000_0000_0000_0000_00fb;

/// The services that there are from the start, in order of their names. The table is this project's own.
///
/// Refuses for want of memory alone.
pub fn built_in_services(alloc: Global) -> Result<Seq<Service>, Memory>
    ensures { IfOk result (λ services. services ≡ built_in_services) }
{
    let link = Net::new(Addr::V6(LINK_LOCAL), 64);
    let mdns_v4 = Net::new(Addr::V4(MDNS_V4), 32);
    let mdns_v6 = Net::new(Addr::V6(MDNS_V6), 128);
    let mut services = Seq::new(alloc);
    services.push(service(alloc, "dhcp", &[udp(67)])?)?;
    services.push(service_with(alloc, "dhcpv6-client", &[udp(546)], None, Some(link))?)?;
    services.push(service(alloc, "dns", &[tcp(53), udp(53)])?)?;
    services.push(service(alloc, "http", &[tcp(80)])?)?;
    services.push(service(alloc, "https", &[tcp(443)])?)?;
    services.push(service(alloc, "ipp-client", &[udp(631)])?)?;
    services.push(service_with(alloc, "mdns", &[udp(5353)], Some(mdns_v4), Some(mdns_v6))?)?;
    services.push(service(alloc, "ntp", &[udp(123)])?)?;
    services.push(service(alloc, "samba-client", &[udp(137), udp(138)])?)?;
    services.push(service(alloc, "smtp", &[tcp(25)])?)?;
    services.push(service(alloc, "ssh", &[tcp(22)])?)?;
    services.push(service_of(alloc, "web-site", &["http", "https"])?)?;
    Ok(services)
}

/// A service with ports alone.
fn service(alloc: Global, name: &str, ports: &[Port]) -> Result<Service, Memory>
    ensures { IfOk result (λ made. made ≡ service name.now ports.now) }
{
    service_with(alloc, name, ports, None, None)
}

/// A service with ports and the destinations that it is limited to in IPv4 and IPv6.
fn service_with(
    alloc: Global,
    name: &str,
    ports: &[Port],
    v4: Option<Net>,
    v6: Option<Net>,
) -> Result<Service, Memory>
    ensures { IfOk result (λ made. made ≡ service_with name.now ports.now v4 v6) }
{
    Ok(Service {
        name: Text::of(alloc, name)?,
        includes: Seq::new(alloc),
        ports: Seq::from_vec(Vec::from_slice(alloc, ports)?),
        protocols: Seq::new(alloc),
        source_ports: Seq::new(alloc),
        v4,
        v6,
    })
}

/// A service that is made of others.
fn service_of(alloc: Global, name: &str, includes: &[&str]) -> Result<Service, Memory>
    ensures { IfOk result (λ made. made ≡ service_of name.now (map (λ text. text.now) includes.now)) }
{
    Ok(Service {
        name: Text::of(alloc, name)?,
        includes: texts(alloc, includes)?,
        ports: Seq::new(alloc),
        protocols: Seq::new(alloc),
        source_ports: Seq::new(alloc),
        v4: None,
        v6: None,
    })
}

/// A port of TCP.
fn tcp(port: u16) -> Port
    ensures { result ≡ tcp port }
{
    Port {
        range: PortRange {
            first: port,
            last: port,
        },
        proto: PortProto::Tcp,
    }
}

/// A port of UDP.
fn udp(port: u16) -> Port
    ensures { result ≡ udp port }
{
    Port {
        range: PortRange {
            first: port,
            last: port,
        },
        proto: PortProto::Udp,
    }
}
