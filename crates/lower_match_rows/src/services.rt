//! The built-in services and two more.
use crate::ports;
use fw_addr::{Addr, Net, PortProto, Proto};
use fw_base::{Memory, Seq, Text};
use fw_model::Service;
use fw_service::built_in_services;
use std::alloc::Global;

/// The built-in services, and `everything` and `round`, which include each other.
pub fn known_services(alloc: Global) -> Result<Seq<Service>, Memory> {
    let mut known = built_in_services(alloc)?;
    known.push(everything(alloc)?)?;
    known.push(round(alloc)?)?;
    Ok(known)
}

fn list_of<T: Drop>(alloc: Global, item: T) -> Result<Seq<T>, Memory> {
    let mut list = Seq::new(alloc);
    list.push(item)?;
    Ok(list)
}

/// Two ports, a protocol and a source port at 192.0.2.0/24 and 2001:db8::1.
fn everything(alloc: Global) -> Result<Service, Memory> {
    let mut listening = list_of(alloc, ports(PortProto::Tcp, 1000, 1010))?;
    listening.push(ports(PortProto::Sctp, 7, 7))?;
    Ok(Service {
        name: Text::of(alloc, "everything")?,
        includes: list_of(alloc, Text::of(alloc, "round")?)?,
        ports: listening,
        protocols: list_of(alloc, Proto(50))?,
        source_ports: list_of(alloc, ports(PortProto::Dccp, 9, 9))?,
        v4: Some(Net::new(Addr::V4(0xc000_0200), 24)),
        v6: Some(Net::new(Addr::V6(0x2001_0db8_0000_0000_0000_0000_0000_0001), 128)),
    })
}

/// Telnet's port, and all that `everything` has; its IPv4 destination is a net of IPv6.
fn round(alloc: Global) -> Result<Service, Memory> {
    Ok(Service {
        name: Text::of(alloc, "round")?,
        includes: list_of(alloc, Text::of(alloc, "everything")?)?,
        ports: list_of(alloc, ports(PortProto::Tcp, 23, 23))?,
        protocols: Seq::new(alloc),
        source_ports: Seq::new(alloc),
        v4: Some(Net::new(Addr::V6(1), 128)),
        v6: None,
    })
}
