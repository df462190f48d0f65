//! Addresses, nets, ports, protocols, hardware addresses and interface names: the values, what text each has,
//! and which contain which; and the small enums that rules and packets are made of.
#![tactic(auto)]

mod addr;
mod dnat;
mod error;
mod hexadecimal;
mod icmp;
mod iface;
mod ipv4;
mod ipv6;
mod laws;
mod limit;
mod log;
mod mac;
mod names;
mod net;
mod packet;
mod ports;
mod proto;
mod reject;

pub use addr::{Addr, print_addr, read_addr};
pub use dnat::Dnat;
pub use error::AddrError;
pub use icmp::{IcmpNumbers, icmp_numbers};
pub use iface::{Iface, read_iface};
pub use laws::{
    ipv6_texts_are_those_of_std, longest_runs_are_shortened, masks_are_read,
    printed_addresses_are_read, printed_hardware_addresses_are_read, printed_nets_are_read,
    printed_ports_are_read, printed_protocols_are_read,
};
pub use limit::{Limit, Unit};
pub use log::{Level, LogKind, LogLine};
pub use mac::{Mac, print_mac, read_mac};
pub use names::is_well_formed_name;
pub use net::{Net, print_net, read_net};
pub use packet::{CtState, Family, PktType};
pub use ports::{PortRange, print_ports, read_ports};
pub use proto::{
    DCCP, ICMP, ICMPV6, PortProto, Proto, SCTP, TCP, UDP, print_proto, read_port_proto, read_proto,
};
pub use reject::RejectType;
