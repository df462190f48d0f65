//! Ports that are open in a zone.
use fw_addr::{PortProto, PortRange};

/// A range of ports of one protocol (firewalld.zone(5), `port`).
#[derive(Clone, Copy, Debug, PartialEq, Eq)]
pub struct Port {
    pub range: PortRange,
    pub proto: PortProto,
}
