//! Services: ports and protocols under a name.
use super::Port;
use fw_addr::{Net, Proto};
use fw_base::{Memory, Seq, Text, TryCopy};
use std::alloc::Global;

/// A service (firewalld.service(5)).
#[derive(Clone, Debug, PartialEq, Eq, Drop)]
pub struct Service {
    pub name: Text,
    /// Services that are part of this one, by their names.
    pub includes: Seq<Text>,
    pub ports: Seq<Port>,
    pub protocols: Seq<Proto>,
    pub source_ports: Seq<Port>,
    /// The destination that it is limited to in IPv4.
    pub v4: Option<Net>,
    /// The destination that it is limited to in IPv6.
    pub v6: Option<Net>,
}

impl TryCopy for Service {
    fn copy(&self, _alloc: Global) -> Result<Service, Memory> {
        Ok(self.clone()?)
    }
}
