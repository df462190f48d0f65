//! Sets of addresses under a name.
use fw_addr::{Family, Mac, Net};
use fw_base::{Memory, Seq, Text, TryCopy};
use std::alloc::Global;

/// What a set holds (firewalld.ipset(5), `type`): `hash:ip`, `hash:net` or `hash:mac`.
#[derive(Clone, Copy, Debug, PartialEq, Eq)]
pub enum SetKind {
    Ip,
    Net,
    Mac,
}

/// An entry of a set. One address is a net with the whole address as its prefix.
#[derive(Clone, Copy, Debug, PartialEq, Eq)]
pub enum Item {
    Net(Net),
    Mac(Mac),
}

/// A set of addresses (firewalld.ipset(5)).
#[derive(Clone, Debug, PartialEq, Eq, Drop)]
pub struct IpSet {
    pub name: Text,
    pub kind: SetKind,
    /// The family of its addresses.
    pub family: Family,
    /// Whether its entries come with a timeout; then the firewall keeps none of them.
    pub timeout: bool,
    pub items: Seq<Item>,
}

impl TryCopy for IpSet {
    fn copy(&self, _alloc: Global) -> Result<IpSet, Memory> {
        Ok(self.clone()?)
    }
}
