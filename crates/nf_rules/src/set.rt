//! Named sets, in which rules look packets up.
use fw_addr::{Mac, Net, PortRange};
use fw_base::{Memory, Seq, Text, TryCopy};
use std::alloc::Global;

/// What a set holds (nft(8), "SETS"). Elements may overlap.
#[derive(Clone, Debug, PartialEq, Eq, Drop)]
pub enum SetBody {
    Nets(Seq<Net>),
    Macs(Seq<Mac>),
    Ports(Seq<PortRange>),
}

/// A set under a name.
#[derive(Clone, Debug, PartialEq, Eq, Drop)]
pub struct NfSet {
    pub name: Text,
    pub body: SetBody,
}

impl TryCopy for SetBody {
    fn copy(&self, _alloc: Global) -> Result<SetBody, Memory> {
        Ok(self.clone()?)
    }
}

impl TryCopy for NfSet {
    fn copy(&self, _alloc: Global) -> Result<NfSet, Memory> {
        Ok(self.clone()?)
    }
}
