//! Sources by which packets belong to a zone.
use fw_addr::{Mac, Net};
use fw_base::{Memory, Text, TryCopy};
use std::alloc::Global;

/// Which senders are meant: those of a net, of a hardware address, or of the ipset of a name
/// (firewalld.zone(5), `source`).
#[derive(Clone, Debug, PartialEq, Eq, Drop)]
pub enum Binding {
    Net(Net),
    Mac(Mac),
    Set(Text),
}

impl TryCopy for Binding {
    fn copy(&self, _alloc: Global) -> Result<Binding, Memory> {
        Ok(self.clone()?)
    }
}
