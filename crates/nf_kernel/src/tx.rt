//! Transactions.
use fw_base::{Memory, Seq, TryCopy};
use nf_rules::Command;
use std::alloc::Global;

/// Commands that are done in their order, all of them or none (nft(8), "-f").
#[derive(Debug, PartialEq, Eq, Drop)]
pub struct Tx {
    pub commands: Seq<Command>,
}

impl TryCopy for Tx {
    fn copy(&self, alloc: Global) -> Result<Tx, Memory> {
        Ok(Tx {
            commands: self.commands.copy(alloc)?,
        })
    }
}
