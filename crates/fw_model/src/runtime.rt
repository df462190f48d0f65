//! The settings that are in force.
use super::Config;
use fw_base::{Memory, TryCopy};
use std::alloc::Global;

/// What the firewall does now (firewalld(1), "Runtime configuration").
#[derive(Clone, Debug, PartialEq, Eq, Drop)]
pub struct Runtime {
    /// Whether every packet is dropped.
    pub panic: bool,
    pub config: Config,
}

impl TryCopy for Runtime {
    fn copy(&self, _alloc: Global) -> Result<Runtime, Memory> {
        Ok(self.clone()?)
    }
}
