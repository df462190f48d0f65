//! All settings of the daemon.
use fw_base::{Memory, Seq, TryCopy};
use fw_model::{Config, Runtime};
use fw_timed::Timers;
use std::alloc::Global;

/// The settings that are kept and those that are in force (firewalld(1), "Runtime configuration", "Permanent configuration").
#[derive(Drop)]
pub struct Settings {
    /// What is kept for the next start or reload.
    pub permanent: Config,
    /// What is in force.
    pub runtime: Runtime,
    /// The settings in force that end by themselves.
    pub timers: Timers,
    /// The time as it was told last, in seconds.
    pub now: u64,
    /// The number of each permanent zone, by its place; the zone's object has it in its path.
    pub zone_ids: Seq<u64>,
    /// The number of each permanent policy, likewise.
    pub policy_ids: Seq<u64>,
    /// The number of the next zone that comes to the permanent ones.
    pub next_zone: u64,
    /// The number of the next policy, likewise.
    pub next_policy: u64,
}

impl TryCopy for Settings {
    fn copy(&self, alloc: Global) -> Result<Settings, Memory> {
        Ok(Settings {
            permanent: self.permanent.copy(alloc)?,
            runtime: self.runtime.copy(alloc)?,
            timers: self.timers.copy(alloc)?,
            now: self.now,
            zone_ids: self.zone_ids.copy(alloc)?,
            policy_ids: self.policy_ids.copy(alloc)?,
            next_zone: self.next_zone,
            next_policy: self.next_policy,
        })
    }
}
