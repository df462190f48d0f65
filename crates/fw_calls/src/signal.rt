//! Signals: what sessions are told of changes.
use super::SignalKind;
use fw_base::{Memory, Seq, Text, TryCopy};
use fw_model::{Policy, Zone};
use std::alloc::Global;

/// A signal, with canonical texts and the full names of zones.
#[derive(Drop)]
pub struct Signal {
    pub kind: SignalKind,
    pub args: Seq<Arg>,
}

/// A value that a signal carries.
#[derive(Drop)]
pub enum Arg {
    Text(Text),
    Int(i32),
    /// The settings of a zone, as a dict.
    Zone(Zone),
    /// The settings of a policy, as a dict.
    Policy(Policy),
}

impl TryCopy for Signal {
    fn copy(&self, alloc: Global) -> Result<Signal, Memory> {
        Ok(Signal {
            kind: self.kind,
            args: self.args.copy(alloc)?,
        })
    }
}

impl TryCopy for Arg {
    fn copy(&self, alloc: Global) -> Result<Arg, Memory> {
        match self {
            Arg::Text(text) => Ok(Arg::Text(text.copy(alloc)?)),
            Arg::Int(number) => Ok(Arg::Int(*number)),
            Arg::Zone(zone) => Ok(Arg::Zone(zone.copy(alloc)?)),
            Arg::Policy(policy) => Ok(Arg::Policy(policy.copy(alloc)?)),
        }
    }
}
