//! What an event is answered.
use super::Applied;
use fw_base::{Memory, Seq, Text, TryCopy};
use fw_model::{Code, Policy, Zone};
use std::alloc::Global;

/// Why a call is refused, and what it refuses.
#[derive(Drop)]
pub struct Refusal {
    pub code: Code,
    pub subject: Text,
}

/// A zone to which packets belong, with the texts of its interfaces and of its sources; or a policy that applies to some
/// packets, with its zones of ingress and of egress.
#[derive(Drop)]
pub struct Active {
    pub name: Text,
    pub first: Seq<Text>,
    pub second: Seq<Text>,
}

/// The reply to an event.
#[derive(Drop)]
pub enum Reply {
    /// It's done, and there is no value.
    None,
    Bool(bool),
    Text(Text),
    /// The path of an object.
    Path(Text),
    Texts(Seq<Text>),
    ActiveZones(Seq<Active>),
    ActivePolicies(Seq<Active>),
    ZoneSettings(Zone),
    PolicySettings(Policy),
    /// A session began.
    Opened,
    /// A tick or an event of a link, with what became of its commit.
    Event(Applied),
    /// A session ended.
    Shut,
    /// The call is refused, and nothing changed.
    Refused(Refusal),
    /// The permanent settings weren't saved, and nothing changed.
    SaveFailed,
    /// The runtime settings weren't put into force.
    CommitFailed,
}

impl TryCopy for Refusal {
    fn copy(&self, alloc: Global) -> Result<Refusal, Memory> {
        Ok(Refusal {
            code: self.code,
            subject: self.subject.copy(alloc)?,
        })
    }
}

impl TryCopy for Active {
    fn copy(&self, alloc: Global) -> Result<Active, Memory> {
        Ok(Active {
            name: self.name.copy(alloc)?,
            first: self.first.copy(alloc)?,
            second: self.second.copy(alloc)?,
        })
    }
}

impl TryCopy for Reply {
    fn copy(&self, alloc: Global) -> Result<Reply, Memory> {
        match self {
            Reply::None => Ok(Reply::None),
            Reply::Bool(flag) => Ok(Reply::Bool(*flag)),
            Reply::Text(text) => Ok(Reply::Text(text.copy(alloc)?)),
            Reply::Path(path) => Ok(Reply::Path(path.copy(alloc)?)),
            Reply::Texts(texts) => Ok(Reply::Texts(texts.copy(alloc)?)),
            Reply::ActiveZones(zones) => Ok(Reply::ActiveZones(zones.copy(alloc)?)),
            Reply::ActivePolicies(policies) => Ok(Reply::ActivePolicies(policies.copy(alloc)?)),
            Reply::ZoneSettings(zone) => Ok(Reply::ZoneSettings(zone.copy(alloc)?)),
            Reply::PolicySettings(policy) => Ok(Reply::PolicySettings(policy.copy(alloc)?)),
            Reply::Opened => Ok(Reply::Opened),
            Reply::Event(applied) => Ok(Reply::Event(*applied)),
            Reply::Shut => Ok(Reply::Shut),
            Reply::Refused(refusal) => Ok(Reply::Refused(refusal.copy(alloc)?)),
            Reply::SaveFailed => Ok(Reply::SaveFailed),
            Reply::CommitFailed => Ok(Reply::CommitFailed),
        }
    }
}
