//! What happens to the daemon, and what of it the journal keeps.
use super::{Applied, Call};
use fw_addr::Iface;
use fw_base::{Memory, TryCopy};
use std::alloc::Global;

/// An event.
#[derive(Drop)]
pub enum Event {
    /// A session begins. Its number is the place of this event in the journal, counted from 0.
    Open,
    /// A session makes a call.
    Call { session: u64, call: Call },
    /// The time is told, in seconds.
    Tick { session: u64, now: u64 },
    /// A link of this name came up, or went.
    Link { session: u64, up: bool, name: Iface },
    /// A session ends.
    Shut { session: u64 },
}

/// An entry of the journal: an event of a session, and what became of its save and its commit.
#[derive(Drop)]
pub struct Entry {
    /// The session's number. The session of an `Open` has the entry's own place.
    pub session: u64,
    pub event: Event,
    pub save: Applied,
    pub commit: Applied,
}

impl TryCopy for Event {
    fn copy(&self, alloc: Global) -> Result<Event, Memory> {
        match self {
            Event::Open => Ok(Event::Open),
            Event::Call { session, call } => Ok(Event::Call {
                session: *session,
                call: call.copy(alloc)?,
            }),
            Event::Tick { session, now } => Ok(Event::Tick {
                session: *session,
                now: *now,
            }),
            Event::Link { session, up, name } => Ok(Event::Link {
                session: *session,
                up: *up,
                name: name.copy(alloc)?,
            }),
            Event::Shut { session } => Ok(Event::Shut { session: *session }),
        }
    }
}

impl TryCopy for Entry {
    fn copy(&self, alloc: Global) -> Result<Entry, Memory> {
        Ok(Entry {
            session: self.session,
            event: self.event.copy(alloc)?,
            save: self.save,
            commit: self.commit,
        })
    }
}
