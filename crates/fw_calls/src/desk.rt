//! The desk at which a session makes its calls.
ghost use Rattle.std.specs.Prelude.{ℕ, ◌≡◌, None, Some, is_some, IsSome, IsNone};
ghost use Rattle.fw_calls.specs.declared.event.Event.{Event};
ghost use Rattle.fw_calls.specs.Desks.{Asks, Opens, Shuts, Standing};

use super::{Call, Event, Reply, Signal};
use fw_base::Seq;

/// What became of an event.
#[derive(Drop)]
pub enum Handled {
    /// It has this place in the journal, counted from 0, with the signals that its session is told and its reply.
    Entered {
        place: u64,
        signals: Seq<Signal>,
        reply: Reply,
    },
    /// Its entry would weigh `need`, and the journal has only `left`; nothing changed.
    Full {
        need: u64,
        left: u64,
    },
    /// No memory was found; nothing changed.
    Memory,
}

/// Where one session after another is opened, makes its calls and is shut.
pub trait Desk {
    /// The open session, the calls that were entered and the sessions that were opened.
    ghost standing: { Self → Standing };

    /// That a journal with so many entries is too full for an event. What it says once it goes on saying.
    ghost full_at: { Self → Event → ℕ → Type 0 };

    /// Opens a session.
    fn open(&mut self) -> Handled
        requires closed { IsNone (standing self.old).session }
        ensures opens { Opens (full_at self.new) result (standing self.old) (standing self.new) }
        ensures still_full { (event : Event) (entries : ℕ) → full_at self.old event entries → full_at self.new event entries };

    /// Makes a call of the open session.
    fn ask(&mut self, call: Call) -> Handled
        requires open { IsSome (standing self.old).session }
        ensures asks { (session : ℕ) → (standing self.old).session ≡ Some session → Asks (full_at self.new) session call result (standing self.old) (standing self.new) }
        ensures still_full { (event : Event) (entries : ℕ) → full_at self.old event entries → full_at self.new event entries };

    /// Shuts the open session.
    fn shut(&mut self) -> Handled
        requires open { IsSome (standing self.old).session }
        ensures shuts { (session : ℕ) → (standing self.old).session ≡ Some session → Shuts (full_at self.new) session result (standing self.old) (standing self.new) }
        ensures still_full { (event : Event) (entries : ℕ) → full_at self.old event entries → full_at self.new event entries };

    /// Whether a session is open.
    fn is_open(&self) -> bool
        ensures { result ≡ is_some (standing self.now).session };
}
