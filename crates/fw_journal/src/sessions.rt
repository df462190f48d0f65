//! The sessions that are open.
ghost use Rattle.std.specs.Prelude.{◌≡◌, ◌<◌, ◌≤◌, ◌+◌, ◌==◌, ◌↔◌, not, IsTrue, vec_len, vec_capacity};
ghost use Rattle.std.specs.List.{Contains, filter};
ghost use Rattle.fw_journal.specs.Journal.{opened};

use fw_calls::Event;

/// Whether a session is among those that are open.
pub fn is_among(open: &[u64], session: u64) -> bool
    ensures { IsTrue result ↔ Contains open.now session }
{
    open.contains(&session)
}

/// Has the sessions begin and end as an event says that stands at a place of the journal. There must be room for one more.
pub fn follow(open: &mut Vec<u64>, place: u64, event: &Event)
    requires { vec_len open.old < vec_capacity open.old }
    ensures sessions { open.new.items ≡ opened place event.now open.old.items }
    ensures length { vec_len open.new ≤ vec_len open.old + 1 }
    ensures capacity { vec_capacity open.new ≡ vec_capacity open.old }
{
    match event {
        Event::Open => open.push_reserved(place),
        Event::Shut { session } => end(open, *session),
        Event::Call { .. } | Event::Tick { .. } | Event::Link { .. } => {}
    }
}

/// Ends a session, wherever it stands.
fn end(open: &mut Vec<u64>, session: u64)
    ensures others { open.new.items ≡ filter (λ other. not (other == session)) open.old.items }
    ensures length { vec_len open.new ≤ vec_len open.old }
    ensures capacity { vec_capacity open.new ≡ vec_capacity open.old }
{
    open.retain(|other| *other != session);
}
