//! The sessions of a script's clients.
ghost use Rattle.std.specs.Prelude.{◌≡◌, ◌<◌, IfOk, Some, slice_get, slice_set};
ghost use Rattle.fw_firewall.specs.Sessions.{no_session};

use fw_base::Memory;
use std::alloc::Global;
use std::marker::Model;

/// How many clients a script may have; they are numbered from 0.
const CLIENTS: usize = 10_000;

/// For each client, how many signals its session was told, where it has a session.
#[derive(Drop)]
pub struct Sessions {
    told: Vec<Option<usize>>,
}

impl Model for Sessions {
    ghost use Rattle.std.specs.Prelude.{◌≡◌, ℕ, List, Option, length};

    ghost Value = { List (Option ℕ) };

    ghost view = { λ sessions. sessions.told.items };

    ghost invariant = { λ sessions. length sessions.told.items ≡ 10000 };
}

impl Sessions {
    /// No client has a session.
    ///
    /// Refuses for want of memory alone.
    pub fn none(alloc: Global) -> Result<Sessions, Memory>
        ensures { IfOk result (λ sessions. sessions ≡ no_session) }
    {
        let mut told = Vec::with_capacity(alloc, CLIENTS)?;
        for _ in 0..CLIENTS {
            told.push(None)?;
        }
        Ok(Sessions { told })
    }

    /// How many signals the session of a client was told, where it has one.
    pub fn told(&self, client: u16) -> Option<usize>
        requires { client < 10000 }
        ensures { slice_get self.now client ≡ Some result }
    {
        self.told[usize::from(client)]
    }

    /// The session of a client was told so many signals, or it has none.
    pub fn set(&mut self, client: u16, told: Option<usize>)
        requires { client < 10000 }
        ensures { self.new ≡ slice_set self.old client told }
    {
        self.told[usize::from(client)] = told;
    }
}
