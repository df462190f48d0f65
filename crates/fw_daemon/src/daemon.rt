//! The daemon.
ghost use Rattle.std.specs.Prelude.{◌≡◌, ◌↔◌, ◌≤◌, ◌<◌, length, None, IsTrue, IfOk, IfErr, IsOk, OnOk};
ghost use Rattle.std.specs.List.{Contains};
ghost use Rattle.fw_daemon.specs.Daemons.{Handles, IsEnteredAs, Sound, Stays, most_before};
ghost use Rattle.fw_daemon.specs.Opening.{IsBegun, IsNotBegun};
ghost use Rattle.fw_history.specs.History.{highest_limit, left, needed};
ghost use Rattle.fw_journal.specs.Journal.{open_sessions};
ghost use Rattle.fw_machine.specs.Machine.{IsFree};
ghost use Rattle.fw_replay.specs.Legal.{MayCome};

use crate::acting::{carry_out, prepare};
use crate::opening::{OpenError, begin};
use fw_base::Memory;
use fw_calls::{Entry, Event, Handled};
use fw_history::{Entered, History, Unplanned};
use fw_keeper::Keeper;
use fw_settings::Settings;
use nf_goal::Compiler;
use nf_kernel::Backend;
use nf_rules::Ruleset;
use std::alloc::Global;
use std::marker::Model;

/// The daemon in one thread: the settings with their journal, the kernel that holds their ruleset, the keeper of the permanent ones, and the
/// compiler.
#[derive(Drop)]
pub struct Daemon<B: Backend, K: Keeper, C: Compiler> {
    backend: B,
    keeper: K,
    compiler: C,
    history: History,
    // the faults that were counted when it began
    backend_faults: u64,
    keeper_faults: u64,
}

impl<B: Backend, K: Keeper, C: Compiler> Model for Daemon<B, K, C> {
    ghost use Rattle.fw_daemon.specs.Daemons.{Served, Sound};

    ghost Value = { Served B K C };

    ghost view = { λ d. record { backend = d.backend; keeper = d.keeper; compiler = d.compiler; history = d.history; backend_faults = d.backend_faults; keeper_faults = d.keeper_faults } };

    ghost invariant = { λ d. Sound B.kernel K.kept C.makes (record { backend = d.backend; keeper = d.keeper; compiler = d.compiler; history = d.history; backend_faults = d.backend_faults; keeper_faults = d.keeper_faults }) };
}

/// What a daemon was made of, and what it came to.
#[derive(Drop)]
pub struct Closed<B, K, C> {
    /// The entries, in order.
    pub journal: Vec<Entry>,
    pub settings: Settings,
    pub backend: B,
    pub keeper: K,
    pub compiler: C,
}

/// Why no daemon was made, and what it was to be made of.
#[derive(Drop)]
pub struct NotOpened<B, K, C> {
    pub why: OpenError,
    pub backend: B,
    pub keeper: K,
    pub compiler: C,
}

impl<B: Backend, K: Keeper, C: Compiler> Daemon<B, K, C> {
    /// The daemon that begins with the permanent settings that a keeper holds, or where it holds none, with the built-in ones: these come into
    /// force, and their ruleset is installed. The entries of its journal may weigh so much together.
    ///
    /// Refuses StoreFault where the load failed, BadConfig with the first fault of a text that isn't accepted, NotInstalled where the kernel
    /// failed, and Memory. What was installed and what is held stay then.
    pub fn open(
        alloc: Global,
        backend: B,
        keeper: K,
        compiler: C,
        limit: u64,
    ) -> Result<Daemon<B, K, C>, NotOpened<B, K, C>>
        requires staged { (B.kernel backend).staged ≡ None }
        requires asked { (B.kernel backend).asked ≤ most_before }
        requires calls { (K.kept keeper).calls ≤ most_before }
        requires limit { limit ≤ highest_limit }
        ensures opened { IfOk result (λ daemon. (daemon.compiler ≡ compiler) × IsBegun (C.makes compiler) (B.kernel backend) (B.kernel daemon.backend) (K.kept keeper) (K.kept daemon.keeper) limit daemon.history) }
        ensures refused { IfErr result (λ refusal. (refusal.compiler ≡ compiler) × IsNotBegun (B.kernel backend) (B.kernel refusal.backend) (K.kept keeper) (K.kept refusal.keeper) refusal.why) }
    {
        let mut backend = backend;
        let mut keeper = keeper;
        match begin(alloc, &mut backend, &mut keeper, &compiler, limit) {
            Ok(history) => {
                history.laws();
                let backend_faults = backend.faults();
                let keeper_faults = keeper.faults();
                Ok(Daemon {
                    backend,
                    keeper,
                    compiler,
                    history,
                    backend_faults,
                    keeper_faults,
                })
            }
            Err(why) => Err(NotOpened {
                why,
                backend,
                keeper,
                compiler,
            }),
        }
    }

    /// What holds of every daemon, whenever no call on it runs.
    pub fn laws(&self)
        ensures { Sound B.kernel K.kept C.makes self.now }
    {
        let _ = &self.backend;
    }

    /// The ruleset that is installed.
    pub fn rules(&self) -> &Ruleset
        ensures { result.now ≡ (B.kernel self.now.backend).installed }
    {
        self.backend.rules()
    }

    /// The settings that there are.
    pub fn settings(&self) -> &Settings
        ensures { result.now ≡ self.now.history.settings }
    {
        self.history.settings()
    }

    /// The journal.
    pub fn journal(&self) -> &[Entry]
        ensures { result.now ≡ self.now.history.journal.entries }
    {
        self.history.journal().entries()
    }

    /// How many entries the journal has.
    pub fn journal_len(&self) -> u64
        ensures { result ≡ length self.now.history.journal.entries }
    {
        self.history.journal().len()
    }

    /// Whether a session has begun and not ended.
    pub fn is_open(&self, session: u64) -> bool
        ensures { IsTrue result ↔ Contains (open_sessions self.now.history.journal.entries) session }
    {
        self.history.journal().is_open(session)
    }

    /// Makes room for so many entries more.
    ///
    /// Refuses for want of memory alone, and never where there is room already.
    pub fn reserve(&mut self, count: usize) -> Result<(), Memory>
        ensures stays { Stays B.kernel K.kept self.old self.new }
        ensures room { OnOk result (count ≤ self.new.history.journal.spare) }
        ensures succeeds { count ≤ self.old.history.journal.spare → IsOk result }
    {
        let reserved = self.history.reserve(count);
        self.history.laws();
        reserved
    }

    /// Enters an event of a session that was told of all entries before the place `from`: what it is to do is saved, unless nothing is to be
    /// kept, then committed, unless nothing in force changes, and it has its place in the journal with what became of both. A save that
    /// failed leaves everything as it was, and a commit that failed leaves the settings in force, their timers and the ruleset.
    ///
    /// Full, where the journal has no room for the entry, and Memory leave everything as it was. The beginning and the end of a session,
    /// and a query that takes no memory (`fw_machine::step`), want none where there is room for an entry and the session was told of all.
    pub fn handle(&mut self, alloc: Global, from: usize, event: Event) -> Handled
        requires from { from ≤ length self.old.history.journal.entries }
        requires comes { MayCome self.old.history.journal.entries event }
        ensures handles { Handles B.kernel K.kept self.old self.new event from result }
        ensures free { IsFree self.old.history.settings event → 0 < self.old.history.journal.spare → from ≡ length self.old.history.journal.entries
            → needed self.old.history event ≤ left self.old.history → IsEnteredAs result }
    {
        let prepared = match prepare(
            alloc,
            &mut self.backend,
            &self.compiler,
            &mut self.history,
            &event,
            from,
        ) {
            Ok(prepared) => prepared,
            Err(Unplanned::Full { need, left }) => return Handled::Full { need, left },
            Err(Unplanned::Memory) => return Handled::Memory,
        };
        let Entered {
            place,
            signals,
            reply,
        } = carry_out(
            &mut self.backend,
            &mut self.keeper,
            &mut self.history,
            event,
            prepared,
        );
        self.history.laws();
        Handled::Entered {
            place,
            signals,
            reply,
        }
    }

    /// The parts of the daemon, unchanged. It takes no memory.
    pub fn close(self) -> Closed<B, K, C>
        ensures journal { result.journal.items ≡ self.history.journal.entries }
        ensures settings { result.settings ≡ self.history.settings }
        ensures backend { result.backend ≡ self.backend }
        ensures keeper { result.keeper ≡ self.keeper }
        ensures compiler { result.compiler ≡ self.compiler }
    {
        let Daemon {
            backend,
            keeper,
            compiler,
            history,
            ..
        } = self;
        let (journal, settings) = history.into_parts();
        Closed {
            journal,
            settings,
            backend,
            keeper,
            compiler,
        }
    }
}
