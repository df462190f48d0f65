//! The history.
ghost use Rattle.std.specs.Prelude.{◌≡◌, ℕ, ◌≤◌, ◌<◌, ◌+◌, [], ◌∷◌, ◌++◌, length, drop, IsOk, IfOk, IfErr, OnOk, OnErr};
ghost use Rattle.fw_calls.specs.Weight.{weight};
ghost use Rattle.fw_history.specs.History.{AreResults, IsEntered, IsFull, IsHistory, IsFullOf, IsPlanned, IsPlannedBehind, IsSame, highest_limit, left, needed, told_where};
ghost use Rattle.fw_history.specs.declared.plan.Unplanned.TheVariants as unplanned;
ghost use Rattle.fw_journal.specs.Journal.{weights};
ghost use Rattle.fw_machine.specs.Machine.{IsFree, IsQuiet, step};
ghost use Rattle.fw_replay.specs.Legal.{MayCome, session_of};
ghost use Rattle.fw_settings.specs.Starting.{started};
ghost use Rattle.fw_settings.specs.Valid.{AreValid, last_time};
ghost use Rattle.fw_valid.specs.Valid.{IsValid};

use crate::plan::{Plan, Unplanned, first_of, joined};
use fw_base::{Memory, Seq, TryCopy};
use fw_calls::{Applied, Entry, Event, Reply, Signal, weight};
use fw_journal::Journal;
use fw_machine::step;
use fw_model::Config;
use fw_settings::{Proposal, Settings, first_settings_are_valid, settle, start};
use std::alloc::Global;
use std::marker::Model;

/// What happened to the settings since the start: the journal, and the settings that it leaves.
#[derive(Drop)]
pub struct History {
    first: Config,
    settings: Settings,
    journal: Journal,
    limit: u64,
}

impl Model for History {
    ghost use Rattle.fw_history.specs.History.{IsHistory, Recorded};

    ghost Value = { Recorded };

    ghost view = { λ h. record { first = h.first; settings = h.settings; journal = h.journal; limit = h.limit } };

    ghost invariant = { λ h. IsHistory (record { first = h.first; settings = h.settings; journal = h.journal; limit = h.limit }) };
}

/// What became of an event that was entered.
#[derive(Drop)]
pub struct Entered {
    /// The place of its entry in the journal, counted from 0.
    pub place: u64,
    /// What its session is told before the reply.
    pub signals: Seq<Signal>,
    pub reply: Reply,
}

impl History {
    /// The history that begins with permanent settings, which come into force. Its entries may weigh so much together.
    ///
    /// Refuses for want of memory alone.
    pub fn begin(alloc: Global, first: Config, limit: u64) -> Result<History, Memory>
        requires valid { IsValid first }
        requires limit { limit ≤ highest_limit }
        ensures first { IfOk result (λ history. history.first ≡ first) }
        ensures settings { IfOk result (λ history. history.settings ≡ started first) }
        ensures entries { IfOk result (λ history. history.journal.entries ≡ []) }
        ensures limit { IfOk result (λ history. history.limit ≡ limit) }
    {
        first_settings_are_valid();
        let settings = start(alloc, first.copy(alloc)?)?;
        Ok(History {
            first,
            settings,
            journal: Journal::new(alloc),
            limit,
        })
    }

    /// What holds of every history.
    pub fn laws(&self)
        ensures { IsHistory self.now }
    {
        let _ = &self.first;
    }

    /// The settings that there are.
    pub fn settings(&self) -> &Settings
        ensures { result.now ≡ self.now.settings }
    {
        &self.settings
    }

    /// The journal.
    pub fn journal(&self) -> &Journal
        ensures { result.now ≡ self.now.journal }
    {
        &self.journal
    }

    /// The entries of the journal, and the settings that they leave. It takes no memory.
    pub fn into_parts(self) -> (Vec<Entry>, Settings)
        ensures entries { result.0.items ≡ self.journal.entries }
        ensures settings { result.1 ≡ self.settings }
    {
        let History {
            settings,
            journal,
            ..
        } = self;
        (journal.into_entries(), settings)
    }

    /// Makes room for so many entries more.
    ///
    /// Refuses for want of memory alone, and never where there is room already.
    pub fn reserve(&mut self, count: usize) -> Result<(), Memory>
        ensures same { IsSame self.old self.new }
        ensures room { OnOk result (count ≤ self.new.journal.spare) }
        ensures succeeds { count ≤ self.old.journal.spare → IsOk result }
    {
        self.journal.reserve(count)
    }

    /// Makes all ready that an event needs, whose session was told of all entries before the place `from`. The settings stay.
    ///
    /// Refuses where the journal has no room for its entry, and for want of memory. The beginning and the end of a session, and a query that
    /// takes no memory (`fw_machine::step`), want none where there is room for an entry and the session was told of all.
    pub fn plan(&mut self, alloc: Global, event: &Event, from: usize) -> Result<Plan, Unplanned>
        requires from { from ≤ length self.old.journal.entries }
        requires comes { MayCome self.old.journal.entries event.now }
        ensures same { IsSame self.old self.new }
        ensures planned { IfOk result (λ plan. IsPlanned self.old event.now from plan.proposal plan.told plan.earlier) }
        ensures room { OnOk result (0 < self.new.journal.spare) }
        ensures quiet { IfOk result (λ plan. IsFree self.old.settings event.now → IsQuiet plan.proposal) }
        ensures full { IfErr result (λ why. IsFull self.old event.now why) }
        ensures free { IsFree self.old.settings event.now → 0 < self.old.journal.spare → from ≡ length self.old.journal.entries
            → needed self.old event.now ≤ left self.old → IsOk result }
    {
        self.journal.reserve(1)?;
        let earlier = self.journal.told_from(alloc, from)?;
        let left = self.limit - self.journal.weight();
        plan_behind(alloc, &self.settings, event, earlier, left)
    }

    /// Enters an event by what became of its save and its commit: the settings are those that it leaves, and the journal has its entry. It
    /// takes no memory.
    pub fn enter(&mut self, event: Event, plan: Plan, save: Applied, commit: Applied) -> Entered
        requires comes { MayCome self.old.journal.entries event }
        requires room { 0 < self.old.journal.spare }
        requires results { AreResults plan.proposal.needs_save plan.proposal.needs_commit save commit }
        requires planned { (from : ℕ) × IsPlanned self.old event from plan.proposal plan.told plan.earlier }
        requires valid { AreValid (step self.old.settings event).after }
        ensures { (from : ℕ) → from ≤ length self.old.journal.entries → IsPlanned self.old event from plan.proposal plan.told plan.earlier
            → IsEntered self.old self.new event from save commit result.place result.signals result.reply }
    {
        self.journal.laws();
        let place = self.journal.len();
        let Plan {
            proposal,
            told,
            earlier,
        } = plan;
        let (reply, own) = settle(&mut self.settings, proposal, save, commit);
        let entry = Entry {
            session: session_of(place, &event),
            event,
            save,
            commit,
        };
        let signals = told_of(told, earlier, save, commit);
        self.journal.push(entry, own);
        Entered {
            place,
            signals,
            reply,
        }
    }
}

/// What a session is told of an event: all, or where its save or its commit failed, what it wasn't told yet.
fn told_of(told: Seq<Signal>, earlier: usize, save: Applied, commit: Applied) -> Seq<Signal>
    ensures { result ≡ told_where told earlier save commit }
{
    match (save, commit) {
        (Applied::Failed, _) | (_, Applied::Failed) => first_of(told, earlier),
        _ => told,
    }
}

/// The session whose event it is, where its entry has this place.
fn session_of(place: u64, event: &Event) -> u64
    ensures { result ≡ session_of place event.now }
{
    match event {
        Event::Open => place,
        Event::Call { session, .. }
        | Event::Tick { session, .. }
        | Event::Link { session, .. }
        | Event::Shut { session } => *session,
    }
}

/// What an event needs, behind what its session wasn't told yet.
fn plan_behind(
    alloc: Global,
    settings: &Settings,
    event: &Event,
    earlier: Seq<Signal>,
    left: u64,
) -> Result<Plan, Unplanned>
    requires { settings.now.now ≤ last_time }
    ensures planned { IfOk result (λ plan. IsPlannedBehind settings.entry.now event.now earlier left plan.proposal plan.told plan.earlier) }
    ensures quiet { IfOk result (λ plan. IsFree settings.entry.now event.now → IsQuiet plan.proposal) }
    ensures full { IfErr result (λ why. IsFullOf (weight event.now (step settings.entry.now event.now).signals) left why) }
    ensures free { IsFree settings.entry.now event.now → weight event.now (step settings.entry.now event.now).signals ≤ left → IsOk result }
{
    let count = earlier.as_slice().len();
    let proposal = step(alloc, settings, event)?;
    let need = weight(event, proposal.signals.as_slice());
    if need > left {
        return Err(Unplanned::Full { need, left });
    }
    planned(alloc, proposal, earlier, count)
}

/// A plan, of which only what is told of the event itself is to be copied.
fn planned(
    alloc: Global,
    proposal: Proposal,
    earlier: Seq<Signal>,
    count: usize,
) -> Result<Plan, Unplanned>
    ensures planned { IfOk result (λ plan. (plan.proposal ≡ proposal) × (plan.told ≡ earlier ++ proposal.signals) × (plan.earlier ≡ count)) }
    ensures memory { IfErr result (λ why. why ≡ unplanned.Memory) }
    ensures free { proposal.signals ≡ [] → IsOk result }
{
    let told = joined(alloc, earlier, proposal.signals.as_slice())?;
    Ok(Plan {
        proposal,
        told,
        earlier: count,
    })
}
