//! The settings of zones that end by themselves.
ghost use Rattle.std.specs.Prelude.{◌≡◌, ◌∷◌, [], ◌++◌, IfOk, OnOk, OnErr};
ghost use Rattle.fw_timed.specs.Timers.{due, has_timer, is_of, not_due, without_timers};

use super::due::{by_deadline, due_timers, is_due};
use super::is_same;
use fw_base::{Memory, Seq, TryCopy};
use fw_model::{Setting, Timed};
use std::alloc::Global;
use std::marker::Model;

/// Timers, each of a setting of a zone. Contracts see them as a list in the order in which they were added.
#[derive(Debug, Drop)]
pub struct Timers {
    timers: Vec<Timed>,
}

impl Model for Timers {
    ghost use Rattle.std.specs.Prelude.{List};
    ghost use Rattle.fw_model.specs.declared.setting.Timed.{Timed};

    ghost Value = { List Timed };

    ghost view = { λ timers. timers.timers.items };
}

impl Timers {
    /// No timers, which takes no memory. The list keeps the allocator for later additions.
    pub fn new(alloc: Global) -> Timers
        ensures { result ≡ [] }
    {
        Timers {
            timers: Vec::new(alloc),
        }
    }

    /// The timers in order of adding.
    pub fn as_slice(&self) -> &[Timed]
        ensures { result.now ≡ self.now }
    {
        self.timers.as_slice()
    }

    /// Adds a timer, the last.
    ///
    /// Refuses for want of memory alone; the timers are then as before.
    pub fn add(&mut self, timed: Timed) -> Result<(), Memory>
        ensures added { OnOk result (self.new ≡ self.old ++ timed ∷ []) }
        ensures err { OnErr result (self.new ≡ self.old) }
    {
        self.timers.push(timed)?;
        Ok(())
    }

    /// Takes away each timer of a setting of a zone; the others stay in their order. It takes no memory.
    ///
    /// Answers whether there was one.
    pub fn cancel(&mut self, zone: &str, setting: &Setting) -> bool
        ensures was { result ≡ has_timer zone.now setting.now self.old }
        ensures others { self.new ≡ without_timers zone.now setting.now self.old }
    {
        let was = has_timer(self.timers.as_slice(), zone, setting);
        keep_others(&mut self.timers, zone, setting);
        was
    }

    /// Takes away the timers whose deadline is `now` or earlier, in seconds; the others stay in their order. It takes no memory.
    pub fn end_due(&mut self, now: u64)
        ensures { self.new ≡ not_due self.old now }
    {
        keep_later(&mut self.timers, now);
    }

    /// The timers whose deadline is `now` or earlier, in seconds: by deadline, and those of one deadline in order of adding.
    ///
    /// Refuses for want of memory alone.
    pub fn due(&self, alloc: Global, now: u64) -> Result<Seq<Timed>, Memory>
        ensures { IfOk result (λ found. found ≡ due self.now now) }
    {
        let found = due_timers(alloc, self.timers.as_slice(), now)?;
        by_deadline(alloc, found)
    }
}

/// Whether a timer is of a setting of a zone.
fn is_of(timed: &Timed, zone: &str, setting: &Setting) -> bool
    ensures { result ≡ is_of zone.now setting.now timed.now }
{
    timed.zone.as_str() == zone && is_same(&timed.setting, setting)
}

/// Whether there is a timer of a setting of a zone.
fn has_timer(timers: &[Timed], zone: &str, setting: &Setting) -> bool
    ensures { result ≡ has_timer zone.now setting.now timers.now }
{
    timers.iter().any(|timed| is_of(timed, zone, setting))
}

/// Takes away each timer of a setting of a zone.
fn keep_others(timers: &mut Vec<Timed>, zone: &str, setting: &Setting)
    ensures { timers.new.items ≡ without_timers zone.now setting.now timers.old.items }
{
    timers.retain(|timed| !is_of(timed, zone, setting));
}

fn keep_later(timers: &mut Vec<Timed>, now: u64)
    ensures { timers.new.items ≡ not_due timers.old.items now }
{
    timers.retain(|timed| !is_due(now, timed));
}

impl TryCopy for Timers {
    fn copy(&self, alloc: Global) -> Result<Timers, Memory> {
        let timers = Timed::copy_all(alloc, self.timers.as_slice())?;
        Ok(Timers { timers })
    }
}
