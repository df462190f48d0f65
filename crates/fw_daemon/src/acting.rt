//! How an event is made ready, and carried out.
ghost use Rattle.std.specs.Prelude.{◌≡◌, ℕ, ◌≤◌, ◌<◌, ◌^◌, true, false, Some, length, IfOk, IfErr, IsOk, IsSome, OnOk, OnErr, option_map};
ghost use Rattle.fw_daemon.specs.Acting.{IsCarriedOut};
ghost use Rattle.fw_daemon.specs.Outside.{IsReadyFor, IsTextFor};
ghost use Rattle.fw_history.specs.History.{IsFull, IsPlanned, IsSame, left, needed};
ghost use Rattle.fw_machine.specs.Machine.{IsFree, step};
ghost use Rattle.fw_replay.specs.Legal.{IsInTime, MayCome};
ghost use Rattle.fw_machine_law.specs.Ranges.{IsInRange};
ghost use Rattle.fw_settings.specs.Settling.{next_settings};
ghost use Rattle.fw_settings.specs.Valid.{AreValid};
ghost use Rattle.fw_valid.specs.Valid.{IsValid};

use crate::installing::{commit, stage_for};
use crate::saving::{save, text_for};
use fw_base::Memory;
use fw_calls::Event;
use fw_history::{Entered, History, Plan, Unplanned};
use fw_keeper::Keeper;
use fw_machine_law::{events_are_in_range, settings_are_in_range, step_keeps_valid};
use fw_settings::{Proposal, Settings};
use nf_goal::Compiler;
use nf_kernel::Backend;
use std::alloc::Global;

/// All that an event needs before anything is done: from here on no memory is wanted.
#[derive(Drop)]
pub struct Prepared {
    pub plan: Plan,
    /// The text of the permanent settings, where it is to be saved.
    pub text: Option<Vec<u8>>,
}

/// Makes all ready that an event needs: what it is to do, what its session is told, room in the journal, the text that is to be saved and
/// the ruleset that is to be committed.
///
/// Refuses where the journal has no room for its entry, and for want of memory; nothing has changed then.
pub fn prepare<B: Backend, C: Compiler>(
    alloc: Global,
    backend: &mut B,
    compiler: &C,
    history: &mut History,
    event: &Event,
    from: usize,
) -> Result<Prepared, Unplanned>
    requires from { from ≤ length history.old.journal.entries }
    requires comes { MayCome history.old.journal.entries event.now }
    ensures same { IsSame history.old history.new }
    ensures planned { IfOk result (λ prepared. IsPlanned history.old event.now from prepared.plan.proposal prepared.plan.told prepared.plan.earlier) }
    ensures room { OnOk result (0 < history.new.journal.spare) }
    ensures valid { OnOk result (AreValid (step history.old.settings event.now).after) }
    ensures text { IfOk result (λ prepared. IsTextFor prepared.plan.proposal.needs_save (step history.old.settings event.now).after.permanent (option_map (λ bytes. bytes.items) prepared.text)) }
    ensures ready { IfOk result (λ prepared. IsReadyFor prepared.plan.proposal.needs_commit (C.makes compiler.now) (step history.old.settings event.now).after.runtime (B.kernel backend.old) (B.kernel backend.new)) }
    ensures kernel { OnErr result (B.kernel backend.new ≡ B.kernel backend.old) }
    ensures full { IfErr result (λ why. IsFull history.old event.now why) }
    ensures free { IsFree history.old.settings event.now → 0 < history.old.journal.spare → from ≡ length history.old.journal.entries
        → needed history.old event.now ≤ left history.old → IsOk result }
{
    history.laws();
    settings_are_in_range(history.settings());
    in_range(event);
    step_keeps_valid();
    let plan = history.plan(alloc, event, from)?;
    Ok(make_ready(alloc, backend, compiler, history.settings(), plan)?)
}

/// The numbers of an event that may come are in their ranges.
#[tactic(auto, using(crate::proofs::Ranges::can_be_told))]
fn in_range(event: &Event)
    requires { IsInTime event.now }
    ensures { IsInRange event.now }
{
    events_are_in_range(event);
}

/// Makes the text and the ruleset ready that a plan needs.
///
/// Refuses for want of memory alone.
fn make_ready<B: Backend, C: Compiler>(
    alloc: Global,
    backend: &mut B,
    compiler: &C,
    settings: &Settings,
    plan: Plan,
) -> Result<Prepared, Memory>
    requires { IsValid (next_settings settings.now plan.proposal).runtime.config }
    ensures plan { IfOk result (λ prepared. prepared.plan ≡ plan) }
    ensures text { IfOk result (λ prepared. IsTextFor plan.proposal.needs_save (next_settings settings.entry.now plan.proposal).permanent (option_map (λ bytes. bytes.items) prepared.text)) }
    ensures ready { OnOk result (IsReadyFor plan.proposal.needs_commit (C.makes compiler.now) (next_settings settings.entry.now plan.proposal).runtime (B.kernel backend.old) (B.kernel backend.new)) }
    ensures kernel { OnErr result (B.kernel backend.new ≡ B.kernel backend.old) }
    ensures free { plan.proposal.needs_save ≡ false → plan.proposal.needs_commit ≡ false → IsOk result }
{
    let text = parts_for(
        alloc,
        backend,
        compiler,
        next_of(settings, &plan.proposal),
        plan.proposal.needs_save,
        plan.proposal.needs_commit,
    )?;
    Ok(Prepared { plan, text })
}

/// The settings that are proposed; where none are, those that there are.
fn next_of<'a>(settings: &'a Settings, proposal: &'a Proposal) -> &'a Settings
    ensures { result.now ≡ next_settings settings.entry.now proposal.now }
{
    match &proposal.next {
        Some(next) => next,
        None => settings,
    }
}

fn parts_for<B: Backend, C: Compiler>(
    alloc: Global,
    backend: &mut B,
    compiler: &C,
    next: &Settings,
    needs_save: bool,
    needs_commit: bool,
) -> Result<Option<Vec<u8>>, Memory>
    requires { IsValid next.now.runtime.config }
    ensures text { IfOk result (λ text. IsTextFor needs_save next.entry.now.permanent (option_map (λ bytes. bytes.items) text)) }
    ensures ready { OnOk result (IsReadyFor needs_commit (C.makes compiler.now) next.entry.now.runtime (B.kernel backend.old) (B.kernel backend.new)) }
    ensures kernel { OnErr result (B.kernel backend.new ≡ B.kernel backend.old) }
    ensures free { needs_save ≡ false → needs_commit ≡ false → IsOk result }
{
    let text = text_for(alloc, needs_save, &next.permanent)?;
    stage_for(alloc, needs_commit, backend, compiler, &next.runtime)?;
    Ok(text)
}

/// Carries an event out for which all is ready: the save first, and unless that failed the commit, where they are needed; then it is entered.
/// It takes no memory.
pub fn carry_out<B: Backend, K: Keeper>(
    backend: &mut B,
    keeper: &mut K,
    history: &mut History,
    event: Event,
    prepared: Prepared,
) -> Entered
    requires comes { MayCome history.old.journal.entries event }
    requires room { 0 < history.old.journal.spare }
    requires planned { (from : ℕ) × IsPlanned history.old event from prepared.plan.proposal prepared.plan.told prepared.plan.earlier }
    requires valid { AreValid (step history.old.settings event).after }
    requires text { IsTextFor prepared.plan.proposal.needs_save (step history.old.settings event).after.permanent (option_map (λ bytes. bytes.items) prepared.text) }
    requires staged { prepared.plan.proposal.needs_commit ≡ true → IsSome (B.kernel backend.old).staged }
    requires calls { (K.kept keeper.old).calls < 2 ^ 62 }
    requires asked { (B.kernel backend.old).asked < 2 ^ 62 }
    ensures { (from : ℕ) → from ≤ length history.old.journal.entries
        → IsPlanned history.old event from prepared.plan.proposal prepared.plan.told prepared.plan.earlier
        → IsCarriedOut history.old history.new (B.kernel backend.old) (B.kernel backend.new) (K.kept keeper.old) (K.kept keeper.new) event (option_map (λ bytes. bytes.items) prepared.text)
        prepared.plan.proposal.needs_commit from result.place result.signals result.reply }
{
    let Prepared { plan, text } = prepared;
    let needs_commit = plan.proposal.needs_commit;
    let saved = save(keeper, text);
    let committed = commit(backend, needs_commit, saved);
    history.enter(event, plan, saved, committed)
}
