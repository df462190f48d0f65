//! The ruleset of the settings in force, and what becomes of it.
ghost use Rattle.std.specs.Prelude.{◌≡◌, ◌≢◌, ◌↔◌, ◌⊎◌, ◌<◌, ◌^◌, true, false, None, Some, OnOk, OnErr, IsOk, IsSome, MatchBool};
ghost use Rattle.fw_calls.specs.declared.applied.Applied.TheVariants as applied;
ghost use Rattle.fw_daemon.specs.Outside.{IsCommittedTo, IsReady, IsReadyFor};
ghost use Rattle.fw_valid.specs.Valid.{IsValid};
ghost use Rattle.nf_kernel.specs.Installed.{Kernel, with_staged};
ghost use Rattle.nf_kernel.specs.declared.kernel.Ready.{Ready as ReadyValue};

use fw_base::Memory;
use fw_calls::Applied;
use fw_model::Runtime;
use nf_goal::Compiler;
use nf_kernel::Backend;
use nf_replace::{replace, replacing_makes_the_ruleset};
use std::alloc::Global;

/// Stages the ruleset of the settings in force, in the place of whatever is installed.
///
/// Refuses for want of memory alone; nothing has changed then.
pub fn stage<B: Backend, C: Compiler>(
    alloc: Global,
    backend: &mut B,
    compiler: &C,
    runtime: &Runtime,
) -> Result<(), Memory>
    requires { IsValid runtime.now.config }
    ensures ready { OnOk result (IsReady (C.makes compiler.now) runtime.now (B.kernel backend.old) (B.kernel backend.new)) }
    ensures memory { OnErr result (B.kernel backend.new ≡ B.kernel backend.old) }
{
    replacing_makes_the_ruleset();
    let rules = compiler.compile(alloc, runtime)?;
    let tx = replace(alloc, &rules)?;
    backend.stage(alloc, &tx)
}

/// The same where a commit is needed, and else nothing.
pub fn stage_for<B: Backend, C: Compiler>(
    alloc: Global,
    needed: bool,
    backend: &mut B,
    compiler: &C,
    runtime: &Runtime,
) -> Result<(), Memory>
    requires { IsValid runtime.now.config }
    ensures idle { needed ≡ false → IsOk result }
    ensures ready { OnOk result (IsReadyFor needed (C.makes compiler.now) runtime.now (B.kernel backend.old) (B.kernel backend.new)) }
    ensures memory { OnErr result (B.kernel backend.new ≡ B.kernel backend.old) }
{
    if needed {
        stage(alloc, backend, compiler, runtime)
    } else {
        Ok(())
    }
}

/// Commits what is staged. It takes no memory.
fn commit_staged<B: Backend>(backend: &mut B) -> Applied
    requires staged { IsSome (B.kernel backend.old).staged }
    requires asked { (B.kernel backend.old).asked < 2 ^ 62 }
    ensures tried { result ≢ applied.Skipped }
    ensures committed { (ready : ReadyValue) (before : Kernel) → B.kernel backend.old ≡ with_staged (Some ready) before → IsCommittedTo ready.after before (B.kernel backend.new) result }
{
    match backend.commit() {
        Ok(()) => Applied::Done,
        Err(_) => Applied::Failed,
    }
}

/// Commits what is staged for a commit that is needed, unless the save before it failed: then it is forgotten. It takes no memory.
pub fn commit<B: Backend>(backend: &mut B, needed: bool, save: Applied) -> Applied
    requires staged { needed ≡ true → IsSome (B.kernel backend.old).staged }
    requires asked { (B.kernel backend.old).asked < 2 ^ 62 }
    ensures committed { needed ≡ true → (ready : ReadyValue) (before : Kernel) → before.staged ≡ None → B.kernel backend.old ≡ with_staged (Some ready) before
        → IsCommittedTo ready.after before (B.kernel backend.new) result }
    ensures idle { needed ≡ false → B.kernel backend.new ≡ B.kernel backend.old }
    ensures skipped { (result ≡ applied.Skipped) ↔ ((needed ≡ false) ⊎ (save ≡ applied.Failed)) }
{
    if !needed {
        return Applied::Skipped;
    }
    if has_failed(save) {
        backend.unstage();
        return Applied::Skipped;
    }
    commit_staged(backend)
}

fn has_failed(save: Applied) -> bool
    ensures { MatchBool result (save ≡ applied.Failed) (save ≢ applied.Failed) }
{
    match save {
        Applied::Failed => true,
        Applied::Skipped | Applied::Done => false,
    }
}
