//! What installs rulesets.
ghost use Rattle.std.specs.Prelude.{◌≡◌, ◌<◌, ◌^◌, None, IsSome, IfSome, OnOk, OnErr};
ghost use Rattle.nf_kernel.specs.Installed.{IsCommitted, IsStaged, Kernel, with_staged};
ghost use Rattle.nf_kernel.specs.Transactions.{Fits};

use crate::Tx;
use fw_base::{Failed, Memory};
use nf_rules::Ruleset;
use std::alloc::Global;

/// A kernel that holds one ruleset and changes it by transactions, each whole or not at all.
///
/// A transaction is staged first, which may find no memory; its commit takes none.
pub trait Backend {
    /// What is seen of it.
    ghost kernel: { Self → Kernel };

    /// The ruleset that is installed.
    fn rules(&self) -> &Ruleset
        ensures { result.now ≡ (kernel self.now).installed };

    /// How many faults it has counted, or 2^64 - 1 where these are more.
    fn faults(&self) -> u64
        ensures { result ≡ (kernel self.now).faults };

    /// Makes a transaction ready, in the place of one that was staged.
    ///
    /// Refuses for want of memory alone; all is then as before.
    fn stage(&mut self, alloc: Global, tx: &Tx) -> Result<(), Memory>
        requires fits { Fits tx.now.commands (kernel self.old).installed }
        ensures staged { OnOk result (IsStaged tx.now.commands (kernel self.old) (kernel self.new)) }
        ensures memory { OnErr result (kernel self.new ≡ kernel self.old) };

    /// Forgets what is staged.
    fn unstage(&mut self)
        ensures { kernel self.new ≡ with_staged None (kernel self.old) };

    /// Installs what is staged, whole. It takes no memory.
    ///
    /// Failed comes only where the count of faults rose; the ruleset is then as before. Nothing is staged afterwards.
    fn commit(&mut self) -> Result<(), Failed>
        requires staged { IsSome (kernel self.old).staged }
        requires asked { (kernel self.old).asked < 2 ^ 62 }
        ensures { IfSome (kernel self.old).staged (λ ready. IsCommitted ready (kernel self.old) (kernel self.new) result) };
}
