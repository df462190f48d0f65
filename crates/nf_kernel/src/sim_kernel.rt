//! A kernel in memory, which fails at chosen commits.
ghost use Rattle.std.specs.Prelude.{◌≡◌, ◌<◌, ◌^◌, None, Some, IsSome, IfSome, OnOk, OnErr};
ghost use Rattle.nf_kernel.specs.Installed.{IsCommitted, IsStaged, with_staged};
ghost use Rattle.nf_kernel.specs.Transactions.{Fits, empty};

use crate::apply::applied;
use crate::kernel::Ready;
use crate::{Backend, Tx};
use fw_base::{Failed, Memory, Seq};
use nf_rules::Ruleset;
use std::alloc::Global;
use std::marker::Model;

/// A kernel in memory. The commits whose numbers, from 1, are listed fail.
#[derive(Drop)]
pub struct SimKernel {
    installed: Ruleset,
    staged: Option<Ready>,
    failing: Vec<u64>,
    faults: u64,
    asked: u64,
    sent: u128,
}

impl Model for SimKernel {
    ghost use Rattle.std.specs.Prelude.{ℕ, ◌≤◌, ◌*◌, ◌^◌, Some, IfSome};
    ghost use Rattle.nf_kernel.specs.Installed.{Kernel};
    ghost use Rattle.nf_sound.specs.Names.{AreByName};

    ghost Value = { Kernel };

    ghost view = { λ k. record { installed = k.installed; staged = k.staged; faults = k.faults; asked = k.asked; sent = k.sent; failing = Some k.failing.items } };

    ghost invariant = { λ k. AreByName k.installed × IfSome k.staged (λ ready. AreByName ready.after) × (k.asked ≤ 2 ^ 62) × (k.sent ≤ k.asked * 2 ^ 64) };
}

impl SimKernel {
    /// A kernel with no chain, set or map. It takes no memory.
    pub fn new(alloc: Global, failing: Vec<u64>) -> SimKernel
        ensures { result ≡ record { installed = empty; staged = None; faults = 0; asked = 0; sent = 0; failing = Some failing.items } }
    {
        SimKernel {
            installed: Ruleset {
                chains: Seq::new(alloc),
                sets: Seq::new(alloc),
                maps: Seq::new(alloc),
            },
            staged: None,
            failing,
            faults: 0,
            asked: 0,
            sent: 0,
        }
    }
}

impl Backend for SimKernel {
    ghost kernel = { λ k. k };

    fn rules(&self) -> &Ruleset {
        &self.installed
    }

    fn faults(&self) -> u64 {
        self.faults
    }

    fn stage(&mut self, alloc: Global, tx: &Tx) -> Result<(), Memory> {
        let commands = tx.commands.as_slice();
        if let Some(after) = applied(alloc, &self.installed, commands)? {
            self.staged = Some(Ready {
                after,
                commands: commands.len() as u64,
            });
        }
        Ok(())
    }

    fn unstage(&mut self) {
        self.staged = None;
    }

    fn commit(&mut self) -> Result<(), Failed> {
        let Some(Ready { after, commands }) = self.staged.take() else {
            return Ok(());
        };
        self.asked += 1;
        self.sent += u128::from(commands);
        if self.failing.contains(&self.asked) {
            self.faults = self.faults.saturating_add(1);
            return Err(Failed);
        }
        self.installed = after;
        Ok(())
    }
}
