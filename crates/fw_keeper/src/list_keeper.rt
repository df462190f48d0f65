//! A keeper in memory, which fails at chosen calls.
ghost use Rattle.std.specs.Prelude.{◌≡◌, Some, Err, IfOk, OnErr, option_map};
ghost use Rattle.fw_keeper.specs.Kept.{fresh};

use crate::{KeepError, Keeper};
use fw_base::{Failed, Memory};
use std::alloc::Global;
use std::marker::Model;

/// A keeper in memory. The calls whose numbers, from 1, are listed fail; loads and saves are numbered together.
#[derive(Drop)]
pub struct ListKeeper {
    text: Option<Vec<u8>>,
    failing: Vec<u64>,
    calls: u64,
    faults: u64,
}

impl Model for ListKeeper {
    ghost use Rattle.std.specs.Prelude.{ℕ, ◌≤◌, ◌^◌, Some, option_map};
    ghost use Rattle.fw_keeper.specs.Kept.{Kept};

    ghost Value = { Kept };

    ghost view = { λ k. record { held = Some (option_map (λ bytes. bytes.items) k.text); faults = k.faults; calls = k.calls; failing = Some k.failing.items } };
}

impl ListKeeper {
    /// A keeper that holds the text, or none. It takes no memory.
    pub fn new(text: Option<Vec<u8>>, failing: Vec<u64>) -> ListKeeper
        ensures { result ≡ fresh (Some (option_map (λ bytes. bytes.items) text)) (Some failing.items) }
    {
        ListKeeper {
            text,
            failing,
            calls: 0,
            faults: 0,
        }
    }

    /// The text that is held. It takes no memory.
    pub fn text(&self) -> Option<&[u8]>
        ensures { self.now.held ≡ Some (option_map (λ bytes. bytes.now) result) }
    {
        match &self.text {
            Some(text) => Some(text.as_slice()),
            None => None,
        }
    }
}

impl Keeper for ListKeeper {
    ghost kept = { λ k. k };

    fn faults(&self) -> u64 {
        self.faults
    }

    fn load(&mut self, alloc: Global) -> Result<Option<Vec<u8>>, KeepError> {
        self.calls += 1;
        if self.failing.contains(&self.calls) {
            self.faults = self.faults.saturating_add(1);
            return Err(KeepError::Failed);
        }
        copy_of(alloc, &self.text)
    }

    fn save(&mut self, text: Vec<u8>) -> Result<(), Failed> {
        self.calls += 1;
        if self.failing.contains(&self.calls) {
            self.faults = self.faults.saturating_add(1);
            return Err(Failed);
        }
        self.text = Some(text);
        Ok(())
    }
}

/// A copy of the text, if there is one.
fn copy_of(alloc: Global, text: &Option<Vec<u8>>) -> Result<Option<Vec<u8>>, KeepError>
    ensures same { IfOk result (λ copy. option_map (λ bytes. bytes.items) copy ≡ option_map (λ bytes. bytes.items) text.now) }
    ensures memory { OnErr result (result ≡ Err KeepError.Memory) }
{
    let Some(text) = text else {
        return Ok(None);
    };
    match text.as_slice().to_vec(alloc) {
        Ok(copy) => Ok(Some(copy)),
        Err(_) => Err(KeepError::Memory),
    }
}
