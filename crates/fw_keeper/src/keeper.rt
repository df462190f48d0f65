//! What keeps a text.
ghost use Rattle.std.specs.Prelude.{◌≡◌, ◌<◌, ◌^◌, Err, IsErr, OnOk, IfOk, IfSome, option_map};
ghost use Rattle.fw_keeper.specs.Kept.{IsCalled, IsSaved, Kept};

use fw_base::{Failed, Memory};
use std::alloc::Global;
use std::error::Error;
use std::fmt;

/// Why a text couldn't be loaded.
#[derive(Clone, Copy, Debug, PartialEq, Eq)]
pub enum KeepError {
    /// The outside failed, and the keeper has counted it.
    Failed,
    /// No memory was found for the text.
    Memory,
}

impl fmt::Display for KeepError {
    fn fmt<W: fmt::Write>(&self, f: &mut fmt::Formatter<W>) -> fmt::Result {
        match self {
            KeepError::Failed => write!(f, "{}", Failed),
            KeepError::Memory => write!(f, "{}", Memory),
        }
    }
}

impl Error for KeepError {}

/// A place that holds one text, or none yet.
///
/// Its loads and saves are numbered together, from 1. A call is blamed on the keeper only where its count of faults rose.
pub trait Keeper {
    /// What is seen of it.
    ghost kept: { Self → Kept };

    /// How many faults it has counted, or 2^64 - 1 where these are more.
    fn faults(&self) -> u64
        ensures { result ≡ (kept self.now).faults };

    /// The text that is held; None where there is none.
    ///
    /// It stays held, whatever is answered. Refuses Failed where the outside failed, and Memory.
    fn load(&mut self, alloc: Global) -> Result<Option<Vec<u8>>, KeepError>
        requires calls { (kept self.old).calls < 2 ^ 62 }
        ensures called { IsCalled (result ≡ Err KeepError.Failed) (kept self.old) (kept self.new) }
        ensures succeeded { OnOk result ((kept self.new).faults ≡ (kept self.old).faults) }
        ensures stays { (kept self.new).held ≡ (kept self.old).held }
        ensures given { IfSome (kept self.old).held (λ held. IfOk result (λ text. option_map (λ bytes. bytes.items) text ≡ held)) };

    /// Makes the text the one that is held, whole or not at all.
    ///
    /// Refuses Failed, and then what was held is held on.
    fn save(&mut self, text: Vec<u8>) -> Result<(), Failed>
        requires calls { (kept self.old).calls < 2 ^ 62 }
        ensures called { IsCalled (IsErr result) (kept self.old) (kept self.new) }
        ensures succeeded { OnOk result ((kept self.new).faults ≡ (kept self.old).faults) }
        ensures saved { IsSaved text.items (kept self.old) (kept self.new) result };
}
