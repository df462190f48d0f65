//! A keeper in a file.
ghost use Rattle.std.specs.Prelude.{◌≡◌, None};
ghost use Rattle.fw_keeper.specs.Kept.{fresh};

use crate::replace::replace_file;
use crate::{KeepError, Keeper};
use fw_base::{Failed, Memory, Text};
use std::alloc::Global;
use std::fs;
use std::io::ErrorKind;
use std::marker::Model;
use std::rt::Files;

/// A keeper whose text is a file's. A file that isn't there holds nothing.
///
/// A save is whole or not at all: a file beside it, with `.new` behind its name, is written, synced and renamed.
#[derive(Drop)]
pub struct FileKeeper<R> {
    runtime: R,
    path: Text,
    calls: u64,
    faults: u64,
}

impl<R> Model for FileKeeper<R> {
    ghost use Rattle.std.specs.Prelude.{None};
    ghost use Rattle.fw_keeper.specs.Kept.{Kept};

    ghost Value = { Kept };

    ghost view = { λ k. record { held = None; faults = k.faults; calls = k.calls; failing = None } };
}

impl<R: Files + AllocGlobal + Drop> FileKeeper<R> {
    /// A keeper of the file at a path, which it reaches through the runtime.
    pub fn new(runtime: R, path: Text) -> FileKeeper<R>
        ensures { result ≡ fresh None None }
    {
        FileKeeper {
            runtime,
            path,
            calls: 0,
            faults: 0,
        }
    }
}

impl<R: Files + AllocGlobal + Drop> Keeper for FileKeeper<R> {
    ghost kept = { λ k. k };

    fn faults(&self) -> u64 {
        self.faults
    }

    fn load(&mut self, _alloc: Global) -> Result<Option<Vec<u8>>, KeepError> {
        self.calls += 1;
        let loaded = load_file(&self.runtime, self.path.as_str());
        if let Err(KeepError::Failed) = &loaded {
            self.faults = self.faults.saturating_add(1);
        }
        loaded
    }

    fn save(&mut self, text: Vec<u8>) -> Result<(), Failed> {
        self.calls += 1;
        let saved = save_file(&self.runtime, self.path.as_str(), text.as_slice());
        if saved.is_err() {
            self.faults = self.faults.saturating_add(1);
        }
        saved
    }
}

/// What the file has, or None where there is none.
fn load_file<R: Files + AllocGlobal>(
    runtime: &R,
    path: &str,
) -> Result<Option<Vec<u8>>, KeepError> {
    match fs::read(runtime, path) {
        Ok(text) => Ok(Some(text)),
        Err(error) => match error.kind() {
            ErrorKind::NotFound => Ok(None),
            ErrorKind::OutOfMemory => Err(KeepError::Memory),
            _ => Err(KeepError::Failed),
        },
    }
}

/// Puts the text into the file.
fn save_file<R: Files + AllocGlobal>(runtime: &R, path: &str, text: &[u8]) -> Result<(), Failed> {
    let Ok(beside) = name_beside(runtime.alloc(), path) else {
        return Err(Failed);
    };
    match replace_file(runtime, path, beside.as_str(), text) {
        Ok(()) => Ok(()),
        Err(_) => Err(Failed),
    }
}

/// The name of the file beside that of a path.
fn name_beside(alloc: Global, path: &str) -> Result<String, Memory> {
    let mut name = String::from_str(alloc, path)?;
    name.push_str(".new")?;
    Ok(name)
}
