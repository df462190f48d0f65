//! What is read from JSON.
ghost use Rattle.std.specs.Prelude.{ℕ, List, Result};
ghost use Rattle.fw_load.specs.Answers.{Says};
ghost use Rattle.serde_json.specs.Data.{Data};
ghost use Rattle.serde_json.specs.View.{view};

use crate::stop::Stop;
use serde_json::Value;
use std::alloc::Global;

/// What JSON tells.
pub trait Told {
    /// What a value says, or the way to the first fault in it.
    ghost reading: { Data → Result Self (List ℕ) };

    /// What a value says. Fault: the way to the first fault in it.
    fn read(alloc: Global, value: &Value) -> Result<Self, Stop>
        ensures { Says result (reading (view value.now)) };
}
