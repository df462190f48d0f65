//! The format of the settings' text.
ghost use Rattle.std.specs.Prelude.{◌≡◌};
ghost use Rattle.fw_load.specs.Objects.{first, first_format};

use crate::stop::{Stop, or_fault};
use crate::told::Told;
use serde_json::Value;
use std::alloc::Global;

/// The first format, told by the number 1.
#[derive(Clone, Copy)]
pub struct FirstFormat {}

impl Told for FirstFormat {
    ghost reading = { first_format };

    #[tactic(auto, unfolding(crate::specs::Objects::first_format))]
    fn read(alloc: Global, value: &Value) -> Result<FirstFormat, Stop> {
        or_fault(alloc, value.as_u64().and_then(first))
    }
}

fn first(number: u64) -> Option<FirstFormat>
    ensures { result ≡ first number }
{
    if number == 1 {
        Some(FirstFormat {})
    } else {
        None
    }
}
