//! What the values of options say.
ghost use Rattle.std.specs.Prelude.{◌≡◌, ◌≤◌, IfOk};
ghost use Rattle.std.specs.Option.{option_copied};
ghost use Rattle.fw_command.specs.Numbers.{number_given, places_given};
ghost use Rattle.fw_command.specs.Picking.{Picks};

use super::PickError;
use super::places::read_places;
use fw_base::{Memory, Seq, Text};
use fw_text::read_number;
use std::alloc::Global;

/// A text that may be left out.
pub fn text_if_given(alloc: Global, value: Option<&str>) -> Result<Option<Text>, Memory>
    ensures { IfOk result (λ text. text ≡ option_copied value.entry) }
{
    match value {
        Some(text) => Ok(Some(Text::of(alloc, text)?)),
        None => Ok(None),
    }
}

/// A text that may not be left out.
pub fn text_given(alloc: Global, value: Option<&str>) -> Result<Text, PickError>
    ensures { Picks result (option_copied value.entry) }
{
    match value {
        Some(text) => Ok(Text::of(alloc, text)?),
        None => Err(PickError::Usage),
    }
}

/// A number that may not be left out.
pub fn number_given(value: Option<&str>, most: u64) -> Result<u64, PickError>
    ensures number { Picks result (number_given most (option_copied value.entry)) }
    ensures bound { IfOk result (λ number. number ≤ most) }
{
    let Some(text) = value else {
        return Err(PickError::Usage);
    };
    read_number(text.as_bytes(), most).ok_or(PickError::Usage)
}

/// A list of places; there are none where it is left out.
pub fn places_given(alloc: Global, value: Option<&str>) -> Result<Seq<u64>, PickError>
    ensures { Picks result (places_given (option_copied value.entry)) }
{
    let Some(text) = value else {
        return Ok(Seq::new(alloc));
    };
    match read_places(alloc, text.as_bytes())? {
        Some(places) => Ok(places),
        None => Err(PickError::Usage),
    }
}
