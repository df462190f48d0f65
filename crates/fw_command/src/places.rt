//! Lists of places.
ghost use Rattle.std.specs.Prelude.{◌≡◌, IfOk, is_some};
ghost use Rattle.fw_command.specs.Numbers.{place_after, places};

use fw_base::{Memory, Seq};
use fw_text::{cut, read_number};
use std::alloc::Global;

/// The last place that a list can name.
const LAST_PLACE: u64 = 1_000_000_000;

/// The places of a list: decimal numbers from 1 to 1,000,000,000, ascending, joined by commas. None: the text isn't such a list.
pub fn read_places(alloc: Global, text: &[u8]) -> Result<Option<Seq<u64>>, Memory>
    ensures { IfOk result (λ read. read ≡ places text.now) }
{
    let mut found = Seq::new(alloc);
    let mut before = 0;
    let mut left = Some(text);
    while let Some(text) = left {
        let front = cut(b',', text);
        let Some(place) = place_after(before, front.piece) else {
            return Ok(None);
        };
        found.push(place)?;
        before = place;
        left = front.rest;
    }
    Ok(Some(found))
}

/// Whether a text is a list of places.
pub fn are_places(text: &[u8]) -> bool
    ensures { result ≡ is_some (places text.now) }
{
    let mut before = 0;
    let mut left = Some(text);
    while let Some(text) = left {
        let front = cut(b',', text);
        let Some(place) = place_after(before, front.piece) else {
            return false;
        };
        before = place;
        left = front.rest;
    }
    true
}

/// The place that a text says, where it is above the one before.
#[tactic(auto, unfolding(crate::specs::Numbers::place_after))]
fn place_after(before: u64, text: &[u8]) -> Option<u64>
    ensures { result ≡ place_after before text.now }
{
    let place = read_number(text, LAST_PLACE)?;
    if before < place { Some(place) } else { None }
}
