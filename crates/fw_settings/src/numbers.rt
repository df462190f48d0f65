//! The numbers of objects.
ghost use Rattle.std.specs.Prelude.{◌≡◌, IfOk};
ghost use Rattle.std.specs.List.{range_with_len};

use fw_base::{Memory, Seq};
use std::alloc::Global;

/// So many numbers from 0 on.
#[tactic(auto, using(crate::proofs::Counted::counted_more))]
pub fn first_numbers(alloc: Global, count: usize) -> Result<Seq<u64>, Memory>
    ensures { IfOk result (λ numbers. numbers ≡ range_with_len 0 count) }
{
    let mut numbers = Seq::new(alloc);
    for number in 0..count {
        numbers.push(number as u64)?;
    }
    Ok(numbers)
}
