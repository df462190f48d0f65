//! Sizes of what calls and signals carry, as far as 64 bits go.
ghost use Rattle.std.specs.Prelude.{ℕ, ◌≡◌, ◌+◌, ◌*◌};
ghost use Rattle.std.specs.List.{sum_by};
ghost use Rattle.fw_calls.specs.Weight.{capped};

use fw_base::{Seq, Text};

/// What has a size: its bytes, and what counts as bytes.
pub trait Measure {
    ghost size: { Self → ℕ };

    /// Its size, or 2^64 - 1 where that is less.
    fn size(&self) -> u64
        ensures { result ≡ capped (size self.now) };
}

impl Measure for Text {
    ghost use Rattle.std.specs.Prelude.{length};

    ghost size = { λ text. length text };

    fn size(&self) -> u64 {
        self.as_str().len() as u64
    }
}

impl Measure for Seq<Text> {
    ghost use Rattle.fw_calls.specs.Weight.{bytes_of};

    ghost size = { λ texts. bytes_of texts };

    fn size(&self) -> u64 {
        total(self.as_slice())
    }
}

/// The sum of two sizes, or 2^64 - 1 where that is less.
pub fn sum(one: u64, other: u64) -> u64
    ensures { result ≡ capped (one + other) }
{
    one.saturating_add(other)
}

/// So many sizes of one kind, or 2^64 - 1 where that is less.
pub fn times(size: u64, things: usize) -> u64
    ensures { result ≡ capped (size * things) }
{
    size.saturating_mul(things as u64)
}

/// The sizes of items together, or 2^64 - 1 where that is less.
pub fn total<T: Measure>(items: &[T]) -> u64
    ensures { result ≡ capped (sum_by T.size items.now) }
{
    let mut total = 0;
    for item in items {
        total = sum(total, item.size());
    }
    total
}
