//! A place in bytes that are read from left to right.

ghost use Rattle.std.specs.Prelude.{◌+◌, ◌<◌, ◌^◌, length};

/// An offset, and the bytes from there on.
#[derive(Clone, Copy)]
pub struct Cursor<'a> {
    pub at: usize,
    pub rest: &'a [u8],
    pub ghost fits: { at + length rest.now < 2 ^ 64 },
}

impl<'a> Cursor<'a> {
    ghost use Rattle.std.specs.Prelude.{◌≡◌, [], ◌∷◌, MatchOption};

    /// The next byte, and the cursor behind it; None at the end.
    pub fn next(self) -> Option<(u8, Cursor<'a>)>
        ensures { MatchOption result (self.entry.rest.now ≡ []) (λ found.
            (self.entry.rest.now ≡ found.0 ∷ found.1.rest.now) × (found.1.at ≡ self.entry.at + 1)) }
    {
        let (byte, rest) = self.rest.split_first()?;
        let after = Cursor {
            at: self.at + 1,
            rest,
        };
        Some((*byte, after))
    }
}
