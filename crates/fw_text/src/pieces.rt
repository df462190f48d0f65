//! A text cut at a separator: the front piece, and what follows it.
ghost use Rattle.std.specs.Prelude.{◌≡◌, ◌<◌, ◌∷◌, length, IfSome};
ghost use Rattle.std.specs.Option.{option_copied};
ghost use Rattle.fw_text.specs.Pieces.{pieces, later_pieces};

use memchr::memchr;

/// A text up to its first separator, and what stands after that separator, if there is one.
#[derive(Clone, Copy)]
pub struct Front<'a> {
    pub piece: &'a [u8],
    pub rest: Option<&'a [u8]>,
}

/// Cuts a text at its first separator, as `split_once` does.
pub fn cut(separator: u8, text: &[u8]) -> Front<'_>
    ensures pieces { pieces separator text.now ≡ result.piece.now ∷ later_pieces separator (option_copied result.rest) }
    ensures shorter { IfSome result.rest (λ rest. length rest.now < length text.now) }
{
    match memchr(separator, text) {
        Some(place) => Front {
            piece: &text[..place],
            rest: Some(&text[place + 1..]),
        },
        None => Front {
            piece: text,
            rest: None,
        },
    }
}
