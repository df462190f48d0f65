//! The words of a line, taken one after another.
ghost use Rattle.std.specs.Prelude.{◌≡◌, ◌≢◌, [], ◌∷◌, MatchResult};
ghost use Rattle.fw_words.specs.Keys.{texts};

use super::LineError;
use std::marker::Model;

/// The words that are left of a line. Contracts see them as a list of texts.
#[derive(Drop)]
pub struct Words<'a> {
    left: &'a [&'a str],
}

impl<'a> Model for Words<'a> {
    ghost use Rattle.std.specs.Prelude.{List, ℕ};
    ghost use Rattle.fw_words.specs.Keys.{texts};

    ghost Value = { List (List ℕ) };

    ghost view = { λ words. texts words.left.now };
}

impl<'a> Words<'a> {
    /// All of some words.
    pub fn of(words: &'a [&'a str]) -> Words<'a>
        ensures { result ≡ texts words.now }
    {
        Words { left: words }
    }

    /// Takes the next word. BadLine: no word is left.
    pub fn next(&mut self) -> Result<&'a str, LineError>
        ensures { MatchResult result (λ word. self.old ≡ word.now ∷ self.new) (λ error. (error ≡ LineError.BadLine) × (self.old ≡ []) × (self.new ≡ [])) }
    {
        match self.left {
            [word, left @ ..] => {
                self.left = left;
                Ok(*word)
            }
            [] => Err(LineError::BadLine),
        }
    }

    /// No word is left. BadLine: one is.
    pub fn end(&self) -> Result<(), LineError>
        ensures { MatchResult result (λ _. self.now ≡ []) (λ error. (error ≡ LineError.BadLine) × (self.now ≢ [])) }
    {
        if self.left.is_empty() {
            Ok(())
        } else {
            Err(LineError::BadLine)
        }
    }
}
