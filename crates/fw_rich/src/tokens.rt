//! The tokens of a text, taken one after another.
ghost use Rattle.std.specs.Prelude.{◌≡◌, ◌≤◌, ◌↔◌, IsTrue, [], length};
ghost use Rattle.std.specs.Option.{option_copied};
ghost use Rattle.fw_rich.specs.Reading.{offset, pop, stop, take_pair, take_word, word_key};
ghost use Rattle.fw_rich.specs.Tokens.{tokens, tokens_from};

use super::bytes::behind_gap;
use super::token::{TokenText, ValueText, next_token};
use std::marker::Model;

/// Where a text stops following the grammar.
#[derive(Clone, Copy, Debug, PartialEq, Eq)]
pub enum Stop {
    /// At the token that begins at this byte.
    At(usize),
    /// At the text's end, which comes too soon.
    End,
}

/// The tokens that are left of a text. Contracts see them as a list.
#[derive(Drop)]
pub struct Tokens<'a> {
    size: usize,
    next: Option<TokenText<'a>>,
    left: &'a str,
}

impl<'a> Model for Tokens<'a> {
    ghost use Rattle.std.specs.Prelude.{List, ◌≤◌, length};
    ghost use Rattle.fw_rich.specs.Tokens.{Token, tokens_from};
    ghost use Rattle.fw_rich.specs.Reading.{before};

    ghost Value = { List Token };

    ghost view = { λ t. before t.next (tokens_from t.size t.left.now) };

    ghost invariant = { λ t. length t.left.now ≤ t.size };
}

/// The tokens of the end of a text, in a whole of that size.
#[tactic(auto, using(crate::proofs::TokenSteps::tokens_begin, crate::proofs::TokenSteps::tokens_end, crate::proofs::TokenSteps::left_within))]
fn tokens_from<'a>(size: usize, text: &'a str) -> Tokens<'a>
    requires { length text.now ≤ size }
    ensures { result ≡ tokens_from size text.now }
{
    match next_token(size, behind_gap(text)) {
        Some(front) => Tokens {
            size,
            next: Some(front.token),
            left: front.left,
        },
        None => Tokens {
            size,
            next: None,
            left: "",
        },
    }
}

impl<'a> Tokens<'a> {
    /// All tokens of a text.
    pub fn of(text: &'a str) -> Tokens<'a>
        ensures { result ≡ tokens text.now }
    {
        tokens_from(text.len(), text)
    }

    /// The next token's place.
    pub fn stop(&self) -> Stop
        ensures { result ≡ stop self.now }
    {
        match &self.next {
            Some(token) => Stop::At(token.offset),
            None => Stop::End,
        }
    }

    /// Where the next token begins, or 0 where none is left.
    pub fn offset(&self) -> usize
        ensures { result ≡ offset self.now }
    {
        match &self.next {
            Some(token) => token.offset,
            None => 0,
        }
    }

    /// Whether no token is left.
    pub fn is_empty(&self) -> bool
        ensures { IsTrue result ↔ (self.now ≡ []) }
    {
        self.next.is_none()
    }

    /// Takes the next token.
    pub fn pop(&mut self) -> Option<TokenText<'a>>
        ensures { (result, self.new) ≡ pop self.old }
    {
        let token = self.next.take()?;
        *self = tokens_from(self.size, self.left);
        Some(token)
    }

    /// The next token, where it is a word.
    pub fn word(&self) -> Option<&'a str>
        ensures { option_copied result ≡ word_key self.now }
    {
        match &self.next {
            Some(token) if token.value.is_none() => Some(token.key),
            _ => None,
        }
    }

    /// Takes this word, where it comes next.
    pub fn take_word(&mut self, word: &str) -> bool
        ensures { (result, self.new) ≡ take_word word.now self.old }
    {
        if self.word() == Some(word) {
            self.pop();
            true
        } else {
            false
        }
    }

    /// Takes the pair of this key, where it comes next.
    pub fn take_pair(&mut self, key: &str) -> Option<ValueText<'a>>
        ensures { (result, self.new) ≡ take_pair key.now self.old }
    {
        match &self.next {
            Some(token) if token.key == key && token.value.is_some() => {}
            _ => return None,
        }
        self.pop()?.value
    }
}
