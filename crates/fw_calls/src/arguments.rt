//! Arguments that are taken one after another.
ghost use Rattle.std.specs.Prelude.{◌≡◌, ◌∷◌, [], None, Some, MatchOption};
ghost use Rattle.fw_calls.specs.Making.{at_end, next_dict, next_int, next_number, next_text, next_texts};

use super::{Argument, Dict};
use fw_base::{Seq, Text};
use std::marker::Model;

/// The arguments that are left. Contracts see them as a list.
#[derive(Drop)]
pub struct Arguments {
    left: Seq<Argument>,
}

impl Model for Arguments {
    ghost use Rattle.std.specs.Prelude.{List};
    ghost use Rattle.fw_calls.specs.declared.argument.Argument.{Argument};

    ghost Value = { List Argument };

    ghost view = { λ arguments. arguments.left };
}

impl Arguments {
    pub fn of(left: Seq<Argument>) -> Arguments
        ensures { result ≡ left }
    {
        Arguments { left }
    }

    /// The next argument where it is a text.
    #[tactic(auto, unfolding(crate::specs::Making::next_text))]
    pub fn text(&mut self) -> Option<Text>
        ensures { MatchOption result (next_text self.old ≡ None) (λ found. next_text self.old ≡ Some (found, self.new)) }
    {
        match self.next()? {
            Argument::Text(text) => Some(text),
            _ => None,
        }
    }

    /// The next argument where it is the number of an object.
    #[tactic(auto, unfolding(crate::specs::Making::next_number))]
    pub fn number(&mut self) -> Option<u64>
        ensures { MatchOption result (next_number self.old ≡ None) (λ found. next_number self.old ≡ Some (found, self.new)) }
    {
        match self.next()? {
            Argument::Number(number) => Some(number),
            _ => None,
        }
    }

    /// The next argument where it is a number.
    #[tactic(auto, unfolding(crate::specs::Making::next_int))]
    pub fn int(&mut self) -> Option<i32>
        ensures { MatchOption result (next_int self.old ≡ None) (λ found. next_int self.old ≡ Some (found, self.new)) }
    {
        match self.next()? {
            Argument::Int(number) => Some(number),
            _ => None,
        }
    }

    /// The next argument where it is a list of texts.
    #[tactic(auto, unfolding(crate::specs::Making::next_texts))]
    pub fn texts(&mut self) -> Option<Seq<Text>>
        ensures { MatchOption result (next_texts self.old ≡ None) (λ found. next_texts self.old ≡ Some (found, self.new)) }
    {
        match self.next()? {
            Argument::Texts(texts) => Some(texts),
            _ => None,
        }
    }

    /// The next argument where it is a dict.
    #[tactic(auto, unfolding(crate::specs::Making::next_dict))]
    pub fn dict(&mut self) -> Option<Dict>
        ensures { MatchOption result (next_dict self.old ≡ None) (λ found. next_dict self.old ≡ Some (found, self.new)) }
    {
        match self.next()? {
            Argument::Dict(dict) => Some(dict),
            _ => None,
        }
    }

    /// What was made of the arguments, where none is left.
    #[tactic(auto, unfolding(crate::specs::Making::at_end))]
    pub fn end<T: Drop>(self, made: T) -> Option<T>
        ensures { result ≡ at_end made self }
    {
        if self.left.as_slice().is_empty() {
            Some(made)
        } else {
            None
        }
    }

    fn next(&mut self) -> Option<Argument>
        ensures { MatchOption result (self.old ≡ []) (λ found. self.old ≡ found ∷ self.new) }
    {
        if self.left.as_slice().is_empty() {
            None
        } else {
            Some(self.left.remove(0))
        }
    }
}
