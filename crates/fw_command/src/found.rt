//! The values of options, as `clap` finds them.
ghost use Rattle.std.specs.Prelude.{◌≡◌, IfErr, IfOk, map, true};
ghost use Rattle.std.specs.Option.{option_copied};
ghost use Rattle.std.specs.String.{string_bytes};
ghost use Rattle.fw_command.specs.Options.{are_options, value_in};

use super::PickError;
use super::parser::parser;
use super::verb::Verb;
use clap::ArgMatches;
use clap::error::ErrorKind;
use std::alloc::Global;
use std::marker::Model;

/// The options among words. Contracts see the words.
#[derive(Drop)]
pub struct Found<'a> {
    words: &'a [String],
    matches: ArgMatches<'a>,
}

impl<'a> Model for Found<'a> {
    ghost use Rattle.std.specs.Prelude.{List, map, ℕ};
    ghost use Rattle.std.specs.String.{string_bytes};
    ghost use Rattle.clap.specs.Words.{found_of};
    ghost use Rattle.fw_command.specs.Parsers.{GivesValues};

    ghost Value = { List (List ℕ) };

    ghost view = { λ found. map string_bytes found.words.now };

    ghost invariant = { λ found. GivesValues (found_of found.matches) (map string_bytes found.words.now) };
}

impl<'a> Found<'a> {
    /// The value of the option that has this name behind `--`.
    pub fn value(&self, name: &str) -> Option<&'a str>
        ensures { option_copied result ≡ value_in self.now name.now }
    {
        self.matches.get_str(name)
    }
}

/// Finds the options of a command among words, which are such options.
///
/// Refuses for want of memory alone.
pub fn found_in<'a>(alloc: Global, verb: Verb, words: &'a [String]) -> Result<Found<'a>, PickError>
    requires { are_options verb (map string_bytes words.now) ≡ true }
    ensures found { IfOk result (λ found. found ≡ map string_bytes words.entry.now) }
    ensures memory { IfErr result (λ error. error ≡ PickError.Memory) }
{
    let parser = parser(alloc, verb)?;
    match parser.try_get_matches_from(words) {
        Ok(matches) => Ok(Found { words, matches }),
        Err(error) => match error.kind() {
            ErrorKind::OutOfMemory => Err(PickError::Memory),
            _ => Err(PickError::Usage),
        },
    }
}
