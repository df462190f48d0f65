//! The options of a command: two words each, in any order, each at most once.
ghost use Rattle.std.specs.Prelude.{◌≡◌, is_some, map};
ghost use Rattle.std.specs.String.{string_bytes};
ghost use Rattle.fw_command.specs.Options.{are_options, given, is_complete, is_option};

use super::form::{fits, form_of, is_plain};
use super::verb::Verb;

/// Whether words are options of a command with their values, each at most once.
#[tactic(auto, unfolding(crate::specs::Options::are_options), using(crate::proofs::Ends::only_none))]
pub fn are_options(verb: Verb, words: &[String]) -> bool
    ensures { result ≡ are_options verb (map string_bytes words.now) }
{
    let mut left = words;
    while let [name, value, behind @ ..] = left {
        if !is_option(verb, name.as_str(), value.as_str()) || is_given(name.as_str(), behind) {
            return false;
        }
        left = behind;
    }
    left.is_empty()
}

/// Whether the options are given that a command asks for.
pub fn is_complete(verb: Verb, words: &[String]) -> bool
    ensures { result ≡ is_complete verb (map string_bytes words.now) }
{
    match verb {
        Verb::Run => true,
        Verb::Serve => {
            is_given("--socket", words)
                && is_given("--workers", words)
                && is_given("--sessions", words)
        }
        Verb::Gen => is_given("--seed", words) && is_given("--lines", words),
    }
}

/// Whether a command has an option of this name that takes this value.
#[tactic(auto, unfolding(crate::specs::Options::is_option))]
fn is_option(verb: Verb, name: &str, value: &str) -> bool
    ensures { result ≡ is_option verb name.now value.now }
{
    match form_of(verb, name) {
        Some(form) => is_plain(value.as_bytes()) && fits(form, value),
        None => false,
    }
}

/// Whether an option of this name stands among words.
#[tactic(auto, unfolding(crate::specs::Options::given), using(crate::proofs::Ends::none_given))]
fn is_given(name: &str, words: &[String]) -> bool
    ensures { result ≡ is_some (given name.now (map string_bytes words.now)) }
{
    let mut left = words;
    while let [word, _, behind @ ..] = left {
        if word.as_str() == name {
            return true;
        }
        left = behind;
    }
    false
}
