//! The command that words ask for.
ghost use Rattle.std.specs.Prelude.{◌≡◌, map, true};
ghost use Rattle.std.specs.String.{string_bytes};
ghost use Rattle.fw_command.specs.Commands.{command_of, gen_of, help_of, options_of, run_of, serve_of};
ghost use Rattle.fw_command.specs.Options.{are_options};
ghost use Rattle.fw_command.specs.Picking.{Picks};

use super::found::found_in;
use super::options::{are_options, is_complete};
use super::values::{number_given, places_given, text_given, text_if_given};
use super::verb::Verb;
use super::{Command, PickError};
use std::alloc::Global;

/// The command that words ask for, which come without the program's name.
///
/// Usage is answered exactly for words outside the grammar. The command comes first: `run`, `serve`, `gen` or `help`. Then come its options, of two
/// words each, in any order and each at most once: of `run` `--state PATH`, `--fail-commit LIST` and `--fail-save LIST`, each of which may be left
/// out; of `serve` `--socket PATH`, `--workers N` and `--sessions N`, and `--state PATH`, which may be left out; of `gen` `--seed N` and `--lines N`.
/// A path isn't empty and doesn't begin with `-`. A list has decimal numbers from 1 to 1,000,000,000, ascending and joined by commas.
/// Numbers have no sign and no leading zero. Workers are 1 to 64, sessions at most 10,000,000, lines 1 to 100,000, and a seed has 64 bits.
#[tactic(auto, unfolding(crate::specs::Commands::command_of))]
pub fn pick(alloc: Global, words: &[String]) -> Result<Command, PickError>
    ensures { Picks result (command_of (map string_bytes words.now)) }
{
    let [word, options @ ..] = words else {
        return Err(PickError::Usage);
    };
    match word.as_str() {
        "run" => pick_options(alloc, Verb::Run, options),
        "serve" => pick_options(alloc, Verb::Serve, options),
        "gen" => pick_options(alloc, Verb::Gen, options),
        "help" => pick_help(options),
        _ => Err(PickError::Usage),
    }
}

/// `help`, which has no options.
fn pick_help(options: &[String]) -> Result<Command, PickError>
    ensures { Picks result (help_of (map string_bytes options.now)) }
{
    match options {
        [] => Ok(Command::Help),
        _ => Err(PickError::Usage),
    }
}

/// A command with options.
#[tactic(auto, unfolding(crate::specs::Commands::options_of))]
fn pick_options(alloc: Global, verb: Verb, words: &[String]) -> Result<Command, PickError>
    ensures { Picks result (options_of verb (map string_bytes words.now)) }
{
    if !are_options(verb, words) || !is_complete(verb, words) {
        return Err(PickError::Usage);
    }
    match verb {
        Verb::Run => pick_run(alloc, words),
        Verb::Serve => pick_serve(alloc, words),
        Verb::Gen => pick_gen(alloc, words),
    }
}

#[tactic(auto, unfolding(crate::specs::Commands::run_of))]
fn pick_run(alloc: Global, words: &[String]) -> Result<Command, PickError>
    requires { are_options Verb.Run (map string_bytes words.now) ≡ true }
    ensures { Picks result (run_of (map string_bytes words.now)) }
{
    let found = found_in(alloc, Verb::Run, words)?;
    let fail_commit = places_given(alloc, found.value("fail-commit"))?;
    let fail_save = places_given(alloc, found.value("fail-save"))?;
    let state = text_if_given(alloc, found.value("state"))?;
    Ok(Command::Run {
        state,
        fail_commit,
        fail_save,
    })
}

#[tactic(auto, unfolding(crate::specs::Commands::serve_of))]
fn pick_serve(alloc: Global, words: &[String]) -> Result<Command, PickError>
    requires { are_options Verb.Serve (map string_bytes words.now) ≡ true }
    ensures { Picks result (serve_of (map string_bytes words.now)) }
{
    let found = found_in(alloc, Verb::Serve, words)?;
    let socket = text_given(alloc, found.value("socket"))?;
    let workers = number_given(found.value("workers"), u64::from(u32::MAX))?;
    let sessions = number_given(found.value("sessions"), u64::MAX)?;
    let state = text_if_given(alloc, found.value("state"))?;
    Ok(Command::Serve {
        socket,
        workers: workers as u32,
        sessions,
        state,
    })
}

#[tactic(auto, unfolding(crate::specs::Commands::gen_of))]
fn pick_gen(alloc: Global, words: &[String]) -> Result<Command, PickError>
    requires { are_options Verb.Gen (map string_bytes words.now) ≡ true }
    ensures { Picks result (gen_of (map string_bytes words.now)) }
{
    let found = found_in(alloc, Verb::Gen, words)?;
    let seed = number_given(found.value("seed"), u64::MAX)?;
    let lines = number_given(found.value("lines"), u64::from(u32::MAX))?;
    Ok(Command::Gen {
        seed,
        lines: lines as u32,
    })
}
