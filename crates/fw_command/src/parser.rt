//! The command line parser of each command that has options.
ghost use Rattle.std.specs.Prelude.{◌≡◌, IfOk};
ghost use Rattle.clap.specs.Words.{app_of, with_rule};
ghost use Rattle.fw_command.specs.Parsers.{app, new_app, option_rule};

use super::verb::Verb;
use clap::{Arg, Command as Parser};
use std::alloc::{AllocError, Global};

/// The parser of a command's options, which takes the words behind the command.
pub fn parser<'a>(alloc: Global, verb: Verb) -> Result<Parser<'a>, AllocError>
    ensures { IfOk result (λ made. app_of made ≡ app verb) }
{
    match verb {
        Verb::Run => run_parser(alloc),
        Verb::Serve => serve_parser(alloc),
        Verb::Gen => gen_parser(alloc),
    }
}

fn run_parser<'a>(alloc: Global) -> Result<Parser<'a>, AllocError>
    ensures { IfOk result (λ made. app_of made ≡ app Verb.Run) }
{
    let parser = new_parser(alloc, "run");
    let parser = with_option(alloc, parser, "state")?;
    let parser = with_option(alloc, parser, "fail-commit")?;
    with_option(alloc, parser, "fail-save")
}

fn serve_parser<'a>(alloc: Global) -> Result<Parser<'a>, AllocError>
    ensures { IfOk result (λ made. app_of made ≡ app Verb.Serve) }
{
    let parser = new_parser(alloc, "serve");
    let parser = with_option(alloc, parser, "socket")?;
    let parser = with_option(alloc, parser, "workers")?;
    let parser = with_option(alloc, parser, "sessions")?;
    with_option(alloc, parser, "state")
}

fn gen_parser<'a>(alloc: Global) -> Result<Parser<'a>, AllocError>
    ensures { IfOk result (λ made. app_of made ≡ app Verb.Gen) }
{
    let parser = new_parser(alloc, "gen");
    let parser = with_option(alloc, parser, "seed")?;
    with_option(alloc, parser, "lines")
}

/// A parser with no options, of words that begin behind the command.
fn new_parser<'a>(alloc: Global, name: &'a str) -> Parser<'a>
    ensures { app_of result ≡ new_app name.entry.now }
{
    Parser::new(alloc, name).no_binary_name(true)
}

/// The parser with an option more, which takes one value.
fn with_option<'a>(
    alloc: Global,
    parser: Parser<'a>,
    name: &'a str,
) -> Result<Parser<'a>, AllocError>
    ensures { IfOk result (λ made. app_of made ≡ with_rule (app_of parser.entry) (option_rule name.entry.now)) }
{
    parser.arg(Arg::new(alloc, name).long(name))
}
