//! What the values of options have to be.
ghost use Rattle.std.specs.Prelude.{◌≡◌};
ghost use Rattle.fw_command.specs.Forms.{fits, form_of, gen_form, is_plain, run_form, serve_form};
ghost use Rattle.fw_command.specs.Numbers.{is_within};

use super::places::are_places;
use super::verb::Verb;
use fw_text::read_number;

/// What the value of an option has to be, besides that it isn't empty and doesn't begin with `-`.
#[derive(Clone, Copy, Debug, PartialEq, Eq)]
pub enum Form {
    /// Any text.
    Path,
    /// Decimal numbers from 1 to 1,000,000,000, ascending, joined by commas.
    Places,
    /// A decimal number within bounds.
    Number { least: u64, most: u64 },
}

/// What the value of an option of this name has to be. None: the command has no such option.
pub fn form_of(verb: Verb, name: &str) -> Option<Form>
    ensures { result ≡ form_of verb name.now }
{
    match verb {
        Verb::Run => run_form(name),
        Verb::Serve => serve_form(name),
        Verb::Gen => gen_form(name),
    }
}

#[tactic(auto, unfolding(crate::specs::Forms::run_form))]
fn run_form(name: &str) -> Option<Form>
    ensures { result ≡ run_form name.now }
{
    match name {
        "--state" => Some(Form::Path),
        "--fail-commit" | "--fail-save" => Some(Form::Places),
        _ => None,
    }
}

#[tactic(auto, unfolding(crate::specs::Forms::serve_form))]
fn serve_form(name: &str) -> Option<Form>
    ensures { result ≡ serve_form name.now }
{
    match name {
        "--socket" | "--state" => Some(Form::Path),
        "--workers" => Some(Form::Number { least: 1, most: 64 }),
        "--sessions" => Some(Form::Number {
            least: 0,
            most: 10_000_000,
        }),
        _ => None,
    }
}

#[tactic(auto, unfolding(crate::specs::Forms::gen_form))]
fn gen_form(name: &str) -> Option<Form>
    ensures { result ≡ gen_form name.now }
{
    match name {
        "--seed" => Some(Form::Number {
            least: 0,
            most: u64::MAX,
        }),
        "--lines" => Some(Form::Number {
            least: 1,
            most: 100_000,
        }),
        _ => None,
    }
}

/// Whether a text is a value of this form.
pub fn fits(form: Form, value: &str) -> bool
    ensures { result ≡ fits form value.now }
{
    match form {
        Form::Path => true,
        Form::Places => are_places(value.as_bytes()),
        Form::Number { least, most } => is_within(value.as_bytes(), least, most),
    }
}

/// Whether a text is a decimal number within bounds.
fn is_within(text: &[u8], least: u64, most: u64) -> bool
    ensures { result ≡ is_within text.now least most }
{
    match read_number(text, most) {
        Some(number) => least <= number,
        None => false,
    }
}

/// Whether a text isn't empty and doesn't begin with `-`.
pub fn is_plain(text: &[u8]) -> bool
    ensures { result ≡ is_plain text.now }
{
    match text {
        [] => false,
        [first, ..] => *first != b'-',
    }
}
