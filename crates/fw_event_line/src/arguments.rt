//! The arguments of a call, a word each.
ghost use Rattle.std.specs.Prelude.{◌≡◌, ◌≤◌, ◌^◌, [], ◌∷◌, ◌++◌, Some, IfOk};
ghost use Rattle.std.specs.Option.{ok_or, option_map};
ghost use Rattle.fw_event_line.specs.Arguments.{arguments_in, behind, below_0, int_of, json_argument, last_argument};
ghost use Rattle.fw_words.specs.Reading.{Says};

use super::dict::read_dict;
use fw_base::{Memory, Seq, Text};
use fw_calls::Argument;
use fw_dicts::Owner;
use fw_json::read_texts;
use fw_text::read_number;
use fw_words::{LineError, Words};
use std::alloc::Global;

/// The arguments that words spell, by the letters of their types, behind those in front. None: a JSON text isn't of its type.
///
/// BadLine is answered for too few or too many words, and for a word that is no number where it should be.
pub fn read_arguments(
    alloc: Global,
    owner: Owner,
    letters: &[u8],
    words: &mut Words,
    front: Seq<Argument>,
) -> Result<Option<Seq<Argument>>, LineError>
    ensures { Says result (behind front (arguments_in owner letters.now words.old)) }
{
    let mut arguments = front;
    for place in 0..letters.len() {
        match letters[place] {
            b'a' => {
                let last = last_argument(alloc, owner, &letters[place + 1..], words)?;
                return Ok(with_last(arguments, last)?);
            }
            b'i' => {
                let number = read_int(words.next()?)?;
                arguments.push(Argument::Int(number))?;
            }
            _ => {
                let text = Text::of(alloc, words.next()?)?;
                arguments.push(Argument::Text(text))?;
            }
        }
    }
    words.end()?;
    Ok(Some(arguments))
}

/// The arguments before the last one, and that one where it is of its type.
fn with_last(
    arguments: Seq<Argument>,
    last: Option<Argument>,
) -> Result<Option<Seq<Argument>>, Memory>
    ensures { IfOk result (λ all. all ≡ option_map (λ last. arguments ++ last ∷ []) last) }
{
    let Some(last) = last else {
        return Ok(None);
    };
    let mut all = arguments;
    all.push(last)?;
    Ok(Some(all))
}

/// The last argument, a list or a dict. None: the JSON text isn't of its type.
#[tactic(auto, unfolding(crate::specs::Arguments::last_argument))]
fn last_argument(
    alloc: Global,
    owner: Owner,
    letters: &[u8],
    words: &mut Words,
) -> Result<Option<Argument>, LineError>
    ensures { Says result (last_argument owner letters.now words.old) }
{
    let word = words.next()?;
    words.end()?;
    Ok(json_argument(alloc, owner, letters, word)?)
}

/// The argument that a JSON text says, by the letters behind an `a`.
fn json_argument(
    alloc: Global,
    owner: Owner,
    letters: &[u8],
    json: &str,
) -> Result<Option<Argument>, Memory>
    ensures { IfOk result (λ argument. argument ≡ json_argument owner letters.now json.now) }
{
    match letters {
        b"s" => Ok(read_texts(alloc, json)?.map(Argument::Texts)),
        _ => Ok(read_dict(alloc, owner, json)?.map(Argument::Dict)),
    }
}

/// A number of 32 bits with a sign.
fn read_int(word: &str) -> Result<i32, LineError>
    ensures { result ≡ ok_or (int_of word.now) LineError.BadLine }
{
    int_of(word.as_bytes()).ok_or(LineError::BadLine)
}

#[tactic(auto, unfolding(crate::specs::Arguments::int_of))]
fn int_of(word: &[u8]) -> Option<i32>
    ensures { result ≡ int_of word.now }
{
    match word {
        [] => None,
        [b'-', digits @ ..] => below_0(read_number(digits, 1 << 31)?),
        _ => {
            let number = read_number(word, (1 << 31) - 1)?;
            Some(number as i32)
        }
    }
}

fn below_0(number: u64) -> Option<i32>
    requires { number ≤ 2 ^ 31 }
    ensures { result ≡ below_0 (Some number) }
{
    if number == 0 {
        return None;
    }
    Some((-(number as i64)) as i32)
}
