//! The words of a line, bare or in quotes.
ghost use Rattle.std.specs.Prelude.{◌≡◌, ◌<◌, None, Some, map, length, MatchOption, MatchResult, if◌then◌else◌};
ghost use Rattle.std.specs.List.{list_all};
ghost use Rattle.std.specs.Option.{option_copied};
ghost use Rattle.fw_words.specs.Words.{front_word, in_quotes, is_bare, is_bare_byte, is_quote, up_to_blank, words};

use super::LineError;
use std::alloc::Global;

/// The word at the front of a text, and the text behind the blank that follows it, if one does.
#[derive(Clone, Copy)]
struct Front<'a> {
    word: &'a str,
    rest: Option<&'a str>,
}

fn is_bare_byte(byte: u8) -> bool
    ensures { result ≡ is_bare_byte byte }
{
    b' ' < byte && byte != b'"' && byte != b'\'' && byte != 127
}

fn is_bare(word: &str) -> bool
    ensures { result ≡ is_bare word.now }
{
    !word.is_empty() && are_bare(word.as_bytes())
}

fn are_bare(bytes: &[u8]) -> bool
    ensures { result ≡ list_all is_bare_byte bytes.now }
{
    bytes.iter().all(|byte| is_bare_byte(*byte))
}

/// A text up to its first blank.
fn up_to_blank(text: &str) -> Front<'_>
    ensures { (result.word.now, option_copied result.rest) ≡ up_to_blank text.now }
{
    match text.split_once(' ') {
        Some((word, rest)) => Front {
            word,
            rest: Some(rest),
        },
        None => Front {
            word: text,
            rest: None,
        },
    }
}

/// The word that began with this quote.
fn in_quotes(quote: char, text: &str) -> Option<Front<'_>>
    requires { quote < 128 }
    ensures { MatchOption result (in_quotes quote text.now ≡ None) (λ front. in_quotes quote text.now ≡ Some (front.word.now, option_copied front.rest)) }
{
    let (word, rest) = text.split_once(quote)?;
    let behind = up_to_blank(rest);
    if behind.word.is_empty() {
        Some(Front {
            word,
            rest: behind.rest,
        })
    } else {
        None
    }
}

/// The word at the front of a text.
fn front_word(text: &str) -> Option<Front<'_>>
    ensures { MatchOption result (front_word text.now ≡ None) (λ front. front_word text.now ≡ Some (front.word.now, option_copied front.rest)) }
{
    let first = *text.as_bytes().first()?;
    if is_quote(first) {
        return in_quotes(char::from(first), &text[1..]);
    }
    let front = up_to_blank(text);
    if is_bare(front.word) {
        Some(front)
    } else {
        None
    }
}

fn is_quote(byte: u8) -> bool
    ensures { result ≡ is_quote byte }
{
    byte == b'"' || byte == b'\''
}

/// The words of a line, in order.
///
/// Refuses a line that isn't words separated by one blank each, and for want of memory.
pub fn split_words(alloc: Global, line: &str) -> Result<Vec<&str>, LineError>
    ensures { MatchResult result (λ found. words line.now ≡ Some (map (λ word. word.now) found.items)) (λ error. error ≡ LineError.BadLine → words line.now ≡ None) }
{
    let mut found = Vec::new(alloc);
    let mut text = line;
    for _ in 0..line.len() {
        let Some(front) = front_word(text) else {
            return Err(LineError::BadLine);
        };
        found.push(front.word)?;
        match front.rest {
            Some(rest) => text = rest,
            None => return Ok(found),
        }
    }
    Err(LineError::BadLine)
}
