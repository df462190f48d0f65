//! The token at the front of a text.
ghost use Rattle.std.specs.Prelude.{◌≡◌, ◌<◌, ◌≤◌, Some, None, MatchOption, length};
ghost use Rattle.std.specs.Option.{option_and_then};
ghost use Rattle.fw_rich.specs.Refused.{at_character, plain_value, refused_value};
ghost use Rattle.fw_rich.specs.Tokens.{Token, at_gap, bare, cut_at, is_gap, next_token, pair, quoted, token_front, token_of, value_front, up_to, word};

use super::bytes::{are_bare, are_plain, behind_first, is_quote, split_bare, split_key};
use std::marker::Model;

/// What stands behind `=`, and where it begins in the whole text, its quote included.
#[derive(Drop)]
pub struct ValueText<'a> {
    pub place: usize,
    pub text: &'a str,
}

impl<'a> Model for ValueText<'a> {
    ghost use Rattle.fw_rich.specs.Tokens.{Written};

    ghost Value = { Written };

    ghost view = { λ value. record { place = value.place; text = value.text.now } };
}

/// A word, or a key with a value, and where it begins in the whole text.
#[derive(Drop)]
pub struct TokenText<'a> {
    pub offset: usize,
    pub key: &'a str,
    pub value: Option<ValueText<'a>>,
}

impl<'a> Model for TokenText<'a> {
    ghost use Rattle.fw_rich.specs.Tokens.{Token};

    ghost Value = { Token };

    ghost view = { λ token. record { offset = token.offset; key = token.key.now; value = token.value } };
}

/// A value and the text behind it.
#[derive(Clone, Copy)]
struct ValueFront<'a> {
    text: &'a str,
    left: &'a str,
}

/// A token and the text behind it.
#[derive(Drop)]
pub struct TokenFront<'a> {
    pub token: TokenText<'a>,
    pub left: &'a str,
}

fn at_gap(text: &[u8]) -> bool
    ensures { result ≡ at_gap text.now }
{
    matches!(text, [] | [b' ' | b'\t', ..])
}

/// The value that began with this quote.
fn quoted(quote: char, text: &str) -> Option<ValueFront<'_>>
    requires { quote < 128 }
    ensures { MatchOption result (option_and_then quoted (cut_at quote text.now) ≡ None) (λ front. option_and_then quoted (cut_at quote text.now) ≡ Some (front.text.now, front.left.now)) }
{
    let (value, left) = text.split_once(quote)?;
    if are_plain(value.as_bytes()) && at_gap(left.as_bytes()) {
        Some(ValueFront { text: value, left })
    } else {
        None
    }
}

/// A value without quotes.
fn bare(text: &str) -> Option<ValueFront<'_>>
    ensures { MatchOption result (bare (up_to is_gap text.now) ≡ None) (λ front. bare (up_to is_gap text.now) ≡ Some (front.text.now, front.left.now)) }
{
    let (value, left) = split_bare(text);
    if !value.is_empty() && are_bare(value.as_bytes()) {
        Some(ValueFront { text: value, left })
    } else {
        None
    }
}

/// The value at the front of a text.
fn value_front(text: &str) -> Option<ValueFront<'_>>
    ensures { MatchOption result (value_front text.now ≡ None) (λ front. value_front text.now ≡ Some (front.text.now, front.left.now)) }
{
    let first = *text.as_bytes().first()?;
    if is_quote(first) {
        quoted(char::from(first), behind_first(text))
    } else {
        bare(text)
    }
}

/// The pair of a key and the value at the front of a text, in a whole of that size.
fn pair<'a>(size: usize, offset: usize, key: &'a str, text: &'a str) -> Option<TokenFront<'a>>
    requires { length text.now ≤ size }
    ensures { MatchOption result (pair size offset key.now text.now ≡ None) (λ front. pair size offset key.now text.now ≡ Some (front.token, front.left.now)) }
{
    let found = value_front(text)?;
    let value = ValueText {
        place: size - text.len(),
        text: found.text,
    };
    Some(TokenFront {
        token: TokenText {
            offset,
            key,
            value: Some(value),
        },
        left: found.left,
    })
}

fn word<'a>(offset: usize, key: &'a str) -> TokenText<'a>
    ensures { result ≡ word offset key.now }
{
    TokenText {
        offset,
        key,
        value: None,
    }
}

/// The token that begins with this key, by what stands behind the key.
fn token_of<'a>(size: usize, offset: usize, key: &'a str, text: &'a str) -> Option<TokenFront<'a>>
    requires { length text.now ≤ size }
    ensures { MatchOption result (token_of size offset key.now text.now ≡ None) (λ front. token_of size offset key.now text.now ≡ Some (front.token, front.left.now)) }
{
    match text.as_bytes() {
        [b'=', ..] => pair(size, offset, key, behind_first(text)),
        [] | [b' ' | b'\t', ..] => Some(TokenFront {
            token: word(offset, key),
            left: text,
        }),
        _ => None,
    }
}

/// The token at the front of a text.
fn token_front(size: usize, text: &str) -> Option<TokenFront<'_>>
    requires { length text.now ≤ size }
    ensures { MatchOption result (token_front size text.now ≡ None) (λ front. token_front size text.now ≡ Some (front.token, front.left.now)) }
{
    let (key, behind) = split_key(text);
    token_of(size, size - text.len(), key, behind)
}

/// The first token of a text, if there is one.
pub fn next_token(size: usize, text: &str) -> Option<TokenFront<'_>>
    requires { length text.now ≤ size }
    ensures { MatchOption result (next_token size text.now ≡ None) (λ front. next_token size text.now ≡ Some (front.token, front.left.now)) }
{
    if text.is_empty() {
        return None;
    }
    match token_front(size, text) {
        Some(front) => Some(front),
        None => Some(TokenFront {
            token: word(size - text.len(), ""),
            left: "",
        }),
    }
}

/// The value that begins at this byte of a text, without its quotes, or a word there: what a refusal of a rule's part names
/// (`RichError::Part`). It is empty where no value begins there.
#[tactic(auto, using(crate::proofs::Refused::at_boundary, crate::proofs::Refused::off_boundary))]
pub fn refused_value(text: &str, place: usize) -> &str
    ensures { result.now ≡ refused_value text.now place }
{
    match text.split_at_checked(place) {
        Some((_, behind)) => plain_value(behind),
        None => "",
    }
}

/// The value at the front of a text, without its quotes.
fn plain_value(text: &str) -> &str
    ensures { result.now ≡ plain_value (value_front text.now) }
{
    match value_front(text) {
        Some(front) => front.text,
        None => "",
    }
}
