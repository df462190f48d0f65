//! Names in messages (D-Bus Specification, "Valid Names").

ghost use Rattle.std.specs.Prelude.{◌≡◌, ◌≤◌, ◌&&◌, ◌||◌, ◌==◌, length};
ghost use Rattle.std.specs.List.{list_all, list_any, position_or_len, slice_split};
ghost use Rattle.dbus_msg.specs.Names.{are_joined, is_bus_element, is_bus_name, is_bus_part, is_digit, is_dot, is_element, is_interface, is_letter, is_member, is_part};

use memchr::memchr;

/// How long a name may be.
const MAX_NAME: usize = 255;

fn is_letter(byte: u8) -> bool
    ensures { result ≡ is_letter byte }
{
    matches!(byte, b'A'..=b'Z' | b'a'..=b'z' | b'_')
}

fn is_digit(byte: u8) -> bool
    ensures { result ≡ is_digit byte }
{
    byte.is_ascii_digit()
}

/// Letters and digits alone.
fn are_name_bytes(text: &[u8]) -> bool
    ensures { result ≡ list_all (λ d. is_letter d || is_digit d) text.now }
{
    text.iter().all(|c| is_letter(*c) || is_digit(*c))
}

/// An element of a name: a letter, and then letters and digits.
fn is_element(text: &[u8]) -> bool
    ensures { result ≡ is_element text.now }
{
    match text {
        [] => false,
        [first, others @ ..] => is_letter(*first) && are_name_bytes(others),
    }
}

/// Letters, digits and hyphens alone.
fn are_bus_bytes(text: &[u8]) -> bool
    ensures { result ≡ list_all (λ d. is_letter d || is_digit d || (d == 45)) text.now }
{
    text.iter()
        .all(|c| is_letter(*c) || is_digit(*c) || *c == b'-')
}

/// What an element of a bus name may begin with.
fn begins_bus_element(unique: bool, first: u8) -> bool
    ensures { result ≡ (is_letter first || (first == 45) || (unique && is_digit first)) }
{
    is_letter(first) || first == b'-' || unique && is_digit(first)
}

/// An element of a bus name, which may have hyphens and, in a unique name, begin with a digit.
fn is_bus_element(unique: bool, text: &[u8]) -> bool
    ensures { result ≡ is_bus_element unique text.now }
{
    match text {
        [] => false,
        [first, others @ ..] => begins_bus_element(unique, *first) && are_bus_bytes(others),
    }
}

fn has_dot(text: &[u8]) -> bool
    ensures { result ≡ list_any is_dot text.now }
{
    text.iter().any(|c| *c == b'.')
}

/// What the parts between dots are.
#[derive(Clone, Copy)]
pub enum Part {
    /// Elements of an interface's name.
    Element,
    /// Elements of a bus name; of a unique one where that is said.
    Bus(bool),
}

fn is_part(part: Part, text: &[u8]) -> bool
    ensures { result ≡ is_part part text.now }
{
    match part {
        Part::Element => is_element(text),
        Part::Bus(unique) => is_bus_element(unique, text),
    }
}

/// Where the first dot stands, or how many bytes there are where none does.
fn dot_in(text: &[u8]) -> usize
    ensures place { result ≡ position_or_len is_dot text.now }
    ensures within { result ≤ length text.now }
{
    memchr(b'.', text).unwrap_or(text.len())
}

/// Whether all parts between dots are such parts.
fn are_parts(part: Part, text: &[u8]) -> bool
    ensures { result ≡ list_all (is_part part) (slice_split is_dot text.now) }
{
    let mut rest = text;
    loop {
        let dot = dot_in(rest);
        if !is_part(part, &rest[..dot]) {
            return false;
        }
        let (_, others) = rest.split_at(dot);
        let Some((_, more)) = others.split_first() else {
            return true;
        };
        rest = more;
    }
}

/// Two parts or more, joined by dots.
fn are_joined(part: Part, text: &[u8]) -> bool
    ensures { result ≡ are_joined (is_part part) text.now }
{
    has_dot(text) && are_parts(part, text)
}

/// An interface's or an error's name: two elements or more, joined by dots.
pub fn is_interface(text: &[u8]) -> bool
    ensures { result ≡ is_interface text.now }
{
    text.len() <= MAX_NAME && are_joined(Part::Element, text)
}

/// A member's name, which is one element.
pub fn is_member(text: &[u8]) -> bool
    ensures { result ≡ is_member text.now }
{
    text.len() <= MAX_NAME && is_element(text)
}

/// A bus name: a unique one, behind a colon, or one that services choose.
pub fn is_bus_name(text: &[u8]) -> bool
    ensures { result ≡ is_bus_name text.now }
{
    if text.len() > MAX_NAME {
        return false;
    }
    match text {
        [] => false,
        [b':', others @ ..] => are_joined(Part::Bus(true), others),
        _ => are_joined(Part::Bus(false), text),
    }
}
