//! Where words and values of a text end. Each end is an ASCII byte, so that no character is cut.
ghost use Rattle.std.specs.Prelude.{◌≡◌, ◌<◌, not, length, get_or, drop};
ghost use Rattle.std.specs.List.{list_all, position, position_or_len};
ghost use Rattle.fw_rich.specs.Tokens.{behind_gap, ends_key, is_bare, is_gap, is_plain, is_quote, up_to};

fn is_gap(byte: u8) -> bool
    ensures { result ≡ is_gap byte }
{
    byte == b' ' || byte == b'\t'
}

pub fn is_quote(byte: u8) -> bool
    ensures { result ≡ is_quote byte }
{
    byte == b'"' || byte == b'\''
}

fn is_plain(byte: u8) -> bool
    ensures { result ≡ is_plain byte }
{
    b' ' <= byte && byte != 127 && byte != b'"'
}

fn is_bare(byte: u8) -> bool
    ensures { result ≡ is_bare byte }
{
    is_plain(byte) && byte != b'\''
}

fn ends_key(byte: u8) -> bool
    ensures { result ≡ ends_key byte }
{
    is_gap(byte) || is_quote(byte) || byte == b'='
}

/// Whether a quoted value may have these bytes.
pub fn are_plain(bytes: &[u8]) -> bool
    ensures { result ≡ list_all is_plain bytes.now }
{
    bytes.iter().all(|byte| is_plain(*byte))
}

/// Whether a value without quotes may have these bytes.
pub fn are_bare(bytes: &[u8]) -> bool
    ensures { result ≡ list_all is_bare bytes.now }
{
    bytes.iter().all(|byte| is_bare(*byte))
}

fn first_end_of_key(bytes: &[u8]) -> Option<usize>
    ensures { result ≡ position ends_key bytes.now }
{
    bytes.iter().position(|byte| ends_key(*byte))
}

fn first_gap(bytes: &[u8]) -> Option<usize>
    ensures { result ≡ position is_gap bytes.now }
{
    bytes.iter().position(|byte| is_gap(*byte))
}

fn first_behind_gap(bytes: &[u8]) -> Option<usize>
    ensures { result ≡ position (λ byte. not (is_gap byte)) bytes.now }
{
    bytes.iter().position(|byte| !is_gap(*byte))
}

#[tactic(auto, using(crate::proofs::Boundaries::place_or_end))]
fn key_length(bytes: &[u8]) -> usize
    ensures { result ≡ position_or_len ends_key bytes.now }
{
    first_end_of_key(bytes).unwrap_or(bytes.len())
}

#[tactic(auto, using(crate::proofs::Boundaries::place_or_end))]
fn bare_length(bytes: &[u8]) -> usize
    ensures { result ≡ position_or_len is_gap bytes.now }
{
    first_gap(bytes).unwrap_or(bytes.len())
}

#[tactic(auto, using(crate::proofs::Boundaries::place_or_end))]
fn gap_length(bytes: &[u8]) -> usize
    ensures { result ≡ position_or_len (λ byte. not (is_gap byte)) bytes.now }
{
    first_behind_gap(bytes).unwrap_or(bytes.len())
}

/// A text without the blanks and tabs at its front.
pub fn behind_gap(text: &str) -> &str
    ensures { result.now ≡ behind_gap text.now }
{
    &text[gap_length(text.as_bytes())..]
}

/// A word or a key at the front of a text, and the text from its end on.
pub fn split_key(text: &str) -> (&str, &str)
    ensures { (result.0.now, result.1.now) ≡ up_to ends_key text.now }
{
    text.split_at(key_length(text.as_bytes()))
}

/// A text up to its first blank or tab, and from there on.
pub fn split_bare(text: &str) -> (&str, &str)
    ensures { (result.0.now, result.1.now) ≡ up_to is_gap text.now }
{
    text.split_at(bare_length(text.as_bytes()))
}

/// A text without its first byte, which is an ASCII byte.
pub fn behind_first(text: &str) -> &str
    requires some { 0 < length text.now }
    requires ascii { get_or text.now 0 0 < 128 }
    ensures { result.now ≡ drop 1 text.now }
{
    &text[1..]
}
