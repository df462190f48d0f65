//! Decimal numbers without a sign and without a leading zero.
ghost use Rattle.std.specs.Prelude.{◌≡◌, ℕ, ◌<◌, ◌≤◌, ◌^◌, List, [], ◌∷◌, Some, IfSome, decimal};
ghost use Rattle.fw_text.specs.Number.{number, number_to, digits_to};

/// The number that a text spells in decimal, where it is at most `most`.
///
/// There is none for the empty text, a text with another byte than a digit (a sign too), a text of two or
/// more digits that begins with `0`, and a number above `most`.
pub fn read_number(text: &[u8], most: u64) -> Option<u64>
    ensures value { result ≡ number_to most text.now }
    ensures bound { IfSome result (λ n. n ≤ most) }
{
    match text {
        [] | [b'0', _, ..] => None,
        _ => read_digits(text, most),
    }
}

/// The number that digits spell, where it is at most `most`; leading zeros are taken.
fn read_digits(text: &[u8], most: u64) -> Option<u64>
    ensures value { result ≡ digits_to most 0 text.now }
    ensures bound { IfSome result (λ n. n ≤ most) }
{
    let mut before = 0;
    for byte in text {
        match read_digit(before, *byte, most) {
            Some(number) => before = number,
            None => return None,
        }
    }
    Some(before)
}

/// The number that a digit makes of the number before it, where that is at most `most`.
fn read_digit(before: u64, byte: u8, most: u64) -> Option<u64>
    ensures { result ≡ digits_to most before (byte ∷ []) }
{
    if !byte.is_ascii_digit() {
        return None;
    }
    let digit = u64::from(byte - b'0');
    if digit > most || before > (most - digit) / 10 {
        return None;
    }
    Some(before * 10 + digit)
}

/// Each number is spelled by its decimal text, and by no other.
pub fn decimal_is_read()
    ensures read { (n : ℕ) → n < 2 ^ 64 → number (decimal n) ≡ Some n }
    ensures only { (text : List ℕ) (n : ℕ) → n < 2 ^ 64 → number text ≡ Some n → text ≡ decimal n }
{}
