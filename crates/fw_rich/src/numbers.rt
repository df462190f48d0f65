//! Numbers in rich rules.
ghost use Rattle.std.specs.Prelude.{◌≡◌, ◌≤◌, length, None, Some, MatchOption};
ghost use Rattle.fw_rich.specs.Numbers.{bits, hex_to, mark, priority};

use fw_text::read_number;

/// Reads a priority: a number from -32768 to 32767, without a sign or with `-` before a number above 0.
#[tactic(auto, unfolding(crate::specs::Numbers::priority))]
pub fn read_priority(text: &str) -> Option<i32>
    ensures { result ≡ priority text.now }
{
    match text.as_bytes() {
        [b'-', digits @ ..] => {
            let number = read_number(digits, 32_768)?;
            if number == 0 {
                return None;
            }
            Some(-(number as i32))
        }
        digits => {
            let number = read_number(digits, 32_767)?;
            Some(number as i32)
        }
    }
}

/// A mark's value and mask.
#[derive(Clone, Copy, Debug, PartialEq, Eq)]
pub struct MarkBits {
    pub value: u32,
    pub mask: u32,
}

/// The number that at most eight hexadecimal digits of either case spell; the empty text spells 0.
fn read_hex(text: &[u8]) -> Option<u32>
    requires { length text.now ≤ 8 }
    ensures { result ≡ hex_to 0 text.now }
{
    let mut before: u32 = 0;
    for byte in text {
        let digit = char::from(*byte).to_digit(16)?;
        before = before * 16 + digit;
    }
    Some(before)
}

#[tactic(auto, unfolding(crate::specs::Numbers::bits))]
fn read_bits(text: &[u8]) -> Option<u32>
    ensures { result ≡ bits text.now }
{
    match text {
        [b'0', b'x', digits @ ..] => {
            if digits.is_empty() || digits.len() > 8 {
                return None;
            }
            read_hex(digits)
        }
        _ => {
            let number = read_number(text, u64::from(u32::MAX))?;
            Some(number as u32)
        }
    }
}

/// Reads a mark: 32 bits in decimal, or in hexadecimal behind `0x`, and, where a mask is given, `/` and 32 bits for it.
/// Without a mask it is all ones.
#[tactic(auto, unfolding(crate::specs::Numbers::mark))]
pub fn read_mark(text: &str) -> Option<MarkBits>
    ensures { MatchOption result (mark text.now ≡ None) (λ bits. mark text.now ≡ Some (bits.value, bits.mask)) }
{
    let Some((value, mask)) = text.split_once('/') else {
        let value = read_bits(text.as_bytes())?;
        return Some(MarkBits {
            value,
            mask: u32::MAX,
        });
    };
    let value = read_bits(value.as_bytes())?;
    let mask = read_bits(mask.as_bytes())?;
    Some(MarkBits { value, mask })
}
