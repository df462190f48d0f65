//! Texts in quotes, as scripts and printed rules have them.
#![tactic(auto)]

ghost use Rattle.std.specs.Prelude.{◌≡◌, ◌<◌, ◌∷◌, [], ◌++◌, OnOk, encode_utf8, string_bytes};
ghost use Rattle.std.specs.List.{flat_map};
ghost use Rattle.fw_quote.specs.Quoted.{hex_digit, quoted, quoted_byte};

use std::alloc::AllocError;

/// Appends a text in quotes: with `\` before `"` and `\`, and `\x` and two digits for a byte below 32 and for 127.
///
/// Refuses for want of memory alone.
pub fn push_quoted(out: &mut String, text: &str) -> Result<(), AllocError>
    ensures { OnOk result (string_bytes out.new ≡ string_bytes out.old ++ quoted text.now) }
{
    out.push('"')?;
    push_escaped(out, text)?;
    out.push('"')?;
    Ok(())
}

/// Appends a text as it stands inside quotes.
fn push_escaped(out: &mut String, text: &str) -> Result<(), AllocError>
    ensures { OnOk result (string_bytes out.new ≡ string_bytes out.old ++ flat_map quoted_byte text.now) }
{
    for letter in text.chars() {
        push_escaped_char(out, letter)?;
    }
    Ok(())
}

#[tactic(auto, using(crate::proofs::Letters::letter_is_kept, crate::proofs::Letters::letter_is_byte))]
fn push_escaped_char(out: &mut String, letter: char) -> Result<(), AllocError>
    ensures { OnOk result
        (string_bytes out.new ≡ string_bytes out.old ++ flat_map quoted_byte (encode_utf8 letter)) }
{
    if letter.is_ascii() {
        push_escaped_byte(out, letter as u8)
    } else {
        out.push(letter)?;
        Ok(())
    }
}

fn push_escaped_byte(out: &mut String, byte: u8) -> Result<(), AllocError>
    requires { byte < 128 }
    ensures { OnOk result (string_bytes out.new ≡ string_bytes out.old ++ quoted_byte byte) }
{
    match byte {
        b'"' | b'\\' => {
            out.push('\\')?;
            out.push(char::from(byte))?;
        }
        0..32 | 127 => {
            out.push_str("\\x")?;
            out.push(hex_digit(byte / 16))?;
            out.push(hex_digit(byte % 16))?;
        }
        _ => out.push(char::from(byte))?,
    }
    Ok(())
}

fn hex_digit(n: u8) -> char
    requires { n < 16 }
    ensures { result ≡ hex_digit n }
{
    char::from(if n < 10 { b'0' + n } else { b'a' + (n - 10) })
}
