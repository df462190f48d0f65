//! The printed form of statements.
ghost use Rattle.std.specs.Prelude.{◌≡◌, ◌<◌, ◌∷◌, [], ◌++◌, false, OnOk, string_bytes};
ghost use Rattle.std.specs.Fmt.{digit_glyph};
ghost use Rattle.fw_addr.specs.Hexadecimal.{hex_byte};
ghost use Rattle.nf_rules.specs.Statements.{hex_word, log_text, mark_text, statement_text};

use crate::Stmt;
use fw_addr::LogLine;
use fw_base::Memory;
use fw_quote::push_quoted;

/// Appends a statement.
pub fn push_statement(out: &mut String, statement: &Stmt) -> Result<(), Memory>
    ensures { OnOk result (string_bytes out.new ≡ string_bytes out.old ++ statement_text statement.now) }
{
    match statement {
        Stmt::Accept => out.push_str("accept")?,
        Stmt::Drop => out.push_str("drop")?,
        Stmt::Reject(kind) => write!(out, "reject with {kind}")?,
        Stmt::Jump(chain) => write!(out, "jump {chain}")?,
        Stmt::Goto(chain) => write!(out, "goto {chain}")?,
        Stmt::Return => out.push_str("return")?,
        Stmt::Log(line) => push_log(out, line)?,
        Stmt::Mark(value, mask) => push_mark(out, *value, *mask)?,
        Stmt::DnatTo(target) => write!(out, "dnat to {target}")?,
        Stmt::Masquerade => out.push_str("masquerade")?,
        Stmt::VmapIn(map) => write!(out, "iifname vmap @{map}")?,
        Stmt::VmapOut(map) => write!(out, "oifname vmap @{map}")?,
        Stmt::VmapSrc(map) => write!(out, "saddr vmap @{map}")?,
        Stmt::VmapDst(map) => write!(out, "daddr vmap @{map}")?,
    }
    Ok(())
}

fn push_log(out: &mut String, line: &LogLine) -> Result<(), Memory>
    ensures { OnOk result (string_bytes out.new ≡ string_bytes out.old ++ log_text line.now) }
{
    write!(out, "log {} prefix ", line.kind)?;
    push_quoted(out, line.prefix.as_str())?;
    write!(out, " level {}", line.level)?;
    Ok(())
}

#[tactic(auto, unfolding(crate::specs::Statements::mark_text))]
fn push_mark(out: &mut String, value: u32, mask: u32) -> Result<(), Memory>
    ensures { OnOk result (string_bytes out.new ≡ string_bytes out.old ++ mark_text value mask) }
{
    out.push_str("meta mark set mark and 0x")?;
    push_word(out, u32::MAX - mask)?;
    out.push_str(" xor 0x")?;
    push_word(out, value)
}

/// Appends a number in eight hexadecimal digits.
#[tactic(auto, unfolding(crate::specs::Statements::hex_word))]
fn push_word(out: &mut String, number: u32) -> Result<(), Memory>
    ensures { OnOk result (string_bytes out.new ≡ string_bytes out.old ++ hex_word number) }
{
    push_octet(out, (number >> 24) as u8)?;
    push_octet(out, ((number >> 16) % 256) as u8)?;
    push_octet(out, ((number >> 8) % 256) as u8)?;
    push_octet(out, (number % 256) as u8)
}

fn push_octet(out: &mut String, octet: u8) -> Result<(), Memory>
    ensures { OnOk result (string_bytes out.new ≡ string_bytes out.old ++ hex_byte octet) }
{
    push_digit(out, octet / 16)?;
    push_digit(out, octet % 16)
}

fn push_digit(out: &mut String, digit: u8) -> Result<(), Memory>
    requires { digit < 16 }
    ensures { OnOk result (string_bytes out.new ≡ string_bytes out.old ++ digit_glyph false digit ∷ []) }
{
    let glyph = if digit < 10 {
        b'0' + digit
    } else {
        b'a' + (digit - 10)
    };
    out.push(char::from(glyph))?;
    Ok(())
}
