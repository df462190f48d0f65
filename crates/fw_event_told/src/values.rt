//! Values, as a script's output has them.
ghost use Rattle.std.specs.Prelude.{◌≡◌, ◌++◌, OnOk, string_bytes};
ghost use Rattle.fw_event_told.specs.Values.{field_text, flag_text, row_text, rows_text, texts_text};
ghost use Rattle.fw_quote.specs.Quoted.{quoted};

use super::part::{Part, push_joined};
use fw_base::{Memory, Seq, Text};
use fw_calls::DictField;
use fw_quote::push_quoted;

impl Part for Text {
    ghost text = { quoted };

    fn push(&self, out: &mut String) -> Result<(), Memory> {
        push_quoted(out, self.as_str())?;
        Ok(())
    }
}

impl Part for Seq<Text> {
    ghost text = { row_text };

    fn push(&self, out: &mut String) -> Result<(), Memory> {
        push_row(out, self.as_slice())
    }
}

#[tactic(auto, unfolding(crate::specs::Values::flag_text))]
pub fn push_flag(out: &mut String, flag: bool) -> Result<(), Memory>
    ensures { OnOk result (string_bytes out.new ≡ string_bytes out.old ++ flag_text flag) }
{
    out.push_str(if flag { "true" } else { "false" })?;
    Ok(())
}

/// A list of texts.
#[tactic(auto, unfolding(crate::specs::Values::texts_text))]
pub fn push_texts(out: &mut String, texts: &[Text]) -> Result<(), Memory>
    ensures { OnOk result (string_bytes out.new ≡ string_bytes out.old ++ texts_text texts.now) }
{
    out.push('[')?;
    push_joined(out, texts)?;
    out.push(']')?;
    Ok(())
}

#[tactic(auto, unfolding(crate::specs::Values::row_text))]
fn push_row(out: &mut String, row: &[Text]) -> Result<(), Memory>
    ensures { OnOk result (string_bytes out.new ≡ string_bytes out.old ++ row_text row.now) }
{
    out.push('(')?;
    push_joined(out, row)?;
    out.push(')')?;
    Ok(())
}

/// A list of rows.
#[tactic(auto, unfolding(crate::specs::Values::rows_text))]
fn push_rows(out: &mut String, rows: &[Seq<Text>]) -> Result<(), Memory>
    ensures { OnOk result (string_bytes out.new ≡ string_bytes out.old ++ rows_text rows.now) }
{
    out.push('[')?;
    push_joined(out, rows)?;
    out.push(']')?;
    Ok(())
}

/// The value of a key of a dict; one that isn't known has no text.
#[tactic(auto, unfolding(crate::specs::Values::field_text))]
pub fn push_field(out: &mut String, field: &DictField) -> Result<(), Memory>
    ensures { OnOk result (string_bytes out.new ≡ string_bytes out.old ++ field_text field.now) }
{
    match field {
        DictField::Text(text) => text.push(out),
        DictField::Bool(flag) => push_flag(out, *flag),
        DictField::Int(number) => {
            write!(out, "{number}")?;
            Ok(())
        }
        DictField::Texts(texts) => push_texts(out, texts.as_slice()),
        DictField::Rows(rows) => push_rows(out, rows.as_slice()),
        DictField::Unknown => Ok(()),
    }
}

/// A text in quotes.
pub fn push_text(out: &mut String, text: &str) -> Result<(), Memory>
    ensures { OnOk result (string_bytes out.new ≡ string_bytes out.old ++ quoted text.now) }
{
    push_quoted(out, text)?;
    Ok(())
}
