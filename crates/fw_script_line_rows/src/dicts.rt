//! What a dict of settings says as a text: its keys and their values in the order in which they came.
use super::settings::tell_texts;
use fw_base::{Memory, Seq, Text};
use fw_calls::{Dict, DictField};

pub fn tell_dict(out: &mut String, dict: &Dict) -> Result<(), Memory> {
    out.push('{')?;
    for (key, field) in dict.fields.as_slice() {
        write!(out, " {key}=")?;
        tell_field(out, field)?;
    }
    out.push_str(" }")?;
    Ok(())
}

/// A value; `?` stands for that of a key which isn't known.
fn tell_field(out: &mut String, field: &DictField) -> Result<(), Memory> {
    match field {
        DictField::Text(text) => write!(out, "[{text}]")?,
        DictField::Bool(flag) => out.push_str(if *flag { "true" } else { "false" })?,
        DictField::Int(number) => write!(out, "{number}")?,
        DictField::Texts(texts) => tell_texts(out, texts.as_slice())?,
        DictField::Rows(rows) => tell_rows(out, rows.as_slice())?,
        DictField::Unknown => out.push('?')?,
    }
    Ok(())
}

fn tell_rows(out: &mut String, rows: &[Seq<Text>]) -> Result<(), Memory> {
    out.push('(')?;
    for row in rows {
        tell_texts(out, row.as_slice())?;
    }
    out.push(')')?;
    Ok(())
}
