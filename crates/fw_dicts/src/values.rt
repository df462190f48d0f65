//! The values of known keys. Where a key is absent, its value stays.
ghost use Rattle.std.specs.Prelude.{◌≡◌, IfOk, OnOk, Some};
ghost use Rattle.std.specs.Option.{option_copied, unwrap_or};
ghost use Rattle.std.specs.Str.{bytes_eq};
ghost use Rattle.fw_answer.specs.Lists.{is_in};
ghost use Rattle.fw_dicts.specs.Values.{each_once, flag_at, names_or, names_told, notes_told, number_at, rows_at, text_at, texts_at};

use super::keys::value_at;
use fw_base::{Memory, Seq, Text};
use fw_calls::DictField;
use fw_model::Notes;
use std::alloc::Global;

/// The text under a key.
#[tactic(auto, unfolding(crate::specs::Values::text_at))]
pub fn text_at<'a>(fields: &'a [(Text, DictField)], key: &str) -> Option<&'a str>
    ensures { option_copied result ≡ text_at fields.now key.now }
{
    match value_at(fields, key) {
        Some(DictField::Text(text)) => Some(text.as_str()),
        _ => None,
    }
}

/// The flag under a key.
#[tactic(auto, unfolding(crate::specs::Values::flag_at))]
pub fn flag_at(fields: &[(Text, DictField)], key: &str) -> Option<bool>
    ensures { result ≡ flag_at fields.now key.now }
{
    match value_at(fields, key) {
        Some(DictField::Bool(flag)) => Some(*flag),
        _ => None,
    }
}

/// The number under a key.
#[tactic(auto, unfolding(crate::specs::Values::number_at))]
pub fn number_at(fields: &[(Text, DictField)], key: &str) -> Option<i32>
    ensures { result ≡ number_at fields.now key.now }
{
    match value_at(fields, key) {
        Some(DictField::Int(number)) => Some(*number),
        _ => None,
    }
}

/// The texts under a key.
#[tactic(auto, unfolding(crate::specs::Values::texts_at))]
pub fn texts_at<'a>(fields: &'a [(Text, DictField)], key: &str) -> Option<&'a [Text]>
    ensures { option_copied result ≡ texts_at fields.now key.now }
{
    match value_at(fields, key) {
        Some(DictField::Texts(texts)) => Some(texts.as_slice()),
        _ => None,
    }
}

/// The rows under a key.
#[tactic(auto, unfolding(crate::specs::Values::rows_at))]
pub fn rows_at<'a>(fields: &'a [(Text, DictField)], key: &str) -> Option<&'a [Seq<Text>]>
    ensures { option_copied result ≡ rows_at fields.now key.now }
{
    match value_at(fields, key) {
        Some(DictField::Rows(rows)) => Some(rows.as_slice()),
        _ => None,
    }
}

/// The notes of a zone or a policy.
#[tactic(auto, unfolding(crate::specs::Values::notes_told))]
pub fn read_notes(
    alloc: Global,
    fields: &[(Text, DictField)],
    notes: &Notes,
) -> Result<Notes, Memory>
    ensures { IfOk result (λ told. told ≡ notes_told fields.now notes.now) }
{
    let version = text_or(alloc, text_at(fields, "version"), &notes.version)?;
    let short = text_or(alloc, text_at(fields, "short"), &notes.short)?;
    let description = text_or(alloc, text_at(fields, "description"), &notes.description)?;
    Ok(Notes {
        version,
        short,
        description,
    })
}

/// A text, or another where there is none.
fn text_or(alloc: Global, text: Option<&str>, other: &Text) -> Result<Text, Memory>
    ensures { IfOk result (λ told. told ≡ unwrap_or (option_copied text.entry) other.now) }
{
    match text {
        Some(text) => Text::of(alloc, text),
        None => Text::of(alloc, other.as_str()),
    }
}

/// A flag, or another where there is none.
pub fn flag_or(flag: Option<bool>, other: bool) -> bool
    ensures { result ≡ unwrap_or flag other }
{
    match flag {
        Some(flag) => flag,
        None => other,
    }
}

/// A number, or another where there is none.
pub fn number_or(number: Option<i32>, other: i32) -> i32
    ensures { result ≡ unwrap_or number other }
{
    match number {
        Some(number) => number,
        None => other,
    }
}

/// The names under a key, each once.
#[tactic(auto, unfolding(crate::specs::Values::names_told))]
pub fn read_names(
    alloc: Global,
    fields: &[(Text, DictField)],
    key: &str,
    names: &[Text],
) -> Result<Seq<Text>, Memory>
    ensures { IfOk result (λ told. told ≡ names_told fields.now key.now names.now) }
{
    match texts_at(fields, key) {
        Some(texts) => each_once(alloc, texts),
        None => copied(alloc, names),
    }
}

/// Names, each once, at its first place.
#[tactic(auto, unfolding(crate::specs::Values::each_once))]
fn each_once(alloc: Global, names: &[Text]) -> Result<Seq<Text>, Memory>
    ensures { IfOk result (λ told. told ≡ each_once names.now) }
{
    let mut told = Seq::new(alloc);
    for name in names {
        if !has_name(told.as_slice(), name.as_str()) {
            told.push(Text::of(alloc, name.as_str())?)?;
        }
    }
    Ok(told)
}

fn has_name(names: &[Text], name: &str) -> bool
    ensures { result ≡ is_in bytes_eq name.now names.now }
{
    names.iter().any(|listed| listed.as_str() == name)
}

fn copied(alloc: Global, names: &[Text]) -> Result<Seq<Text>, Memory>
    ensures { IfOk result (λ told. told ≡ names.now) }
{
    let mut told = Seq::new(alloc);
    for name in names {
        told.push(Text::of(alloc, name.as_str())?)?;
    }
    Ok(told)
}
