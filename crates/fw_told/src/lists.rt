//! Lists and dicts of texts, as a script's output has them.
ghost use Rattle.std.specs.Prelude.{◌≡◌, ◌∷◌, ◌++◌, OnOk, string_bytes};
ghost use Rattle.fw_told.specs.Lists.{active_text, active_zones_text, between_text, bindings_text, entry_text, items_text, other_items_text, other_zones_text, texts_text, zones_text};

use super::Active;
use fw_base::{Memory, Text};
use fw_quote::push_quoted;

/// Appends a list of texts.
#[tactic(auto, unfolding(crate::specs::Lists::texts_text))]
pub fn push_texts(out: &mut String, texts: &[Text]) -> Result<(), Memory>
    ensures { OnOk result (string_bytes out.new ≡ string_bytes out.old ++ texts_text texts.now) }
{
    out.push('[')?;
    push_items(out, texts)?;
    out.push(']')?;
    Ok(())
}

/// Appends texts in quotes, joined by blanks.
fn push_items(out: &mut String, texts: &[Text]) -> Result<(), Memory>
    ensures { OnOk result (string_bytes out.new ≡ string_bytes out.old ++ items_text texts.now) }
{
    match texts.split_first() {
        Some((first, others)) => push_items_from(out, first, others),
        None => Ok(()),
    }
}

fn push_items_from(out: &mut String, first: &Text, others: &[Text]) -> Result<(), Memory>
    ensures { OnOk result (string_bytes out.new ≡ string_bytes out.old ++ items_text (first.now ∷ others.now)) }
{
    push_quoted(out, first.as_str())?;
    push_other_items(out, others)
}

/// Appends texts, each behind a blank.
fn push_other_items(out: &mut String, others: &[Text]) -> Result<(), Memory>
    ensures { OnOk result (string_bytes out.new ≡ string_bytes out.old ++ other_items_text others.now) }
{
    for other in others {
        out.push(' ')?;
        push_quoted(out, other.as_str())?;
    }
    Ok(())
}

/// Appends a dict of zones by their names.
#[tactic(auto, unfolding(crate::specs::Lists::active_zones_text))]
pub fn push_active_zones(out: &mut String, zones: &[Active]) -> Result<(), Memory>
    ensures { OnOk result (string_bytes out.new ≡ string_bytes out.old ++ active_zones_text zones.now) }
{
    out.push('{')?;
    push_zones(out, zones)?;
    out.push('}')?;
    Ok(())
}

/// Appends zones, joined by blanks.
fn push_zones(out: &mut String, zones: &[Active]) -> Result<(), Memory>
    ensures { OnOk result (string_bytes out.new ≡ string_bytes out.old ++ zones_text zones.now) }
{
    match zones.split_first() {
        Some((first, others)) => push_zones_from(out, first, others),
        None => Ok(()),
    }
}

fn push_zones_from(out: &mut String, first: &Active, others: &[Active]) -> Result<(), Memory>
    ensures { OnOk result (string_bytes out.new ≡ string_bytes out.old ++ zones_text (first.now ∷ others.now)) }
{
    push_active(out, first)?;
    push_other_zones(out, others)
}

/// Appends zones, each behind a blank.
fn push_other_zones(out: &mut String, others: &[Active]) -> Result<(), Memory>
    ensures { OnOk result (string_bytes out.new ≡ string_bytes out.old ++ other_zones_text others.now) }
{
    for other in others {
        out.push(' ')?;
        push_active(out, other)?;
    }
    Ok(())
}

/// Appends a zone's name and the dict of its bindings.
fn push_active(out: &mut String, zone: &Active) -> Result<(), Memory>
    ensures { OnOk result (string_bytes out.new ≡ string_bytes out.old ++ active_text zone.now) }
{
    push_quoted(out, zone.name.as_str())?;
    out.push('=')?;
    push_bindings(out, zone.interfaces.as_slice(), zone.sources.as_slice())
}

/// Appends the dict of the lists that aren't empty.
#[tactic(auto, unfolding(crate::specs::Lists::bindings_text))]
fn push_bindings(out: &mut String, interfaces: &[Text], sources: &[Text]) -> Result<(), Memory>
    ensures { OnOk result (string_bytes out.new ≡ string_bytes out.old ++ bindings_text interfaces.now sources.now) }
{
    out.push('{')?;
    push_entry(out, "interfaces", interfaces)?;
    push_between(out, interfaces, sources)?;
    push_entry(out, "sources", sources)?;
    out.push('}')?;
    Ok(())
}

/// Appends a key and its list, where that isn't empty.
fn push_entry(out: &mut String, key: &str, texts: &[Text]) -> Result<(), Memory>
    ensures { OnOk result (string_bytes out.new ≡ string_bytes out.old ++ entry_text key.now texts.now) }
{
    if texts.is_empty() {
        return Ok(());
    }
    push_quoted(out, key)?;
    out.push('=')?;
    push_texts(out, texts)
}

/// Appends a blank between two lists that both aren't empty.
fn push_between(out: &mut String, interfaces: &[Text], sources: &[Text]) -> Result<(), Memory>
    ensures { OnOk result (string_bytes out.new ≡ string_bytes out.old ++ between_text interfaces.now sources.now) }
{
    if !interfaces.is_empty() && !sources.is_empty() {
        out.push(' ')?;
    }
    Ok(())
}
