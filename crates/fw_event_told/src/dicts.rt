//! Dicts, as a script's output has them.
ghost use Rattle.std.specs.Prelude.{◌≡◌, ◌∷◌, ◌++◌, OnOk, string_bytes};
ghost use Rattle.std.specs.Option.{option_copied};
ghost use Rattle.fw_event_told.specs.Dicts.{active_text, actives_text, between_text, dict_text, entry_text, list_text, lists_text, policy_keys, value_text, zone_keys};
ghost use Rattle.fw_event_told.specs.Joined.{joined, others_text};
ghost use Rattle.fw_words.specs.Keys.{texts};

use super::values::{push_field, push_texts};
use fw_base::{Memory, Text};
use fw_calls::{Active, Dict, DictField};
use fw_dicts::value_at;
use fw_quote::push_quoted;

/// The settings of a zone.
#[tactic(auto, unfolding(crate::specs::Dicts::zone_keys))]
pub fn push_zone_dict(out: &mut String, dict: &Dict) -> Result<(), Memory>
    ensures { OnOk result (string_bytes out.new ≡ string_bytes out.old ++ dict_text zone_keys dict.now) }
{
    push_dict(
        out,
        &[
            "description",
            "forward",
            "forward_ports",
            "icmp_block_inversion",
            "icmp_blocks",
            "interfaces",
            "masquerade",
            "ports",
            "protocols",
            "rules_str",
            "services",
            "short",
            "source_ports",
            "sources",
            "target",
            "version",
        ],
        dict,
    )
}

/// The settings of a policy.
#[tactic(auto, unfolding(crate::specs::Dicts::policy_keys))]
pub fn push_policy_dict(out: &mut String, dict: &Dict) -> Result<(), Memory>
    ensures { OnOk result (string_bytes out.new ≡ string_bytes out.old ++ dict_text policy_keys dict.now) }
{
    push_dict(
        out,
        &[
            "description",
            "egress_zones",
            "forward_ports",
            "icmp_blocks",
            "ingress_zones",
            "masquerade",
            "ports",
            "priority",
            "protocols",
            "rich_rules",
            "services",
            "short",
            "source_ports",
            "target",
            "version",
        ],
        dict,
    )
}

/// A dict with these keys, in this order.
#[tactic(auto, unfolding(crate::specs::Dicts::dict_text))]
fn push_dict(out: &mut String, keys: &[&str], dict: &Dict) -> Result<(), Memory>
    ensures { OnOk result (string_bytes out.new ≡ string_bytes out.old ++ dict_text (texts keys.now) dict.now) }
{
    out.push('{')?;
    push_entries(out, keys, dict.fields.as_slice())?;
    out.push('}')?;
    Ok(())
}

/// Keys with their values, joined by blanks.
#[tactic(auto, unfolding(crate::specs::Joined::joined))]
fn push_entries(out: &mut String, keys: &[&str], fields: &[(Text, DictField)]) -> Result<(), Memory>
    ensures { OnOk result (string_bytes out.new ≡ string_bytes out.old ++ joined (entry_text fields.now) (texts keys.now)) }
{
    match keys.split_first() {
        Some((first, others)) => push_entries_from(out, *first, others, fields),
        None => Ok(()),
    }
}

#[tactic(auto, unfolding(crate::specs::Joined::joined))]
fn push_entries_from(
    out: &mut String,
    first: &str,
    others: &[&str],
    fields: &[(Text, DictField)],
) -> Result<(), Memory>
    ensures { OnOk result (string_bytes out.new ≡ string_bytes out.old ++ joined (entry_text fields.now) (first.now ∷ texts others.now)) }
{
    push_entry(out, first, fields)?;
    push_other_entries(out, others, fields)
}

fn push_other_entries(
    out: &mut String,
    others: &[&str],
    fields: &[(Text, DictField)],
) -> Result<(), Memory>
    ensures { OnOk result (string_bytes out.new ≡ string_bytes out.old ++ others_text (entry_text fields.now) (texts others.now)) }
{
    for other in others {
        out.push(' ')?;
        push_entry(out, *other, fields)?;
    }
    Ok(())
}

#[tactic(auto, unfolding(crate::specs::Dicts::entry_text))]
fn push_entry(out: &mut String, key: &str, fields: &[(Text, DictField)]) -> Result<(), Memory>
    ensures { OnOk result (string_bytes out.new ≡ string_bytes out.old ++ entry_text fields.now key.now) }
{
    push_quoted(out, key)?;
    out.push('=')?;
    push_value(out, value_at(fields, key))
}

fn push_value(out: &mut String, value: Option<&DictField>) -> Result<(), Memory>
    ensures { OnOk result (string_bytes out.new ≡ string_bytes out.old ++ value_text (option_copied value.entry)) }
{
    match value {
        Some(field) => push_field(out, field),
        None => Ok(()),
    }
}

/// The dict of all that are active, by their names, each with its two lists under these keys.
#[tactic(auto, unfolding(crate::specs::Dicts::actives_text))]
pub fn push_actives(
    out: &mut String,
    key: &str,
    other_key: &str,
    actives: &[Active],
) -> Result<(), Memory>
    ensures { OnOk result (string_bytes out.new ≡ string_bytes out.old ++ actives_text key.now other_key.now actives.now) }
{
    out.push('{')?;
    push_all_active(out, key, other_key, actives)?;
    out.push('}')?;
    Ok(())
}

#[tactic(auto, unfolding(crate::specs::Joined::joined))]
fn push_all_active(
    out: &mut String,
    key: &str,
    other_key: &str,
    actives: &[Active],
) -> Result<(), Memory>
    ensures { OnOk result (string_bytes out.new ≡ string_bytes out.old ++ joined (active_text key.now other_key.now) actives.now) }
{
    match actives.split_first() {
        Some((first, others)) => push_active_from(out, key, other_key, first, others),
        None => Ok(()),
    }
}

#[tactic(auto, unfolding(crate::specs::Joined::joined))]
fn push_active_from(
    out: &mut String,
    key: &str,
    other_key: &str,
    first: &Active,
    others: &[Active],
) -> Result<(), Memory>
    ensures { OnOk result (string_bytes out.new ≡ string_bytes out.old ++ joined (active_text key.now other_key.now) (first.now ∷ others.now)) }
{
    push_active(out, key, other_key, first)?;
    push_other_actives(out, key, other_key, others)
}

fn push_other_actives(
    out: &mut String,
    key: &str,
    other_key: &str,
    others: &[Active],
) -> Result<(), Memory>
    ensures { OnOk result (string_bytes out.new ≡ string_bytes out.old ++ others_text (active_text key.now other_key.now) others.now) }
{
    for other in others {
        out.push(' ')?;
        push_active(out, key, other_key, other)?;
    }
    Ok(())
}

/// A name and its two lists.
#[tactic(auto, unfolding(crate::specs::Dicts::active_text))]
fn push_active(out: &mut String, key: &str, other_key: &str, active: &Active) -> Result<(), Memory>
    ensures { OnOk result (string_bytes out.new ≡ string_bytes out.old ++ active_text key.now other_key.now active.now) }
{
    push_quoted(out, active.name.as_str())?;
    out.push('=')?;
    push_lists(
        out,
        key,
        active.first.as_slice(),
        other_key,
        active.second.as_slice(),
    )
}

/// The dict of the lists that aren't empty.
#[tactic(auto, unfolding(crate::specs::Dicts::lists_text))]
fn push_lists(
    out: &mut String,
    key: &str,
    first: &[Text],
    other_key: &str,
    second: &[Text],
) -> Result<(), Memory>
    ensures { OnOk result (string_bytes out.new ≡ string_bytes out.old ++ lists_text key.now first.now other_key.now second.now) }
{
    out.push('{')?;
    push_list(out, key, first)?;
    push_between(out, first, second)?;
    push_list(out, other_key, second)?;
    out.push('}')?;
    Ok(())
}

/// A key and its list, where that isn't empty.
fn push_list(out: &mut String, key: &str, list: &[Text]) -> Result<(), Memory>
    ensures { OnOk result (string_bytes out.new ≡ string_bytes out.old ++ list_text key.now list.now) }
{
    if list.is_empty() {
        return Ok(());
    }
    push_quoted(out, key)?;
    out.push('=')?;
    push_texts(out, list)
}

/// A blank between two lists that both aren't empty.
fn push_between(out: &mut String, first: &[Text], second: &[Text]) -> Result<(), Memory>
    ensures { OnOk result (string_bytes out.new ≡ string_bytes out.old ++ between_text first.now second.now) }
{
    if !first.is_empty() && !second.is_empty() {
        out.push(' ')?;
    }
    Ok(())
}
