//! The settings that zones and policies have alike, as their dicts list them.
ghost use Rattle.std.specs.Prelude.{◌≡◌, OnOk};
ghost use Rattle.std.specs.Option.{option_copied, unwrap_or};
ghost use Rattle.fw_act.specs.Acts.{Makes, Reads};
ghost use Rattle.fw_dicts.specs.Lists.{cell, lists_told, rich_key, row_key, row_setting, rows_in, rows_told, rules_told, text_key, text_setting, texts_in, texts_told, with_all, with_masquerade, with_new, without_rows, without_texts};

use super::shape::Owner;
use super::values::{flag_at, flag_or, rows_at, texts_at};
use fw_act::Stop;
use fw_base::{Memory, Seq, Text, TryCopy};
use fw_calls::DictField;
use fw_model::{Config, Rules, Setting};
use fw_zone::add;
use fw_zone_edits::has_setting;
use fw_zone_members::{read_forward, read_icmp, read_port, read_protocol, read_rule, read_service};
use std::alloc::Global;

/// A list of settings whose elements are texts.
#[derive(Clone, Copy, Debug, PartialEq, Eq)]
pub enum TextList {
    Services,
    Protocols,
    IcmpBlocks,
    RichRules,
}

/// A list of settings whose elements are rows of texts.
#[derive(Clone, Copy, Debug, PartialEq, Eq)]
pub enum RowList {
    Ports,
    SourcePorts,
    ForwardPorts,
}

/// What a dict makes of the settings that zones and policies have alike; repeated elements are kept once, and the lists of absent keys
/// stay. Services and ipsets are those of the configuration. Refuses the first element that is none, by key order.
#[tactic(auto, unfolding(crate::specs::Lists::rules_told))]
pub fn read_rules(
    alloc: Global,
    config: &Config,
    owner: Owner,
    fields: &[(Text, DictField)],
    rules: &Rules,
) -> Result<Rules, Stop>
    ensures { Reads result (rules_told config.now owner fields.now rules.now) }
{
    let mut told = rules.copy(alloc)?;
    set_masquerade(fields, &mut told);
    read_lists(alloc, config, owner, fields, &mut told)?;
    Ok(told)
}

fn set_masquerade(fields: &[(Text, DictField)], rules: &mut Rules)
    ensures { rules.new ≡ with_masquerade fields.now rules.old }
{
    rules.masquerade = flag_or(flag_at(fields, "masquerade"), rules.masquerade);
}

#[tactic(auto, unfolding(crate::specs::Lists::lists_told))]
fn read_lists(
    alloc: Global,
    config: &Config,
    owner: Owner,
    fields: &[(Text, DictField)],
    rules: &mut Rules,
) -> Result<(), Stop>
    ensures { Makes rules.new result (lists_told config.now owner fields.now rules.old) }
{
    read_texts(alloc, config, owner, fields, TextList::Services, rules)?;
    read_rows(alloc, fields, RowList::Ports, rules)?;
    read_texts(alloc, config, owner, fields, TextList::Protocols, rules)?;
    read_rows(alloc, fields, RowList::SourcePorts, rules)?;
    read_texts(alloc, config, owner, fields, TextList::IcmpBlocks, rules)?;
    read_rows(alloc, fields, RowList::ForwardPorts, rules)?;
    read_texts(alloc, config, owner, fields, TextList::RichRules, rules)
}

/// Takes the elements of a list of texts, where its key is there.
#[tactic(auto, unfolding(crate::specs::Lists::texts_told))]
fn read_texts(
    alloc: Global,
    config: &Config,
    owner: Owner,
    fields: &[(Text, DictField)],
    list: TextList,
    rules: &mut Rules,
) -> Result<(), Stop>
    ensures { Makes rules.new result (texts_told config.now owner fields.now list rules.old) }
{
    match texts_at(fields, text_key(owner, list)) {
        Some(texts) => {
            empty_texts(alloc, list, rules);
            add_texts(alloc, config, list, texts, rules)
        }
        None => Ok(()),
    }
}

/// Takes the elements of a list of rows, where its key is there.
#[tactic(auto, unfolding(crate::specs::Lists::rows_told))]
fn read_rows(
    alloc: Global,
    fields: &[(Text, DictField)],
    list: RowList,
    rules: &mut Rules,
) -> Result<(), Stop>
    ensures { Makes rules.new result (rows_told fields.now list rules.old) }
{
    match rows_at(fields, row_key(list)) {
        Some(rows) => {
            empty_rows(alloc, list, rules);
            add_rows(alloc, list, rows, rules)
        }
        None => Ok(()),
    }
}

fn add_texts(
    alloc: Global,
    config: &Config,
    list: TextList,
    texts: &[Text],
    rules: &mut Rules,
) -> Result<(), Stop>
    ensures { Makes rules.new result (with_all (text_setting config.now list) rules.old texts.now) }
{
    for text in texts {
        let setting = read_text(alloc, config, list, text.as_str())?;
        add_once(rules, setting)?;
    }
    Ok(())
}

fn add_rows(alloc: Global, list: RowList, rows: &[Seq<Text>], rules: &mut Rules) -> Result<(), Stop>
    ensures { Makes rules.new result (with_all (row_setting list) rules.old rows.now) }
{
    for row in rows {
        let setting = read_row(alloc, list, row.as_slice())?;
        add_once(rules, setting)?;
    }
    Ok(())
}

/// Adds a setting, unless it is there.
#[tactic(auto, unfolding(crate::specs::Lists::with_new))]
fn add_once(rules: &mut Rules, setting: Setting) -> Result<(), Memory>
    ensures { OnOk result (rules.new ≡ with_new rules.old setting) }
{
    if has_setting(rules, &setting) {
        return Ok(());
    }
    match add(rules, setting) {
        Ok(()) => Ok(()),
        Err(_) => Err(Memory),
    }
}

/// The setting that a text says.
#[tactic(auto, unfolding(crate::specs::Lists::text_setting))]
fn read_text(alloc: Global, config: &Config, list: TextList, text: &str) -> Result<Setting, Stop>
    ensures { Reads result (text_setting config.now list text.now) }
{
    match list {
        TextList::Services => read_service(alloc, config.services.as_slice(), text),
        TextList::Protocols => read_protocol(alloc, text),
        TextList::IcmpBlocks => read_icmp(alloc, text),
        TextList::RichRules => {
            let rule = read_rule(alloc, config, text)?;
            Ok(Setting::Rich(rule))
        }
    }
}

/// The setting that a row says.
#[tactic(auto, unfolding(crate::specs::Lists::row_setting))]
fn read_row(alloc: Global, list: RowList, row: &[Text]) -> Result<Setting, Stop>
    ensures { Reads result (row_setting list row.now) }
{
    match list {
        RowList::Ports => {
            let port = read_port(alloc, cell(row, 0), cell(row, 1))?;
            Ok(Setting::Port(port))
        }
        RowList::SourcePorts => {
            let port = read_port(alloc, cell(row, 0), cell(row, 1))?;
            Ok(Setting::SourcePort(port))
        }
        RowList::ForwardPorts => {
            let forward = read_forward(
                alloc,
                cell(row, 0),
                cell(row, 1),
                cell(row, 2),
                cell(row, 3),
            )?;
            Ok(Setting::Forward(forward))
        }
    }
}

/// The text at a place of a row.
fn cell<'a>(row: &'a [Text], place: usize) -> &'a str
    ensures { result.now ≡ cell row.now place }
{
    match row.get(place) {
        Some(text) => text.as_str(),
        None => "",
    }
}

fn empty_texts(alloc: Global, list: TextList, rules: &mut Rules)
    ensures { rules.new ≡ without_texts list rules.old }
{
    match list {
        TextList::Services => rules.services = Seq::new(alloc),
        TextList::Protocols => rules.protocols = Seq::new(alloc),
        TextList::IcmpBlocks => rules.icmp_blocks = Seq::new(alloc),
        TextList::RichRules => rules.rich = Seq::new(alloc),
    }
}

fn empty_rows(alloc: Global, list: RowList, rules: &mut Rules)
    ensures { rules.new ≡ without_rows list rules.old }
{
    match list {
        RowList::Ports => rules.ports = Seq::new(alloc),
        RowList::SourcePorts => rules.source_ports = Seq::new(alloc),
        RowList::ForwardPorts => rules.forwards = Seq::new(alloc),
    }
}

/// The key of a list of texts; that of rich rules is another one in policies.
pub fn text_key(owner: Owner, list: TextList) -> &'static str
    ensures { result.now ≡ text_key owner list }
{
    match list {
        TextList::Services => "services",
        TextList::Protocols => "protocols",
        TextList::IcmpBlocks => "icmp_blocks",
        TextList::RichRules => rich_key(owner),
    }
}

fn rich_key(owner: Owner) -> &'static str
    ensures { result.now ≡ rich_key owner }
{
    match owner {
        Owner::Zone => "rules_str",
        Owner::Policy => "rich_rules",
    }
}

/// The key of a list of rows.
pub fn row_key(list: RowList) -> &'static str
    ensures { result.now ≡ row_key list }
{
    match list {
        RowList::Ports => "ports",
        RowList::SourcePorts => "source_ports",
        RowList::ForwardPorts => "forward_ports",
    }
}
