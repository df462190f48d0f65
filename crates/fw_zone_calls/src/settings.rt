//! Calls that add, remove and ask for settings of a zone.
ghost use Rattle.std.specs.Prelude.{◌≡◌, [], ◌∷◌, ◌++◌, IfOk};
ghost use Rattle.fw_answer.specs.Refusals.{Answers, Edits, Tells};
ghost use Rattle.fw_zone_calls.specs.Settings.{added, added_signal, has, removed, removed_signal, setting_answered, setting_call, whole};
ghost use Rattle.fw_zone_calls.specs.Settled.{settled_add, settled_remove};

use super::setting::{PlainSetting, read_setting};
use super::told::{told_of, zone_values};
use fw_answer::{Answer, EditError, Stop, refuse, value_answer};
use fw_base::{Memory, Text};
use fw_call::{SettingWords, Verb};
use fw_model::{Code, IpSet, Rules, Service, Setting, Zone};
use fw_told::{Signal, Value};
use fw_zone::{AddError, NotEnabled, add, has, remove};
use std::alloc::Global;

/// A call on a setting of a zone; services and ipsets are ones of the configuration's.
pub fn setting_call(
    alloc: Global,
    services: &[Service],
    ipsets: &[IpSet],
    zone: &mut Zone,
    verb: Verb,
    words: &SettingWords,
) -> Result<Answer, Stop>
    ensures { Answers zone.old zone.new result (setting_call services.now ipsets.now zone.old verb words.now) }
{
    let setting = read_setting(alloc, services, ipsets, words)?;
    match verb {
        Verb::Add => add_setting(alloc, zone, setting),
        Verb::Remove => remove_setting(alloc, zone, setting),
        Verb::Query => query_setting(alloc, zone, setting),
    }
}

fn add_setting(alloc: Global, zone: &mut Zone, setting: PlainSetting) -> Result<Answer, Stop>
    ensures { Answers zone.old zone.new result (setting_answered zone.old Verb.Add setting) }
{
    let text = setting.text(alloc)?;
    let signal = added_signal(alloc, zone.name.as_str(), &setting)?;
    let told = told_of(alloc, zone.name.as_str(), signal)?;
    match add_to(&mut zone.rules, setting) {
        Ok(()) => Ok(told),
        Err(EditError::Refused(code)) => { Err(Stop::Refused(refuse(alloc, code, text.as_str())?)) }
        Err(EditError::Memory) => Err(Stop::Memory),
    }
}

fn remove_setting(alloc: Global, zone: &mut Zone, setting: PlainSetting) -> Result<Answer, Stop>
    ensures { Answers zone.old zone.new result (setting_answered zone.old Verb.Remove setting) }
{
    let text = setting.text(alloc)?;
    let signal = removed_signal(alloc, zone.name.as_str(), &setting)?;
    let told = told_of(alloc, zone.name.as_str(), signal)?;
    match remove_from(&mut zone.rules, setting) {
        Ok(()) => Ok(told),
        Err(EditError::Refused(code)) => { Err(Stop::Refused(refuse(alloc, code, text.as_str())?)) }
        Err(EditError::Memory) => Err(Stop::Memory),
    }
}

fn query_setting(alloc: Global, zone: &Zone, setting: PlainSetting) -> Result<Answer, Stop>
    ensures { Tells zone.now result (setting_answered zone.now Verb.Query setting) }
{
    let is_there = has_setting(&zone.rules, setting);
    Ok(value_answer(alloc, Value::Bool(is_there))?)
}

/// The signal that a setting was added, without a timeout.
fn added_signal(alloc: Global, zone: &str, setting: &PlainSetting) -> Result<Signal, Memory>
    ensures { IfOk result (λ signal. signal ≡ added_signal zone.now setting.now) }
{
    let mut values = zone_values(alloc, zone)?;
    setting.push_arguments(alloc, &mut values)?;
    values.push(Value::Number(0))?;
    Ok(Signal {
        kind: setting.added_kind(),
        values,
    })
}

/// The signal that a setting was removed.
fn removed_signal(alloc: Global, zone: &str, setting: &PlainSetting) -> Result<Signal, Memory>
    ensures { IfOk result (λ signal. signal ≡ removed_signal zone.now setting.now) }
{
    let mut values = zone_values(alloc, zone)?;
    setting.push_arguments(alloc, &mut values)?;
    Ok(Signal {
        kind: setting.removed_kind(),
        values,
    })
}

/// The setting as records of settings have it.
fn whole(setting: PlainSetting) -> Setting
    ensures { result ≡ whole setting }
{
    match setting {
        PlainSetting::Port(port) => Setting::Port(port),
        PlainSetting::SourcePort(port) => Setting::SourcePort(port),
        PlainSetting::Protocol(protocol) => Setting::Protocol(protocol),
        PlainSetting::IcmpBlock(name) => Setting::IcmpBlock(name),
        PlainSetting::Service(name) => Setting::Service(name),
        PlainSetting::Rich(rule) => Setting::Rich(rule),
    }
}

fn has_setting(rules: &Rules, setting: PlainSetting) -> bool
    ensures { result ≡ has rules.now setting }
{
    has(rules, &whole(setting))
}

fn add_to(rules: &mut Rules, setting: PlainSetting) -> Result<(), EditError>
    ensures { Edits rules.old rules.new result (added rules.old setting) }
{
    settled_add(add(rules, whole(setting)))
}

fn remove_from(rules: &mut Rules, setting: PlainSetting) -> Result<(), EditError>
    ensures { Edits rules.old rules.new result (removed rules.old setting) }
{
    settled_remove(remove(rules, &whole(setting)))
}

/// An edit that adds a setting, with the code of its refusal.
fn settled_add(edited: Result<(), AddError>) -> Result<(), EditError>
    ensures { result ≡ settled_add edited }
{
    match edited {
        Ok(()) => Ok(()),
        Err(AddError::AlreadyEnabled) => Err(EditError::Refused(Code::AlreadyEnabled)),
        Err(AddError::Memory) => Err(EditError::Memory),
    }
}

/// An edit that removes a setting, with the code of its refusal.
fn settled_remove(edited: Result<(), NotEnabled>) -> Result<(), EditError>
    ensures { result ≡ settled_remove edited }
{
    match edited {
        Ok(()) => Ok(()),
        Err(_) => Err(EditError::Refused(Code::NotEnabled)),
    }
}
