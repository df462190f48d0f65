//! Calls on the entries of an ipset.
ghost use Rattle.std.specs.Prelude.{◌≡◌, [], ◌∷◌, false, IfOk};
ghost use Rattle.fw_answer.specs.Refusals.{Answers, Tells, with_value};
ghost use Rattle.fw_ipset_calls.specs.Entries.{entries_call, entry_answered, entry_call, entry_signal};

use super::edits::{add_to, holds, remove_from};
use super::items::{item_text, read_entry};
use super::replace::set_entries;
use super::texts::item_texts;
use fw_answer::{Answer, EditError, Stop, refuse, value_answer};
use fw_base::{Memory, Seq, Text};
use fw_call::{EntriesCall, Verb};
use fw_model::{IpSet, Item};
use fw_told::{Reply, Signal, SignalKind, Value};
use std::alloc::Global;

/// A call on the entries of an ipset.
pub fn entries_call(alloc: Global, set: &mut IpSet, call: &EntriesCall) -> Result<Answer, Stop>
    ensures { Answers set.old set.new result (entries_call set.old call.now) }
{
    match call {
        EntriesCall::One { verb, entry } => entry_call(alloc, set, *verb, entry.as_str()),
        EntriesCall::List => {
            let texts = item_texts(alloc, set.items.as_slice())?;
            Ok(value_answer(alloc, Value::Texts(texts))?)
        }
        EntriesCall::Replace { entries } => set_entries(alloc, set, entries.as_slice()),
    }
}

/// A call that adds, removes or asks for an entry.
fn entry_call(alloc: Global, set: &mut IpSet, verb: Verb, text: &str) -> Result<Answer, Stop>
    ensures { Answers set.old set.new result (entry_call set.old verb text.now) }
{
    let item = read_entry(alloc, set, text)?;
    match verb {
        Verb::Add => add_entry(alloc, set, item),
        Verb::Remove => remove_entry(alloc, set, item),
        Verb::Query => query_entry(alloc, set, item),
    }
}

fn add_entry(alloc: Global, set: &mut IpSet, item: Item) -> Result<Answer, Stop>
    requires { set.old.timeout ≡ false }
    ensures { Answers set.old set.new result (entry_answered set.old Verb.Add item) }
{
    let text = item_text(alloc, &item)?;
    let told = entry_told(alloc, SignalKind::IpsetEntryAdded, set, &item)?;
    match add_to(set, item) {
        Ok(()) => Ok(told),
        Err(EditError::Refused(code)) => { Err(Stop::Refused(refuse(alloc, code, text.as_str())?)) }
        Err(EditError::Memory) => Err(Stop::Memory),
    }
}

fn remove_entry(alloc: Global, set: &mut IpSet, item: Item) -> Result<Answer, Stop>
    requires { set.old.timeout ≡ false }
    ensures { Answers set.old set.new result (entry_answered set.old Verb.Remove item) }
{
    let text = item_text(alloc, &item)?;
    let told = entry_told(alloc, SignalKind::IpsetEntryRemoved, set, &item)?;
    match remove_from(set, &item) {
        Ok(()) => Ok(told),
        Err(EditError::Refused(code)) => { Err(Stop::Refused(refuse(alloc, code, text.as_str())?)) }
        Err(EditError::Memory) => Err(Stop::Memory),
    }
}

fn query_entry(alloc: Global, set: &IpSet, item: Item) -> Result<Answer, Stop>
    ensures { Tells set.now result (entry_answered set.now Verb.Query item) }
{
    let is_there = holds(set, &item);
    Ok(value_answer(alloc, Value::Bool(is_there))?)
}

/// A signal with an ipset's name and an entry, and an empty reply.
fn entry_told(alloc: Global, kind: SignalKind, set: &IpSet, item: &Item) -> Result<Answer, Memory>
    ensures { IfOk result (λ answer. answer ≡ record { signals = entry_signal kind set.now.name item.now ∷ []; reply = Reply.Ok [] }) }
{
    let mut signals = Seq::new(alloc);
    signals.push(entry_signal(alloc, kind, set.name.as_str(), item)?)?;
    Ok(Answer {
        signals,
        reply: Reply::Ok(Seq::new(alloc)),
    })
}

/// The signal that an entry was added to an ipset, or removed from it.
pub fn entry_signal(
    alloc: Global,
    kind: SignalKind,
    name: &str,
    item: &Item,
) -> Result<Signal, Memory>
    ensures { IfOk result (λ signal. signal ≡ entry_signal kind name.now item.now) }
{
    let mut values = Seq::new(alloc);
    values.push(Value::Text(Text::of(alloc, name)?))?;
    values.push(Value::Text(item_text(alloc, item)?))?;
    Ok(Signal { kind, values })
}
