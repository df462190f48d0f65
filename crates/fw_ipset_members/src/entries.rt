//! Calls on one entry of an ipset.
ghost use Rattle.std.specs.Prelude.{◌≡◌, [], ◌∷◌, false, IfOk, OnErr};
ghost use Rattle.fw_act.specs.Acts.{Acts, Makes, refused_as};
ghost use Rattle.fw_calls.specs.declared.reply.Reply.TheVariants as reply;
ghost use Rattle.fw_ipset_members.specs.Entries.{entry_answered, entry_call, entry_signal};
ghost use Rattle.fw_ipset_members.specs.Items.{added, item_text, removed};

use super::edits::{add_to, holds, remove_from};
use super::items::{item_text, read_entry};
use super::told::answer_after;
use fw_act::{Answer, EditError, Stop, refuse, replied, told};
use fw_base::{Memory, Seq, Text};
use fw_calls::{Arg, Reply, Signal, SignalKind, Verb};
use fw_model::{IpSet, Item};
use std::alloc::Global;

/// A call that adds, removes or asks for an entry.
pub fn entry_call(alloc: Global, set: &mut IpSet, verb: Verb, text: &str) -> Result<Answer, Stop>
    ensures acts { Acts set.new result (entry_call verb text.now set.old) }
    ensures err { OnErr result (set.new ≡ set.old) }
{
    let item = read_entry(alloc, set, text)?;
    match verb {
        Verb::Add => add_entry(alloc, set, item),
        Verb::Remove => remove_entry(alloc, set, item),
        Verb::Query => Ok(query_entry(alloc, set, &item)),
    }
}

fn add_entry(alloc: Global, set: &mut IpSet, item: Item) -> Result<Answer, Stop>
    requires { set.old.timeout ≡ false }
    ensures acts { Acts set.new result (entry_answered set.old Verb.Add item) }
    ensures err { OnErr result (set.new ≡ set.old) }
{
    let answer = entry_told(alloc, SignalKind::IpsetEntryAdded, set, &item)?;
    let added = add_or_refuse(alloc, set, item);
    answer_after(added, answer)
}

fn remove_entry(alloc: Global, set: &mut IpSet, item: Item) -> Result<Answer, Stop>
    requires { set.old.timeout ≡ false }
    ensures acts { Acts set.new result (entry_answered set.old Verb.Remove item) }
    ensures err { OnErr result (set.new ≡ set.old) }
{
    let answer = entry_told(alloc, SignalKind::IpsetEntryRemoved, set, &item)?;
    let removed = remove_or_refuse(alloc, set, item);
    answer_after(removed, answer)
}

/// Adds an item. A refusal names its canonical text.
fn add_or_refuse(alloc: Global, set: &mut IpSet, item: Item) -> Result<(), Stop>
    requires { set.old.timeout ≡ false }
    ensures makes { Makes set.new result (refused_as (item_text item) (added set.old item)) }
    ensures err { OnErr result (set.new ≡ set.old) }
{
    let text = item_text(alloc, &item)?;
    match add_to(set, item) {
        Ok(()) => Ok(()),
        Err(EditError::Refused(code)) => { Err(Stop::Refused(refuse(alloc, code, text.as_str())?)) }
        Err(EditError::Memory) => Err(Stop::Memory),
    }
}

/// Takes an item out. A refusal names its canonical text.
fn remove_or_refuse(alloc: Global, set: &mut IpSet, item: Item) -> Result<(), Stop>
    requires { set.old.timeout ≡ false }
    ensures makes { Makes set.new result (refused_as (item_text item) (removed set.old item)) }
    ensures err { OnErr result (set.new ≡ set.old) }
{
    match remove_from(set, &item) {
        Ok(()) => Ok(()),
        Err(EditError::Refused(code)) => {
            let text = item_text(alloc, &item)?;
            Err(Stop::Refused(refuse(alloc, code, text.as_str())?))
        }
        Err(EditError::Memory) => Err(Stop::Memory),
    }
}

/// Whether an ipset has an entry.
pub fn query_entry(alloc: Global, set: &IpSet, item: &Item) -> Answer
    ensures { Ok (record { signals = result.signals; reply = result.reply; after = set.now }) ≡ entry_answered set.now Verb.Query item.now }
{
    let is_there = holds(set, item);
    replied(alloc, Reply::Bool(is_there))
}

/// A signal with an ipset's name and an entry, and a reply without a value.
fn entry_told(alloc: Global, kind: SignalKind, set: &IpSet, item: &Item) -> Result<Answer, Memory>
    ensures { IfOk result (λ answer. answer ≡ record { signals = entry_signal kind set.now.name item.now ∷ []; reply = reply.None }) }
{
    let signal = entry_signal(alloc, kind, set.name.as_str(), item)?;
    told(alloc, signal, Reply::None)
}

/// The signal that an entry was added to an ipset, or removed from it.
pub fn entry_signal(
    alloc: Global,
    kind: SignalKind,
    name: &str,
    item: &Item,
) -> Result<Signal, Memory>
    ensures { IfOk result (λ signal. signal ≡ entry_signal kind name.now item.now) }
{
    let mut args = Seq::new(alloc);
    args.push(Arg::Text(Text::of(alloc, name)?))?;
    args.push(Arg::Text(item_text(alloc, item)?))?;
    Ok(Signal { kind, args })
}
