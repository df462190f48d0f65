//! What a call on ipsets answers.
ghost use Rattle.std.specs.Prelude.{◌≡◌, IfOk, OnErr};
ghost use Rattle.fw_answer.specs.Refusals.{Answers};
ghost use Rattle.fw_ipset_calls.specs.Calls.{answered, call_answered, in_set};
ghost use Rattle.fw_ipset_calls.specs.Entries.{entries_call};

use super::entries::entries_call;
use super::find::{find_set, has_set};
use super::texts::set_names;
use fw_answer::{Answer, Refusal, Stop, value_answer};
use fw_base::{Memory, Seq};
use fw_call::{EntriesCall, IpsetCall};
use fw_model::Config;
use fw_told::{Reply, Value};
use std::alloc::Global;

/// What a call on ipsets answers; it changes the configuration as the call says (firewalld.dbus(5)).
///
/// A call that is refused changes nothing, and its reply names the reason and what is refused. The call itself refuses
/// for want of memory alone; the configuration is then as before.
pub fn answer_call(alloc: Global, config: &mut Config, call: &IpsetCall) -> Result<Answer, Memory>
    ensures answered { IfOk result (λ answer. answered config.old call.now ≡ record { signals = answer.signals; reply = answer.reply; after = config.new }) }
    ensures memory { OnErr result (config.new ≡ config.old) }
{
    match answer_or_refusal(alloc, config, call) {
        Ok(answer) => Ok(answer),
        Err(Stop::Refused(Refusal { code, subject })) => Ok(Answer {
            signals: Seq::new(alloc),
            reply: Reply::Refused { code, subject },
        }),
        Err(Stop::Memory) => Err(Memory),
    }
}

#[tactic(auto, unfolding(crate::specs::Calls::call_answered))]
fn answer_or_refusal(alloc: Global, config: &mut Config, call: &IpsetCall) -> Result<Answer, Stop>
    ensures { Answers config.old config.new result (call_answered config.old call.now) }
{
    match call {
        IpsetCall::Ipsets => {
            let names = set_names(alloc, config.ipsets.as_slice())?;
            Ok(value_answer(alloc, Value::Texts(names))?)
        }
        IpsetCall::HasIpset { ipset } => {
            let is_there = has_set(config.ipsets.as_slice(), ipset.as_str());
            Ok(value_answer(alloc, Value::Bool(is_there))?)
        }
        IpsetCall::OnEntries { ipset, call } => entries_in(alloc, config, ipset.as_str(), call),
    }
}

fn entries_in(
    alloc: Global,
    config: &mut Config,
    name: &str,
    call: &EntriesCall,
) -> Result<Answer, Stop>
    ensures { Answers config.old config.new result (in_set config.old name.now (λ set. entries_call set call.now)) }
{
    let found = find_set(alloc, config, name)?;
    let place = found.place;
    entries_call(alloc, config.ipsets.get_mut(place), call)
}
