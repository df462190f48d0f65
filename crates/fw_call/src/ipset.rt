//! Reading the arguments of calls on ipsets.
ghost use Rattle.std.specs.Prelude.{◌≡◌, IfOk};
ghost use Rattle.fw_call.specs.Ipsets.{entries_call, entry_call, has_ipset_call, set_entries_request, with_entries};
ghost use Rattle.fw_json.specs.Texts.{json_texts};
ghost use Rattle.fw_words.specs.Reading.{Says};

use super::{Call, EntriesCall, IpsetCall, Request, Verb};
use fw_base::{Memory, Text};
use fw_json::read_texts;
use fw_words::{LineError, Words};
use std::alloc::Global;

pub fn read_has_ipset_call(alloc: Global, words: &mut Words) -> Result<IpsetCall, LineError>
    ensures { Says result (has_ipset_call words.old) }
{
    let ipset = words.next()?;
    words.end()?;
    let ipset = Text::of(alloc, ipset)?;
    Ok(IpsetCall::HasIpset { ipset })
}

pub fn read_entry_call(alloc: Global, verb: Verb, words: &mut Words) -> Result<IpsetCall, LineError>
    ensures { Says result (entry_call verb words.old) }
{
    let ipset = words.next()?;
    let entry = words.next()?;
    words.end()?;
    let ipset = Text::of(alloc, ipset)?;
    let entry = Text::of(alloc, entry)?;
    Ok(IpsetCall::OnEntries {
        ipset,
        call: EntriesCall::One { verb, entry },
    })
}

pub fn read_entries_call(alloc: Global, words: &mut Words) -> Result<IpsetCall, LineError>
    ensures { Says result (entries_call words.old) }
{
    let ipset = words.next()?;
    words.end()?;
    let ipset = Text::of(alloc, ipset)?;
    Ok(IpsetCall::OnEntries {
        ipset,
        call: EntriesCall::List,
    })
}

/// The call that replaces the entries of an ipset, where its JSON says a list of texts.
#[tactic(auto, unfolding(crate::specs::Ipsets::set_entries_request))]
pub fn read_set_entries_request(alloc: Global, words: &mut Words) -> Result<Request, LineError>
    ensures { Says result (set_entries_request words.old) }
{
    let ipset = words.next()?;
    let json = words.next()?;
    words.end()?;
    Ok(with_entries(alloc, ipset, json)?)
}

fn with_entries(alloc: Global, ipset: &str, json: &str) -> Result<Request, Memory>
    ensures { IfOk result (λ request. request ≡ with_entries ipset.now (json_texts json.now)) }
{
    match read_texts(alloc, json)? {
        Some(entries) => Ok(Request::Call(Call::Ipset(IpsetCall::OnEntries {
            ipset: Text::of(alloc, ipset)?,
            call: EntriesCall::Replace { entries },
        }))),
        None => Ok(Request::Unfit {
            signature: Text::of(alloc, "sas")?,
        }),
    }
}
