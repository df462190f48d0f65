//! Calls, by the words behind a client's number.
ghost use Rattle.std.specs.Prelude.{◌≡◌};
ghost use Rattle.fw_event_line.specs.Calls.{asked_by, call_in, made, numbered, object_number, owner_in_config, owner_of, row_in, row_named};
ghost use Rattle.fw_words.specs.Reading.{Reads, Says};

use super::Asked;
use super::arguments::read_arguments;
use fw_base::Seq;
use fw_calls::{Argument, ConfigMember, Interface, Member, Row, make_call, row_of};
use fw_dicts::Owner;
use fw_text::read_number;
use fw_words::{LineError, Words, after_key};
use std::alloc::Global;

/// What a member's name and its arguments ask for.
///
/// BadLine is answered for a name that no member has, for too few or too many words, and for a bad number.
#[tactic(auto, unfolding(crate::specs::Calls::call_in))]
pub fn read_call(alloc: Global, words: &mut Words) -> Result<Asked, LineError>
    ensures { Says result (call_in words.old) }
{
    let name = words.next()?;
    let row = row_named(name).ok_or(LineError::BadLine)?;
    asked_by(alloc, row, words)
}

#[tactic(auto, unfolding(crate::specs::Calls::asked_by))]
fn asked_by(alloc: Global, row: Row, words: &mut Words) -> Result<Asked, LineError>
    ensures { Says result (asked_by row words.old) }
{
    let front = numbered(alloc, row.member, words)?;
    let letters = row.arguments.as_str().as_bytes();
    let arguments = read_arguments(alloc, owner_of(row.member), letters, words, front)?;
    made(row, arguments)
}

/// The call that arguments make, or that they aren't of the member's types.
fn made(row: Row, arguments: Option<Seq<Argument>>) -> Result<Asked, LineError>
    ensures { Says result (made row arguments) }
{
    let Some(arguments) = arguments else {
        return Ok(Asked::Unfit(row.arguments));
    };
    match make_call(row.member, arguments) {
        Some(call) => Ok(Asked::Call(call)),
        None => Err(LineError::BadLine),
    }
}

/// The row of a member whose name has its interface's in front.
#[tactic(auto, unfolding(crate::specs::Calls::row_named))]
fn row_named(name: &str) -> Option<Row>
    ensures { result ≡ row_named name.now }
{
    row_in(Interface::Zone, name)
        .or_else(|| row_in(Interface::Root, name))
        .or_else(|| row_in(Interface::Policy, name))
        .or_else(|| row_in(Interface::Ipset, name))
        .or_else(|| row_in(Interface::Config, name))
        .or_else(|| row_in(Interface::ConfigZone, name))
        .or_else(|| row_in(Interface::ConfigPolicy, name))
}

#[tactic(auto, unfolding(crate::specs::Calls::row_in))]
fn row_in(interface: Interface, name: &str) -> Option<Row>
    ensures { result ≡ row_in interface name.now }
{
    let behind = after_key(interface.script_name(), name)?;
    let member = after_key(".", behind)?;
    row_of(interface, member)
}

/// Whose settings a dict says that a member takes.
#[tactic(auto, unfolding(crate::specs::Calls::owner_of))]
fn owner_of(member: Member) -> Owner
    ensures { result ≡ owner_of member }
{
    match member {
        Member::Policy(_) | Member::ConfigPolicy(_) => Owner::Policy,
        Member::Config(member) => owner_in_config(member),
        Member::Zone(_) | Member::Ipset(_) | Member::Root(_) | Member::ConfigZone(_) => Owner::Zone,
    }
}

fn owner_in_config(member: ConfigMember) -> Owner
    ensures { result ≡ owner_in_config member }
{
    match member {
        ConfigMember::PolicyNames | ConfigMember::PolicyByName | ConfigMember::AddPolicy => {
            Owner::Policy
        }
        ConfigMember::ZoneNames | ConfigMember::ZoneByName | ConfigMember::AddZone => Owner::Zone,
    }
}

/// What comes before the arguments: the number of an object where the member is of one.
#[tactic(auto, unfolding(crate::specs::Calls::numbered))]
fn numbered(alloc: Global, member: Member, words: &mut Words) -> Result<Seq<Argument>, LineError>
    ensures { Reads result words.new (numbered member words.old) }
{
    match member {
        Member::ConfigZone(_) | Member::ConfigPolicy(_) => object_number(alloc, words),
        Member::Zone(_)
        | Member::Policy(_)
        | Member::Ipset(_)
        | Member::Root(_)
        | Member::Config(_) => Ok(Seq::new(alloc)),
    }
}

fn object_number(alloc: Global, words: &mut Words) -> Result<Seq<Argument>, LineError>
    ensures { Reads result words.new (object_number words.old) }
{
    let word = words.next()?;
    let Some(number) = read_number(word.as_bytes(), u64::MAX) else {
        return Err(LineError::BadLine);
    };
    let mut arguments = Seq::new(alloc);
    arguments.push(Argument::Number(number))?;
    Ok(arguments)
}
