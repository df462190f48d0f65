//! What the family, the source and the destination of a rich rule ask.
ghost use Rattle.std.specs.Prelude.{◌≡◌, ◌++◌, IfOk};
ghost use Rattle.std.specs.Option.{option_copied};
ghost use Rattle.lower_match.specs.Lowers.{set_name};
ghost use Rattle.lower_match.specs.RichForms.{Adds, receiver_matches, receiver_test, set_named, sides_ask, source_matches, source_test, turned_test};

use crate::alternatives::is;
use fw_base::{Memory, Seq, Text};
use fw_model::{Binding, IpSet, Rich, SetKind, Side};
use nf_rules::{Match, Test};
use std::alloc::Global;

/// What a rule's family, source and destination ask. None: no packet meets it, as where it asks for a set that isn't known.
///
/// Refuses for want of memory alone.
pub fn sides(alloc: Global, rule: &Rich, ipsets: &[IpSet]) -> Result<Option<Seq<Match>>, Memory>
    ensures { IfOk result (λ asked. asked ≡ sides_ask ipsets.now rule.now) }
{
    let mut front = Seq::new(alloc);
    if let Some(family) = rule.family {
        front.push(is(Test::Family(family)))?;
    }
    if !push_source(alloc, ipsets, &rule.source, &mut front)? {
        return Ok(None);
    }
    if !push_receiver(alloc, ipsets, &rule.dest, &mut front)? {
        return Ok(None);
    }
    Ok(Some(front))
}

fn push_source(
    alloc: Global,
    ipsets: &[IpSet],
    side: &Option<Side>,
    front: &mut Seq<Match>,
) -> Result<bool, Memory>
    ensures { IfOk result (λ meets. Adds (source_matches ipsets.now side.now) front.old front.new meets) }
{
    match side {
        Some(side) => push_turned(side.not, source_test(alloc, ipsets, &side.what)?, front),
        None => Ok(true),
    }
}

fn push_receiver(
    alloc: Global,
    ipsets: &[IpSet],
    side: &Option<Side>,
    front: &mut Seq<Match>,
) -> Result<bool, Memory>
    ensures { IfOk result (λ meets. Adds (receiver_matches ipsets.now side.now) front.old front.new meets) }
{
    match side {
        Some(side) => push_turned(side.not, receiver_test(alloc, ipsets, &side.what)?, front),
        None => Ok(true),
    }
}

/// Appends a test or its opposite. The answer is whether a packet may meet it: what never holds is met turned round alone.
fn push_turned(not: bool, test: Option<Test>, front: &mut Seq<Match>) -> Result<bool, Memory>
    ensures { IfOk result (λ meets. Adds (turned_test not test) front.old front.new meets) }
{
    match test {
        Some(test) => {
            front.push(Match { not, test })?;
            Ok(true)
        }
        None => Ok(not),
    }
}

/// The name under which an ipset stands in a ruleset.
fn set_name(alloc: Global, name: &Text) -> Result<Text, Memory>
    ensures { IfOk result (λ text. text ≡ set_name name.now) }
{
    let string = format!(in alloc; "ipset_{name}")?;
    Ok(Text::from_string(string))
}

/// The first ipset of a name.
fn set_named<'a>(ipsets: &'a [IpSet], name: &Text) -> Option<&'a IpSet>
    ensures { option_copied result ≡ set_named ipsets.now name.now }
{
    ipsets.iter().find(|set| set.name.as_str() == name.as_str())
}

/// The test of a sender: its address, its hardware address or the set of its name behind `ipset_` (firewalld.zone(5), `source`).
/// None: it never holds, as of a set that isn't known.
///
/// Refuses for want of memory alone.
pub fn source_test(
    alloc: Global,
    ipsets: &[IpSet],
    binding: &Binding,
) -> Result<Option<Test>, Memory>
    ensures { IfOk result (λ test. test ≡ source_test ipsets.now binding.now) }
{
    let name = match binding {
        Binding::Net(net) => return Ok(Some(Test::Src(*net))),
        Binding::Mac(mac) => return Ok(Some(Test::SrcMac(*mac))),
        Binding::Set(name) => name,
    };
    let Some(set) = set_named(ipsets, name) else {
        return Ok(None);
    };
    let name = set_name(alloc, name)?;
    Ok(Some(match set.kind {
        SetKind::Ip => Test::SrcSet(name),
        SetKind::Net => Test::SrcSet(name),
        SetKind::Mac => Test::SrcMacSet(name),
    }))
}

/// The test of a receiver, of whom no hardware address is known. None: it never holds.
///
/// Refuses for want of memory alone.
pub fn receiver_test(
    alloc: Global,
    ipsets: &[IpSet],
    binding: &Binding,
) -> Result<Option<Test>, Memory>
    ensures { IfOk result (λ test. test ≡ receiver_test ipsets.now binding.now) }
{
    let name = match binding {
        Binding::Net(net) => return Ok(Some(Test::Dst(*net))),
        Binding::Mac(_) => return Ok(None),
        Binding::Set(name) => name,
    };
    let Some(set) = set_named(ipsets, name) else {
        return Ok(None);
    };
    match set.kind {
        SetKind::Ip => Ok(Some(Test::DstSet(set_name(alloc, name)?))),
        SetKind::Net => Ok(Some(Test::DstSet(set_name(alloc, name)?))),
        SetKind::Mac => Ok(None),
    }
}
