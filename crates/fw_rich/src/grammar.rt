//! The grammar of rich rules, a function for each production.
ghost use Rattle.fw_rich.specs.Grammar.{act_of, action, action_of, action_words, audit, destination_name, element, element_of, element_words, families, family_pair, forward, forward_pairs, forward_round, head, inversion, limit, log, or_family, or_flag, or_name, ports, rule, side, source_name};
ghost use Rattle.fw_rich.specs.Reading.{Reads, at_end, expect, needed, optional, or_pair, value, word_in};
ghost use Rattle.fw_text.specs.Names.{named};
ghost use Rattle.std.specs.Prelude.{◌≡◌, Ok, codes};

use super::parts::{
    ActParts, ActionParts, ActionWord, AuditParts, ElementParts, ElementWord, ForwardPairs,
    ForwardParts, HeadParts, LogParts, PortParts, RuleParts, SideKey, SideName, SideParts,
};
use super::token::ValueText;
use super::tokens::{Stop, Tokens};
use fw_addr::Family;

/// The parts of a rule.
#[tactic(auto, unfolding(crate::specs::Grammar::rule))]
pub fn rule<'a>(left: &mut Tokens<'a>) -> Result<RuleParts<'a>, Stop>
    ensures { Reads result left.old left.new rule }
{
    word("rule", left)?;
    let head = head(left)?;
    let source = source(left)?;
    let dest = destination(left)?;
    let element = element(left)?;
    let log = optional_log(left)?;
    let audit = optional_audit(left)?;
    let action = action(left)?;
    end(left)?;
    Ok(RuleParts {
        family: head.family,
        priority: head.priority,
        source,
        dest,
        element,
        log,
        audit,
        action,
    })
}

/// Takes a word, which has to come next.
fn word(word: &str, left: &mut Tokens) -> Result<(), Stop>
    ensures { Reads result left.old left.new (expect word.now) }
{
    if left.take_word(word) {
        Ok(())
    } else {
        Err(left.stop())
    }
}

/// No token is left.
fn end(left: &mut Tokens) -> Result<(), Stop>
    ensures { Reads result left.old left.new at_end }
{
    if left.is_empty() {
        Ok(())
    } else {
        Err(left.stop())
    }
}

/// What was found, where something was.
fn needed<'a>(found: Option<ValueText<'a>>, left: &Tokens<'a>) -> Result<ValueText<'a>, Stop>
    ensures { Reads result left.now left.now (needed found.entry) }
{
    found.ok_or(left.stop())
}

/// The value of the pair of a key, which has to come next.
fn value<'a>(key: &str, left: &mut Tokens<'a>) -> Result<ValueText<'a>, Stop>
    ensures { Reads result left.old left.new (value key.now) }
{
    let found = left.take_pair(key);
    needed(found, left)
}

/// The value of the pair of a key, where it wasn't found before and comes next.
fn or_pair<'a>(
    key: &str,
    found: Option<ValueText<'a>>,
    left: &mut Tokens<'a>,
) -> Option<ValueText<'a>>
    ensures { or_pair key.now found.entry left.old ≡ Ok (result, left.new) }
{
    match found {
        Some(value) => Some(value),
        None => left.take_pair(key),
    }
}

fn family_named(name: &str) -> Option<Family>
    ensures { result ≡ named families name.now }
{
    match name {
        "ipv4" => Some(Family::V4),
        "ipv6" => Some(Family::V6),
        _ => None,
    }
}

fn family_pair(left: &mut Tokens) -> Result<Option<Family>, Stop>
    ensures { Reads result left.old left.new family_pair }
{
    let stop = left.stop();
    let Some(value) = left.take_pair("family") else {
        return Ok(None);
    };
    match family_named(value.text) {
        Some(family) => Ok(Some(family)),
        None => Err(stop),
    }
}

fn or_family(early: Option<Family>, left: &mut Tokens) -> Result<Option<Family>, Stop>
    ensures { Reads result left.old left.new (or_family early) }
{
    match early {
        Some(family) => Ok(Some(family)),
        None => family_pair(left),
    }
}

#[tactic(auto, unfolding(crate::specs::Grammar::head))]
fn head<'a>(left: &mut Tokens<'a>) -> Result<HeadParts<'a>, Stop>
    ensures { Reads result left.old left.new head }
{
    let early = family_pair(left)?;
    let priority = left.take_pair("priority");
    let family = or_family(early, left)?;
    Ok(HeadParts { family, priority })
}

/// What a side is named by, where it wasn't found before and this key comes next.
fn or_name<'a>(
    key: &str,
    kind: SideKey,
    found: Option<SideName<'a>>,
    left: &mut Tokens<'a>,
) -> Option<SideName<'a>>
    ensures { or_name key.now kind found.entry left.old ≡ Ok (result, left.new) }
{
    if let Some(name) = found {
        return Some(name);
    }
    let value = left.take_pair(key)?;
    Some(SideName { key: kind, value })
}

fn needed_name<'a>(found: Option<SideName<'a>>, left: &Tokens<'a>) -> Result<SideName<'a>, Stop>
    ensures { Reads result left.now left.now (needed found.entry) }
{
    found.ok_or(left.stop())
}

#[tactic(auto, unfolding(crate::specs::Grammar::source_name))]
fn source_name<'a>(left: &mut Tokens<'a>) -> Result<SideName<'a>, Stop>
    ensures { Reads result left.old left.new source_name }
{
    let address = or_name("address", SideKey::Address, None, left);
    let mac = or_name("mac", SideKey::Mac, address, left);
    let found = or_name("ipset", SideKey::Ipset, mac, left);
    needed_name(found, left)
}

#[tactic(auto, unfolding(crate::specs::Grammar::destination_name))]
fn destination_name<'a>(left: &mut Tokens<'a>) -> Result<SideName<'a>, Stop>
    ensures { Reads result left.old left.new destination_name }
{
    let address = or_name("address", SideKey::Address, None, left);
    let found = or_name("ipset", SideKey::Ipset, address, left);
    needed_name(found, left)
}

/// Whether `not` comes next.
fn inversion(left: &mut Tokens) -> bool
    ensures { inversion left.old ≡ Ok (result, left.new) }
{
    left.take_word("not") || left.take_word("NOT")
}

#[tactic(auto, unfolding(crate::specs::Grammar::side))]
fn source<'a>(left: &mut Tokens<'a>) -> Result<Option<SideParts<'a>>, Stop>
    ensures { Reads result left.old left.new (optional (codes "source") (side source_name)) }
{
    if !left.take_word("source") {
        return Ok(None);
    }
    let not = inversion(left);
    let name = source_name(left)?;
    Ok(Some(SideParts { not, name }))
}

#[tactic(auto, unfolding(crate::specs::Grammar::side))]
fn destination<'a>(left: &mut Tokens<'a>) -> Result<Option<SideParts<'a>>, Stop>
    ensures { Reads result left.old left.new (optional (codes "destination") (side destination_name)) }
{
    if !left.take_word("destination") {
        return Ok(None);
    }
    let not = inversion(left);
    let name = destination_name(left)?;
    Ok(Some(SideParts { not, name }))
}

#[tactic(auto, unfolding(crate::specs::Grammar::ports))]
fn ports<'a>(left: &mut Tokens<'a>) -> Result<PortParts<'a>, Stop>
    ensures { Reads result left.old left.new ports }
{
    let early = left.take_pair("port");
    let protocol = left.take_pair("protocol");
    let port = or_pair("port", early, left);
    let port = needed(port, left)?;
    let protocol = needed(protocol, left)?;
    Ok(PortParts { port, protocol })
}

#[tactic(auto, unfolding(crate::specs::Grammar::forward_round))]
fn forward_round<'a>(found: ForwardPairs<'a>, left: &mut Tokens<'a>) -> ForwardPairs<'a>
    ensures { forward_round found.entry left.old ≡ Ok (result, left.new) }
{
    let port = or_pair("port", found.port, left);
    let protocol = or_pair("protocol", found.protocol, left);
    let to_port = or_pair("to-port", found.to_port, left);
    let to_addr = or_pair("to-addr", found.to_addr, left);
    ForwardPairs {
        port,
        protocol,
        to_port,
        to_addr,
    }
}

#[tactic(auto, unfolding(crate::specs::Grammar::forward_pairs))]
fn forward_pairs<'a>(left: &mut Tokens<'a>) -> ForwardPairs<'a>
    ensures { forward_pairs left.old ≡ Ok (result, left.new) }
{
    let none = ForwardPairs {
        port: None,
        protocol: None,
        to_port: None,
        to_addr: None,
    };
    let first = forward_round(none, left);
    let second = forward_round(first, left);
    let third = forward_round(second, left);
    forward_round(third, left)
}

#[tactic(auto, unfolding(crate::specs::Grammar::forward))]
fn forward<'a>(offset: usize, left: &mut Tokens<'a>) -> Result<ForwardParts<'a>, Stop>
    ensures { Reads result left.old left.new (forward offset) }
{
    let pairs = forward_pairs(left);
    let port = needed(pairs.port, left)?;
    let protocol = needed(pairs.protocol, left)?;
    Ok(ForwardParts {
        offset,
        from: PortParts { port, protocol },
        to_port: pairs.to_port,
        to_addr: pairs.to_addr,
    })
}

fn element_named(name: &str) -> Option<ElementWord>
    ensures { result ≡ named element_words name.now }
{
    match name {
        "service" => Some(ElementWord::Service),
        "port" => Some(ElementWord::Port),
        "protocol" => Some(ElementWord::Protocol),
        "icmp-block" => Some(ElementWord::IcmpBlock),
        "icmp-type" => Some(ElementWord::IcmpType),
        "masquerade" => Some(ElementWord::Masquerade),
        "source-port" => Some(ElementWord::SourcePort),
        "forward-port" => Some(ElementWord::ForwardPort),
        _ => None,
    }
}

/// Takes the word of an element, where one comes next.
fn element_word(left: &mut Tokens) -> Option<ElementWord>
    ensures { (result, left.new) ≡ word_in element_words left.old }
{
    let word = element_named(left.word()?)?;
    left.pop();
    Some(word)
}

#[tactic(auto, unfolding(crate::specs::Grammar::element_of))]
fn element_of<'a>(
    offset: usize,
    word: ElementWord,
    left: &mut Tokens<'a>,
) -> Result<ElementParts<'a>, Stop>
    ensures { Reads result left.old left.new (element_of offset word) }
{
    match word {
        ElementWord::Service => Ok(ElementParts::Service(value("name", left)?)),
        ElementWord::Port => Ok(ElementParts::Port(ports(left)?)),
        ElementWord::Protocol => Ok(ElementParts::Protocol(value("value", left)?)),
        ElementWord::IcmpBlock => Ok(ElementParts::IcmpBlock(value("name", left)?)),
        ElementWord::IcmpType => Ok(ElementParts::IcmpType(value("name", left)?)),
        ElementWord::Masquerade => Ok(ElementParts::Masquerade),
        ElementWord::SourcePort => Ok(ElementParts::SourcePort(ports(left)?)),
        ElementWord::ForwardPort => Ok(ElementParts::Forward(forward(offset, left)?)),
    }
}

#[tactic(auto, unfolding(crate::specs::Grammar::element))]
fn element<'a>(left: &mut Tokens<'a>) -> Result<Option<ElementParts<'a>>, Stop>
    ensures { Reads result left.old left.new element }
{
    let offset = left.offset();
    match element_word(left) {
        Some(word) => Ok(Some(element_of(offset, word, left)?)),
        None => Ok(None),
    }
}

#[tactic(auto, unfolding(crate::specs::Grammar::limit))]
fn limit<'a>(left: &mut Tokens<'a>) -> Result<Option<ValueText<'a>>, Stop>
    ensures { Reads result left.old left.new limit }
{
    if left.take_word("limit") {
        Ok(Some(value("value", left)?))
    } else {
        Ok(None)
    }
}

#[tactic(auto, unfolding(crate::specs::Grammar::log))]
fn log<'a>(left: &mut Tokens<'a>) -> Result<LogParts<'a>, Stop>
    ensures { Reads result left.old left.new log }
{
    let early = left.take_pair("prefix");
    let level = left.take_pair("level");
    let prefix = or_pair("prefix", early, left);
    let limit = limit(left)?;
    Ok(LogParts {
        prefix,
        level,
        limit,
    })
}

fn optional_log<'a>(left: &mut Tokens<'a>) -> Result<Option<LogParts<'a>>, Stop>
    ensures { Reads result left.old left.new (optional (codes "log") log) }
{
    if left.take_word("log") {
        Ok(Some(log(left)?))
    } else {
        Ok(None)
    }
}

#[tactic(auto, unfolding(crate::specs::Grammar::audit))]
fn optional_audit<'a>(left: &mut Tokens<'a>) -> Result<Option<AuditParts<'a>>, Stop>
    ensures { Reads result left.old left.new (optional (codes "audit") audit) }
{
    if left.take_word("audit") {
        let limit = limit(left)?;
        Ok(Some(AuditParts { limit }))
    } else {
        Ok(None)
    }
}

fn action_named(name: &str) -> Option<ActionWord>
    ensures { result ≡ named action_words name.now }
{
    match name {
        "accept" => Some(ActionWord::Accept),
        "reject" => Some(ActionWord::Reject),
        "drop" => Some(ActionWord::Drop),
        "mark" => Some(ActionWord::Mark),
        _ => None,
    }
}

/// Takes the word of an action, where one comes next.
fn action_word(left: &mut Tokens) -> Option<ActionWord>
    ensures { (result, left.new) ≡ word_in action_words left.old }
{
    let word = action_named(left.word()?)?;
    left.pop();
    Some(word)
}

#[tactic(auto, unfolding(crate::specs::Grammar::act_of))]
fn act_of<'a>(word: ActionWord, left: &mut Tokens<'a>) -> Result<ActParts<'a>, Stop>
    ensures { Reads result left.old left.new (act_of word) }
{
    match word {
        ActionWord::Accept => Ok(ActParts::Accept),
        ActionWord::Reject => Ok(ActParts::Reject(left.take_pair("type"))),
        ActionWord::Drop => Ok(ActParts::Drop),
        ActionWord::Mark => Ok(ActParts::Mark(value("set", left)?)),
    }
}

#[tactic(auto, unfolding(crate::specs::Grammar::action_of))]
fn action_of<'a>(word: ActionWord, left: &mut Tokens<'a>) -> Result<ActionParts<'a>, Stop>
    ensures { Reads result left.old left.new (action_of word) }
{
    let act = act_of(word, left)?;
    let limit = limit(left)?;
    Ok(ActionParts { act, limit })
}

#[tactic(auto, unfolding(crate::specs::Grammar::action))]
fn action<'a>(left: &mut Tokens<'a>) -> Result<Option<ActionParts<'a>>, Stop>
    ensures { Reads result left.old left.new action }
{
    match action_word(left) {
        Some(word) => Ok(Some(action_of(word, left)?)),
        None => Ok(None),
    }
}
