//! What rich rules do in the filter.
ghost use Rattle.std.specs.Prelude.{◌≡◌, ◌++◌, ◌&&◌, IfOk, Some};
ghost use Rattle.std.specs.List.{filter, flat_map};
ghost use Rattle.std.specs.Option.{option_copied};
ghost use Rattle.fw_order.specs.Borrowed.{lent};
ghost use Rattle.fw_order.specs.Order.{by_priority};
ghost use Rattle.fw_verdict.specs.Given.{Walks, act_given, audit_given, audit_name, decision_given, lines_given, log_given};
ghost use Rattle.fw_verdict.specs.Rich.{accepts, blocks_icmp, can_answer, denies, is_acceptance, is_denial, is_in_filter, is_mark, is_reset, marks, passes, reject_type, rich_items, rule_items, stands_in, translates};
ghost use Rattle.fw_verdict.specs.Walk.{walk};

use fw_addr::{Level, Limit, LogKind, LogLine, RejectType, TCP};
use fw_base::{Memory, Seq, Text, TryCopy};
use fw_hits::hits_rich;
use fw_limit::is_within;
use fw_model::{Act, Action, Config, Element, Packet, Rich, Rules, Verdict};
use fw_order::by_priority;
use std::alloc::Global;

/// The parts of the settings of a zone or a policy, in the order in which they act (firewalld.richlanguage(5), "Information
/// about logging and actions").
#[derive(Clone, Copy)]
pub enum Part {
    /// Rules of a priority below 0.
    Pre,
    /// The log lines of rules of priority 0.
    Log,
    /// What rules of priority 0 deny.
    Deny,
    /// What rules of priority 0 let in.
    Allow,
    /// Rules of a priority above 0.
    Post,
}

fn is_mark(act: Act) -> bool
    ensures { result ≡ is_mark act }
{
    match act {
        Act::Mark(_, _) => true,
        _ => false,
    }
}

/// Whether an action marks.
pub fn marks(action: &Option<Action>) -> bool
    ensures { result ≡ marks action.now }
{
    match action {
        Some(action) => is_mark(action.act),
        None => false,
    }
}

fn translates(element: &Option<Element>) -> bool
    ensures { result ≡ translates element.now }
{
    match element {
        Some(Element::Masquerade) => true,
        Some(Element::Forward(_)) => true,
        _ => false,
    }
}

fn is_in_filter(rule: &Rich) -> bool
    ensures { result ≡ is_in_filter rule.now }
{
    !marks(&rule.action) && !translates(&rule.element)
}

fn is_denial(act: Act) -> bool
    ensures { result ≡ is_denial act }
{
    match act {
        Act::Reject(_) => true,
        Act::Drop => true,
        _ => false,
    }
}

/// Whether a rule blocks an ICMP type, in place of an action.
pub fn blocks_icmp(element: &Option<Element>) -> bool
    ensures { result ≡ blocks_icmp element.now }
{
    match element {
        Some(Element::IcmpBlock(_)) => true,
        _ => false,
    }
}

fn denies(rule: &Rich) -> bool
    ensures { result ≡ denies rule.now.action rule.now.element }
{
    match &rule.action {
        Some(action) => is_denial(action.act),
        None => blocks_icmp(&rule.element),
    }
}

fn is_acceptance(act: Act) -> bool
    ensures { result ≡ is_acceptance act }
{
    match act {
        Act::Accept => true,
        _ => false,
    }
}

fn accepts(rule: &Rich) -> bool
    ensures { result ≡ accepts rule.now.action }
{
    match &rule.action {
        Some(action) => is_acceptance(action.act),
        None => false,
    }
}

fn stands_in(part: Part, rule: &Rich) -> bool
    ensures { result ≡ stands_in part rule.now }
{
    match part {
        Part::Pre => is_in_filter(rule) && rule.priority < 0,
        Part::Log => is_in_filter(rule) && rule.priority == 0,
        Part::Deny => is_in_filter(rule) && rule.priority == 0 && denies(rule),
        Part::Allow => is_in_filter(rule) && rule.priority == 0 && accepts(rule),
        Part::Post => is_in_filter(rule) && rule.priority > 0,
    }
}

/// The rules of a part, as they are listed.
fn rules_of<'a>(alloc: Global, part: Part, rules: &'a [Rich]) -> Result<Vec<&'a Rich>, Memory>
    ensures { IfOk result (λ found. lent found.items ≡ filter (stands_in part) rules.now) }
{
    let mut found = Vec::new(alloc);
    for rule in rules {
        if stands_in(part, rule) {
            found.push(rule)?;
        }
    }
    Ok(found)
}

/// The rules of a part, by priority, and of one priority as they are listed.
///
/// Refuses for want of memory alone.
pub fn rules_in<'a>(alloc: Global, part: Part, rules: &'a [Rich]) -> Result<Vec<&'a Rich>, Memory>
    ensures { IfOk result (λ ordered. lent ordered.items ≡ by_priority (filter (stands_in part) rules.now)) }
{
    by_priority(rules_of(alloc, part, rules)?)
}

/// Whether a limit is passed; there is none to pass where none is given.
pub fn passes(limit: &Option<Limit>, packet: &Packet) -> bool
    ensures { result ≡ passes limit.now packet.now }
{
    match limit {
        Some(limit) => is_within(limit, packet.limits.as_slice()),
        None => true,
    }
}

/// Logs the line of a rule's `log`, where its limit is passed.
pub fn log(
    alloc: Global,
    rule: &Rich,
    packet: &Packet,
    logs: &mut Seq<LogLine>,
) -> Result<(), Memory>
    ensures { IfOk result (λ _. logs.new ≡ logs.old ++ log_given packet.now rule.now.log) }
{
    let Some(log) = &rule.log else {
        return Ok(());
    };
    if !passes(&log.limit, packet) {
        return Ok(());
    }
    logs.push(LogLine {
        kind: LogKind::Rich,
        level: log.level,
        prefix: log.prefix.copy(alloc)?,
    })
}

/// The name by which `audit` tells of an action. A mark has none.
pub fn audit_name(act: Act) -> Option<&'static str>
    ensures { option_copied result ≡ audit_name act }
{
    match act {
        Act::Accept => Some("accept"),
        Act::Reject(_) => Some("reject"),
        Act::Drop => Some("drop"),
        Act::Mark(_, _) => None,
    }
}

/// Logs the line of a rule's `audit`, where its limit is passed.
fn audit(alloc: Global, rule: &Rich, packet: &Packet, logs: &mut Seq<LogLine>) -> Result<(), Memory>
    ensures { IfOk result (λ _. logs.new ≡ logs.old ++ audit_given packet.now rule.now.audit rule.now.action) }
{
    let Some(limit) = &rule.audit else {
        return Ok(());
    };
    let Some(action) = &rule.action else {
        return Ok(());
    };
    let Some(name) = audit_name(action.act) else {
        return Ok(());
    };
    if !passes(limit, packet) {
        return Ok(());
    }
    logs.push(LogLine {
        kind: LogKind::Audit,
        level: Level::Notice,
        prefix: Text::of(alloc, name)?,
    })
}

fn log_lines(
    alloc: Global,
    rule: &Rich,
    packet: &Packet,
    logs: &mut Seq<LogLine>,
) -> Result<(), Memory>
    ensures { IfOk result (λ _. logs.new ≡ logs.old ++ lines_given packet.now rule.now) }
{
    log(alloc, rule, packet, logs)?;
    audit(alloc, rule, packet, logs)
}

/// The type of a rule's reject. One without a type says that the port can't be reached.
pub fn reject_type(kind: Option<RejectType>) -> RejectType
    ensures { result ≡ reject_type kind }
{
    kind.unwrap_or(RejectType::IcmpxPortUnreachable)
}

fn is_reset(kind: RejectType) -> bool
    ensures { result ≡ is_reset kind }
{
    match kind {
        RejectType::TcpReset => true,
        _ => false,
    }
}

fn can_answer(kind: RejectType, packet: &Packet) -> bool
    ensures { result ≡ can_answer kind packet.now }
{
    !is_reset(kind) || packet.proto.0 == TCP
}

/// What an action decides of a packet that its rule is about.
fn act(action: &Action, packet: &Packet) -> Option<Verdict>
    ensures { result ≡ act_given packet.now action.now.limit action.now.act }
{
    if !passes(&action.limit, packet) {
        return None;
    }
    match action.act {
        Act::Accept => Some(Verdict::Accept),
        Act::Drop => Some(Verdict::Drop),
        Act::Mark(_, _) => None,
        Act::Reject(kind) => {
            let kind = reject_type(kind);
            if can_answer(kind, packet) {
                Some(Verdict::Reject(kind))
            } else {
                None
            }
        }
    }
}

/// What a rule decides of a packet that it is about.
fn decide(rule: &Rich, packet: &Packet) -> Option<Verdict>
    ensures { result ≡ decision_given packet.now rule.now rule.now.action }
{
    match &rule.action {
        Some(action) => act(action, packet),
        None => {
            if blocks_icmp(&rule.element) {
                Some(Verdict::Reject(RejectType::IcmpxAdminProhibited))
            } else {
                None
            }
        }
    }
}

/// Does what a rule does in a part.
fn act_in(
    alloc: Global,
    config: &Config,
    part: Part,
    rule: &Rich,
    packet: &Packet,
    logs: &mut Seq<LogLine>,
) -> Result<Option<Verdict>, Memory>
    ensures { IfOk result (λ decided. Walks (walk (rule_items config.now part rule.now) packet.now) logs.old logs.new decided) }
{
    if !hits_rich(alloc, config, rule, packet)? {
        return Ok(None);
    }
    match part {
        Part::Log => {
            log_lines(alloc, rule, packet, logs)?;
            Ok(None)
        }
        Part::Deny => Ok(decide(rule, packet)),
        Part::Allow => Ok(decide(rule, packet)),
        Part::Pre => {
            log_lines(alloc, rule, packet, logs)?;
            Ok(decide(rule, packet))
        }
        Part::Post => {
            log_lines(alloc, rule, packet, logs)?;
            Ok(decide(rule, packet))
        }
    }
}

fn act_in_turn(
    alloc: Global,
    config: &Config,
    part: Part,
    rules: &[&Rich],
    packet: &Packet,
    logs: &mut Seq<LogLine>,
) -> Result<Option<Verdict>, Memory>
    ensures { IfOk result (λ decided. Walks (walk (flat_map (rule_items config.now part) (lent rules.now)) packet.now) logs.old logs.new decided) }
{
    for rule in rules {
        let decided = act_in(alloc, config, part, rule, packet, logs)?;
        if decided.is_some() {
            return Ok(decided);
        }
    }
    Ok(None)
}

/// Does what the rules of a part do, by priority and then in the order of the list, up to the first that decides. The lines
/// that they log come behind those that are there.
///
/// Refuses for want of memory alone.
pub fn walk_part(
    alloc: Global,
    config: &Config,
    part: Part,
    rules: &Rules,
    packet: &Packet,
    logs: &mut Seq<LogLine>,
) -> Result<Option<Verdict>, Memory>
    ensures { IfOk result (λ decided. Walks (walk (rich_items config.now part rules.now.rich) packet.now) logs.old logs.new decided) }
{
    let ordered = rules_in(alloc, part, rules.rich.as_slice())?;
    act_in_turn(alloc, config, part, ordered.as_slice(), packet, logs)
}
