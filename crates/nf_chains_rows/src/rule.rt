//! Rules by words.
use fw_addr::{
    Dnat, Level, LogKind, LogLine, PortProto, Proto, RejectType, TCP, read_addr, read_iface,
    read_net, read_ports,
};
use fw_base::{Memory, Seq, Text};
use nf_rules::{Match, Rule, Stmt, Test};
use std::alloc::Global;

/// The rule of some words: matches such as `tcp`, `in=eth0`, `out!=eth0`, `dst=10.0.0.0/8` and `port=80`, and statements such as `accept`,
/// `jump=zone`, `log=text`, `mark=VALUE/MASK` and `dnat=ADDRESS/PORT`, where either may be left out.
pub fn rule_of(alloc: Global, words: &str) -> Result<Rule, Memory> {
    let mut rule = Rule {
        matches: Seq::new(alloc),
        stmts: Seq::new(alloc),
    };
    for word in words.split_whitespace() {
        if let Some(tested) = match_of(alloc, word)? {
            rule.matches.push(tested)?;
        }
        if let Some(statement) = statement_of(alloc, word)? {
            rule.stmts.push(statement)?;
        }
    }
    Ok(rule)
}

fn match_of(alloc: Global, word: &str) -> Result<Option<Match>, Memory> {
    if word == "translated" {
        return Ok(Some(Match {
            not: false,
            test: Test::Dnat,
        }));
    }
    if let Some(text) = word.strip_prefix("dst=") {
        return Ok(goes_to(text));
    }
    if let Some(text) = word.strip_prefix("port=") {
        return Ok(goes_to_port(text));
    }
    if word == "tcp" {
        let test = Test::Proto(Proto(TCP));
        return Ok(Some(Match { not: false, test }));
    }
    if let Some(name) = word.strip_prefix("in=") {
        return Ok(came_by(name));
    }
    if let Some(name) = word.strip_prefix("out=") {
        return Ok(leaves_by(false, name));
    }
    if let Some(name) = word.strip_prefix("out!=") {
        return Ok(leaves_by(true, name));
    }
    if let Some(name) = word.strip_prefix("set=") {
        let test = Test::SrcSet(Text::of(alloc, name)?);
        return Ok(Some(Match { not: false, test }));
    }
    Ok(None)
}

fn goes_to(text: &str) -> Option<Match> {
    match read_net(text) {
        Ok(net) => Some(Match {
            not: false,
            test: Test::Dst(net),
        }),
        Err(_) => None,
    }
}

fn goes_to_port(text: &str) -> Option<Match> {
    match read_ports(text) {
        Ok(range) => Some(Match {
            not: false,
            test: Test::Dport(PortProto::Tcp, range),
        }),
        Err(_) => None,
    }
}

fn came_by(name: &str) -> Option<Match> {
    match read_iface(name) {
        Ok(entry) => Some(Match {
            not: false,
            test: Test::In(entry),
        }),
        Err(_) => None,
    }
}

fn leaves_by(not: bool, name: &str) -> Option<Match> {
    match read_iface(name) {
        Ok(entry) => Some(Match {
            not,
            test: Test::Out(entry),
        }),
        Err(_) => None,
    }
}

fn statement_of(alloc: Global, word: &str) -> Result<Option<Stmt>, Memory> {
    match word.split_once('=') {
        Some((kind, name)) => named_statement(alloc, kind, name),
        None => Ok(plain_statement(word)),
    }
}

fn plain_statement(word: &str) -> Option<Stmt> {
    match word {
        "accept" => Some(Stmt::Accept),
        "drop" => Some(Stmt::Drop),
        "reject" => Some(Stmt::Reject(RejectType::IcmpxAdminProhibited)),
        "reset" => Some(Stmt::Reject(RejectType::TcpReset)),
        "return" => Some(Stmt::Return),
        "masquerade" => Some(Stmt::Masquerade),
        _ => None,
    }
}

fn named_statement(alloc: Global, kind: &str, name: &str) -> Result<Option<Stmt>, Memory> {
    let text = Text::of(alloc, name)?;
    match kind {
        "jump" => Ok(Some(Stmt::Jump(text))),
        "goto" => Ok(Some(Stmt::Goto(text))),
        "iif" => Ok(Some(Stmt::VmapIn(text))),
        "oif" => Ok(Some(Stmt::VmapOut(text))),
        "saddr" => Ok(Some(Stmt::VmapSrc(text))),
        "daddr" => Ok(Some(Stmt::VmapDst(text))),
        "mark" => Ok(Some(mark_of(name))),
        "dnat" => Ok(Some(Stmt::DnatTo(dnat_of(name)))),
        "log" => Ok(Some(Stmt::Log(LogLine {
            kind: LogKind::Rich,
            level: Level::Info,
            prefix: text,
        }))),
        _ => Ok(None),
    }
}

/// A value and a mask; 0 for what is no number.
fn mark_of(words: &str) -> Stmt {
    let (value, mask) = words.split_once('/').unwrap_or((words, ""));
    Stmt::Mark(
        value.parse::<u32>().unwrap_or(0),
        mask.parse::<u32>().unwrap_or(0),
    )
}

/// An address and a port, as far as they are there.
fn dnat_of(words: &str) -> Dnat {
    let (addr, port) = words.split_once('/').unwrap_or((words, ""));
    Dnat {
        addr: read_addr(addr).ok(),
        port: port.parse::<u16>().ok(),
    }
}
