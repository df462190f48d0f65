//! A rule for each statement, and one with two of them.
use anyhow::{Result, anyhow};
use fw_addr::{Dnat, Level, LogKind, LogLine, RejectType, read_addr};
use fw_base::{Seq, Text};
use nf_rules::{Chain, Rule, Stmt};
use std::alloc::Global;

pub fn chain(alloc: Global) -> Result<Chain> {
    let mut rules = Seq::new(alloc);
    let count = 20usize;
    for number in 0..count {
        let mut stmts = Seq::new(alloc);
        stmts.push(statement(alloc, number)?)?;
        rules.push(Rule {
            matches: Seq::new(alloc),
            stmts,
        })?;
    }
    let mut stmts = Seq::new(alloc);
    stmts.push(statement(alloc, 7)?)?;
    stmts.push(statement(alloc, 1)?)?;
    rules.push(Rule {
        matches: Seq::new(alloc),
        stmts,
    })?;
    Ok(Chain {
        name: Text::of(alloc, "statements")?,
        base: None,
        rules,
    })
}

fn log_line(alloc: Global, kind: LogKind, level: Level, prefix: &str) -> Result<LogLine> {
    Ok(LogLine {
        kind,
        level,
        prefix: Text::of(alloc, prefix)?,
    })
}

fn statement(alloc: Global, number: usize) -> Result<Stmt> {
    Ok(match number {
        0 => Stmt::Accept,
        1 => Stmt::Drop,
        2 => Stmt::Reject(RejectType::IcmpxAdminProhibited),
        3 => Stmt::Reject(RejectType::TcpReset),
        4 => Stmt::Jump(Text::of(alloc, "filter_IN_public")?),
        5 => Stmt::Goto(Text::of(alloc, "filter_IN_home")?),
        6 => Stmt::Return,
        7 => Stmt::Log(log_line(alloc, LogKind::Deny, Level::Warning, "FINAL_REJECT: ")?),
        8 => Stmt::Log(log_line(alloc, LogKind::Rich, Level::Info, "a \"b\" \\")?),
        9 => Stmt::Log(log_line(alloc, LogKind::Audit, Level::Notice, "drop")?),
        10 => Stmt::Mark(16, 240),
        11 => Stmt::Mark(4294967295, 4294967295),
        12 => Stmt::DnatTo(Dnat {
            addr: Some(read_addr("10.0.0.5")?),
            port: Some(8080),
        }),
        13 => Stmt::DnatTo(Dnat {
            addr: Some(read_addr("2001:db8::5")?),
            port: None,
        }),
        14 => Stmt::DnatTo(Dnat {
            addr: None,
            port: Some(22),
        }),
        15 => Stmt::Masquerade,
        16 => Stmt::VmapIn(Text::of(alloc, "links")?),
        17 => Stmt::VmapOut(Text::of(alloc, "links")?),
        18 => Stmt::VmapSrc(Text::of(alloc, "nets")?),
        _ => Stmt::VmapDst(Text::of(alloc, "nets")?),
    })
}
