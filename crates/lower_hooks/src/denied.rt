//! Lines of denied packets (firewalld.conf(5), `LogDenied`), each a rule before what denies them.
ghost use Rattle.std.specs.Prelude.{◌≡◌, ◌++◌, [], ◌∷◌, OnOk};
ghost use Rattle.fw_verdict.specs.Denied.{denial};
ghost use Rattle.lower_hooks.specs.Rules.{addressed, denial_rules};
ghost use Rattle.lower_zone.specs.Forms.{each};
ghost use Rattle.nf_rules.specs.declared.statement.Stmt.TheVariants as stmt;

use fw_addr::{Level, LogKind, LogLine, PktType};
use fw_base::{Memory, Seq, Text};
use fw_model::LogDenied;
use lower_zone::one;
use nf_rules::{Match, Rule, Stmt, Test};
use std::alloc::Global;

/// The statement that logs a line of a denied packet.
fn line(prefix: Text) -> Stmt
    ensures { result ≡ stmt.Log (denial prefix) }
{
    Stmt::Log(LogLine {
        kind: LogKind::Deny,
        level: Level::Warning,
        prefix,
    })
}

/// Appends a rule that logs a line of the packets of these matches.
fn push_line(
    alloc: Global,
    asked: Seq<Match>,
    prefix: Text,
    rules: &mut Seq<Rule>,
) -> Result<(), Memory>
    ensures { OnOk result (rules.new ≡ rules.old ++ each (stmt.Log (denial prefix) ∷ []) (asked ∷ [])) }
{
    rules.push(Rule {
        matches: asked,
        stmts: one(alloc, line(prefix))?,
    })
}

/// Appends one for those of them that the link layer addressed so (nft(8), META EXPRESSIONS, `pkttype`).
fn push_addressed(
    alloc: Global,
    asked: Seq<Match>,
    kind: PktType,
    prefix: Text,
    rules: &mut Seq<Rule>,
) -> Result<(), Memory>
    ensures { OnOk result (rules.new ≡ rules.old ++ each (stmt.Log (denial prefix) ∷ []) (addressed asked kind)) }
{
    let mut asked = asked;
    asked.push(Match {
        not: false,
        test: Test::Pkt(kind),
    })?;
    push_line(alloc, asked, prefix, rules)
}

/// Appends the line before a denial of the packets of these matches, where such packets are told of.
pub fn push_denial(
    alloc: Global,
    told: LogDenied,
    asked: Seq<Match>,
    prefix: Text,
    rules: &mut Seq<Rule>,
) -> Result<(), Memory>
    ensures { OnOk result (rules.new ≡ rules.old ++ denial_rules asked told prefix) }
{
    match told {
        LogDenied::Off => Ok(()),
        LogDenied::All => push_line(alloc, asked, prefix, rules),
        LogDenied::Unicast => push_addressed(alloc, asked, PktType::Unicast, prefix, rules),
        LogDenied::Broadcast => push_addressed(alloc, asked, PktType::Broadcast, prefix, rules),
        LogDenied::Multicast => push_addressed(alloc, asked, PktType::Multicast, prefix, rules),
    }
}
