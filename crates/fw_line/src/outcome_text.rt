//! The lines that tell what becomes of a packet.
ghost use Rattle.std.specs.Prelude.{◌≡◌, ◌++◌, IfOk, OnOk, string_bytes};
ghost use Rattle.fw_line.specs.OutcomeText.{dnat_text, log_line, outcome_line, outcome_text, verdict_text, yes_or_no};

use fw_base::{Memory, Text};
use fw_model::{Dnat, LogLine, Outcome, Verdict};
use fw_quote::push_quoted;
use std::alloc::Global;

/// The line of an outcome, and a line for each of its log lines.
///
/// Refuses for want of memory alone.
pub fn print_outcome(alloc: Global, outcome: &Outcome) -> Result<Text, Memory>
    ensures { IfOk result (λ text. text ≡ outcome_text outcome.now) }
{
    let mut text = String::new(alloc);
    push_outcome(&mut text, outcome)?;
    Ok(Text::from_string(text))
}

/// Appends what `print_outcome` gives.
///
/// Refuses for want of memory alone.
pub fn push_outcome(out: &mut String, outcome: &Outcome) -> Result<(), Memory>
    ensures { OnOk result (string_bytes out.new ≡ string_bytes out.old ++ outcome_text outcome.now) }
{
    push_outcome_line(out, outcome)?;
    for line in outcome.logs.as_slice() {
        push_log_line(out, line)?;
    }
    Ok(())
}

#[tactic(auto, unfolding(crate::specs::OutcomeText::outcome_line))]
fn push_outcome_line(out: &mut String, outcome: &Outcome) -> Result<(), Memory>
    ensures { OnOk result (string_bytes out.new ≡ string_bytes out.old ++ outcome_line outcome.now) }
{
    out.push_str("outcome ")?;
    push_verdict(out, outcome.verdict)?;
    let mark = outcome.mark;
    write!(out, " mark={mark} dnat=")?;
    push_dnat(out, &outcome.dnat)?;
    out.push_str(" masq=")?;
    out.push_str(yes_or_no(outcome.masquerade))?;
    out.push('\n')?;
    Ok(())
}

fn push_verdict(out: &mut String, verdict: Verdict) -> Result<(), Memory>
    ensures { OnOk result (string_bytes out.new ≡ string_bytes out.old ++ verdict_text verdict) }
{
    match verdict {
        Verdict::Accept => out.push_str("accept")?,
        Verdict::Drop => out.push_str("drop")?,
        Verdict::Reject(kind) => write!(out, "reject {kind}")?,
    }
    Ok(())
}

/// Appends where a packet's destination is translated to.
fn push_dnat(out: &mut String, dnat: &Option<Dnat>) -> Result<(), Memory>
    ensures { OnOk result (string_bytes out.new ≡ string_bytes out.old ++ dnat_text dnat.now) }
{
    match dnat {
        None => out.push_str("none")?,
        Some(target) => write!(out, "{target}")?,
    }
    Ok(())
}

fn yes_or_no(answer: bool) -> &'static str
    ensures { result.now ≡ yes_or_no answer }
{
    if answer { "yes" } else { "no" }
}

#[tactic(auto, unfolding(crate::specs::OutcomeText::log_line))]
fn push_log_line(out: &mut String, line: &LogLine) -> Result<(), Memory>
    ensures { OnOk result (string_bytes out.new ≡ string_bytes out.old ++ log_line line.now) }
{
    write!(out, "log {} {} ", line.kind, line.level)?;
    push_quoted(out, line.prefix.as_str())?;
    out.push('\n')?;
    Ok(())
}
