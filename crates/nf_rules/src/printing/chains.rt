//! The printed form of rules and chains.
ghost use Rattle.std.specs.Prelude.{◌≡◌, ◌++◌, map, codes, OnOk, string_bytes};
ghost use Rattle.std.specs.List.{flat_map};
ghost use Rattle.nf_rules.specs.Matches.{match_text};
ghost use Rattle.nf_rules.specs.Printed.{base_lines, hook_word, kind_word, separated};
ghost use Rattle.nf_rules.specs.Statements.{statement_text};

use super::matches::push_match;
use super::part::{Part, push_all, push_others, push_separated};
use super::statements::push_statement;
use crate::{Base, Chain, ChainKind, Hook, Match, Rule, Stmt};
use fw_base::Memory;

impl Part for Match {
    ghost use Rattle.nf_rules.specs.Matches.{match_text};

    ghost text = { match_text };

    fn push(&self, out: &mut String) -> Result<(), Memory> {
        push_match(out, self)
    }
}

impl Part for Stmt {
    ghost use Rattle.nf_rules.specs.Statements.{statement_text};

    ghost text = { statement_text };

    fn push(&self, out: &mut String) -> Result<(), Memory> {
        push_statement(out, self)
    }
}

impl Part for Rule {
    ghost use Rattle.nf_rules.specs.Printed.{rule_line};

    ghost text = { rule_line };

    fn push(&self, out: &mut String) -> Result<(), Memory> {
        out.push_str("\t\t")?;
        push_words(out, self.matches.as_slice(), self.stmts.as_slice())?;
        out.push('\n')?;
        Ok(())
    }
}

impl Part for Chain {
    ghost use Rattle.nf_rules.specs.Printed.{chain_text};

    ghost text = { chain_text };

    fn push(&self, out: &mut String) -> Result<(), Memory> {
        write!(out, "\tchain {} {{\n", self.name)?;
        push_base(out, &self.base)?;
        push_all(out, self.rules.as_slice())?;
        out.push_str("\t}\n")?;
        Ok(())
    }
}

/// Appends matches and then statements, with one blank between any two.
fn push_words(out: &mut String, matches: &[Match], statements: &[Stmt]) -> Result<(), Memory>
    ensures { OnOk result (string_bytes out.new ≡ string_bytes out.old
        ++ separated (codes " ") (map match_text matches.now ++ map statement_text statements.now)) }
{
    match matches.split_first() {
        Some((first, others)) => push_words_from(out, first, others, statements),
        None => push_statements(out, statements),
    }
}

fn push_words_from(
    out: &mut String,
    first: &Match,
    others: &[Match],
    statements: &[Stmt],
) -> Result<(), Memory>
    ensures { OnOk result (string_bytes out.new ≡ string_bytes out.old
        ++ ((match_text first.now ++ flat_map (λ part. codes " " ++ match_text part) others.now)
        ++ flat_map (λ part. codes " " ++ statement_text part) statements.now)) }
{
    push_separated(out, " ", first, others)?;
    push_others(out, " ", statements)
}

fn push_statements(out: &mut String, statements: &[Stmt]) -> Result<(), Memory>
    ensures { OnOk result (string_bytes out.new
        ≡ string_bytes out.old ++ separated (codes " ") (map statement_text statements.now)) }
{
    match statements.split_first() {
        Some((first, others)) => push_separated(out, " ", first, others),
        None => Ok(()),
    }
}

fn push_base(out: &mut String, base: &Option<Base>) -> Result<(), Memory>
    ensures { OnOk result (string_bytes out.new ≡ string_bytes out.old ++ base_lines base.now) }
{
    let Some(base) = base else {
        return Ok(());
    };
    let Base {
        kind,
        hook,
        priority,
    } = *base;
    write!(out, "\t\ttype {} hook {}", kind_word(kind), hook_word(hook))?;
    write!(out, " priority {priority}; policy accept;\n")?;
    Ok(())
}

fn kind_word(kind: ChainKind) -> &'static str
    ensures { result.now ≡ kind_word kind }
{
    match kind {
        ChainKind::Filter => "filter",
        ChainKind::Nat => "nat",
    }
}

fn hook_word(hook: Hook) -> &'static str
    ensures { result.now ≡ hook_word hook }
{
    match hook {
        Hook::Prerouting => "prerouting",
        Hook::Input => "input",
        Hook::Forward => "forward",
        Hook::Output => "output",
        Hook::Postrouting => "postrouting",
    }
}
