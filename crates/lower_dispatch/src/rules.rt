//! Rules that lead to the chain of a zone.
ghost use Rattle.std.specs.Prelude.{◌≡◌, ◌++◌, [], ◌∷◌, IfOk};
ghost use Rattle.lower_dispatch.specs.Forms.{goto_zone};
ghost use Rattle.lower_match.specs.Forms.{is};

use fw_base::{Memory, Seq, Text};
use fw_model::Zone;
use nf_rules::{Match, Rule, Stmt, Test};
use std::alloc::Global;

fn chain_name(alloc: Global, start: &str, zone: &Text) -> Result<Text, Memory>
    ensures { IfOk result (λ name. name ≡ start.now ++ zone.now) }
{
    let string = format!(in alloc; "{start}{zone}")?;
    Ok(Text::from_string(string))
}

/// A rule that goes to the chain of a zone for good.
pub fn goto_zone(
    alloc: Global,
    start: &str,
    zone: &Zone,
    matches: Seq<Match>,
) -> Result<Rule, Memory>
    ensures { IfOk result (λ rule. rule ≡ goto_zone start.now zone.now matches) }
{
    let name = chain_name(alloc, start, &zone.name)?;
    let mut stmts = Seq::new(alloc);
    stmts.push(Stmt::Goto(name))?;
    Ok(Rule { matches, stmts })
}

/// The same where a test holds.
pub fn goto_where(alloc: Global, start: &str, zone: &Zone, test: Test) -> Result<Rule, Memory>
    ensures { IfOk result (λ rule. rule ≡ goto_zone start.now zone.now (is test ∷ [])) }
{
    let mut matches = Seq::new(alloc);
    matches.push(Match { not: false, test })?;
    goto_zone(alloc, start, zone, matches)
}
