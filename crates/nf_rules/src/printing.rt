//! The printed form of rulesets, as nft(8) lists them.
ghost use Rattle.std.specs.Prelude.{◌≡◌, ◌++◌, IfOk, OnOk, string_bytes};
ghost use Rattle.nf_rules.specs.Printed.{parts_text, ruleset_text};

mod chains;
mod matches;
mod part;
mod sets;
mod statements;

use super::Ruleset;
use fw_base::{Memory, Text};
use part::push_all;
use std::alloc::Global;

/// The ruleset as a text: the table `inet firewalld` with its sets, maps and chains, one rule a line.
///
/// Refuses for want of memory alone.
pub fn print(alloc: Global, rules: &Ruleset) -> Result<Text, Memory>
    ensures { IfOk result (λ text. text ≡ ruleset_text rules.now) }
{
    let mut out = String::new(alloc);
    push_ruleset(&mut out, rules)?;
    Ok(Text::from_string(out))
}

fn push_ruleset(out: &mut String, rules: &Ruleset) -> Result<(), Memory>
    ensures { OnOk result (string_bytes out.new ≡ string_bytes out.old ++ ruleset_text rules.now) }
{
    out.push_str("table inet firewalld {\n")?;
    push_parts(out, rules)?;
    out.push_str("}\n")?;
    Ok(())
}

#[tactic(auto, unfolding(crate::specs::Printed::parts_text))]
fn push_parts(out: &mut String, rules: &Ruleset) -> Result<(), Memory>
    ensures { OnOk result (string_bytes out.new ≡ string_bytes out.old ++ parts_text rules.now) }
{
    push_all(out, rules.sets.as_slice())?;
    push_all(out, rules.maps.as_slice())?;
    push_all(out, rules.chains.as_slice())
}
