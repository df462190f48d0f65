//! What is done with packets that are forwarded.
ghost use Rattle.std.specs.Prelude.{◌≡◌, ◌++◌, IfOk, OnOk};
ghost use Rattle.lower_hooks.specs.Listed.{forward_rules, within_rules};

use crate::policies::push_policies;
use crate::rules::push_always;
use crate::target::push_target;
use fw_base::{Memory, Seq};
use fw_model::{Config, Verdict, Zone};
use fw_verdict::{End, Stage, stays_within};
use nf_rules::Rule;
use std::alloc::Global;

/// Appends what accepts the packets that may stay within a zone.
fn push_within(alloc: Global, from: &Zone, to: &Zone, rules: &mut Seq<Rule>) -> Result<(), Memory>
    ensures { OnOk result (rules.new ≡ rules.old ++ within_rules from.now to.now) }
{
    if stays_within(Some(from), Some(to)) {
        push_always(alloc, Verdict::Accept, rules)
    } else {
        Ok(())
    }
}

/// The rules for the packets that are forwarded from a zone to a zone: policies, what may stay within the zone, policies, and the target
/// of the zone that they come from.
pub fn forward_rules(
    alloc: Global,
    config: &Config,
    from: &Zone,
    to: &Zone,
) -> Result<Seq<Rule>, Memory>
    ensures { IfOk result (λ rules. rules ≡ forward_rules config.now from.now to.now) }
{
    let one = End::Zone(Some(from));
    let other = End::Zone(Some(to));
    let mut rules = Seq::new(alloc);
    push_policies(alloc, config, Stage::BeforeZone, one, other, &mut rules)?;
    push_within(alloc, from, to, &mut rules)?;
    push_policies(alloc, config, Stage::BehindZone, one, other, &mut rules)?;
    push_target(alloc, config, "filter_FWD_", from, &mut rules)?;
    Ok(rules)
}
