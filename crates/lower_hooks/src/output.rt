//! What is done with packets of the host.
ghost use Rattle.std.specs.Prelude.{◌≡◌, IfOk};
ghost use Rattle.lower_hooks.specs.Listed.{output_rules};

use crate::policies::push_policies;
use crate::rules::push_always;
use fw_base::{Memory, Seq};
use fw_model::{Config, Verdict, Zone};
use fw_verdict::{End, Stage};
use nf_rules::Rule;
use std::alloc::Global;

/// The rules for the packets of the host to a zone: policies, and what they decide nothing of is accepted.
pub fn output_rules(alloc: Global, config: &Config, zone: &Zone) -> Result<Seq<Rule>, Memory>
    ensures { IfOk result (λ rules. rules ≡ output_rules config.now zone.now) }
{
    let to = End::Zone(Some(zone));
    let mut rules = Seq::new(alloc);
    push_policies(alloc, config, Stage::BeforeZone, End::Host, to, &mut rules)?;
    push_policies(alloc, config, Stage::BehindZone, End::Host, to, &mut rules)?;
    push_always(alloc, Verdict::Accept, &mut rules)?;
    Ok(rules)
}
