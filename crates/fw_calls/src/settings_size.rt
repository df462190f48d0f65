//! Sizes of the settings of zones and policies, which signals carry.
ghost use Rattle.std.specs.Prelude.{◌≡◌};
ghost use Rattle.fw_calls.specs.Weight.{capped, notes_size, rules_size};

use super::size::{Measure, sum, times};
use fw_model::{Notes, Policy, Rules, Zone};

/// What settings weigh besides what they hold.
const SETTINGS: u64 = 256;

/// What an element of a list of settings weighs.
const ELEMENT: u64 = 64;

/// What a rich rule weighs.
const RICH_RULE: u64 = ELEMENT + 512;

#[tactic(auto, using(crate::proofs::Capped::capped_sum))]
fn notes_size(notes: &Notes) -> u64
    ensures { result ≡ capped (notes_size notes.now) }
{
    sum(
        sum(notes.version.size(), notes.short.size()),
        notes.description.size(),
    )
}

#[tactic(auto, using(crate::proofs::Capped::capped_sum))]
fn rules_size(rules: &Rules) -> u64
    ensures { result ≡ capped (rules_size rules.now) }
{
    let services = times(ELEMENT, rules.services.as_slice().len());
    let ports = times(ELEMENT, rules.ports.as_slice().len());
    let protocols = times(ELEMENT, rules.protocols.as_slice().len());
    let source_ports = times(ELEMENT, rules.source_ports.as_slice().len());
    let icmp_blocks = times(ELEMENT, rules.icmp_blocks.as_slice().len());
    let forwards = times(ELEMENT, rules.forwards.as_slice().len());
    let rich = times(RICH_RULE, rules.rich.as_slice().len());
    sum(
        sum(sum(services, ports), sum(protocols, source_ports)),
        sum(sum(icmp_blocks, forwards), rich),
    )
}

impl Measure for Zone {
    ghost use Rattle.fw_calls.specs.Weight.{zone_size};

    ghost size = { zone_size };

    #[tactic(auto, unfolding(crate::specs::Weight::zone_size), using(crate::proofs::Capped::capped_sum, crate::proofs::Capped::capped_behind))]
    fn size(&self) -> u64 {
        let interfaces = times(ELEMENT, self.interfaces.as_slice().len());
        let sources = times(ELEMENT, self.sources.as_slice().len());
        sum(
            sum(SETTINGS, notes_size(&self.notes)),
            sum(rules_size(&self.rules), sum(interfaces, sources)),
        )
    }
}

impl Measure for Policy {
    ghost use Rattle.fw_calls.specs.Weight.{policy_size};

    ghost size = { policy_size };

    #[tactic(auto, unfolding(crate::specs::Weight::policy_size), using(crate::proofs::Capped::capped_sum, crate::proofs::Capped::capped_behind))]
    fn size(&self) -> u64 {
        let ingress = times(ELEMENT, self.ingress.as_slice().len());
        let egress = times(ELEMENT, self.egress.as_slice().len());
        sum(
            sum(SETTINGS, notes_size(&self.notes)),
            sum(rules_size(&self.rules), sum(ingress, egress)),
        )
    }
}
