//! Zones, policies, services and ipsets.
ghost use Rattle.std.specs.Prelude.{◌≡◌, ◌↔◌, IsTrue};

use crate::lists::{SameObject, same_items};
use crate::rules::{same_notes, same_rules};
use fw_addr::Net;
use fw_model::{IpSet, Policy, Service, Zone};

impl SameObject for Zone {
    #[tactic(auto, using(crate::proofs::Fields::zone_from_fields))]
    fn is_same(&self, other: &Zone) -> bool {
        self.name == other.name
            && same_notes(&self.notes, &other.notes)
            && self.target == other.target
            && same_rules(&self.rules, &other.rules)
            && self.inversion == other.inversion
            && self.forward == other.forward
            && same_items(self.interfaces.as_slice(), other.interfaces.as_slice())
            && same_items(self.sources.as_slice(), other.sources.as_slice())
    }
}

impl SameObject for Policy {
    #[tactic(auto, using(crate::proofs::Fields::policy_from_fields))]
    fn is_same(&self, other: &Policy) -> bool {
        self.name == other.name
            && same_notes(&self.notes, &other.notes)
            && self.target == other.target
            && self.priority == other.priority
            && same_items(self.ingress.as_slice(), other.ingress.as_slice())
            && same_items(self.egress.as_slice(), other.egress.as_slice())
            && same_rules(&self.rules, &other.rules)
    }
}

/// Whether two nets that may be absent are one.
fn same_net(one: &Option<Net>, other: &Option<Net>) -> bool
    ensures { IsTrue result ↔ (one.now ≡ other.now) }
{
    one == other
}

impl SameObject for Service {
    #[tactic(auto, using(crate::proofs::Fields::service_from_fields))]
    fn is_same(&self, other: &Service) -> bool {
        self.name == other.name
            && same_items(self.includes.as_slice(), other.includes.as_slice())
            && same_items(self.ports.as_slice(), other.ports.as_slice())
            && same_items(self.protocols.as_slice(), other.protocols.as_slice())
            && same_items(self.source_ports.as_slice(), other.source_ports.as_slice())
            && same_net(&self.v4, &other.v4)
            && same_net(&self.v6, &other.v6)
    }
}

impl SameObject for IpSet {
    #[tactic(auto, using(crate::proofs::Fields::ipset_from_fields))]
    fn is_same(&self, other: &IpSet) -> bool {
        self.name == other.name
            && self.kind == other.kind
            && self.family == other.family
            && self.timeout == other.timeout
            && same_items(self.items.as_slice(), other.items.as_slice())
    }
}
