//! Services and ICMP types where they are named.
ghost use Rattle.std.specs.Prelude.{◌≡◌, ◌↔◌, ℕ, List, IsTrue};
ghost use Rattle.fw_addr.specs.Subnets.{family as family_of};
ghost use Rattle.fw_broken.specs.Named.{AreKnownOneByOne};
ghost use Rattle.fw_valid.specs.Each.{IfThere};
ghost use Rattle.fw_valid.specs.Valid.{AreKnown};

use super::each::{Question, each, each_rules};
use super::names::is_service;
use fw_addr::{Family, Net, icmp_numbers};
use fw_base::Text;
use fw_model::{Config, Element, Rich, Rules, Service};

/// A service of a name is there.
struct ServiceKnown;

impl Question<Text> for ServiceKnown {
    ghost use Rattle.fw_broken.specs.Named.{IsServiceKnown};

    ghost asked = { IsServiceKnown };

    fn is_so(config: &Config, item: &Text) -> bool {
        is_service(config, item.as_str())
    }
}

/// An ICMP type of a name is there.
struct TypeKnown;

impl Question<Text> for TypeKnown {
    ghost use Rattle.fw_broken.specs.Named.{IsTypeKnown};

    ghost asked = { IsTypeKnown };

    fn is_so(_config: &Config, item: &Text) -> bool {
        icmp_numbers(item.as_str()).is_some()
    }
}

/// What the element of a rich rule names is there.
struct ElementKnown;

impl Question<Rich> for ElementKnown {
    ghost use Rattle.fw_broken.specs.Named.{IsElementKnown};

    ghost asked = { IsElementKnown };

    fn is_so(config: &Config, item: &Rich) -> bool {
        match &item.element {
            Some(Element::Service(name)) => ServiceKnown::is_so(config, name),
            Some(Element::IcmpBlock(name)) => TypeKnown::is_so(config, name),
            Some(Element::IcmpType(name)) => TypeKnown::is_so(config, name),
            _ => true,
        }
    }
}

fn are_known_one_by_one(config: &Config, rules: &Rules) -> bool
    ensures { IsTrue result ↔ AreKnownOneByOne config.now rules.now }
{
    each::<ServiceKnown, Text>(config, rules.services.as_slice())
        && each::<TypeKnown, Text>(config, rules.icmp_blocks.as_slice())
        && each::<ElementKnown, Rich>(config, rules.rich.as_slice())
}

/// The services and ICMP types that the settings of a zone or a policy name are there.
struct RulesKnown;

impl Question<Rules> for RulesKnown {
    ghost use Rattle.fw_valid.specs.Rules.{NamesKnown};

    ghost asked = { NamesKnown };

    fn is_so(config: &Config, item: &Rules) -> bool {
        are_known_one_by_one(config, item)
    }
}

fn is_in_family(net: &Option<Net>, family: Family) -> bool
    ensures { IsTrue result ↔ IfThere (λ net. family_of net.address ≡ family) net.now }
{
    match net {
        Some(net) => net.addr().family() == family,
        None => true,
    }
}

/// What a service includes is there, and its destinations are of their families.
struct ServiceWhole;

impl Question<Service> for ServiceWhole {
    ghost use Rattle.fw_valid.specs.Rules.{IsService};

    ghost asked = { IsService };

    fn is_so(config: &Config, item: &Service) -> bool {
        each::<ServiceKnown, Text>(config, item.includes.as_slice())
            && is_in_family(&item.v4, Family::V4)
            && is_in_family(&item.v6, Family::V6)
    }
}

/// Whether services and ICMP types are there where they are named.
pub fn are_known(config: &Config) -> bool
    ensures { IsTrue result ↔ AreKnown config.now }
{
    each_rules::<RulesKnown>(config)
        && each::<ServiceWhole, Service>(config, config.services.as_slice())
}
