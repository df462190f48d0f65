//! Ipsets where they are named, and their items.
ghost use Rattle.std.specs.Prelude.{◌≡◌, ◌↔◌, ℕ, List, [], IsTrue};
ghost use Rattle.std.specs.List.{list_all};
ghost use Rattle.fw_ipset.specs.Entries.{fits};
ghost use Rattle.fw_model.specs.declared.ipset.SetKind.TheVariants as kind;
ghost use Rattle.fw_addr.specs.declared.packet.Family.TheVariants.{V4};
ghost use Rattle.fw_valid.specs.Each.{Each};
ghost use Rattle.fw_valid.specs.Names.{ipset_names};
ghost use Rattle.fw_valid.specs.Rules.{NamesSet};
ghost use Rattle.fw_valid.specs.Valid.{AreSets};
ghost use Rattle.fw_zone.specs.Lists.{IsIn};

use super::each::{Question, each, each_rules};
use super::names::is_ipset;
use fw_addr::Family;
use fw_ipset::fits;
use fw_model::{Binding, Config, IpSet, Item, Rich, Rules, SetKind, Side, Zone};

/// The ipset that a source is, if it is one, is there.
struct BindingKnown;

impl Question<Binding> for BindingKnown {
    ghost use Rattle.fw_broken.specs.Named.{IsBindingKnown};

    ghost asked = { IsBindingKnown };

    fn is_so(config: &Config, item: &Binding) -> bool {
        match item {
            Binding::Set(name) => is_ipset(config, name.as_str()),
            _ => true,
        }
    }
}

/// The ipsets among a zone's sources are there.
struct ZoneSourcesKnown;

impl Question<Zone> for ZoneSourcesKnown {
    ghost use Rattle.fw_valid.specs.Valid.{SourcesKnown};

    ghost asked = { SourcesKnown };

    fn is_so(config: &Config, item: &Zone) -> bool {
        each::<BindingKnown, Binding>(config, item.sources.as_slice())
    }
}

fn is_side_known(config: &Config, side: &Option<Side>) -> bool
    ensures { IsTrue result ↔ ((name : List ℕ) → NamesSet side.now name → IsIn name (ipset_names config.now)) }
{
    match side {
        Some(side) => BindingKnown::is_so(config, &side.what),
        None => true,
    }
}

/// The ipsets that a rich rule names are there.
struct SidesKnown;

impl Question<Rich> for SidesKnown {
    ghost use Rattle.fw_broken.specs.Named.{AreSidesKnown};

    ghost asked = { AreSidesKnown };

    fn is_so(config: &Config, item: &Rich) -> bool {
        is_side_known(config, &item.source) && is_side_known(config, &item.dest)
    }
}

/// The ipsets that the rich rules of a zone or a policy name are there.
struct RichSetsKnown;

impl Question<Rules> for RichSetsKnown {
    ghost use Rattle.fw_valid.specs.Rules.{SetsKnown};

    ghost asked = { SetsKnown };

    fn is_so(config: &Config, item: &Rules) -> bool {
        each::<SidesKnown, Rich>(config, item.rich.as_slice())
    }
}

fn all_fit(set: &IpSet, items: &[Item]) -> bool
    ensures { result ≡ list_all (fits set.now) items.now }
{
    items.iter().all(|item| fits(set, item))
}

/// A set of hardware addresses has the family inet.
fn has_its_family(set: &IpSet) -> bool
    ensures { IsTrue result ↔ (set.now.kind ≡ kind.Mac → set.now.family ≡ V4) }
{
    set.kind != SetKind::Mac || set.family == Family::V4
}

fn items_fit(set: &IpSet) -> bool
    ensures { IsTrue result ↔ Each (λ item. IsTrue (fits set.now item)) set.now.items }
{
    all_fit(set, set.items.as_slice())
}

/// A set whose entries come with a timeout has none.
fn has_its_timeout(set: &IpSet) -> bool
    ensures { IsTrue result ↔ (IsTrue set.now.timeout → set.now.items ≡ []) }
{
    !set.timeout || set.items.as_slice().is_empty()
}

/// A set is as it must be.
struct SetWhole;

impl Question<IpSet> for SetWhole {
    ghost use Rattle.fw_valid.specs.Sets.{IsSet};

    ghost asked = { λ config. IsSet };

    fn is_so(_config: &Config, item: &IpSet) -> bool {
        has_its_family(item) && items_fit(item) && has_its_timeout(item)
    }
}

/// Whether ipsets are there where they are named, and as they must be.
pub fn are_sets(config: &Config) -> bool
    ensures { IsTrue result ↔ AreSets config.now }
{
    each::<ZoneSourcesKnown, Zone>(config, config.zones.as_slice())
        && each_rules::<RichSetsKnown>(config)
        && each::<SetWhole, IpSet>(config, config.ipsets.as_slice())
}
