//! Names of zones, policies, services and ipsets.
ghost use Rattle.std.specs.Prelude.{◌≡◌, ◌↔◌, ℕ, List, IsTrue, map};
ghost use Rattle.std.specs.List.{list_all, list_any};
ghost use Rattle.std.specs.Str.{bytes_eq};
ghost use Rattle.fw_addr.specs.WellFormed.{is_name};
ghost use Rattle.fw_valid.specs.Each.{IsWithoutRepeats};
ghost use Rattle.fw_valid.specs.Names.{AreNamed, AreNames, ipset_names, policy_names, service_names, zone_names};
ghost use Rattle.fw_zone.specs.Lists.{IsIn};

use fw_addr::is_well_formed_name;
use fw_base::Text;
use fw_model::{Config, IpSet, Policy, Service, Zone};
use fw_policy::{ANY, HOST};

/// What has a name of its own.
trait Named {
    /// The name.
    ghost name_of: { Self → List ℕ };

    /// The name.
    fn name(&self) -> &str
        ensures { result.now ≡ name_of self.now };
}

impl Named for Zone {
    ghost name_of = { λ zone. zone.name };

    fn name(&self) -> &str {
        self.name.as_str()
    }
}

impl Named for Policy {
    ghost name_of = { λ policy. policy.name };

    fn name(&self) -> &str {
        self.name.as_str()
    }
}

impl Named for Service {
    ghost name_of = { λ service. service.name };

    fn name(&self) -> &str {
        self.name.as_str()
    }
}

impl Named for IpSet {
    ghost name_of = { λ set. set.name };

    fn name(&self) -> &str {
        self.name.as_str()
    }
}

fn any_is_called<T: Named>(items: &[T], name: &str) -> bool
    ensures { result ≡ list_any (λ item. bytes_eq (T.name_of item) name.now) items.now }
{
    items.iter().any(|item| item.name() == name)
}

/// Whether a name is one of theirs.
fn has_name<T: Named>(items: &[T], name: &str) -> bool
    ensures { IsTrue result ↔ IsIn name.now (map T.name_of items.now) }
{
    any_is_called(items, name)
}

fn all_are_well_formed<T: Named>(items: &[T]) -> bool
    ensures { result ≡ list_all (λ item. is_name (T.name_of item)) items.now }
{
    items.iter().all(|item| is_well_formed_name(item.name()))
}

/// Whether no two names are alike.
fn differ<T: Named>(items: &[T]) -> bool
    ensures { IsTrue result ↔ IsWithoutRepeats (map T.name_of items.now) }
{
    for place in 0..items.len() {
        if has_name(&items[place + 1..], items[place].name()) {
            return false;
        }
    }
    true
}

/// Whether all names are well formed, and no two of them alike.
fn are_names<T: Named>(items: &[T]) -> bool
    ensures { IsTrue result ↔ AreNames (map T.name_of items.now) }
{
    all_are_well_formed(items) && differ(items)
}

fn are_zones_named(config: &Config) -> bool
    ensures { IsTrue result ↔ AreNames (zone_names config.now) }
{
    are_names(config.zones.as_slice())
}

fn are_policies_named(config: &Config) -> bool
    ensures { IsTrue result ↔ AreNames (policy_names config.now) }
{
    are_names(config.policies.as_slice())
}

fn are_services_named(config: &Config) -> bool
    ensures { IsTrue result ↔ AreNames (service_names config.now) }
{
    are_names(config.services.as_slice())
}

fn are_ipsets_named(config: &Config) -> bool
    ensures { IsTrue result ↔ AreNames (ipset_names config.now) }
{
    are_names(config.ipsets.as_slice())
}

/// Whether a zone is called so.
fn is_zone(config: &Config, name: &str) -> bool
    ensures { IsTrue result ↔ IsIn name.now (zone_names config.now) }
{
    has_name(config.zones.as_slice(), name)
}

/// Whether a service is called so.
pub fn is_service(config: &Config, name: &str) -> bool
    ensures { IsTrue result ↔ IsIn name.now (service_names config.now) }
{
    has_name(config.services.as_slice(), name)
}

/// Whether an ipset is called so.
pub fn is_ipset(config: &Config, name: &str) -> bool
    ensures { IsTrue result ↔ IsIn name.now (ipset_names config.now) }
{
    has_name(config.ipsets.as_slice(), name)
}

/// Whether the default zone is there.
pub fn has_default_zone(config: &Config) -> bool
    ensures { IsTrue result ↔ IsIn config.now.default_zone (zone_names config.now) }
{
    is_zone(config, config.default_zone.as_str())
}

/// Whether names are well formed, and unique in their kind, and no zone is called `HOST` or `ANY`.
pub fn are_named(config: &Config) -> bool
    ensures { IsTrue result ↔ AreNamed config.now }
{
    are_zones_named(config)
        && are_policies_named(config)
        && are_services_named(config)
        && are_ipsets_named(config)
        && !is_zone(config, HOST)
        && !is_zone(config, ANY)
}
