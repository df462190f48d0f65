//! Questions about each item of a list.
ghost use Rattle.std.specs.Prelude.{◌≡◌, ◌↔◌, List, IsTrue};
ghost use Rattle.fw_model.specs.declared.config.Config.{Config};
ghost use Rattle.fw_model.specs.declared.rules.Rules.{Rules};
ghost use Rattle.fw_valid.specs.Each.{Each};
ghost use Rattle.fw_valid.specs.Rules.{all_rules};

use fw_model::{Config, Policy, Rules, Zone};

/// A question about an item, beside a configuration.
pub trait Question<T> {
    /// What is asked.
    ghost asked: { Config → T → Type 0 };

    /// Whether it is so.
    fn is_so(config: &Config, item: &T) -> bool
        ensures { IsTrue result ↔ asked config.now item.now };
}

/// Whether it is so of each item.
pub fn each<Q: Question<T>, T>(config: &Config, items: &[T]) -> bool
    ensures { IsTrue result ↔ Each (Q.asked config.now) items.now }
{
    for place in 0..items.len() {
        if !Q::is_so(config, &items[place]) {
            return false;
        }
    }
    true
}

/// What has the settings that zones and policies have alike.
pub trait Ruled {
    /// These settings.
    ghost rules_of: { Self → Rules };

    /// These settings.
    fn rules(&self) -> &Rules
        ensures { result.now ≡ rules_of self.now };
}

impl Ruled for Zone {
    ghost rules_of = { λ zone. zone.rules };

    fn rules(&self) -> &Rules {
        &self.rules
    }
}

impl Ruled for Policy {
    ghost rules_of = { λ policy. policy.rules };

    fn rules(&self) -> &Rules {
        &self.rules
    }
}

/// Whether it is so of the settings of each item.
fn each_of<Q: Question<Rules>, T: Ruled>(config: &Config, items: &[T]) -> bool
    ensures { IsTrue result ↔ Each (λ item. Q.asked config.now (T.rules_of item)) items.now }
{
    for place in 0..items.len() {
        if !Q::is_so(config, items[place].rules()) {
            return false;
        }
    }
    true
}

/// Whether it is so of the settings of each zone and each policy.
pub fn each_rules<Q: Question<Rules>>(config: &Config) -> bool
    ensures { IsTrue result ↔ Each (Q.asked config.now) (all_rules config.now) }
{
    each_of::<Q, Zone>(config, config.zones.as_slice())
        && each_of::<Q, Policy>(config, config.policies.as_slice())
}
