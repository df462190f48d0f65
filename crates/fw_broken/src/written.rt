//! Rich rules and plain forward ports as they can be written.
ghost use Rattle.std.specs.Prelude.{◌≡◌, ◌↔◌, IsTrue};
ghost use Rattle.fw_valid.specs.Each.{Each};
ghost use Rattle.fw_valid.specs.Rules.{all_rules};
ghost use Rattle.fw_valid.specs.Valid.{AreWritten};

use super::each::{Question, each, each_rules};
use super::rich::{has_target, is_rich};
use fw_addr::Family;
use fw_model::{Config, Forward, Rich, Rules};

/// A rich rule is as the language has it.
struct RichWritten;

impl Question<Rich> for RichWritten {
    ghost use Rattle.fw_valid.specs.Riches.{IsRich};

    ghost asked = { λ config. IsRich };

    fn is_so(_config: &Config, item: &Rich) -> bool {
        is_rich(item)
    }
}

/// A plain forward port has a target, and no address of IPv6.
struct ForwardWritten;

impl Question<Forward> for ForwardWritten {
    ghost use Rattle.fw_valid.specs.Rules.{IsPlainForward};

    ghost asked = { λ config. IsPlainForward };

    fn is_so(_config: &Config, item: &Forward) -> bool {
        let is_in_ipv4 = match item.to_addr {
            Some(address) => address.family() == Family::V4,
            None => true,
        };
        has_target(item) && is_in_ipv4
    }
}

/// The rich rules and forward ports of a zone or a policy are.
struct RulesWritten;

impl Question<Rules> for RulesWritten {
    ghost use Rattle.fw_valid.specs.Valid.{AreWritten};

    ghost asked = { λ config. AreWritten };

    fn is_so(config: &Config, item: &Rules) -> bool {
        each::<RichWritten, Rich>(config, item.rich.as_slice())
            && each::<ForwardWritten, Forward>(config, item.forwards.as_slice())
    }
}

/// Whether all rich rules and forward ports are as they can be written.
pub fn are_written(config: &Config) -> bool
    ensures { IsTrue result ↔ Each AreWritten (all_rules config.now) }
{
    each_rules::<RulesWritten>(config)
}
