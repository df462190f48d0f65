//! What makes rulesets of settings.
ghost use Rattle.std.specs.Prelude.{IfOk};
ghost use Rattle.fw_model.specs.declared.runtime.Runtime.{Runtime};
ghost use Rattle.fw_valid.specs.Valid.{IsValid};
ghost use Rattle.nf_goal.specs.Compiles.{Compiles};
ghost use Rattle.nf_rules.specs.declared.ruleset.Ruleset.{Ruleset};

use fw_base::Memory;
use fw_model::Runtime;
use nf_rules::Ruleset;
use std::alloc::Global;

/// A compiler of the settings in force to one ruleset of nft(8).
pub trait Compiler {
    /// Which rulesets it makes of settings. That each of them `Compiles` the settings is owed beside it.
    ghost makes: { Self → Runtime → Ruleset → Type 0 };

    /// The ruleset of valid settings: sound, and for every packet its evaluation at the hooks is the way of the packet through the
    /// firewall that firewalld's manuals tell. In panic mode it drops them all.
    ///
    /// Refuses for want of memory alone.
    fn compile(&self, alloc: Global, runtime: &Runtime) -> Result<Ruleset, Memory>
        requires { IsValid runtime.now.config }
        ensures made { IfOk result (λ rules. makes self.now runtime.now rules) }
        ensures compiles { IfOk result (λ rules. Compiles rules runtime.now) };
}
