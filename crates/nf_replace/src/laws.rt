//! What a transaction makes. The function here is a law: its clause is all of it.
ghost use Rattle.nf_kernel.specs.Transactions.{apply};
ghost use Rattle.nf_replace.specs.Replacing.{Replaces, replacing};
ghost use Rattle.nf_rules.specs.declared.ruleset.Ruleset.{Ruleset};

/// Of a ruleset whose parts are in order of their names, the transaction that replaces makes that ruleset, whatever was there.
pub fn replacing_makes_the_ruleset()
    ensures { (rules : Ruleset) → Replaces (replacing rules) rules }
{}
