//! Laws of evaluation.
ghost use Rattle.nf_chains.specs.Laws.{HasOneCount, HasOneOutcome};

/// A ruleset gives each packet one outcome.
pub fn outcome_is_unique()
    ensures { HasOneOutcome }
{}

/// A ruleset has one number of rules that are looked at for a packet.
pub fn visits_are_unique()
    ensures { HasOneCount }
{}
