//! A law of compiled rulesets.
ghost use Rattle.nf_goal.specs.Laws.{OutcomesAreTheWay};

use nf_chains::outcome_is_unique;

/// A ruleset that compiles settings makes of each packet what its way under the settings says, and nothing else.
pub fn outcomes_are_the_way()
    ensures { OutcomesAreTheWay }
{
    outcome_is_unique();
}
