//! Laws of the hooks.
ghost use Rattle.lower_hooks.specs.Laws.{HooksDecide, OneRunsAtEach};

use lower_dispatch::packets_use_zones;

/// In a ruleset in which the chains of the hooks work, packets end at these hooks as the settings decide, with all lines, at whatever
/// moment they come there.
pub fn hooks_decide()
    ensures { HooksDecide }
{
    packets_use_zones();
}

/// Where three chains are the base chains of a ruleset at these hooks, each runs at its own, alone.
pub fn one_runs_at_each_hook()
    ensures { OneRunsAtEach }
{}
