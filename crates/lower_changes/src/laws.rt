//! Laws of the chains of the sides.
ghost use Rattle.lower_changes.specs.Apart.{ChainsApart, SidesApart, StandOutside};
ghost use Rattle.lower_changes.specs.Hooks.{BasesRun, PostroutingChanges, PreroutingChanges};
ghost use Rattle.lower_changes.specs.Stands.{SidesHold};
ghost use Rattle.lower_changes.specs.Whole.{WayIsLed};
ghost use Rattle.lower_changes.specs.Works.{SidesWork};

/// The chains of a side do with packets what the settings do that have this side.
pub fn sides_work()
    ensures { SidesWork }
{}

/// What the rules of a side name is there, and no path from its chains has more than three links.
pub fn sides_hold()
    ensures { SidesHold }
{}

/// At prerouting packets that came by an interface are marked and translated as the settings say.
pub fn prerouting_changes()
    ensures { PreroutingChanges }
{}

/// At postrouting packets leave with the host's own address as the settings say.
pub fn postrouting_changes()
    ensures { PostroutingChanges }
{}

/// Where certain chains, in order, are the base chains at a hook, they run there, and no other does.
pub fn bases_run()
    ensures { BasesRun }
{}

/// No two chains of a side share a name.
pub fn chains_are_apart()
    ensures { ChainsApart }
{}

/// Nor do chains of two sides.
pub fn sides_are_apart()
    ensures { SidesApart }
{}

/// The names of these chains begin with another letter than those of the filter.
pub fn sides_stand_outside()
    ensures { StandOutside }
{}

/// Where these chains and the filter stand in a ruleset, what nft(8) makes of a packet is its way through the firewall.
pub fn way_is_led()
    ensures { WayIsLed }
{}
