//! Laws of names, and of settings that do nothing.
ghost use Rattle.lower_outside.specs.Laws.{AreBlocksApart};
ghost use Rattle.lower_outside.specs.Needed.{OthersDoNothing};

/// Chains of different zones, policies and sides never share a name.
pub fn blocks_are_apart()
    ensures { AreBlocksApart }
{}

/// Settings that have nothing on a side do nothing there.
pub fn others_do_nothing()
    ensures { OthersDoNothing }
{}
