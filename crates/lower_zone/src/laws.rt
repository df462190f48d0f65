//! A law of names.
ghost use Rattle.lower_zone.specs.Laws.{AreBlocksApart};

/// Chains of different zones and policies never share a name.
pub fn blocks_are_apart()
    ensures { AreBlocksApart }
{}
