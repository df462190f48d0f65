//! Laws of sources.
ghost use Rattle.lower_match.specs.Laws.{AreSourcesTold};

/// The tests of senders and receivers that `source_test` and `receiver_test` make hold of exactly the packets that the source means,
/// and look up sets of ipsets alone.
pub fn sources_are_told()
    ensures { AreSourcesTold }
{}
