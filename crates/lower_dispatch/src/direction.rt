//! The two sides on which a packet has a zone.

/// Whether the zone is meant that a packet comes from, or the one that it goes to.
#[derive(Clone, Copy, Debug, PartialEq, Eq)]
pub enum Direction {
    Ingress,
    Egress,
}
