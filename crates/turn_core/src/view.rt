//! What a pass knows of its turn, and the view of its seat of the table. Both stand in contracts and in the rule alone;
//! a program makes no value of them.
use std::collections::LinkedList;

/// What a pass knows.
pub struct Knowledge<B, E> {
    /// The base of the turn's value. A pass that was joined into another has none.
    pub base: Option<B>,
    /// A front of the history: all that the pass has seen of it.
    pub seen: LinkedList<E>,
    /// The places of the history that are the pass's own, ascending.
    pub mine: LinkedList<u64>,
    /// Whether the pass holds the turn.
    pub holds: bool,
    /// How many of the 2^100 parts the pass has.
    pub parts: u128,
    /// How many steps the pass has made on the word.
    pub steps: u64,
    /// How often the pass has taken the turn.
    pub takes: u64,
    /// The word that the pass's last step found.
    pub found: u64,
    /// The word that the step before it found.
    pub found_before: u64,
}

/// What the table keeps of a pass.
pub struct View<B, E> {
    /// What the pass knows.
    pub knows: Knowledge<B, E>,
    /// Whether the slot lies at home, empty, while the pass holds the turn: at the opening and at the close.
    pub vacant: bool,
    /// The shorter of the two fronts that the pass's last join put together.
    pub shorter: LinkedList<E>,
}
