//! Reached sets as numbered nodes.

use sqlite_items::Items;

/// Why there are no reached sets of a table.
#[derive(Clone, Copy, Debug, PartialEq, Eq)]
pub enum DetError {
    /// There are more sets than were allowed, or more symbols leave one.
    TooLarge,
    OutOfMemory,
}

/// Where truth values lead from a set.
#[derive(Clone, Copy, Debug, PartialEq, Eq)]
pub enum Move {
    /// To no alive state.
    Empty,
    /// To a set with an accepting state.
    Accepting,
    /// To the set with this number.
    Set(u32),
}

/// A set of states, the symbols that leave it, and its moves.
///
/// States and symbols ascend. Move number v is that of the values in which the k-th leaving symbol has bit k of v.
#[derive(Debug, Drop)]
pub struct SetNode {
    pub places: Items<u32>,
    pub leaving: Items<usize>,
    pub moves: Items<Move>,
}

/// The reached sets of an automaton, the start's first.
#[derive(Debug, Drop)]
pub struct Sets {
    pub nodes: Items<SetNode>,
}
