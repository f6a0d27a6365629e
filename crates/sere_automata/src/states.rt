//! The states of the automata.

/// The two states of a leaf.
#[derive(Debug, Clone, Copy, PartialEq, Eq, Hash)]
pub enum LeafState {
    Start,
    End,
}

/// A state of a choice: its own start, or a state of one of the two parts.
#[derive(Debug, Clone, Copy, PartialEq, Eq, Hash)]
pub enum Choice<L, R> {
    New,
    Left(L),
    Right(R),
}

/// A state of a repetition: its own start, or a state of the part that is repeated.
#[derive(Debug, Clone, Copy, PartialEq, Eq, Hash)]
pub enum Round<S> {
    New,
    Inner(S),
}
