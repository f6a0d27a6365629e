//! Why a text is refused.

/// Offsets count bytes from 0. Directives and sequences are numbered from 1 in reading order, with
/// each named sequence and property put in place. A refusal isn't `Copy`, so that one may hold a name.
#[derive(Debug, Drop, PartialEq, Eq)]
pub enum Refusal {
    /// A byte that begins no token.
    BadByte {
        offset: u64,
    },
    /// A word or a mark of the language that this compiler leaves out.
    LeftOut {
        offset: u64,
    },
    NameTooLong {
        offset: u64,
    },
    Syntax {
        offset: u64,
    },
    /// Phrases that nest too deep, or an item of too many tokens.
    TooDeep {
        offset: u64,
    },
    DuplicateName {
        offset: u64,
    },
    BadRange {
        offset: u64,
    },
    CountTooLarge {
        offset: u64,
    },
    TooManyDirectives {
        offset: u64,
    },
    TooManySignals {
        offset: u64,
    },
    BadLiteral {
        offset: u64,
    },
    BadSelect {
        offset: u64,
    },
    TooWide {
        offset: u64,
    },
    ConstantArithmetic {
        offset: u64,
    },
    TooTall {
        directive: u32,
        depth: u64,
    },
    TooLarge {
        directive: u32,
        nodes: u64,
    },
    /// The formula is outside the simple subset of IEEE 1850-2010, 4.4.4.
    Subset {
        directive: u32,
        rule: u8,
    },
    TooManyPlaces {
        directive: u32,
        sequence: u32,
        places: u64,
    },
    /// Nothing can meet this sequence.
    Contradiction {
        directive: u32,
        sequence: u32,
    },
    SequenceTooLarge {
        directive: u32,
        sequence: u32,
    },
    TooManyRegisters {
        directive: u32,
        count: u64,
    },
    TooManySteps {
        directive: u32,
        count: u64,
    },
    OutOfMemory,
    /// A unit that this compiler can't compile yet.
    Unbuilt,
}
