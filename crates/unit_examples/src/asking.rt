//! What a text is answered by the front end.

use psl_lexer::{LexError, tokens};
use psl_model::PslUnit;
use psl_parser::ParseError;
use psl_units::UnitError;
use std::alloc::Global;
use unit_rules::source::start_of;
use unit_texts::{TextError, read_text};

/// The rules that one token breaks.
#[derive(Clone, Copy, Debug, PartialEq, Eq)]
pub enum Rule {
    DuplicateName,
    BadRange,
    CountTooLarge,
    TooManyDirectives,
    TooManySignals,
    BadLiteral,
    BadSelect,
    TooWide,
    ConstantArithmetic,
}

/// What a text is answered.
#[derive(Clone, Copy, Debug, PartialEq, Eq)]
pub enum Answer {
    Unit,
    /// The rule, and the offset in bytes of the token that breaks it.
    Broken(Rule, usize),
    /// The directive and its depth.
    Tall(u32, u64),
    /// The directive and the nodes up to it.
    Large(u32, u64),
    /// Not of the grammar, or too long.
    NoUnit,
    NoMemory,
}

/// The most bytes of a text.
const LONGEST: usize = 1_048_576;

/// The unit of a text that isn't too long.
pub fn unit_of(alloc: Global, text: &[u8]) -> Option<PslUnit> {
    if text.len() > LONGEST {
        return None;
    }
    match read_text(alloc, text) {
        Ok(unit) => Some(unit),
        Err(_) => None,
    }
}

/// What a text is answered.
pub fn answer_to(alloc: Global, text: &[u8]) -> Answer {
    if text.len() > LONGEST {
        return Answer::NoUnit;
    }
    match read_text(alloc, text) {
        Ok(_) => Answer::Unit,
        Err(TextError::Rules(error)) => refused(alloc, text, error),
        Err(TextError::Grammar(ParseError::OutOfMemory)) => Answer::NoMemory,
        Err(TextError::Tokens(LexError::OutOfMemory)) => Answer::NoMemory,
        Err(_) => Answer::NoUnit,
    }
}

fn refused(alloc: Global, text: &[u8], error: UnitError) -> Answer {
    match error {
        UnitError::TooTall { directive, depth } => Answer::Tall(directive, depth),
        UnitError::TooLarge { directive, nodes } => Answer::Large(directive, nodes),
        UnitError::OutOfMemory => Answer::NoMemory,
        _ => broken(alloc, text, error),
    }
}

// A rule that a token breaks.
fn broken(alloc: Global, text: &[u8], error: UnitError) -> Answer {
    let (rule, token) = match error {
        UnitError::DuplicateName { token } => (Rule::DuplicateName, token),
        UnitError::BadRange { token } => (Rule::BadRange, token),
        UnitError::CountTooLarge { token } => (Rule::CountTooLarge, token),
        UnitError::TooManyDirectives { token } => (Rule::TooManyDirectives, token),
        UnitError::TooManySignals { token } => (Rule::TooManySignals, token),
        UnitError::BadLiteral { token } => (Rule::BadLiteral, token),
        UnitError::BadSelect { token } => (Rule::BadSelect, token),
        UnitError::TooWide { token } => (Rule::TooWide, token),
        UnitError::ConstantArithmetic { token } => (Rule::ConstantArithmetic, token),
        _ => return Answer::NoUnit,
    };
    Answer::Broken(rule, offset_of(alloc, text, token))
}

// The offset of a token of a text, in bytes.
fn offset_of(alloc: Global, text: &[u8], token: u32) -> usize {
    if text.len() > LONGEST {
        return LONGEST;
    }
    match tokens(alloc, text) {
        Ok(found) => start_of(&found, token) as usize,
        Err(_) => LONGEST,
    }
}
