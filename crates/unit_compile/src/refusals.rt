//! How faults are told: tokens by the offsets at which they begin.

ghost use Rattle.std.specs.Prelude.{◌≡◌, ◌≤◌, ◌+◌, ◌^◌};
ghost use Rattle.sequence_cores.specs.Places.{told};
ghost use Rattle.unit_compile.specs.Offsets.{offset_of, token_refusal, grammar_refusal, rule_refusal};
ghost use Rattle.unit_compile.specs.Told.{check_refusal, circuit_refusal};

use mbac_compile::CheckError;
use property_circuits::CircuitError;
use psl_lexer::{LexError, Token};
use psl_model::Refusal;
use psl_parser::ParseError;
use psl_units::UnitError;

/// Stands for all counts from here on.
const COUNT_LIMIT: u64 = 0x8000_0000_0000_0000;

/// Where a token begins. Behind the last one stands the end of the text.
fn offset_of(text: &[u8], tokens: &[Token], token: u32) -> u64
    ensures { result ≡ offset_of text.now tokens.now token }
{
    match tokens.get(token as usize) {
        Some(token) => u64::from(token.start),
        None => text.len() as u64,
    }
}

pub(crate) fn token_refusal(error: LexError) -> Refusal
    ensures { result ≡ token_refusal error }
{
    match error {
        LexError::BadByte { offset } => Refusal::BadByte {
            offset: u64::from(offset),
        },
        LexError::LeftOut { offset } => Refusal::LeftOut {
            offset: u64::from(offset),
        },
        LexError::NameTooLong { offset } => Refusal::NameTooLong {
            offset: u64::from(offset),
        },
        LexError::OutOfMemory => Refusal::OutOfMemory,
    }
}

pub(crate) fn grammar_refusal(text: &[u8], tokens: &[Token], error: ParseError) -> Refusal
    ensures { result ≡ grammar_refusal text.now tokens.now error }
{
    match error {
        ParseError::Syntax { token } => Refusal::Syntax {
            offset: offset_of(text, tokens, token),
        },
        ParseError::TooDeep { token } => Refusal::TooDeep {
            offset: offset_of(text, tokens, token),
        },
        ParseError::OutOfMemory => Refusal::OutOfMemory,
    }
}

pub(crate) fn rule_refusal(text: &[u8], tokens: &[Token], error: UnitError) -> Refusal
    ensures { result ≡ rule_refusal text.now tokens.now error }
{
    match error {
        UnitError::DuplicateName { token } => Refusal::DuplicateName {
            offset: offset_of(text, tokens, token),
        },
        UnitError::BadRange { token } => Refusal::BadRange {
            offset: offset_of(text, tokens, token),
        },
        UnitError::CountTooLarge { token } => Refusal::CountTooLarge {
            offset: offset_of(text, tokens, token),
        },
        UnitError::TooManyDirectives { token } => Refusal::TooManyDirectives {
            offset: offset_of(text, tokens, token),
        },
        UnitError::TooManySignals { token } => Refusal::TooManySignals {
            offset: offset_of(text, tokens, token),
        },
        UnitError::BadLiteral { token } => Refusal::BadLiteral {
            offset: offset_of(text, tokens, token),
        },
        UnitError::BadSelect { token } => Refusal::BadSelect {
            offset: offset_of(text, tokens, token),
        },
        UnitError::TooWide { token } => Refusal::TooWide {
            offset: offset_of(text, tokens, token),
        },
        UnitError::ConstantArithmetic { token } => Refusal::ConstantArithmetic {
            offset: offset_of(text, tokens, token),
        },
        UnitError::TooTall { directive, depth } => Refusal::TooTall { directive, depth },
        UnitError::TooLarge { directive, nodes } => Refusal::TooLarge { directive, nodes },
        UnitError::OutOfMemory => Refusal::OutOfMemory,
    }
}

/// Why the directive with this number gets no checker, where those before it have `before` steps.
pub(crate) fn check_refusal(number: u32, before: u64, error: CheckError) -> Refusal
    requires before { before ≤ 2 ^ 63 }
    ensures { result ≡ check_refusal number before error }
{
    match error {
        CheckError::Subset(rule) => Refusal::Subset {
            directive: number,
            rule: rule.number,
        },
        CheckError::Unbuilt => Refusal::Unbuilt,
        CheckError::Circuit(error) => circuit_refusal(number, before, error),
    }
}

/// The steps of the directives up to one, as they are told.
fn steps_up_to(before: u64, count: u64) -> u64
    requires before { before ≤ 2 ^ 63 }
    ensures { result ≡ told (before + count) }
{
    before.saturating_add(count).min(COUNT_LIMIT)
}

fn circuit_refusal(directive: u32, before: u64, error: CircuitError) -> Refusal
    requires before { before ≤ 2 ^ 63 }
    ensures { result ≡ circuit_refusal directive before error }
{
    match error {
        CircuitError::TooManyPlaces { sequence, places } => Refusal::TooManyPlaces {
            directive,
            sequence,
            places,
        },
        CircuitError::Contradiction { sequence } => Refusal::Contradiction {
            directive,
            sequence,
        },
        CircuitError::SequenceTooLarge { sequence } => Refusal::SequenceTooLarge {
            directive,
            sequence,
        },
        CircuitError::TooManyRegisters { count } => Refusal::TooManyRegisters { directive, count },
        CircuitError::TooManySteps { count } => Refusal::TooManySteps {
            directive,
            count: steps_up_to(before, count),
        },
        CircuitError::OutOfMemory => Refusal::OutOfMemory,
    }
}
