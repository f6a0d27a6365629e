//! Why a text is no unit.

use psl_lexer::LexError;
use psl_parser::ParseError;
use psl_units::UnitError;

/// Why a text is no unit, by the part of the front end that says so.
#[derive(Clone, Copy, Debug, PartialEq, Eq)]
pub enum TextError {
    /// It has no tokens.
    Tokens(LexError),
    /// Its tokens are no unit of the grammar.
    Grammar(ParseError),
    /// The unit breaks a rule on names, numbers, operators or sizes.
    Rules(UnitError),
}
