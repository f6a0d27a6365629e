//! The call that reads a unit's text.

ghost use Rattle.std.specs.Prelude.{◌≡◌, ◌≤◌, ◌+◌, ◌<◌, ◌^◌, All, length, IfOk, MatchResult};
ghost use Rattle.psl_lexer.specs.Order.{LiesWithin};
ghost use Rattle.psl_model.specs.Limits.{unit_text_limit};
ghost use Rattle.psl_model.specs.Unit as plain;
ghost use Rattle.psl_model.specs.UnitView.{unit_of};
ghost use Rattle.psl_units.specs.StandsForUnit.{StandsForUnit};
ghost use Rattle.unit_texts.specs.Memory.{IsMemory};
ghost use Rattle.unit_texts.specs.inner.Given.{StandsByTokens, StandsByTree};
ghost use Rattle.psl_grammar.specs.UnitView.{unit_of as raw_unit_of};

use crate::errors::TextError;
use psl_grammar::RawUnit;
use psl_grammar::laws::a_unit_names_its_tokens_in_order;
use psl_lexer::laws::tokens_stand_in_order;
use psl_lexer::{Token, tokens};
use psl_model::PslUnit;
use psl_parser::parse_unit;
use psl_units::resolve;
use std::alloc::Global;

// The unit of a raw tree of the text's tokens.
fn read_tree(
    alloc: Global,
    text: &[u8],
    tokens: &[Token],
    raw: &RawUnit,
) -> Result<PslUnit, TextError>
    requires few { length raw.now.items.items + 1 < 2 ^ 32 }
    ensures unit { IfOk result (λ unit. StandsByTree text.now tokens.now (raw_unit_of raw.now) (unit_of unit)) }
    ensures only { (unit : plain.PslUnit) → StandsByTree text.now tokens.now (raw_unit_of raw.now) unit
        → MatchResult result (λ found. unit_of found ≡ unit) IsMemory }
{
    match resolve(alloc, text, tokens, raw) {
        Ok(unit) => Ok(unit),
        Err(error) => Err(TextError::Rules(error)),
    }
}

// The unit of the text's tokens.
fn read_tokens(alloc: Global, text: &[u8], tokens: &[Token]) -> Result<PslUnit, TextError>
    requires few { length tokens.now ≤ unit_text_limit }
    requires within { All (LiesWithin text.now) tokens.now }
    ensures unit { IfOk result (λ unit. StandsByTokens text.now tokens.now (unit_of unit)) }
    ensures only { (unit : plain.PslUnit) → StandsByTokens text.now tokens.now unit
        → MatchResult result (λ found. unit_of found ≡ unit) IsMemory }
{
    a_unit_names_its_tokens_in_order();
    match parse_unit(alloc, text, tokens) {
        Ok(raw) => read_tree(alloc, text, tokens, &raw),
        Err(error) => Err(TextError::Grammar(error)),
    }
}

/// The unit that a text of at most 1,048,576 bytes stands for, exactly where it stands for one. Else why it doesn't:
/// the first fault of its tokens, a fault of the grammar, or the first broken rule. Want of memory comes as that of the
/// part that met it, and then nothing is said of the text.
pub fn read_text(alloc: Global, text: &[u8]) -> Result<PslUnit, TextError>
    requires { length text.now ≤ unit_text_limit }
    ensures unit { IfOk result (λ unit. StandsForUnit text.now (unit_of unit)) }
    ensures only { (unit : plain.PslUnit) → StandsForUnit text.now unit
        → MatchResult result (λ found. unit_of found ≡ unit) IsMemory }
{
    tokens_stand_in_order();
    match tokens(alloc, text) {
        Ok(tokens) => read_tokens(alloc, text, &tokens),
        Err(error) => Err(TextError::Tokens(error)),
    }
}
