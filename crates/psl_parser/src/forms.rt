//! Where the operands of `next` forms begin, and which phrase a token opens.

ghost use Rattle.std.specs.Prelude.{◌≡◌, ◌+◌, ◌-◌, ◌<◌, ◌≤◌, ◌^◌};
ghost use Rattle.std.specs.Prelude.{slice_index_or, false};
ghost use Rattle.psl_grammar.specs.Symbols.{symbol_at};
ghost use Rattle.psl_parser.specs.OpenPhrases.{is_count, is_range, opens_event, behind_by, reach_by};
ghost use Rattle.psl_parser.specs.inner.Walk.{head_by, form_by};

use crate::marks::{
    ends_operand, is_close_bracket, is_colon, is_event, is_exclamation, is_next, is_number,
    is_open_bracket, is_open_parenthesis, symbol_at,
};
use psl_grammar::Symbol;

/// `[`, a number, `]`.
fn is_count(symbols: &[Symbol], place: usize) -> bool
    requires few { place < 2 ^ 32 }
    ensures { result ≡ is_count symbols.now place }
{
    is_open_bracket(symbol_at(symbols, place))
        && is_number(symbol_at(symbols, place + 1))
        && is_close_bracket(symbol_at(symbols, place + 2))
}

/// `[`, a number, `:`, a number, `]`.
fn is_range(symbols: &[Symbol], place: usize) -> bool
    requires few { place < 2 ^ 32 }
    ensures { result ≡ is_range symbols.now place }
{
    is_open_bracket(symbol_at(symbols, place))
        && is_number(symbol_at(symbols, place + 1))
        && is_colon(symbol_at(symbols, place + 2))
        && is_number(symbol_at(symbols, place + 3))
        && is_close_bracket(symbol_at(symbols, place + 4))
}

/// Whether a token is the `(` of a `next_event` form.
pub fn opens_event(symbols: &[Symbol], place: usize) -> bool
    ensures { result ≡ opens_event symbols.now place }
{
    is_open_parenthesis(symbol_at(symbols, place))
        && is_event(symbol_at(symbols, place.saturating_sub(1)))
}

fn answer_at(answers: &[bool], place: usize) -> bool
    ensures { result ≡ slice_index_or answers.now place false }
{
    match answers.get(place) {
        Some(answer) => *answer,
        None => false,
    }
}

/// Whether a count or a range may stand behind a token.
fn is_head(symbols: &[Symbol], closers: &[bool], place: usize) -> bool
    ensures { result ≡ head_by symbols.now closers.now place }
{
    is_next(symbol_at(symbols, place)) || answer_at(closers, place)
}

/// Whether a token is the last one of a `next` form. `closers` tells of each token whether it is the `)` of a
/// `next_event` form.
pub fn ends_form(symbols: &[Symbol], closers: &[bool], place: usize) -> bool
    requires few { place < 2 ^ 31 }
    ensures { result ≡ form_by symbols.now closers.now place }
{
    let alone = is_head(symbols, closers, place)
        && !(is_count(symbols, place + 1) || is_range(symbols, place + 1));
    let counted = is_head(symbols, closers, place.saturating_sub(3))
        && is_count(symbols, place.saturating_sub(2));
    let ranged = is_head(symbols, closers, place.saturating_sub(5))
        && is_range(symbols, place.saturating_sub(4));
    alone || (counted || ranged)
}

/// Whether a token stands behind an operand, by the token before it, whether that one does, and whether it ends a form.
pub fn behind_from(before: Symbol, behind: bool, form: bool) -> bool
    ensures { result ≡ behind_by before behind form }
{
    if is_exclamation(before) {
        return behind;
    }
    ends_operand(before) && !form
}

/// How loosely tokens may be joined in the phrase that a token opens, none where it opens none. `braced` tells whether
/// there was a `{` before it, `behind` whether it stands behind an operand, and `form` whether it ends a `next` form.
pub fn reach_from(symbol: Symbol, braced: bool, behind: bool, form: bool) -> Option<u32>
    ensures { result ≡ reach_by symbol braced behind form }
{
    match symbol {
        Symbol::OpenParenthesis => Some(15),
        Symbol::OpenBrace => {
            if braced {
                return Some(15);
            }
            None
        }
        Symbol::Always | Symbol::Arrow => Some(14),
        Symbol::Suffix => Some(13),
        Symbol::EventuallyStrong => Some(11),
        Symbol::Question => Some(10),
        Symbol::Exclamation | Symbol::Tilde | Symbol::And | Symbol::Caret | Symbol::Or => {
            if behind {
                return None;
            }
            Some(0)
        }
        _ => {
            if form {
                return Some(11);
            }
            None
        }
    }
}
