//! The rules that look at one place alone: on ranges, counts, selects and literals.

ghost use Rattle.std.specs.Prelude.{true, false, not, ◌||◌, ◌≡◌, ◌<◌, ◌≤◌, ◌^◌, ◌+◌, ◌==◌, ◌&&◌, min, nat_lt, nat_le};
ghost use Rattle.std.specs.Prelude.{OnOk, IfOk};
ghost use Rattle.unit_rules.specs.Source.{source, kind_at};
ghost use Rattle.unit_rules.specs.Numbers.{number_at};
ghost use Rattle.unit_rules.specs.Known.{declared_width};
ghost use Rattle.unit_rules.specs.inner.Judging.{Judges};
ghost use Rattle.unit_rules.specs.Faults.{where_broken, count_limit, span_faults, count_faults, second_count};
ghost use Rattle.unit_rules.specs.Faults.{select_faults, low_end, is_lawful_literal};
ghost use Rattle.unit_rules.specs.declared.errors.UnitError.TheVariants.{BadLiteral};

use crate::errors::UnitError;
use crate::numbers::{is_lawful_sized, number_at};
use crate::operators::refuses_zero;
use crate::source::{bytes_at, is_number, is_sized, kind_at};
use psl_lexer::Token;

/// The largest count.
const COUNT_LIMIT: u32 = 4096;

/// Refuses where a rule is broken.
pub fn refuse(broken: bool, fault: UnitError) -> Result<(), UnitError>
    ensures judged { Judges result (where_broken broken fault) }
    ensures kept { OnOk result (broken ≡ false) }
{
    if broken {
        return Err(fault);
    }
    Ok(())
}

// Whether a number is above one of at most 32 bits.
fn is_above(text: &[u8], tokens: &[Token], token: u32, limit: u32) -> bool
    ensures { result ≡ nat_lt limit (number_at (source text.now tokens.now) token) }
{
    number_at(text, tokens, token) > limit as u64
}

fn is_zero(text: &[u8], tokens: &[Token], token: u32) -> bool
    ensures { result ≡ (number_at (source text.now tokens.now) token == 0) }
{
    number_at(text, tokens, token) == 0
}

// Whether a number is at least another.
fn is_at_least(text: &[u8], tokens: &[Token], token: u32, limit: u32) -> bool
    ensures { result ≡ nat_le limit (number_at (source text.now tokens.now) token) }
{
    number_at(text, tokens, token) >= limit as u64
}

// Whether the number of a token is below that of another, which has at most 32 bits.
fn is_below(text: &[u8], tokens: &[Token], token: u32, other: u32) -> bool
    requires { number_at (source text.now tokens.now) other ≤ 2 ^ 32 }
    ensures { result ≡ nat_lt (number_at (source text.now tokens.now) token)
        (number_at (source text.now tokens.now) other) }
{
    number_at(text, tokens, token) < number_at(text, tokens, other)
}

fn judge_second(text: &[u8], tokens: &[Token], low: u32, high: Option<u32>) -> Result<(), UnitError>
    requires { number_at (source text.now tokens.now) low ≤ count_limit }
    ensures { Judges result (second_count (source text.now tokens.now) low high) }
{
    let Some(high) = high else {
        return Ok(());
    };
    if !is_number(kind_at(tokens, high)) {
        return Ok(());
    }
    refuse(
        is_below(text, tokens, high, low),
        UnitError::BadRange { token: high },
    )?;
    refuse(
        is_above(text, tokens, high, COUNT_LIMIT),
        UnitError::CountTooLarge { token: high },
    )
}

/// Judges the counts after a mark or a word.
pub fn judge_counts(
    text: &[u8],
    tokens: &[Token],
    mark: u32,
    low: u32,
    high: Option<u32>,
) -> Result<(), UnitError>
    ensures { Judges result (count_faults (source text.now tokens.now) mark low high) }
{
    let zero = refuses_zero(kind_at(tokens, mark)) && is_zero(text, tokens, low);
    refuse(zero, UnitError::BadRange { token: low })?;
    refuse(
        is_above(text, tokens, low, COUNT_LIMIT),
        UnitError::CountTooLarge { token: low },
    )?;
    judge_second(text, tokens, low, high)
}

/// The most bits of a vector.
const VECTOR_LIMIT: u32 = 64;

/// Judges the range of a `wire`.
pub fn judge_span(text: &[u8], tokens: &[Token], high: u32, low: u32) -> Result<(), UnitError>
    ensures judged { Judges result (span_faults (source text.now tokens.now) high low) }
    ensures small { OnOk result (number_at (source text.now tokens.now) high < 64) }
{
    let zeros = is_zero(text, tokens, high) && is_zero(text, tokens, low);
    refuse(zeros, UnitError::BadRange { token: high })?;
    refuse(
        is_at_least(text, tokens, high, VECTOR_LIMIT),
        UnitError::TooWide { token: high },
    )?;
    refuse(
        !is_zero(text, tokens, low),
        UnitError::BadRange { token: low },
    )
}

// Whether a vector of this width lacks the place of a number.
fn lacks_place(text: &[u8], tokens: &[Token], width: u32, token: u32) -> bool
    ensures { result ≡ (nat_le width 1 || nat_le width (number_at (source text.now tokens.now) token)) }
{
    width <= 1 || is_at_least(text, tokens, token, width)
}

fn judge_low_end(
    text: &[u8],
    tokens: &[Token],
    width: u32,
    high: u32,
    low: Option<u32>,
) -> Result<(), UnitError>
    requires { number_at (source text.now tokens.now) high < 2 ^ 32 }
    ensures { Judges result (low_end (source text.now tokens.now) width high low) }
{
    let Some(low) = low else {
        return Ok(());
    };
    let broken = lacks_place(text, tokens, width, low) || is_above_other(text, tokens, low, high);
    refuse(broken, UnitError::BadSelect { token: low })
}

// Whether the number of a token is above that of another, which has at most 32 bits.
fn is_above_other(text: &[u8], tokens: &[Token], token: u32, other: u32) -> bool
    requires { number_at (source text.now tokens.now) other < 2 ^ 32 }
    ensures { result ≡ nat_lt (number_at (source text.now tokens.now) other)
        (number_at (source text.now tokens.now) token) }
{
    number_at(text, tokens, token) > number_at(text, tokens, other)
}

/// Judges the select from a signal of some bits.
pub fn judge_select(
    text: &[u8],
    tokens: &[Token],
    width: u32,
    select: Option<(u32, Option<u32>)>,
) -> Result<(), UnitError>
    ensures { Judges result (select_faults (source text.now tokens.now) width select) }
{
    let Some((high, low)) = select else {
        return Ok(());
    };
    let broken = lacks_place(text, tokens, width, high);
    refuse(broken, UnitError::BadSelect { token: high })?;
    judge_low_end(text, tokens, width, high, low)
}

fn is_lawful_literal(text: &[u8], tokens: &[Token], token: u32) -> bool
    ensures { result ≡ is_lawful_literal (source text.now tokens.now) token }
{
    let kind = kind_at(tokens, token);
    if is_number(kind) {
        return number_at(text, tokens, token) < 1 << 32;
    }
    if is_sized(kind) {
        return is_lawful_sized(bytes_at(text, tokens, token));
    }
    true
}

/// Judges a literal.
pub fn judge_literal(text: &[u8], tokens: &[Token], token: u32) -> Result<(), UnitError>
    ensures { Judges result (where_broken (not (is_lawful_literal (source text.now tokens.now) token))
        (BadLiteral token)) }
{
    refuse(
        !is_lawful_literal(text, tokens, token),
        UnitError::BadLiteral { token },
    )
}

/// How many bits a `wire` of this range gives its names: 1 where that is too many.
pub fn declared_width(text: &[u8], tokens: &[Token], range: Option<(u32, u32)>) -> u32
    ensures { result ≡ declared_width (source text.now tokens.now) range }
{
    let Some((high, _)) = range else {
        return 1;
    };
    let number = number_at(text, tokens, high);
    if number < VECTOR_LIMIT as u64 {
        return number as u32 + 1;
    }
    1
}
