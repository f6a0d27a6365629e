//! The numbers of a unit's text.

ghost use Rattle.std.specs.Prelude.{◌≡◌, ◌≤◌, ◌<◌, ◌^◌, ℕ, min, not, nat_lt, length, position};
ghost use Rattle.std.specs.List.{before_first, after_first, position_or_len, list_any, list_all};
ghost use Rattle.unit_rules.specs.Source.{source};
ghost use Rattle.unit_rules.specs.Numbers.{digit_of, is_underscore, and_digit, number_of, number_at, base_of, is_quote};
ghost use Rattle.unit_rules.specs.Numbers.{sized_width, sized_base, sized_digits, sized_value, are_digits, is_digit_of};
ghost use Rattle.unit_rules.specs.Numbers.{is_lawful_sized};

use crate::source::bytes_at;
use psl_lexer::Token;

fn is_underscore(byte: u8) -> bool
    ensures { result ≡ is_underscore byte }
{
    byte == b'_'
}

fn digit_of(byte: u8) -> u128
    ensures value { result ≡ digit_of byte }
    ensures small { result ≤ 16 }
{
    match byte {
        48..=57 => byte as u128 - 48,
        97..=102 => byte as u128 - 87,
        65..=70 => byte as u128 - 55,
        _ => 16,
    }
}

// One more digit, where `most` stands for each number from it on.
fn and_digit(base: u128, value: u128, byte: u8, most: u128) -> u128
    requires base { base ≤ 16 }
    requires value { value ≤ 2 ^ 64 }
    requires most { most ≤ 2 ^ 64 }
    ensures { result ≡ min (and_digit base value byte) most }
{
    if is_underscore(byte) {
        return value.min(most);
    }
    (value * base + digit_of(byte)).min(most)
}

#[tactic(auto, using(crate::proofs::NumberLemmas::capped_digit))]
/// The number that digits of a base spell, or `most` where it is at least that.
pub fn number_of(base: u128, digits: &[u8], most: u128) -> u128
    requires base { base ≤ 16 }
    requires most { most ≤ 2 ^ 64 }
    ensures { result ≡ min (number_of base digits.now) most }
{
    let mut value: u128 = 0;
    for byte in digits {
        value = and_digit(base, value, *byte, most);
    }
    value
}

/// The number of a decimal token, or 2^32 where it is at least that.
pub fn number_at(text: &[u8], tokens: &[Token], token: u32) -> u64
    ensures value { result ≡ min (number_at (source text.now tokens.now) token) (2 ^ 32) }
    ensures small { result ≤ 2 ^ 32 }
{
    number_of(10, bytes_at(text, tokens, token), 1 << 32) as u64
}

fn find_quote(bytes: &[u8]) -> Option<usize>
    ensures { result ≡ position is_quote bytes.now }
{
    bytes.iter().position(|byte| *byte == b'\'')
}

// How many bytes stand before the first quote.
fn quote_place(bytes: &[u8]) -> usize
    ensures place { result ≡ position_or_len is_quote bytes.now }
    ensures within { result ≤ length bytes.now }
{
    match find_quote(bytes) {
        Some(place) => place,
        None => bytes.len(),
    }
}

fn before_quote(bytes: &[u8]) -> &[u8]
    ensures { result.now ≡ before_first is_quote bytes.now }
{
    &bytes[..quote_place(bytes)]
}

fn after_quote(bytes: &[u8]) -> &[u8]
    ensures { result.now ≡ after_first is_quote bytes.now }
{
    let place = quote_place(bytes);
    if place < bytes.len() {
        return &bytes[place + 1..];
    }
    &[]
}

fn base_of(byte: u8) -> u128
    ensures value { result ≡ base_of byte }
    ensures small { result ≤ 16 }
{
    match byte {
        b'b' | b'B' => 2,
        b'o' | b'O' => 8,
        b'd' | b'D' => 10,
        b'h' | b'H' => 16,
        _ => 0,
    }
}

fn sized_base(bytes: &[u8]) -> u128
    ensures value { result ≡ sized_base bytes.now }
    ensures small { result ≤ 16 }
{
    match after_quote(bytes) {
        [] => 0,
        [letter, ..] => base_of(*letter),
    }
}

fn sized_digits(bytes: &[u8]) -> &[u8]
    ensures { result.now ≡ sized_digits bytes.now }
{
    match after_quote(bytes) {
        [] => &[],
        [_, digits @ ..] => digits,
    }
}

/// The width of a literal, or 2^32 where it is at least that.
pub fn sized_width(bytes: &[u8]) -> u64
    ensures value { result ≡ min (sized_width bytes.now) (2 ^ 32) }
    ensures small { result ≤ 2 ^ 32 }
{
    number_of(10, before_quote(bytes), 1 << 32) as u64
}

/// The value of a literal, or 2^64 where it is at least that.
pub fn sized_value(bytes: &[u8]) -> u128
    ensures { result ≡ min (sized_value bytes.now) (2 ^ 64) }
{
    number_of(sized_base(bytes), sized_digits(bytes), 1 << 64)
}

fn is_digit_of(base: u128, byte: u8) -> bool
    ensures { result ≡ is_digit_of base byte }
{
    is_underscore(byte) || digit_of(byte) < base
}

fn has_digit(digits: &[u8]) -> bool
    ensures { result ≡ list_any (λ byte. not (is_underscore byte)) digits.now }
{
    digits.iter().any(|byte| !is_underscore(*byte))
}

fn has_only_digits(base: u128, digits: &[u8]) -> bool
    ensures { result ≡ list_all (is_digit_of base) digits.now }
{
    digits.iter().all(|byte| is_digit_of(base, *byte))
}

fn are_digits(base: u128, digits: &[u8]) -> bool
    ensures { result ≡ are_digits base digits.now }
{
    has_digit(digits) && has_only_digits(base, digits)
}

// Whether a value fits a width of at most 64 bits.
fn fits(value: u128, width: u64) -> bool
    requires { width ≤ 64 }
    ensures { result ≡ nat_lt value (2 ^ width) }
{
    value < 1 << width
}

/// Whether a literal has a lawful width, digits of its base, and a value that fits.
pub fn is_lawful_sized(bytes: &[u8]) -> bool
    ensures { result ≡ is_lawful_sized bytes.now }
{
    let width = sized_width(bytes);
    if width < 1 || 64 < width {
        return false;
    }
    are_digits(sized_base(bytes), sized_digits(bytes)) && fits(sized_value(bytes), width)
}
