//! The tokens of a text, by their numbers.

ghost use Rattle.std.specs.Prelude.{◌≡◌, [], slice_range};
ghost use Rattle.unit_rules.specs.Source.{source, token_at, kind_at, bytes_at, is_number, is_sized, is_true_word};

use psl_lexer::{Key, Kind, Token};

/// What stands past the last token: nothing.
const NO_TOKEN: Token = Token {
    kind: Kind::Text,
    start: 0,
    end: 0,
};

fn token_at(tokens: &[Token], token: u32) -> Token
    ensures { result ≡ token_at (source [] tokens.now) token }
{
    match tokens.get(token as usize) {
        Some(found) => *found,
        None => NO_TOKEN,
    }
}

/// The kind of a token.
pub fn kind_at(tokens: &[Token], token: u32) -> Kind
    ensures { result ≡ kind_at (source [] tokens.now) token }
{
    token_at(tokens, token).kind
}

/// The offset of a token in the text, in bytes.
pub fn start_of(tokens: &[Token], token: u32) -> u32
    ensures { result ≡ (token_at (source [] tokens.now) token).start }
{
    token_at(tokens, token).start
}

/// The bytes of a token.
pub fn bytes_at<'a>(text: &'a [u8], tokens: &[Token], token: u32) -> &'a [u8]
    ensures { result.now ≡ bytes_at (source text.now tokens.now) token }
{
    let found = token_at(tokens, token);
    part(text, found.start as usize, found.end as usize)
}

// The bytes from a place up to another, as far as there are any.
fn part(text: &[u8], start: usize, end: usize) -> &[u8]
    ensures { result.now ≡ slice_range text.now start end }
{
    let end = end.min(text.len());
    let start = start.min(end);
    &text[start..end]
}

pub fn is_number(kind: Kind) -> bool
    ensures { result ≡ is_number kind }
{
    matches!(kind, Kind::Number)
}

pub fn is_sized(kind: Kind) -> bool
    ensures { result ≡ is_sized kind }
{
    matches!(kind, Kind::Sized)
}

pub fn is_true_word(kind: Kind) -> bool
    ensures { result ≡ is_true_word kind }
{
    matches!(kind, Kind::Word(Key::True))
}
