//! Texts with the trees that they have by the grammar, or with the answer, worked out by hand.

ghost use Rattle.std.specs.Prelude.{◌≤◌, length};

use crate::printing::unit_text;
use psl_lexer::laws::tokens_stand_in_order;
use psl_lexer::tokens;
use psl_parser::{ParseError, first_too_deep, parse_unit};
use std::alloc::{AllocError, Global};

mod expressions;
mod limits;
mod properties;
mod sequences;
mod units;

// The tree of a text, as a text.
fn tree_of(alloc: Global, text: &[u8]) -> Result<Vec<u8>, ParseError>
    requires { length text.now ≤ 1048576 }
{
    match tokens(alloc, text) {
        Err(_) => Err(ParseError::OutOfMemory),
        Ok(found) => {
            tokens_stand_in_order();
            match parse_unit(alloc, text, &found) {
                Err(error) => Err(error),
                Ok(unit) => match unit_text(alloc, text, &found, &unit) {
                    Ok(printed) => Ok(printed),
                    Err(_) => Err(ParseError::OutOfMemory),
                },
            }
        }
    }
}

// Whether the answer to a text is this one.
fn unit_gives(alloc: Global, text: &[u8], want: Result<&[u8], ParseError>) -> bool {
    if text.len() > 1_048_576 {
        return false;
    }
    match (tree_of(alloc, text), want) {
        (Ok(found), Ok(wanted)) => found.as_slice() == wanted,
        (Err(error), Err(wanted)) => error == wanted,
        _ => false,
    }
}

// What answer a text gets, none for a unit.
fn fault_of(alloc: Global, text: &[u8]) -> Option<ParseError> {
    if text.len() > 1_048_576 {
        return Some(ParseError::OutOfMemory);
    }
    match tree_of(alloc, text) {
        Ok(_) => None,
        Err(error) => Some(error),
    }
}

// The first token that is too deep, told by the tokens alone.
fn depth_of(alloc: Global, text: &[u8]) -> Option<u32> {
    if text.len() > 1_048_576 {
        return Some(u32::MAX);
    }
    match tokens(alloc, text) {
        Err(_) => Some(u32::MAX),
        Ok(found) => {
            tokens_stand_in_order();
            match first_too_deep(alloc, text, &found) {
                Err(_) => Some(u32::MAX),
                Ok(first) => first,
            }
        }
    }
}

// The bytes one behind the other.
fn joined(alloc: Global, first: &[u8], middle: &[u8], last: &[u8]) -> Result<Vec<u8>, AllocError> {
    let mut text = first.to_vec(alloc)?;
    text.extend_from_slice(middle)?;
    text.extend_from_slice(last)?;
    Ok(text)
}

// Whether an assertion's property has a tree, behind a sequence `s` and a property `p`. Its first token is the 17th.
fn prop_gives(alloc: Global, body: &[u8], tree: &[u8]) -> bool {
    let text = joined(
        alloc,
        b"vunit u { sequence s = {a}; property p = a; assert ",
        body,
        b"; }",
    );
    let want = joined(
        alloc,
        b"u: sequence s = a; property p = a; assert ",
        tree,
        b";",
    );
    match (text, want) {
        (Ok(text), Ok(want)) => unit_gives(alloc, &text, Ok(&want)),
        _ => false,
    }
}

// Whether the parser stops at a token of such an assertion.
fn stops_at(alloc: Global, body: &[u8], token: u32) -> bool {
    match joined(
        alloc,
        b"vunit u { sequence s = {a}; property p = a; assert ",
        body,
        b"; }",
    ) {
        Ok(text) => unit_gives(alloc, &text, Err(ParseError::Syntax { token })),
        Err(_) => false,
    }
}
