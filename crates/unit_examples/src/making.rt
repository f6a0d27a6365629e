//! Texts of units, made of parts.

use crate::asking::{Answer, Rule, answer_to};
use std::alloc::{AllocError, Global};

// A unit of some items.
fn unit_text(alloc: Global, items: &[u8]) -> Result<Vec<u8>, AllocError> {
    let mut text = b"vunit u { ".to_vec(alloc)?;
    text.extend_from_slice(items)?;
    text.extend_from_slice(b" }")?;
    Ok(text)
}

/// What a unit of some items is answered.
pub fn answer_to_items(alloc: Global, items: &[u8]) -> Answer {
    match unit_text(alloc, items) {
        Ok(text) => answer_to(alloc, &text),
        Err(_) => Answer::NoMemory,
    }
}

// Where the first `@` stands, or the length where there is none.
fn mark_of(text: &[u8]) -> usize {
    for (place, byte) in text.iter().enumerate() {
        if *byte == b'@' {
            return place;
        }
    }
    text.len()
}

// A text without each `@`.
fn unmarked(alloc: Global, text: &[u8]) -> Result<Vec<u8>, AllocError> {
    let mut plain = Vec::new(alloc);
    for byte in text {
        if *byte != b'@' {
            plain.push(*byte)?;
        }
    }
    Ok(plain)
}

// Whether a text is refused by a rule at the token behind the first `@`.
fn is_broken_at_mark(alloc: Global, rule: Rule, text: &[u8]) -> bool {
    match unmarked(alloc, text) {
        Ok(plain) => answer_to(alloc, &plain) == Answer::Broken(rule, mark_of(text)),
        Err(_) => false,
    }
}

/// Whether a unit of some items is refused by a rule at the token behind the first `@`. No `@` belongs to the unit.
pub fn breaks(alloc: Global, rule: Rule, items: &[u8]) -> bool {
    match unit_text(alloc, items) {
        Ok(text) => is_broken_at_mark(alloc, rule, &text),
        Err(_) => false,
    }
}

/// Whether a unit of some items and then others is refused by a rule at the token behind the first `@`.
pub fn breaks_first(alloc: Global, rule: Rule, items: &[u8], others: &[u8]) -> bool {
    match joined(alloc, items, others) {
        Ok(both) => breaks(alloc, rule, &both),
        Err(_) => false,
    }
}

/// Some bytes, and others behind them.
pub fn joined(alloc: Global, first: &[u8], second: &[u8]) -> Result<Vec<u8>, AllocError> {
    let mut text = first.to_vec(alloc)?;
    text.extend_from_slice(second)?;
    Ok(text)
}

// Puts a piece behind a text, with a number for each `%`, and the number before for each `#`.
fn put_numbered(
    alloc: Global,
    text: &mut Vec<u8>,
    piece: &[u8],
    before: u32,
    number: u32,
) -> Result<(), AllocError> {
    for byte in piece {
        match *byte {
            b'#' => text.extend_from_slice(format!(in alloc; "{before}")?.as_bytes())?,
            b'%' => text.extend_from_slice(format!(in alloc; "{number}")?.as_bytes())?,
            other => text.push(other)?,
        }
    }
    Ok(())
}

/// A piece again and again between other bytes, with a number from 1 on for each `%`, and the number before for each
/// `#`.
pub fn chain(
    alloc: Global,
    first: &[u8],
    piece: &[u8],
    times: u32,
    last: &[u8],
) -> Result<Vec<u8>, AllocError> {
    let mut text = first.to_vec(alloc)?;
    for before in 0..times {
        put_numbered(alloc, &mut text, piece, before, before + 1)?;
    }
    text.extend_from_slice(last)?;
    Ok(text)
}

/// What a unit of such a chain is answered.
pub fn answer_to_chain(
    alloc: Global,
    first: &[u8],
    piece: &[u8],
    times: u32,
    last: &[u8],
) -> Answer {
    match chain(alloc, first, piece, times, last) {
        Ok(items) => answer_to_items(alloc, &items),
        Err(_) => Answer::NoMemory,
    }
}

/// Whether a unit of such a chain is refused by a rule at the token behind the first `@`.
pub fn chain_breaks(
    alloc: Global,
    rule: Rule,
    first: &[u8],
    piece: &[u8],
    times: u32,
    last: &[u8],
) -> bool {
    match chain(alloc, first, piece, times, last) {
        Ok(items) => breaks(alloc, rule, &items),
        Err(_) => false,
    }
}
