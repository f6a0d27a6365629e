//! How many reached sets there are, and which tables no list of tops passes.

use crate::tables::{alternatives, delayed, leaf_table, symbol_table, together, two_steps};
use auto_core::{Literal, Table, alive, contradiction};
use std::alloc::{AllocError, Global};
use std::test::Fail;
use weak_determinise::{DetError, Sets, determinise};

// The reached sets, of which each has at most eight leaving symbols.
pub(crate) fn sets_of(alloc: Global, table: &Table, max_sets: u32) -> Result<Sets, DetError> {
    match alive(alloc, table) {
        Ok(marks) => determinise(alloc, table, &marks, max_sets, 8),
        Err(_) => Err(DetError::OutOfMemory),
    }
}

fn is_too_large(alloc: Global, table: &Table, max_sets: u32) -> bool {
    match sets_of(alloc, table, max_sets) {
        Ok(_) => false,
        Err(error) => error == DetError::TooLarge,
    }
}

fn has_sets(alloc: Global, table: &Table, count: usize, max_sets: u32) -> bool {
    match sets_of(alloc, table, max_sets) {
        Ok(sets) => sets.nodes.len() == count,
        Err(_) => false,
    }
}

fn is_contradictory(alloc: Global, table: &Table) -> Result<bool, AllocError> {
    let marks = alive(alloc, table)?;
    Ok(contradiction(table, &marks))
}

#[test]
fn eight_alternatives_have_256_sets(rt: HostRuntime) -> Result<(), Fail> {
    let table = alternatives(rt.alloc(), 8)?;
    assert!(rt; has_sets(rt.alloc(), &table, 256, 512));
    assert!(rt; has_sets(rt.alloc(), &table, 256, 256));
    assert!(rt; is_too_large(rt.alloc(), &table, 255));
    Ok(())
}

#[test]
fn nine_alternatives_are_too_large(rt: HostRuntime) -> Result<(), Fail> {
    let table = alternatives(rt.alloc(), 9)?;
    assert!(rt; is_too_large(rt.alloc(), &table, 100_000));
    Ok(())
}

#[test]
fn eight_letters_between_two_symbols_give_513_sets(rt: HostRuntime) -> Result<(), Fail> {
    let table = delayed(rt.alloc(), 8)?;
    assert!(rt; has_sets(rt.alloc(), &table, 513, 513));
    assert!(rt; is_too_large(rt.alloc(), &table, 512));
    Ok(())
}

#[test]
fn no_set_is_allowed_by_no_number(rt: HostRuntime) -> Result<(), Fail> {
    let table = symbol_table(rt.alloc(), 0)?;
    assert!(rt; is_too_large(rt.alloc(), &table, 0));
    assert!(rt; has_sets(rt.alloc(), &table, 1, 1));
    Ok(())
}

#[test]
fn two_lengths_at_once_are_contradictory(rt: HostRuntime) -> Result<(), Fail> {
    let two = two_steps(rt.alloc(), 0, 1)?;
    let one = symbol_table(rt.alloc(), 2)?;
    let both = together(rt.alloc(), &two, &one)?;
    assert!(rt; is_contradictory(rt.alloc(), &both)?);
    assert!(rt; !is_contradictory(rt.alloc(), &two)?);
    Ok(())
}

#[test]
fn a_label_with_both_signs_is_not_contradictory(rt: HostRuntime) -> Result<(), Fail> {
    let signs = [
        Literal {
            symbol: 0,
            positive: true,
        },
        Literal {
            symbol: 0,
            positive: false,
        },
    ];
    let never = leaf_table(rt.alloc(), &signs)?;
    assert!(rt; !is_contradictory(rt.alloc(), &never)?);
    Ok(())
}
