//! Automata of first failure, row by row.

use crate::sets::sets_of;
use crate::tables::{
    again_and_again, either, followed, leaf_table, symbol_table, together, two_steps,
};
use auto_core::{Literal, Table};
use first_failure::{FailAuto, Next, first_failure};
use std::alloc::Global;
use std::test::Fail;

const A: Literal = Literal {
    symbol: 0,
    positive: true,
};

const B: Literal = Literal {
    symbol: 1,
    positive: true,
};

const NOT_B: Literal = Literal {
    symbol: 1,
    positive: false,
};

fn has_row(auto: &FailAuto, place: usize, symbols: &[usize], next: &[Next]) -> bool {
    match auto.rows.as_slice().get(place) {
        Some(row) => row.symbols.as_slice() == symbols && row.next.as_slice() == next,
        None => false,
    }
}

// Whether the automaton has just these rows, each given by its symbols and where its values lead.
fn has_rows(auto: &FailAuto, rows: &[(&[usize], &[Next])]) -> bool {
    if auto.rows.len() != rows.len() {
        return false;
    }
    for place in 0..rows.len() {
        let (symbols, next) = rows[place];
        if !has_row(auto, place, symbols, next) {
            return false;
        }
    }
    true
}

fn tells(alloc: Global, table: &Table, rows: &[(&[usize], &[Next])]) -> bool {
    match sets_of(alloc, table, 512) {
        Ok(sets) => {
            match first_failure(alloc, &sets) {
                Ok(auto) => has_rows(&auto, rows),
                Err(_) => false,
            }
        }
        Err(_) => false,
    }
}

#[test]
fn a_step_after_a_step(rt: HostRuntime) -> Result<(), Fail> {
    let table = two_steps(rt.alloc(), 0, 1)?;
    assert!(rt;
        tells(
            rt.alloc(),
            &table,
            &[
                (&[0], &[Next::Fail, Next::Go(1)]),
                (&[1], &[Next::Fail, Next::Done])
            ]
        )
    );
    Ok(())
}

#[test]
fn both_signs_of_a_symbol_pass_no_value(rt: HostRuntime) -> Result<(), Fail> {
    let first = symbol_table(rt.alloc(), 0)?;
    let never = leaf_table(rt.alloc(), &[B, NOT_B])?;
    let table = followed(rt.alloc(), &first, &never)?;
    assert!(rt;
        tells(
            rt.alloc(),
            &table,
            &[
                (&[0], &[Next::Fail, Next::Go(1)]),
                (&[1], &[Next::Fail, Next::Fail])
            ]
        )
    );
    Ok(())
}

#[test]
fn the_first_symbol_is_the_lowest_bit(rt: HostRuntime) -> Result<(), Fail> {
    let table = leaf_table(rt.alloc(), &[A, NOT_B])?;
    assert!(rt;
        tells(
            rt.alloc(),
            &table,
            &[(&[0, 1], &[Next::Fail, Next::Done, Next::Fail, Next::Fail])]
        )
    );
    Ok(())
}

#[test]
fn a_start_that_accepts_is_not_done(rt: HostRuntime) -> Result<(), Fail> {
    let step = symbol_table(rt.alloc(), 0)?;
    let table = again_and_again(rt.alloc(), &step)?;
    assert!(rt; tells(rt.alloc(), &table, &[(&[0], &[Next::Fail, Next::Done])]));
    Ok(())
}

#[test]
fn a_symbol_of_a_step_to_a_dead_state_does_not_leave(rt: HostRuntime) -> Result<(), Fail> {
    let two = two_steps(rt.alloc(), 1, 2)?;
    let one = symbol_table(rt.alloc(), 3)?;
    let dead = together(rt.alloc(), &two, &one)?;
    let step = symbol_table(rt.alloc(), 0)?;
    let table = either(rt.alloc(), &step, &dead)?;
    assert!(rt; tells(rt.alloc(), &table, &[(&[0], &[Next::Fail, Next::Done])]));
    Ok(())
}
