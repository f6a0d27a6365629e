//! Small tables by their words and numbers, and long ones for their time.

use crate::tables::{
    again_and_again, either, followed, leaf_table, overlap_of, symbol_table, together, two_choices,
    two_steps,
};
use crate::words::{A, B, C, Shown, TOP, accepts_these};
use auto_core::{Literal, Table, TableError, alive, materialise};
use std::alloc::{AllocError, Global};
use std::test::Fail;

const NOT_A: Literal = Literal {
    symbol: 0,
    positive: false,
};

const NOT_B: Literal = Literal {
    symbol: 1,
    positive: false,
};

const ALSO_B: Literal = Literal {
    symbol: 1,
    positive: true,
};

fn are_all_alive(alloc: Global, table: &Table) -> Result<bool, AllocError> {
    let marks = alive(alloc, table)?;
    for state in 0..table.states() {
        if !marks.get(state) {
            return Ok(false);
        }
    }
    Ok(true)
}

fn has_size(table: &Table, states: u32, edges: usize) -> bool {
    table.states() == states && table.edges().len() == edges
}

#[test]
fn a_step_has_two_states(rt: HostRuntime) -> Result<(), Fail> {
    let table = symbol_table(rt.alloc(), 0)?;
    assert!(rt; has_size(&table, 2, 1));
    assert!(rt; are_all_alive(rt.alloc(), &table)?);
    Ok(())
}

#[test]
fn a_state_more_than_the_limit_is_too_many(rt: HostRuntime) -> Result<(), Fail> {
    let table = symbol_table(rt.alloc(), 0)?;
    assert!(rt;
        matches!(
            materialise(rt.alloc(), &&table, 1),
            Err(TableError::TooMany)
        )
    );
    Ok(())
}

#[test]
fn a_table_of_a_table_is_equal(rt: HostRuntime) -> Result<(), Fail> {
    let table = two_steps(rt.alloc(), 0, 1)?;
    let again = materialise(rt.alloc(), &&table, 3)?;
    assert!(rt; again.edges() == table.edges());
    Ok(())
}

#[test]
fn a_step_that_nothing_passes_is_alive(rt: HostRuntime) -> Result<(), Fail> {
    let first = symbol_table(rt.alloc(), 0)?;
    let never = leaf_table(rt.alloc(), &[ALSO_B, NOT_B])?;
    let table = followed(rt.alloc(), &first, &never)?;
    assert!(rt; has_size(&table, 3, 2));
    assert!(rt; are_all_alive(rt.alloc(), &table)?);
    Ok(())
}

#[test]
fn a_fusion_overlaps_in_one_letter(rt: HostRuntime) -> Result<(), Fail> {
    let left = two_steps(rt.alloc(), 0, 1)?;
    let right = two_steps(rt.alloc(), 1, 2)?;
    let table = overlap_of(rt.alloc(), left, &right)?;
    let accepted: [&[Shown]; 2] = [&[A, B, C], &[TOP, TOP, TOP]];
    let refused: [&[Shown]; 3] = [&[A, C, B], &[A, B, B, C], &[TOP, TOP, TOP, TOP]];
    assert!(rt; accepts_these(&table, &accepted, &refused));
    Ok(())
}

#[test]
fn opposite_signs_pass_a_top_alone(rt: HostRuntime) -> Result<(), Fail> {
    let left = symbol_table(rt.alloc(), 0)?;
    let right = leaf_table(rt.alloc(), &[NOT_A])?;
    let table = together(rt.alloc(), &left, &right)?;
    let accepted: [&[Shown]; 1] = [&[TOP]];
    let refused: [&[Shown]; 2] = [&[A], &[Some([false, true, true])]];
    assert!(rt; accepts_these(&table, &accepted, &refused));
    Ok(())
}

#[test]
fn a_repeated_choice_takes_either_each_time(rt: HostRuntime) -> Result<(), Fail> {
    let choice = two_choices(rt.alloc(), 0, 1)?;
    let table = again_and_again(rt.alloc(), &choice)?;
    let accepted: [&[Shown]; 2] = [&[], &[B, A, A, B]];
    let refused: [&[Shown]; 1] = [&[A, C]];
    assert!(rt; accepts_these(&table, &accepted, &refused));
    assert_eq!(rt; table.states(), 3);
    Ok(())
}

#[test]
fn a_table_of_no_letter_accepts_none(rt: HostRuntime) -> Result<(), Fail> {
    let nothing = Table::of_no_letter(rt.alloc())?;
    let accepted: [&[Shown]; 1] = [&[]];
    let refused: [&[Shown]; 1] = [&[TOP]];
    assert!(rt; accepts_these(&nothing, &accepted, &refused));
    Ok(())
}

#[test]
fn no_letter_before_a_step_is_that_step(rt: HostRuntime) -> Result<(), Fail> {
    let nothing = Table::of_no_letter(rt.alloc())?;
    let step = symbol_table(rt.alloc(), 0)?;
    let table = followed(rt.alloc(), &nothing, &step)?;
    let accepted: [&[Shown]; 1] = [&[A]];
    let refused: [&[Shown]; 1] = [&[]];
    assert!(rt; accepts_these(&table, &accepted, &refused));
    Ok(())
}

// As many steps, each with one symbol.
fn chain(alloc: Global, steps: usize) -> Result<Table, TableError> {
    let mut table = symbol_table(alloc, 0)?;
    for step in 1..steps {
        let next = symbol_table(alloc, step % 3)?;
        table = followed(alloc, &table, &next)?;
    }
    Ok(table)
}

#[test]
fn a_long_chain_has_a_state_more_than_edges(rt: HostRuntime) -> Result<(), Fail> {
    let table = chain(rt.alloc(), 300)?;
    assert!(rt; has_size(&table, 301, 300));
    assert!(rt; are_all_alive(rt.alloc(), &table)?);
    Ok(())
}

// A state with 2 to the power of `depth` edges, each to a state of its own that accepts.
fn many(alloc: Global, depth: usize) -> Result<Table, TableError> {
    let mut table = symbol_table(alloc, 0)?;
    for _ in 0..depth {
        table = either(alloc, &table, &table)?;
    }
    Ok(table)
}

// Equal edges stand there once: 16,384 of the left side, and 2 into the right one.
#[test]
fn many_overlaps_take_time_by_the_edges(rt: HostRuntime) -> Result<(), Fail> {
    let left = many(rt.alloc(), 14)?;
    let right = two_choices(rt.alloc(), 0, 1)?;
    let table = overlap_of(rt.alloc(), left, &right)?;
    assert_eq!(rt; table.edges().len(), 16_386);
    Ok(())
}
