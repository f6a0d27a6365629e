//! Tables by their sizes and by the lists that they accept.

use crate::shapes::{Shape, table};
use crate::words::{A, B, C, Shown, TOP, accepts_these};
use auto_core::{Table, alive};
use std::alloc::{AllocError, Global};
use std::test::Fail;

// How many states and edges the reached places and their steps are.
static SIZES: [(Shape, u32, usize); 9] = [
    (Shape::ThenNever, 3, 2),
    (Shape::Overlap, 5, 4),
    (Shape::Either, 3, 2),
    (Shape::Together, 3, 2),
    (Shape::Repeated, 2, 2),
    (Shape::Pairs(0), 1, 0),
    (Shape::Pairs(1), 3, 2),
    (Shape::Pairs(32), 65, 64),
    (Shape::AtMost(31), 32, 496),
];

fn are_all_alive(alloc: Global, table: &Table) -> Result<bool, AllocError> {
    let marks = alive(alloc, table)?;
    for state in 0..table.states() {
        if !marks.get(state) {
            return Ok(false);
        }
    }
    Ok(true)
}

#[test]
fn the_states_are_the_reached_places(rt: HostRuntime) -> Result<(), Fail> {
    for (shape, states, edges) in SIZES.iter() {
        let table = table(rt.alloc(), *shape)?;
        assert_eq!(rt; (table.states(), table.edges().len()), (*states, *edges));
    }
    Ok(())
}

#[test]
fn a_part_that_nothing_passes_is_alive(rt: HostRuntime) -> Result<(), Fail> {
    let table = table(rt.alloc(), Shape::ThenNever)?;
    assert!(rt; are_all_alive(rt.alloc(), &table)?);
    Ok(())
}

#[test]
fn a_fusion_overlaps_in_one_letter(rt: HostRuntime) -> Result<(), Fail> {
    let table = table(rt.alloc(), Shape::Overlap)?;
    let accepted: [&[Shown]; 2] = [&[A, B, C], &[TOP, TOP, TOP]];
    let refused: [&[Shown]; 3] = [&[A, C, B], &[A, B, B, C], &[TOP, TOP, TOP, TOP]];
    assert!(rt; accepts_these(&table, &accepted, &refused));
    Ok(())
}

#[test]
fn no_copy_is_no_letter(rt: HostRuntime) -> Result<(), Fail> {
    let table = table(rt.alloc(), Shape::Pairs(0))?;
    let accepted: [&[Shown]; 1] = [&[]];
    let refused: [&[Shown]; 2] = [&[TOP], &[A, B]];
    assert!(rt; accepts_these(&table, &accepted, &refused));
    Ok(())
}

#[test]
fn copies_may_be_left_out(rt: HostRuntime) -> Result<(), Fail> {
    let table = table(rt.alloc(), Shape::AtMost(2))?;
    let accepted: [&[Shown]; 3] = [&[], &[A], &[A, TOP]];
    let refused: [&[Shown]; 2] = [&[B], &[A, A, A]];
    assert!(rt; accepts_these(&table, &accepted, &refused));
    Ok(())
}
