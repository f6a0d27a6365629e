//! Rows in place of reached sets.

ghost use Rattle.std.specs.Prelude.{◌≡◌, map, length, IfOk};
ghost use Rattle.first_failure.specs.FirstFailure.{next_of, row_of};

use sqlite_items::Items;
use std::alloc::{AllocError, Global};
use weak_determinise::{Move, SetNode, Sets};

/// Where truth values lead from a row.
#[derive(Clone, Copy, Debug, PartialEq, Eq)]
pub enum Next {
    /// Nothing that comes after is accepted.
    Fail,
    /// What was read is accepted.
    Done,
    /// To the row with this number.
    Go(u32),
}

/// A row, with one entry for each of the values of its symbols: entry v is that of the values in which the k-th symbol
/// has bit k of v.
#[derive(Debug, Drop)]
pub struct FailRow {
    pub symbols: Items<usize>,
    pub next: Items<Next>,
}

/// An automaton that begins in row 0, and tells where a list of truth values is first accepted, or first can no longer
/// be.
#[derive(Debug, Drop)]
pub struct FailAuto {
    pub rows: Items<FailRow>,
}

fn entry(way: Move) -> Next
    ensures { result ≡ next_of way }
{
    match way {
        Move::Empty => Next::Fail,
        Move::Accepting => Next::Done,
        Move::Set(number) => Next::Go(number),
    }
}

fn entries(alloc: Global, moves: &[Move]) -> Result<Items<Next>, AllocError>
    ensures { IfOk result (λ next. next ≡ map next_of moves.now) }
{
    let mut next = Items::new(alloc);
    for way in moves {
        next.push(entry(*way))?;
    }
    Ok(next)
}

fn row(alloc: Global, node: &SetNode) -> Result<FailRow, AllocError>
    ensures { IfOk result (λ row. row ≡ row_of node.now) }
{
    let symbols = Items::from_slice(alloc, node.leaving.as_slice())?;
    let next = entries(alloc, node.moves.as_slice())?;
    Ok(FailRow { symbols, next })
}

fn rows(alloc: Global, nodes: &[SetNode]) -> Result<Items<FailRow>, AllocError>
    ensures { IfOk result (λ rows. rows ≡ map row_of nodes.now) }
{
    let mut rows = Items::new(alloc);
    for node in nodes {
        rows.push(row(alloc, node)?)?;
    }
    Ok(rows)
}

/// A row for each reached set, in their order, with where its moves lead. What this tells of the table whose reached
/// sets these are is a law: [`laws::the_rows_of_reached_sets_tell_the_first_failure`](crate::laws).
pub fn first_failure(alloc: Global, sets: &Sets) -> Result<FailAuto, AllocError>
    ensures rows { IfOk result (λ auto. auto.rows ≡ map row_of sets.now.nodes) }
    ensures count { IfOk result (λ auto. length auto.rows ≡ length sets.now.nodes) }
{
    let rows = rows(alloc, sets.nodes.as_slice())?;
    Ok(FailAuto { rows })
}
