//! Tables of one step, and of two tables.

ghost use Rattle.std.specs.Prelude.{◌<◌, length, IsTrue};
ghost use Rattle.auto_core.specs.Edges.{HasAtMost};
ghost use Rattle.auto_core.specs.Graph.{graph_machine};

use auto_core::{Auto, Label, Literal, Table, TableError, materialise};
use automata_product::Both;
use sere_automata::{Concat, Leaf, OneOf, Repeat};
use std::alloc::{AllocError, Global};

fn label_of(alloc: Global, literals: &[Literal]) -> Result<Label, AllocError> {
    let mut label = Label::new(alloc);
    for literal in literals {
        label.put(*literal)?;
    }
    Ok(label)
}

// One step with a label of these literals.
pub(crate) fn leaf_table(alloc: Global, literals: &[Literal]) -> Result<Table, TableError> {
    match label_of(alloc, literals) {
        Ok(label) => materialise(alloc, &Leaf::new(label), 2),
        Err(_) => Err(TableError::OutOfMemory),
    }
}

// One step with a symbol.
pub(crate) fn symbol_table(alloc: Global, symbol: usize) -> Result<Table, TableError> {
    let literal = Literal {
        symbol,
        positive: true,
    };
    leaf_table(alloc, &[literal])
}

// Whether both tables have few edges; then what is made of them fits.
fn are_small(left: &Table, right: &Table) -> bool
    ensures left { IsTrue result → HasAtMost (⟦<Table as Auto>⟧.own left.now) (graph_machine left.now) 100000 }
    ensures right { IsTrue result → HasAtMost (⟦<Table as Auto>⟧.own right.now) (graph_machine right.now) 100000 }
{
    left.edges().len() <= 100_000 && right.edges().len() <= 100_000
}

// The tables of both, of one after the other, of either, and of any number.
pub(crate) fn together(alloc: Global, left: &Table, right: &Table) -> Result<Table, TableError> {
    if !are_small(left, right) {
        return Err(TableError::TooMany);
    }
    materialise(alloc, &Both::new(left, right), 5000)
}

pub(crate) fn followed(alloc: Global, left: &Table, right: &Table) -> Result<Table, TableError> {
    if !are_small(left, right) {
        return Err(TableError::TooMany);
    }
    materialise(alloc, &Concat::new(left, right), 5000)
}

pub(crate) fn either(alloc: Global, left: &Table, right: &Table) -> Result<Table, TableError> {
    if !are_small(left, right) {
        return Err(TableError::TooMany);
    }
    materialise(alloc, &OneOf::new(left, right), 5000)
}

pub(crate) fn again_and_again(alloc: Global, inner: &Table) -> Result<Table, TableError> {
    if !are_small(inner, inner) {
        return Err(TableError::TooMany);
    }
    materialise(alloc, &Repeat::new(inner), 5000)
}

// Two steps, each with one symbol.
pub(crate) fn two_steps(alloc: Global, first: usize, second: usize) -> Result<Table, TableError> {
    let first = symbol_table(alloc, first)?;
    let second = symbol_table(alloc, second)?;
    followed(alloc, &first, &second)
}

// The choice of as many first symbols, each followed by the symbol 9.
pub(crate) fn alternatives(alloc: Global, count: usize) -> Result<Table, TableError> {
    let mut table = two_steps(alloc, 0, 9)?;
    for symbol in 1..count {
        let next = two_steps(alloc, symbol, 9)?;
        table = either(alloc, &table, &next)?;
    }
    Ok(table)
}

// At any time symbol 0, then as many letters, then symbol 1.
pub(crate) fn delayed(alloc: Global, letters: usize) -> Result<Table, TableError> {
    let any = leaf_table(alloc, &[])?;
    let first = symbol_table(alloc, 0)?;
    let before = again_and_again(alloc, &any)?;
    let mut table = followed(alloc, &before, &first)?;
    for _letter in 0..letters {
        table = followed(alloc, &table, &any)?;
    }
    let last = symbol_table(alloc, 1)?;
    followed(alloc, &table, &last)
}
