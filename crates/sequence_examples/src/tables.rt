//! Tables over the symbols 0 and 1, and the automata of rows that are made of them.

ghost use Rattle.std.specs.Prelude.{◌≡◌, ◌<◌, nat_lt, length, All, IfOk, IsTrue};
ghost use Rattle.std.specs.List.{list_all};
ghost use Rattle.auto_core.specs.Edges.{HasAtMost};
ghost use Rattle.auto_core.specs.Graph.{graph_machine};
ghost use Rattle.first_failure.specs.FirstFailure.{IsWhole};
ghost use Rattle.sequence_examples.specs.Guarded.{is_below, is_guarded, is_asked};

use auto_core::{Auto, Edge, Label, Literal, Table, TableError, alive, materialise};
use first_failure::laws::the_rows_of_reached_sets_tell_the_first_failure;
use first_failure::{FailAuto, FailRow, first_failure};
use sere_automata::{Concat, Leaf, Repeat};
use std::alloc::{AllocError, Global};
use weak_determinise::{DetError, determinise};

fn label_of(alloc: Global, literal: Literal) -> Result<Label, AllocError> {
    let mut label = Label::new(alloc);
    label.put(literal)?;
    Ok(label)
}

// One step with a symbol.
pub(crate) fn symbol_table(alloc: Global, symbol: usize) -> Result<Table, TableError> {
    let literal = Literal {
        symbol,
        positive: true,
    };
    match label_of(alloc, literal) {
        Ok(label) => materialise(alloc, &Leaf::new(label), 2),
        Err(_) => Err(TableError::OutOfMemory),
    }
}

// Whether both tables have few edges; then what is made of them fits.
fn are_small(left: &Table, right: &Table) -> bool
    ensures left { IsTrue result → HasAtMost (⟦<Table as Auto>⟧.own left.now) (graph_machine left.now) 100000 }
    ensures right { IsTrue result → HasAtMost (⟦<Table as Auto>⟧.own right.now) (graph_machine right.now) 100000 }
{
    left.edges().len() <= 100_000 && right.edges().len() <= 100_000
}

pub(crate) fn followed(alloc: Global, left: &Table, right: &Table) -> Result<Table, TableError> {
    if !are_small(left, right) {
        return Err(TableError::TooMany);
    }
    materialise(alloc, &Concat::new(left, right), 5000)
}

pub(crate) fn again_and_again(alloc: Global, inner: &Table) -> Result<Table, TableError> {
    if !are_small(inner, inner) {
        return Err(TableError::TooMany);
    }
    materialise(alloc, &Repeat::new(inner), 5000)
}

// Symbol 0, and then symbol 1.
pub(crate) fn two_steps(alloc: Global) -> Result<Table, TableError> {
    let first = symbol_table(alloc, 0)?;
    let second = symbol_table(alloc, 1)?;
    followed(alloc, &first, &second)
}

fn has_symbols_below(label: &Label, count: usize) -> bool
    ensures { result ≡ list_all (is_below count) label.now }
{
    label
        .literals()
        .iter()
        .all(|literal| literal.symbol < count)
}

fn all_guarded(edges: &[Edge], count: usize) -> bool
    ensures { result ≡ list_all (is_guarded count) edges.now }
{
    edges
        .iter()
        .all(|edge| has_symbols_below(&edge.label, count))
}

// Whether each symbol on a label is below a number.
pub(crate) fn are_guarded(table: &Table, count: usize) -> bool
    ensures { IsTrue result → All (λ e. All (λ l. l.symbol < count) e.label) table.now.edges }
{
    all_guarded(table.edges(), count)
}

// The automaton of first failure.
pub(crate) fn rows_of(alloc: Global, table: &Table) -> Result<FailAuto, DetError>
    ensures { IfOk result (λ automaton. IsWhole automaton) }
{
    the_rows_of_reached_sets_tell_the_first_failure();
    let Ok(marks) = alive(alloc, table) else {
        return Err(DetError::OutOfMemory);
    };
    let sets = determinise(alloc, table, &marks, 512, 8)?;
    match first_failure(alloc, &sets) {
        Ok(automaton) => Ok(automaton),
        Err(_) => Err(DetError::OutOfMemory),
    }
}

fn all_below(symbols: &[usize], count: usize) -> bool
    ensures { result ≡ list_all (λ s. nat_lt s count) symbols.now }
{
    symbols.iter().all(|symbol| *symbol < count)
}

fn all_asked(rows: &[FailRow], count: usize) -> bool
    ensures { result ≡ list_all (is_asked count) rows.now }
{
    rows.iter()
        .all(|row| all_below(row.symbols.as_slice(), count))
}

// Whether each symbol that a row asks for is below a number.
pub(crate) fn are_asked(automaton: &FailAuto, count: usize) -> bool
    ensures { IsTrue result → All (λ row. All (λ s. s < count) row.symbols) automaton.now.rows }
{
    all_asked(automaton.rows.as_slice(), count)
}
