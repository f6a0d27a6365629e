//! From which states of a table an accepting state is reached.

ghost use Rattle.std.specs.Prelude.{◌≡◌, ◌+◌, ◌<◌, [], ◌∷◌, ◌++◌, false, length, map, replicate, slice_index_or};
ghost use Rattle.std.specs.Prelude.{vec_items};
ghost use Rattle.std.specs.Prelude.{OnOk, IfOk, All, if◌then◌else◌};
ghost use Rattle.auto_core.specs.Graph.{AreMarks};
ghost use Rattle.auto_core.specs.inner.Searching.{HasSources, Spreads, IsSearch};

use crate::automaton::Auto;
use crate::tables::{Edge, Table};
use std::alloc::{AllocError, Global};
use std::marker::Model;

/// A truth value for each state of a table.
#[derive(Debug, Drop)]
pub struct Marks {
    marked: Vec<bool>,
}

impl Model for Marks {
    ghost use Rattle.std.specs.Prelude.{List, Bool};

    ghost Value = { List Bool };

    ghost view = { λ m. m.marked.items };
}

impl Marks {
    /// Whether the state is marked.
    pub fn get(&self, state: u32) -> bool
        requires { state < length self.now }
        ensures { result ≡ slice_index_or self.now state false }
    {
        self.marked[state as usize]
    }
}

fn empty_rows(alloc: Global, count: u32) -> Result<Vec<Vec<u32>>, AllocError>
    ensures { IfOk result (λ rows. map vec_items rows.items ≡ replicate count []) }
{
    let mut rows = Vec::new(alloc);
    for _state in 0..count {
        rows.push(Vec::new(alloc))?;
    }
    Ok(rows)
}

fn put_source(row: &mut Vec<u32>, source: u32) -> Result<(), AllocError>
    ensures { OnOk result (row.new.items ≡ row.old.items ++ source ∷ []) }
{
    Ok(row.push(source)?)
}

// For each state the states from which an edge leads to it.
fn sources_of(alloc: Global, count: u32, edges: &[Edge]) -> Result<Vec<Vec<u32>>, AllocError>
    requires { All (λ e. e.to < count) edges.now }
    ensures size { IfOk result (λ rows. length rows.items ≡ count) }
    ensures sources { IfOk result (λ rows. HasSources edges.now (map vec_items rows.items)) }
{
    let mut rows = empty_rows(alloc, count)?;
    for edge in edges {
        put_source(&mut rows[edge.to as usize], edge.from)?;
    }
    Ok(rows)
}

// Marks a state; where it wasn't marked before, there is work left to do for it.
fn mark(marked: &mut Vec<bool>, work: &mut Vec<u32>, state: u32) -> Result<(), AllocError>
    requires { state < length marked.old.items }
    ensures { OnOk result (Spreads (state ∷ []) marked.old.items work.old.items marked.new.items work.new.items) }
{
    if !marked[state as usize] {
        marked[state as usize] = true;
        work.push(state)?;
    }
    Ok(())
}

fn mark_all(marked: &mut Vec<bool>, work: &mut Vec<u32>, states: &[u32]) -> Result<(), AllocError>
    requires { All (λ n. n < length marked.old.items) states.now }
    ensures { OnOk result (Spreads states.now marked.old.items work.old.items marked.new.items work.new.items) }
{
    for state in states {
        mark(marked, work, *state)?;
    }
    Ok(())
}

// Appends a mark, with work for the state if it is set.
fn push_mark(
    marked: &mut Vec<bool>,
    work: &mut Vec<u32>,
    state: u32,
    accepts: bool,
) -> Result<(), AllocError>
    ensures marks { OnOk result (marked.new.items ≡ marked.old.items ++ accepts ∷ []) }
    ensures works { OnOk result (work.new.items ≡ work.old.items ++ (if accepts then state ∷ [] else [])) }
{
    marked.push(accepts)?;
    if accepts {
        work.push(state)?;
    }
    Ok(())
}

// Marks the accepting states.
fn begin(table: &Table, marked: &mut Vec<bool>, work: &mut Vec<u32>) -> Result<(), AllocError>
    requires unmarked { marked.old.items ≡ [] }
    requires idle { work.old.items ≡ [] }
    ensures { OnOk result (IsSearch table.now marked.new.items work.new.items) }
{
    for state in 0..table.states() {
        let accepts = table.accepts(state);
        push_mark(marked, work, state, accepts)?;
    }
    Ok(())
}

// Spreads the marks against the edges until no work is left.
fn spread(
    alloc: Global,
    table: &Table,
    marked: &mut Vec<bool>,
    work: &mut Vec<u32>,
) -> Result<(), AllocError>
    requires { IsSearch table.now marked.old.items work.old.items }
    ensures { OnOk result (IsSearch table.now marked.new.items []) }
{
    let sources = sources_of(alloc, table.states(), table.edges())?;
    while let Some(state) = work.pop() {
        mark_all(marked, work, sources[state as usize].as_slice())?;
    }
    Ok(())
}

/// The states from which an accepting state is reached over any labels, in no step or more.
///
/// A label that no truth values pass counts too, since a top passes each label. Time and memory grow with the number
/// of states and edges.
pub fn alive(alloc: Global, table: &Table) -> Result<Marks, AllocError>
    ensures { IfOk result (AreMarks table.now) }
{
    let mut marked = Vec::new(alloc);
    let mut work = Vec::new(alloc);
    begin(table, &mut marked, &mut work)?;
    spread(alloc, table, &mut marked, &mut work)?;
    Ok(Marks { marked })
}
