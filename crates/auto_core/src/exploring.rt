//! The table of the states that an automaton reaches.

ghost use Rattle.std.specs.Prelude.{◌≡◌, ◌↔◌, ◌+◌, ◌<◌, ◌≤◌, List, [], ◌∷◌, ◌++◌, Some, All};
ghost use Rattle.std.specs.Prelude.{length, take, slice_get, OnOk, IfOk, IsErrOf};
ghost use Rattle.std.specs.List.{position_or_len};
ghost use Rattle.indexmap.specs.IndexSet.{insert_key};
ghost use Rattle.auto_core.specs.declared.exploring.TableError.TheVariants.{TooMany};
ghost use Rattle.auto_core.specs.Machine.{Letter, Accepts};
ghost use Rattle.auto_core.specs.Graph.{graph_machine, ReachesMoreThan, IsReachedPart};
ghost use Rattle.auto_core.specs.inner.Order.{same_edge, steps_from};
ghost use Rattle.auto_core.specs.inner.Exploring.{IsExplored, TakesEdge, FindsTooMany, AddsEdgesOf, AreFiled};

use crate::automaton::Auto;
use crate::labels::Label;
use crate::tables::{Edge, Row, Table};
use indexmap::IndexSet;
use std::alloc::Global;
use std::hash::Hash;

/// Why there is no table of an automaton.
#[derive(Clone, Copy, Debug, PartialEq, Eq)]
pub enum TableError {
    /// More states are reached than were allowed.
    TooMany,
    OutOfMemory,
}

// The states that were seen, each at the place that is its number, and the edges between numbers.
#[derive(Drop)]
struct Explored<S: Copy + Eq + Hash> {
    states: IndexSet<S>,
    edges: IndexSet<Edge>,
}

// The number of a state, which is a new one where the state was not seen before.
fn number<S: Copy + Eq + Hash>(
    states: &mut IndexSet<S>,
    state: S,
    limit: u32,
) -> Result<u32, TableError>
    ensures numbered { IfOk result (λ n. n ≡ position_or_len (S.eq state) states.old.keys) }
    ensures room { OnOk result (position_or_len (S.eq state) states.old.keys < limit) }
    ensures named { OnOk result (states.new.keys ≡ insert_key S.eq states.old.keys state) }
    ensures full { IsErrOf result TooMany → limit ≤ position_or_len (S.eq state) states.old.keys }
{
    match states.insert_full(state) {
        Ok((index, _)) => {
            if index < limit as usize {
                Ok(index as u32)
            } else {
                Err(TableError::TooMany)
            }
        }
        Err(_) => Err(TableError::OutOfMemory),
    }
}

fn put_edge(edges: &mut IndexSet<Edge>, edge: Edge) -> Result<(), TableError>
    ensures added { OnOk result (edges.new.keys ≡ insert_key same_edge edges.old.keys edge) }
    ensures memory { ¬ IsErrOf result TooMany }
{
    match edges.insert(edge) {
        Ok(_) => Ok(()),
        Err(_) => Err(TableError::OutOfMemory),
    }
}

fn put_row(rows: &mut Vec<Row>, row: Row) -> Result<(), TableError>
    ensures added { OnOk result (rows.new.items ≡ rows.old.items ++ row ∷ []) }
    ensures memory { ¬ IsErrOf result TooMany }
{
    match rows.push(row) {
        Ok(()) => Ok(()),
        Err(_) => Err(TableError::OutOfMemory),
    }
}

fn label_at<A: Auto>(
    alloc: Global,
    automaton: &A,
    state: A::State,
    place: usize,
) -> Result<Label, TableError>
    requires fit { A.fits automaton.now }
    requires owned { A.own automaton.now state }
    requires there { place < length ((A.machine automaton.now).edges state) }
    ensures label { IfOk result
        (λ label. (next : A.State) × (slice_get ((A.machine automaton.now).edges state) place ≡ Some (label, next))) }
    ensures memory { ¬ IsErrOf result TooMany }
{
    let mut label = Label::new(alloc);
    match automaton.label(state, place, &mut label) {
        Ok(()) => Ok(label),
        Err(_) => Err(TableError::OutOfMemory),
    }
}

// Takes the edge at a place of a state that has the number `from`.
fn take_edge<A: Auto>(
    alloc: Global,
    automaton: &A,
    state: A::State,
    from: u32,
    place: usize,
    limit: u32,
    seen: &mut Explored<A::State>,
) -> Result<(), TableError>
    requires fit { A.fits automaton.now }
    requires owned { A.own automaton.now state }
    requires there { place < length ((A.machine automaton.now).edges state) }
    ensures taken { OnOk result
        (TakesEdge A.State.eq (A.own automaton.now) (A.machine automaton.now) limit state from place
        seen.old.states.keys seen.old.edges.keys seen.new.states.keys seen.new.edges.keys) }
    ensures too_many { IsErrOf result TooMany → FindsTooMany A.State.eq (A.machine automaton.now) limit state place
        seen.old.states.keys }
{
    let next = automaton.target(state, place);
    let to = number(&mut seen.states, next, limit)?;
    let label = label_at(alloc, automaton, state, place)?;
    put_edge(&mut seen.edges, Edge { from, label, to })
}

// Takes all edges of the state that has the number `from`, where those of the states before it have been taken.
fn explore_state<A: Auto>(
    alloc: Global,
    automaton: &A,
    state: A::State,
    from: u32,
    limit: u32,
    seen: &mut Explored<A::State>,
) -> Result<(), TableError>
    requires fit { A.fits automaton.now }
    requires named { slice_get seen.old.states.keys from ≡ Some state }
    requires explored { IsExplored A.State.eq (A.own automaton.now) (A.machine automaton.now) limit
        (steps_from (A.machine automaton.now) 0 (take from seen.old.states.keys)) seen.old.states.keys
        seen.old.edges.keys }
    ensures explored { OnOk result
        (IsExplored A.State.eq (A.own automaton.now) (A.machine automaton.now) limit
        (steps_from (A.machine automaton.now) 0 (take (from + 1) seen.new.states.keys)) seen.new.states.keys
        seen.new.edges.keys) }
    ensures names { OnOk result ((more : List A.State) × (seen.new.states.keys ≡ seen.old.states.keys ++ more)) }
    ensures edges { OnOk result (AddsEdgesOf from seen.old.edges.keys seen.new.edges.keys) }
    ensures too_many { IsErrOf result TooMany → ReachesMoreThan (A.machine automaton.now) limit }
{
    for place in 0..automaton.edge_count(state) {
        take_edge(alloc, automaton, state, from, place, limit, seen)?;
    }
    Ok(())
}

// Explores one state after the other until none is left, and files the edges of each.
fn explore<A: Auto>(
    alloc: Global,
    automaton: &A,
    limit: u32,
    seen: &mut Explored<A::State>,
    rows: &mut Vec<Row>,
) -> Result<(), TableError>
    requires fit { A.fits automaton.now }
    requires begun { IsExplored A.State.eq (A.own automaton.now) (A.machine automaton.now) limit []
        seen.old.states.keys seen.old.edges.keys }
    requires none { rows.old.items ≡ [] }
    ensures explored { OnOk result
        (IsExplored A.State.eq (A.own automaton.now) (A.machine automaton.now) limit
        (steps_from (A.machine automaton.now) 0 seen.new.states.keys) seen.new.states.keys seen.new.edges.keys) }
    ensures filed { OnOk result
        (AreFiled (A.machine automaton.now) seen.new.states.keys seen.new.edges.keys rows.new.items) }
    ensures all { OnOk result (length rows.new.items ≡ length seen.new.states.keys) }
    ensures too_many { IsErrOf result TooMany → ReachesMoreThan (A.machine automaton.now) limit }
{
    for from in 0..limit {
        let state = match seen.states.get_index(from as usize) {
            None => return Ok(()),
            Some(state) => *state,
        };
        let first = seen.edges.len();
        explore_state(alloc, automaton, state, from, limit, seen)?;
        let row = Row {
            accepts: automaton.accepts(state),
            first,
            end: seen.edges.len(),
        };
        put_row(rows, row)?;
    }
    Ok(())
}

// Numbers the start, and explores what is reached from it.
fn explore_all<A: Auto>(
    alloc: Global,
    automaton: &A,
    limit: u32,
    seen: &mut Explored<A::State>,
    rows: &mut Vec<Row>,
) -> Result<(), TableError>
    requires fit { A.fits automaton.now }
    requires no_states { seen.old.states.keys ≡ [] }
    requires no_edges { seen.old.edges.keys ≡ [] }
    requires no_rows { rows.old.items ≡ [] }
    ensures explored { OnOk result
        (IsExplored A.State.eq (A.own automaton.now) (A.machine automaton.now) limit
        (steps_from (A.machine automaton.now) 0 seen.new.states.keys) seen.new.states.keys seen.new.edges.keys) }
    ensures filed { OnOk result
        (AreFiled (A.machine automaton.now) seen.new.states.keys seen.new.edges.keys rows.new.items) }
    ensures all { OnOk result (length rows.new.items ≡ length seen.new.states.keys) }
    ensures too_many { IsErrOf result TooMany → ReachesMoreThan (A.machine automaton.now) limit }
{
    number(&mut seen.states, automaton.start(), limit)?;
    explore(alloc, automaton, limit, seen, rows)
}

/// The automaton's states that are reached from its start, numbered as first seen, and the edges between them, equal
/// ones once.
///
/// Time and memory grow with the number of these states and edges.
pub fn materialise<A: Auto>(alloc: Global, automaton: &A, limit: u32) -> Result<Table, TableError>
    requires { A.fits automaton.now }
    ensures too_many { IsErrOf result TooMany → ReachesMoreThan (A.machine automaton.now) limit }
    ensures few { OnOk result (¬ ReachesMoreThan (A.machine automaton.now) limit) }
    ensures same_part { IfOk result (λ table. (states : List A.State) ×
        All (A.own automaton.now) states × IsReachedPart (A.machine automaton.now) states table) }
    ensures same_words { IfOk result (λ table. (w : List Letter) →
        Accepts (graph_machine table) w ↔ Accepts (A.machine automaton.now) w) }
{
    let mut seen = Explored {
        states: IndexSet::new(alloc),
        edges: IndexSet::new(alloc),
    };
    let mut rows = Vec::new(alloc);
    explore_all(alloc, automaton, limit, &mut seen, &mut rows)?;
    let Explored { states: _, edges } = seen;
    Ok(Table::from_rows(rows, edges))
}
