//! The reached sets of a table.

ghost use Rattle.std.specs.Prelude.{◌≡◌, ◌+◌, ◌<◌, ◌≤◌, ◌++◌, ◌∷◌, [], ℕ, length, All, Some, slice_get};
ghost use Rattle.std.specs.Prelude.{IfOk, OnOk, IsErrOf, MatchOption};
ghost use Rattle.auto_core.specs.Graph.{graph_machine, AreMarks};
ghost use Rattle.weak_determinise.specs.Nodes.{AreReachedSets};
ghost use Rattle.weak_determinise.specs.ReachedSets.{IsTooLarge};
ghost use Rattle.weak_determinise.specs.inner.Expanding.{IsPrepared, IsNodeOf, Widens, IsTooLargeAt, IsPartWay};
ghost use Rattle.weak_determinise.specs.declared.sets.DetError.TheVariants.{TooLarge};

use crate::marking::Steps;
use crate::moving::moves_of;
use crate::numbering::number;
use crate::places::Places;
use crate::sets::{DetError, Move, SetNode, Sets};
use crate::stepping::{Gathered, renamed_labels, steps_of, symbols_of};
use auto_core::{Auto, Marks, Table};
use indexmap::IndexSet;
use sqlite_items::Items;
use std::alloc::{AllocError, Global};

#[derive(Drop)]
struct Prepared {
    symbols: Vec<usize>,
    steps: Steps,
}

fn prepare(
    alloc: Global,
    table: &Table,
    marks: &Marks,
    places: &[u32],
) -> Result<Prepared, AllocError>
    requires marked { AreMarks table.now marks.now }
    requires owned { All (λ p. p < length table.now.accepting) places.now }
    ensures { IfOk result (λ p. IsPrepared (graph_machine table.now) (length table.now.accepting) places.now
        p.symbols.items p.steps) }
{
    let _edges = table.edges();
    let Gathered { labels, rows } = steps_of(alloc, table, marks, places)?;
    let symbols = symbols_of(alloc, labels.as_slice())?;
    let renamed = renamed_labels(alloc, symbols.as_slice(), labels.as_slice())?;
    Ok(Prepared {
        symbols,
        steps: Steps {
            labels: renamed,
            rows,
        },
    })
}

fn made(
    alloc: Global,
    places: &[u32],
    symbols: &[usize],
    moves: Items<Move>,
) -> Result<SetNode, DetError>
    ensures places { IfOk result (λ node. node.places ≡ places.now) }
    ensures leaving { IfOk result (λ node. node.leaving ≡ symbols.now) }
    ensures moves { IfOk result (λ node. node.moves ≡ moves) }
    ensures memory { ¬ IsErrOf result TooLarge }
{
    match Items::from_slice(alloc, places) {
        Err(_) => Err(DetError::OutOfMemory),
        Ok(places) => {
            match Items::from_slice(alloc, symbols) {
                Err(_) => Err(DetError::OutOfMemory),
                Ok(leaving) => Ok(SetNode {
                    places,
                    leaving,
                    moves,
                }),
            }
        }
    }
}

// The node of prepared steps.
fn node_from(
    alloc: Global,
    table: &Table,
    places: &[u32],
    prepared: &Prepared,
    max_symbols: u32,
    limit: u32,
    seen: &mut IndexSet<Places>,
) -> Result<SetNode, DetError>
    requires few { max_symbols ≤ 16 }
    requires prepared { IsPrepared (graph_machine table.now) (length table.now.accepting) places.now
        prepared.now.symbols.items prepared.now.steps }
    ensures node { IfOk result (λ node. IsNodeOf (graph_machine table.now) seen.new.keys max_symbols places.now node) }
    ensures widens { OnOk result (Widens (graph_machine table.now) places.now limit seen.old.keys seen.new.keys) }
    ensures too_large { IsErrOf result TooLarge →
        IsTooLargeAt (graph_machine table.now) limit max_symbols places.now seen.old.keys }
{
    let symbols = prepared.symbols.as_slice();
    if symbols.len() > max_symbols as usize {
        return Err(DetError::TooLarge);
    }
    let moves = moves_of(alloc, table, &prepared.steps, symbols.len(), limit, seen)?;
    made(alloc, places, symbols, moves)
}

// A copy of the set with this number.
fn places_at(
    alloc: Global,
    seen: &IndexSet<Places>,
    number: u32,
) -> Result<Option<Vec<u32>>, AllocError>
    ensures { IfOk result (λ found. MatchOption found (length seen.now.keys ≤ number)
        (λ places. slice_get seen.now.keys number ≡ Some places.items)) }
{
    match seen.get_index(number as usize) {
        None => Ok(None),
        Some(places) => {
            let copy = Vec::from_slice(alloc, places.as_slice())?;
            Ok(Some(copy))
        }
    }
}

fn push_node(nodes: &mut Items<SetNode>, node: SetNode) -> Result<(), DetError>
    ensures pushed { OnOk result (nodes.new ≡ nodes.old ++ node ∷ []) }
    ensures memory { ¬ IsErrOf result TooLarge }
{
    match nodes.push(node) {
        Ok(()) => Ok(()),
        Err(_) => Err(DetError::OutOfMemory),
    }
}

// Gives the set with this number its node.
fn expand_set(
    alloc: Global,
    table: &Table,
    marks: &Marks,
    from: u32,
    places: &[u32],
    max_symbols: u32,
    limit: u32,
    seen: &mut IndexSet<Places>,
    nodes: &mut Items<SetNode>,
) -> Result<(), DetError>
    requires marked { AreMarks table.now marks.now }
    requires few { max_symbols ≤ 16 }
    requires there { slice_get seen.old.keys from ≡ Some places.now }
    requires part { IsPartWay (graph_machine table.now) (length table.now.accepting) limit max_symbols from
        seen.old.keys nodes.old }
    ensures part { OnOk result (IsPartWay (graph_machine table.now) (length table.now.accepting) limit max_symbols
        (from + 1) seen.new.keys nodes.new) }
    ensures too_large { IsErrOf result TooLarge → IsTooLarge (graph_machine table.now) limit max_symbols }
{
    let _edges = table.edges();
    match prepare(alloc, table, marks, places) {
        Err(_) => Err(DetError::OutOfMemory),
        Ok(prepared) => {
            let node = node_from(alloc, table, places, &prepared, max_symbols, limit, seen)?;
            push_node(nodes, node)
        }
    }
}

// Numbers the start's set.
fn begin(
    alloc: Global,
    table: &Table,
    max_symbols: u32,
    limit: u32,
    seen: &mut IndexSet<Places>,
) -> Result<(), DetError>
    requires { seen.old.keys ≡ [] }
    ensures part { OnOk result (IsPartWay (graph_machine table.now) (length table.now.accepting) limit max_symbols 0
        seen.new.keys []) }
    ensures too_large { IsErrOf result TooLarge → IsTooLarge (graph_machine table.now) limit max_symbols }
{
    match vec![in alloc; table.start()] {
        Err(_) => Err(DetError::OutOfMemory),
        Ok(places) => {
            let _number = number(seen, places, limit)?;
            Ok(())
        }
    }
}

// Expands one set after the other until none is left.
fn expand(
    alloc: Global,
    table: &Table,
    marks: &Marks,
    max_symbols: u32,
    limit: u32,
    seen: &mut IndexSet<Places>,
    nodes: &mut Items<SetNode>,
) -> Result<(), DetError>
    requires marked { AreMarks table.now marks.now }
    requires few { max_symbols ≤ 16 }
    requires part { IsPartWay (graph_machine table.now) (length table.now.accepting) limit max_symbols 0
        seen.old.keys nodes.old }
    ensures all { OnOk result ((from : ℕ) × (length seen.new.keys ≤ from) ×
        IsPartWay (graph_machine table.now) (length table.now.accepting) limit max_symbols from
        seen.new.keys nodes.new) }
    ensures too_large { IsErrOf result TooLarge → IsTooLarge (graph_machine table.now) limit max_symbols }
{
    for from in 0..limit {
        match places_at(alloc, seen, from) {
            Err(_) => return Err(DetError::OutOfMemory),
            Ok(None) => return Ok(()),
            Ok(Some(places)) => expand_set(
                alloc,
                table,
                marks,
                from,
                places.as_slice(),
                max_symbols,
                limit,
                seen,
                nodes,
            )?,
        }
    }
    Ok(())
}

/// The reached sets of a table, the start's first, with the symbols that leave them and their moves.
///
/// `marks` are those that `alive` gives of the table. Time grows with the number of sets, for each with the steps of
/// its states, and for each of the values of its leaving symbols with the number of states and of its labels.
pub fn determinise(
    alloc: Global,
    table: &Table,
    marks: &Marks,
    max_sets: u32,
    max_symbols: u32,
) -> Result<Sets, DetError>
    requires marked { AreMarks table.now marks.now }
    requires small { max_symbols ≤ 16 }
    ensures sets { IfOk result (λ sets. AreReachedSets (graph_machine table.now) sets.nodes) }
    ensures few { OnOk result (¬ IsTooLarge (graph_machine table.now) max_sets max_symbols) }
    ensures too_large { IsErrOf result TooLarge → IsTooLarge (graph_machine table.now) max_sets max_symbols }
{
    let _edges = table.edges();
    let mut seen = IndexSet::new(alloc);
    let mut nodes = Items::new(alloc);
    begin(alloc, table, max_symbols, max_sets, &mut seen)?;
    expand(
        alloc,
        table,
        marks,
        max_symbols,
        max_sets,
        &mut seen,
        &mut nodes,
    )?;
    Ok(Sets { nodes })
}
