//! Tables that know the last edges of each state.

ghost use Rattle.std.specs.Prelude.{◌≡◌, ◌+◌, ◌<◌, length, map, vec_items, IfOk, OnOk};
ghost use Rattle.std.proofs.lemmas.Bool.Decides.{Decides-eqb};
ghost use Rattle.auto_core.specs.Graph.{graph_machine, edges_from};
ghost use Rattle.auto_core.specs.inner.Lasts.{ListsLasts, KnowsLasts};

use crate::automaton::Auto;
use crate::labels::Label;
use crate::tables::Table;
use std::alloc::{AllocError, Global};
use std::marker::Model;

/// A table, and for each state the places of the edges that lead to a state that accepts. So a fusion finds such an
/// edge at once, where in a table it goes over all edges of the state.
#[derive(Debug, Drop)]
pub struct IndexedTable {
    table: Table,
    lasts: Vec<Vec<usize>>,
}

impl Model for IndexedTable {
    ghost use Rattle.std.specs.Prelude.{length, map, vec_items};
    ghost use Rattle.auto_core.specs.Graph.{Graph};
    ghost use Rattle.auto_core.specs.inner.Lasts.{KnowsLasts};

    ghost Value = { Graph };

    ghost view = { λ t. t.table };

    ghost invariant = { λ t. KnowsLasts t.table (length t.table.accepting) (map vec_items t.lasts.items) };
}

// Adds the place of an edge that leads to a state that accepts.
fn put_last(
    table: &Table,
    state: u32,
    place: usize,
    places: &mut Vec<usize>,
) -> Result<(), AllocError>
    requires owned { state < length table.now.accepting }
    requires there { place < length (edges_from state table.now.edges) }
    requires before { ListsLasts table.now state place places.old.items }
    ensures { OnOk result (ListsLasts table.now state (place + 1) places.new.items) }
{
    let next = table.target(state, place);
    if table.accepts(next) {
        places.push(place)?;
    }
    Ok(())
}

fn lasts_of(alloc: Global, table: &Table, state: u32) -> Result<Vec<usize>, AllocError>
    requires { state < length table.now.accepting }
    ensures { IfOk result (λ places.
        ListsLasts table.now state (length (edges_from state table.now.edges)) places.items) }
{
    let mut places = Vec::new(alloc);
    for place in 0..table.edge_count(state) {
        put_last(table, state, place, &mut places)?;
    }
    Ok(places)
}

// Adds the list of the next state.
fn put_lasts(
    alloc: Global,
    table: &Table,
    state: u32,
    lasts: &mut Vec<Vec<usize>>,
) -> Result<(), AllocError>
    requires owned { state < length table.now.accepting }
    requires before { KnowsLasts table.now state (map vec_items lasts.old.items) }
    ensures { OnOk result (KnowsLasts table.now (state + 1) (map vec_items lasts.new.items)) }
{
    let places = lasts_of(alloc, table, state)?;
    lasts.push(places)?;
    Ok(())
}

fn all_lasts(alloc: Global, table: &Table) -> Result<Vec<Vec<usize>>, AllocError>
    ensures { IfOk result (λ lasts. KnowsLasts table.now (length table.now.accepting) (map vec_items lasts.items)) }
{
    let mut lasts = Vec::new(alloc);
    for state in 0..table.states() {
        put_lasts(alloc, table, state, &mut lasts)?;
    }
    Ok(lasts)
}

impl IndexedTable {
    /// The same table. Time grows with the number of its states and edges.
    pub fn new(alloc: Global, table: Table) -> Result<IndexedTable, AllocError>
        ensures same { IfOk result (λ indexed. indexed ≡ table) }
    {
        let lasts = all_lasts(alloc, &table)?;
        Ok(IndexedTable { table, lasts })
    }

    /// The table.
    pub fn table(&self) -> &Table
        ensures same { result.now ≡ self.now }
    {
        &self.table
    }

    // The places of a state's last edges.
    fn lasts(&self, state: u32) -> &[usize]
        requires { state < length self.now.accepting }
        ensures { ListsLasts self.now state (length (edges_from state self.now.edges)) result.now }
    {
        self.lasts[state as usize].as_slice()
    }
}

impl Auto for IndexedTable {
    type State = u32;

    ghost machine = { graph_machine };

    ghost own = { λ t s. s < length t.accepting };

    ghost fits = { λ _. Unit {0} };

    fn start(&self) -> u32 {
        self.table.start()
    }

    fn accepts(&self, state: u32) -> bool {
        self.table.accepts(state)
    }

    fn edge_count(&self, state: u32) -> usize {
        self.table.edge_count(state)
    }

    fn target(&self, state: u32, place: usize) -> u32 {
        self.table.target(state, place)
    }

    fn label(&self, state: u32, place: usize, onto: &mut Label) -> Result<(), AllocError> {
        self.table.label(state, place, onto)
    }

    fn last_count(&self, state: u32) -> usize {
        self.lasts(state).len()
    }

    fn last_place(&self, state: u32, rank: usize) -> usize {
        self.lasts(state)[rank]
    }

    ghost same = { λ x y e. (Decides-eqb x y).0 e };
}
