//! Automata that are stored whole.

ghost use Rattle.std.specs.Prelude.{◌≡◌, ◌+◌, ◌<◌, ◌==◌, ◌↔◌, true, false, List, [], ◌∷◌, Some, All, Contains, IfOk};
ghost use Rattle.std.specs.Prelude.{length, filter, map, slice_get, slice_index_or};
ghost use Rattle.std.proofs.lemmas.Bool.Decides.{Decides-eqb};
ghost use Rattle.auto_core.specs.LiteralSets.{IsLabel};
ghost use Rattle.auto_core.specs.Edges.{HasAtMost};
ghost use Rattle.auto_core.specs.Graph.{graph_machine, edges_from};
ghost use Rattle.auto_core.specs.Machine.{Letter, Accepts};
ghost use Rattle.auto_core.specs.inner.Rows.{HasEdgesOf, IsFiled};

use crate::automaton::Auto;
use crate::labels::Label;
use indexmap::IndexSet;
use std::alloc::{AllocError, Global};
use std::marker::Model;

/// An edge between two numbered states.
#[derive(Debug, Drop, PartialEq, Eq, Hash)]
pub struct Edge {
    pub from: u32,
    pub label: Label,
    pub to: u32,
}

/// A state of a table: whether it accepts, and where its edges stand among all.
#[derive(Clone, Copy, Debug)]
pub(crate) struct Row {
    pub(crate) accepts: bool,
    pub(crate) first: usize,
    pub(crate) end: usize,
}

/// An automaton whose states are the numbers below `states`, of which 0 is the start.
#[derive(Debug, Drop)]
pub struct Table {
    rows: Vec<Row>,
    edges: IndexSet<Edge>,
}

impl Model for Table {
    ghost use Rattle.std.specs.Prelude.{map};
    ghost use Rattle.auto_core.specs.Graph.{Graph};

    ghost Value = { Graph };

    ghost use Rattle.auto_core.specs.inner.Rows.{IsFiled};

    ghost view = { λ t. record { accepting = map (λ r. r.accepts) t.rows.items; edges = t.edges.keys } };

    ghost invariant = { λ t. IsFiled t.rows.items t.edges.keys };
}

impl Table {
    /// The number of states.
    pub fn states(&self) -> u32
        ensures { result ≡ length self.now.accepting }
    {
        self.rows.len() as u32
    }

    /// All edges, by the state that they leave, each once.
    pub fn edges(&self) -> &[Edge]
        ensures value { result.now ≡ self.now.edges }
        ensures between { All (λ e. e.from < length self.now.accepting × e.to < length self.now.accepting) result.now }
        ensures few { HasAtMost (λ s. s < length self.now.accepting) (graph_machine self.now) (length result.now) }
    {
        self.edges.as_slice()
    }
}

impl Table {
    /// The table of the automaton that accepts the list of no letter alone: one state, which accepts, and no edge.
    pub fn of_no_letter(alloc: Global) -> Result<Table, AllocError>
        ensures value { IfOk result (λ table. table ≡ record { accepting = true ∷ []; edges = [] }) }
        ensures words { IfOk result (λ table. (w : List Letter) → Accepts (graph_machine table) w ↔ (w ≡ [])) }
    {
        let mut rows = Vec::new(alloc);
        rows.push(Row {
            accepts: true,
            first: 0,
            end: 0,
        })?;
        Ok(Table::from_rows(rows, IndexSet::new(alloc)))
    }

    pub(crate) fn from_rows(rows: Vec<Row>, edges: IndexSet<Edge>) -> Table
        requires { IsFiled rows.items edges.keys }
        ensures accepting { result.accepting ≡ map (λ r. r.accepts) rows.items }
        ensures edges { result.edges ≡ edges.keys }
    {
        Table { rows, edges }
    }

    fn row(&self, state: u32) -> Row
        requires { state < length self.now.accepting }
        ensures edges { HasEdgesOf self.now.edges state result }
        ensures accepts { result.accepts ≡ slice_index_or self.now.accepting state false }
    {
        self.rows[state as usize]
    }

    // The edge at a place among those of a state.
    fn edge(&self, state: u32, place: usize) -> &Edge
        requires owned { state < length self.now.accepting }
        requires there { place < length (edges_from state self.now.edges) }
        ensures value { slice_get (filter (λ e. e.from == state) self.now.edges) place ≡ Some result.now }
        ensures leads { result.now.to < length self.now.accepting }
        ensures ordered { IsLabel result.now.label }
    {
        let row = self.row(state);
        let edge = &self.edges()[row.first + place];
        let _literals = edge.label.literals();
        edge
    }
}

impl Auto for Table {
    type State = u32;

    ghost machine = { graph_machine };

    ghost own = { λ t s. s < length t.accepting };

    ghost fits = { λ _. Unit {0} };

    fn start(&self) -> u32 {
        let _ = &self.rows;
        0
    }

    fn accepts(&self, state: u32) -> bool {
        self.row(state).accepts
    }

    fn edge_count(&self, state: u32) -> usize {
        let row = self.row(state);
        row.end - row.first
    }

    fn target(&self, state: u32, place: usize) -> u32 {
        self.edge(state, place).to
    }

    fn label(&self, state: u32, place: usize, onto: &mut Label) -> Result<(), AllocError> {
        onto.put_all(&self.edge(state, place).label)
    }

    ghost same = { λ x y e. (Decides-eqb x y).0 e };
}
