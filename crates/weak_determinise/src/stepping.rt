//! The steps of a set of states, gathered once by their labels.

ghost use Rattle.std.specs.Prelude.{◌≡◌, ◌≢◌, ◌<◌, [], ◌∷◌, ◌++◌, length, All, IfOk, OnOk};
ghost use Rattle.std.specs.List.{position_or_len};
ghost use Rattle.indexmap.specs.IndexSet.{insert_key};
ghost use Rattle.auto_core.specs.LiteralSets.{same_label};
ghost use Rattle.auto_core.specs.Graph.{graph_machine, AreMarks};
ghost use Rattle.weak_determinise.specs.inner.Among.{Among};
ghost use Rattle.weak_determinise.specs.inner.Numbers.{IsRising};
ghost use Rattle.weak_determinise.specs.inner.Stepping.{steps_in, IsGathered, HasRowFor, PutsStep};
ghost use Rattle.weak_determinise.specs.inner.Stepping.{AreSteps, AddsSteps, TakesStep, AreSymbolsOf, PutsSymbols};
ghost use Rattle.weak_determinise.specs.inner.Stepping.{IsRenamed, AreRenamedLabels};

use crate::numbers::{place_of, put_symbol};
use crate::places::Places;
use auto_core::laws::a_union_has_the_literals_of_both;
use auto_core::{Auto, Label, Literal, Marks, Table};
use indexmap::IndexSet;
use std::alloc::{AllocError, Global};

/// Labels, and for each of them the states that steps with it lead to.
#[derive(Drop)]
pub(crate) struct Gathered {
    pub(crate) labels: IndexSet<Label>,
    pub(crate) rows: Vec<Places>,
}

// The place of a label, which is a new one where the label wasn't there.
fn place_for(labels: &mut IndexSet<Label>, label: Label) -> Result<usize, AllocError>
    ensures place { IfOk result (λ n. n ≡ position_or_len (same_label label) labels.old.keys) }
    ensures put { OnOk result (labels.new.keys ≡ insert_key same_label labels.old.keys label) }
{
    let (place, _) = labels.insert_full(label)?;
    Ok(place)
}

// Adds a row without a member, if the place is the end.
fn add_row(alloc: Global, rows: &mut Vec<Places>, place: usize) -> Result<(), AllocError>
    ensures new { OnOk result (place ≡ length rows.old.items → rows.new.items ≡ rows.old.items ++ [] ∷ []) }
    ensures old { OnOk result (place ≢ length rows.old.items → rows.new.items ≡ rows.old.items) }
{
    if place == rows.len() {
        rows.push(Places::none(alloc))?;
    }
    Ok(())
}

// The place of a label's row, which is a new one where the label wasn't there.
fn row_for(alloc: Global, gathered: &mut Gathered, label: Label) -> Result<usize, AllocError>
    requires { IsGathered gathered.old.labels.keys gathered.old.rows.items }
    ensures { IfOk result (HasRowFor label gathered.old.labels.keys gathered.old.rows.items
        gathered.new.labels.keys gathered.new.rows.items) }
{
    let place = place_for(&mut gathered.labels, label)?;
    add_row(alloc, &mut gathered.rows, place)?;
    Ok(place)
}

fn put_target(
    alloc: Global,
    gathered: &mut Gathered,
    label: Label,
    to: u32,
) -> Result<(), AllocError>
    requires { IsGathered gathered.old.labels.keys gathered.old.rows.items }
    ensures gathered { OnOk result (IsGathered gathered.new.labels.keys gathered.new.rows.items) }
    ensures put { OnOk result (PutsStep label to (steps_in gathered.old.labels.keys gathered.old.rows.items)
        (steps_in gathered.new.labels.keys gathered.new.rows.items)) }
{
    let place = row_for(alloc, gathered, label)?;
    gathered.rows[place].put(to)
}

fn put_step(
    alloc: Global,
    table: &Table,
    marks: &Marks,
    state: u32,
    place: usize,
    gathered: &mut Gathered,
) -> Result<(), AllocError>
    requires marked { AreMarks table.now marks.now }
    requires owned { state < length table.now.accepting }
    requires there { place < length ((graph_machine table.now).edges state) }
    requires before { IsGathered gathered.old.labels.keys gathered.old.rows.items }
    ensures gathered { OnOk result (IsGathered gathered.new.labels.keys gathered.new.rows.items) }
    ensures takes { OnOk result (TakesStep (graph_machine table.now) state place
        (steps_in gathered.old.labels.keys gathered.old.rows.items)
        (steps_in gathered.new.labels.keys gathered.new.rows.items)) }
{
    let to = table.target(state, place);
    if marks.get(to) {
        let mut label = Label::new(alloc);
        table.label(state, place, &mut label)?;
        a_union_has_the_literals_of_both();
        put_target(alloc, gathered, label, to)?;
    }
    Ok(())
}

fn put_steps(
    alloc: Global,
    table: &Table,
    marks: &Marks,
    state: u32,
    gathered: &mut Gathered,
) -> Result<(), AllocError>
    requires marked { AreMarks table.now marks.now }
    requires owned { state < length table.now.accepting }
    requires before { IsGathered gathered.old.labels.keys gathered.old.rows.items }
    ensures gathered { OnOk result (IsGathered gathered.new.labels.keys gathered.new.rows.items) }
    ensures adds { OnOk result (AddsSteps (graph_machine table.now) state
        (length ((graph_machine table.now).edges state))
        (steps_in gathered.old.labels.keys gathered.old.rows.items)
        (steps_in gathered.new.labels.keys gathered.new.rows.items)) }
{
    for place in 0..table.edge_count(state) {
        put_step(alloc, table, marks, state, place, gathered)?;
    }
    Ok(())
}

fn nothing(alloc: Global) -> Gathered
    ensures labels { result.labels.keys ≡ [] }
    ensures rows { result.rows.items ≡ [] }
{
    Gathered {
        labels: IndexSet::new(alloc),
        rows: Vec::new(alloc),
    }
}

// The steps from these states to alive states.
pub(crate) fn steps_of(
    alloc: Global,
    table: &Table,
    marks: &Marks,
    states: &[u32],
) -> Result<Gathered, AllocError>
    requires marked { AreMarks table.now marks.now }
    requires owned { All (λ p. p < length table.now.accepting) states.now }
    ensures gathered { IfOk result (λ gathered. IsGathered gathered.labels.keys gathered.rows.items) }
    ensures steps { IfOk result (λ gathered.
        AreSteps (graph_machine table.now) states.now (steps_in gathered.labels.keys gathered.rows.items)) }
{
    let mut gathered = nothing(alloc);
    for state in states {
        put_steps(alloc, table, marks, *state, &mut gathered)?;
    }
    Ok(gathered)
}

fn put_symbols(symbols: &mut Vec<usize>, label: &Label) -> Result<(), AllocError>
    requires { IsRising symbols.old.items }
    ensures { OnOk result (PutsSymbols label.now symbols.old.items symbols.new.items) }
{
    for literal in label.literals() {
        put_symbol(symbols, literal.symbol)?;
    }
    Ok(())
}

// The symbols in the labels.
pub(crate) fn symbols_of(alloc: Global, labels: &[Label]) -> Result<Vec<usize>, AllocError>
    ensures { IfOk result (λ symbols. AreSymbolsOf labels.now symbols.items) }
{
    let mut symbols = Vec::new(alloc);
    for label in labels {
        put_symbols(&mut symbols, label)?;
    }
    Ok(symbols)
}

// The label with each symbol's place in place of the symbol.
fn renamed(alloc: Global, symbols: &[usize], label: &Label) -> Result<Label, AllocError>
    requires rising { IsRising symbols.now }
    requires there { All (λ l. Among symbols.now l.symbol) label.now }
    ensures { IfOk result (λ renamed. IsRenamed symbols.now label.now renamed) }
{
    let mut renamed = Label::new(alloc);
    for literal in label.literals() {
        let symbol = place_of(symbols, literal.symbol);
        renamed.put(Literal {
            symbol,
            positive: literal.positive,
        })?;
    }
    Ok(renamed)
}

// The labels over the symbols' places.
pub(crate) fn renamed_labels(
    alloc: Global,
    symbols: &[usize],
    labels: &[Label],
) -> Result<Vec<Label>, AllocError>
    requires { AreSymbolsOf labels.now symbols.now }
    ensures { IfOk result (λ renamed. AreRenamedLabels symbols.now labels.now renamed.items) }
{
    let mut all = Vec::new(alloc);
    for label in labels {
        all.push(renamed(alloc, symbols, label)?)?;
    }
    Ok(all)
}
