//! The table of a core sequence, from those of its parts.

ghost use Rattle.std.specs.Prelude.{◌≡◌, ◌↔◌, ◌<◌, ◌≤◌, ◌++◌, ◌⊎◌, ℕ, List, length, IsTrue, IfOk, All};
ghost use Rattle.std.specs.Prelude.{Contains};
ghost use Rattle.psl_model.specs.Expr as tree;
ghost use Rattle.psl_model.specs.View.{expr_of};
ghost use Rattle.psl_meaning.specs.Sequence as psl;
ghost use Rattle.psl_meaning.specs.SequenceSugar.{copies};
ghost use Rattle.psl_rewrite.specs.Meaning.{meant_core};
ghost use Rattle.psl_rewrite.specs.View.{core_of};
ghost use Rattle.sequence_cores.specs.PlaceGraph.{places_in};
ghost use Rattle.symbol_alphabet.specs.Symbols.{label_in, stripped};
ghost use Rattle.auto_core.specs.Edges.{HasAtMost};
ghost use Rattle.auto_core.specs.Graph.{graph_machine};
ghost use Rattle.auto_core.specs.Machine.{Letter, Accepts};
ghost use Rattle.sequence_tables.specs.Booleans.{HasBoolean};
ghost use Rattle.sequence_tables.specs.PlaceTable.{IsPlaceTable};
ghost use Rattle.sequence_tables.specs.Steps.{HasSteps};
ghost use Rattle.sequence_tables.specs.Words.{AcceptsTight};
ghost use Rattle.sequence_tables.specs.inner.Built.{IsTableOf, Stands, Makes, MakesOfTwo};

use crate::copies::Copies;
use auto_core::laws::a_union_has_the_literals_of_both;
use auto_core::{Auto, IndexedTable, Table, materialise};
use automata_product::{Both, Fuse};
use psl_model::Expr;
use psl_rewrite::CoreSere;
use sere_automata::laws::the_concatenation_accepts_one_list_after_the_other;
use sere_automata::{Concat, Leaf, OneOf, Repeat};
use std::alloc::{AllocError, Global};
use symbol_alphabet::Symbols;
use symbol_alphabet::laws::{
    a_label_holds_as_its_expression, a_label_is_one_literal, later_symbols_change_no_label,
};

/// A table with as many edges or more isn't put into another one.
const MANY_EDGES: usize = 0x8000_0000;

// The table of an automaton; one with too many states is want of memory.
fn made<A: Auto>(alloc: Global, automaton: &A) -> Result<Table, AllocError>
    requires { A.fits automaton.now }
    ensures { IfOk result (λ table. IsTableOf (A.own automaton.now) (A.machine automaton.now) table) }
{
    match materialise(alloc, automaton, u32::MAX) {
        Ok(table) => Ok(table),
        Err(_) => Err(AllocError),
    }
}

// Whether two tables are small enough for what is made of them to fit.
fn are_small(left: &Table, right: &Table) -> bool
    ensures left { IsTrue result →
        HasAtMost (⟦<Table as Auto>⟧.own left.now) (graph_machine left.now) 2147483647 }
    ensures right { IsTrue result →
        HasAtMost (⟦<Table as Auto>⟧.own right.now) (graph_machine right.now) 2147483647 }
{
    left.edges().len() < MANY_EDGES && right.edges().len() < MANY_EDGES
}

// The table of a Boolean, which is numbered where it wasn't seen before.
fn leaf(alloc: Global, expr: &Expr, symbols: &mut Symbols) -> Result<Table, AllocError>
    ensures grows { (more : List tree.Expr) × (symbols.new ≡ symbols.old ++ more) }
    ensures origins { (e : tree.Expr) →
        Contains symbols.new e → Contains symbols.old e ⊎ (stripped (expr_of expr.now) ≡ e) }
    ensures stands { IfOk result (λ table. (later : List tree.Expr) →
        Stands (symbols.new ++ later) (psl.bool (expr_of expr.now)) table) }
{
    a_label_holds_as_its_expression();
    a_label_is_one_literal();
    later_symbols_change_no_label();
    let label = symbols.label(alloc, expr)?;
    made(alloc, &Leaf::new(label))
}

fn nothing(alloc: Global) -> Result<Table, AllocError>
    ensures { IfOk result (λ table. (symbols : List tree.Expr) → Stands symbols psl.empty table) }
{
    Table::of_no_letter(alloc)
}

fn followed(alloc: Global, left: &Table, right: &Table) -> Result<Table, AllocError>
    ensures { IfOk result (λ table. MakesOfTwo (λ r s. psl.concat r s) left.now right.now table) }
{
    if are_small(left, right) {
        made(alloc, &Concat::new(left, right))
    } else {
        Err(AllocError)
    }
}

fn overlapped(alloc: Global, left: Table, right: &Table) -> Result<Table, AllocError>
    ensures { IfOk result (λ table. MakesOfTwo (λ r s. psl.fuse r s) left right.now table) }
{
    let left = IndexedTable::new(alloc, left)?;
    if are_small(left.table(), right) {
        made(alloc, &Fuse::new(&left, right))
    } else {
        Err(AllocError)
    }
}

fn either(alloc: Global, left: &Table, right: &Table) -> Result<Table, AllocError>
    ensures { IfOk result (λ table. MakesOfTwo (λ r s. psl.or r s) left.now right.now table) }
{
    if are_small(left, right) {
        made(alloc, &OneOf::new(left, right))
    } else {
        Err(AllocError)
    }
}

fn together(alloc: Global, left: &Table, right: &Table) -> Result<Table, AllocError>
    ensures { IfOk result (λ table. MakesOfTwo (λ r s. psl.both r s) left.now right.now table) }
{
    if are_small(left, right) {
        made(alloc, &Both::new(left, right))
    } else {
        Err(AllocError)
    }
}

fn again_and_again(alloc: Global, body: &Table) -> Result<Table, AllocError>
    ensures { IfOk result (λ table. Makes (λ r. psl.star r) body.now table) }
{
    if are_small(body, body) {
        made(alloc, &Repeat::new(body))
    } else {
        Err(AllocError)
    }
}

// The table of at least one copy, made in one go.
fn repeated(alloc: Global, body: &Table, count: u32) -> Result<Table, AllocError>
    requires { 0 < count }
    ensures { IfOk result (λ table. Makes (λ r. copies count r) body.now table) }
{
    the_concatenation_accepts_one_list_after_the_other::<(u32, u32), u32>();
    if are_small(body, body) {
        made(alloc, &Copies { body, count })
    } else {
        Err(AllocError)
    }
}

fn powered(alloc: Global, body: &Table, count: u32) -> Result<Table, AllocError>
    ensures { IfOk result (λ table. Makes (λ r. copies count r) body.now table) }
{
    if count == 0 {
        nothing(alloc)
    } else {
        repeated(alloc, body, count)
    }
}

// The table of a core sequence, whatever symbols come later.
fn tabled(alloc: Global, core: &CoreSere, symbols: &mut Symbols) -> Result<Table, AllocError>
    ensures grows { (more : List tree.Expr) × (symbols.new ≡ symbols.old ++ more) }
    ensures origins { (e : tree.Expr) →
        Contains symbols.new e → Contains symbols.old e ⊎ HasBoolean (core_of core.now) e }
    ensures stands { IfOk result (λ table. (later : List tree.Expr) →
        Stands (symbols.new ++ later) (meant_core (core_of core.now)) table) }
{
    match core {
        CoreSere::Bool(expr) => leaf(alloc, expr, symbols),
        CoreSere::Empty => nothing(alloc),
        CoreSere::Then(first, second) => {
            let left = tabled(alloc, first.get(), symbols)?;
            let right = tabled(alloc, second.get(), symbols)?;
            followed(alloc, &left, &right)
        }
        CoreSere::Fuse(first, second) => {
            let left = tabled(alloc, first.get(), symbols)?;
            let right = tabled(alloc, second.get(), symbols)?;
            overlapped(alloc, left, &right)
        }
        CoreSere::Or(first, second) => {
            let left = tabled(alloc, first.get(), symbols)?;
            let right = tabled(alloc, second.get(), symbols)?;
            either(alloc, &left, &right)
        }
        CoreSere::Both(first, second) => {
            let left = tabled(alloc, first.get(), symbols)?;
            let right = tabled(alloc, second.get(), symbols)?;
            together(alloc, &left, &right)
        }
        CoreSere::Star(inner) => {
            let body = tabled(alloc, inner.get(), symbols)?;
            again_and_again(alloc, &body)
        }
        CoreSere::Power(inner, count) => {
            let body = tabled(alloc, inner.get(), symbols)?;
            powered(alloc, &body, *count)
        }
    }
}

/// The table of a core sequence: its states are the places that the start place reaches, in the order in which they
/// are found. What the sequence's Booleans need of symbols is numbered, behind the symbols that are there; so it is
/// after want of memory, too. Want of memory is also the answer where a table on the way has 2^31 edges or more and is
/// put into another one, or where it would have 2^32 states.
///
/// Time and memory grow with the tables of the sequence's parts. A power is made in one go.
pub fn build(alloc: Global, core: &CoreSere, symbols: &mut Symbols) -> Result<Table, AllocError>
    ensures symbols { (more : List tree.Expr) × (symbols.new ≡ symbols.old ++ more) }
    ensures origins { (e : tree.Expr) →
        Contains symbols.new e → Contains symbols.old e ⊎ HasBoolean (core_of core.now) e }
    ensures numbered { IfOk result (λ table.
        All (λ e. All (λ l. l.symbol < length symbols.new) e.label) table.edges) }
    ensures words { IfOk result (λ table. (later : List tree.Expr) →
        AcceptsTight (symbols.new ++ later) (meant_core (core_of core.now)) table) }
    ensures graph { IfOk result (λ table. (later : List tree.Expr) →
        IsPlaceTable (label_in (symbols.new ++ later)) (meant_core (core_of core.now)) table) }
    ensures states { IfOk result (λ table.
        length table.accepting ≤ length (places_in (meant_core (core_of core.now)))) }
    ensures steps { IfOk result (λ table. HasSteps (meant_core (core_of core.now)) (length table.edges)) }
{
    a_union_has_the_literals_of_both();
    a_label_is_one_literal();
    tabled(alloc, core, symbols)
}
