//! The streams of detectors and of obligations, worked out by hand.

ghost use Rattle.std.specs.Prelude.{◌<◌, [], ◌∷◌};
ghost use Rattle.psl_model.specs.View.{expr_of};
ghost use Rattle.circuit_core.specs.WellMade.{IsGuard};
ghost use Rattle.first_failure.specs.FirstFailure.{IsWhole};

use crate::cycles::is_stream;
use crate::tables::{
    again_and_again, are_asked, are_guarded, followed, rows_of, symbol_table, two_steps,
};
use auto_core::Table;
use circuit_core::{Check, Net, Netlist, Op};
use first_failure::FailAuto;
use psl_model::Expr;
use sequence_circuits::{detect, oblige};
use std::alloc::{AllocError, Global};
use std::test::Fail;

// The texts of a, b, the starts and the clears, and the cycles in which a match ends.
type Found = ([&'static str; 4], &'static str);

// The same, with the cycles of failures, and those after which a run goes on.
type Told = ([&'static str; 4], &'static str, &'static str);

const A_THEN_B: [Found; 5] = [
    // A start while a match is under way leaves that one alone.
    (["11000", "01100", "11000", "00000"], "01100"),
    (["10000", "01000", "11000", "00000"], "01000"),
    // A match that ends in the cycle of a clear is dropped, and so is a start in such a cycle.
    (["1000", "0100", "1000", "0100"], "0000"),
    (["1000", "0100", "1000", "1000"], "0000"),
    // A clear behind the match changes nothing.
    (["1000", "0100", "1000", "0010"], "0100"),
];

// A match has at least the cycle of its start.
const ANY_A: [Found; 2] = [
    (["01101", "00000", "01000", "00000"], "01100"),
    (["00000", "00000", "11111", "00000"], "00000"),
];

const A_THEN_B_IS_DUE: [Told; 6] = [
    (["1000", "0100", "1000", "0000"], "0000", "1000"),
    (["0000", "0000", "1000", "0000"], "1000", "0000"),
    (["1000", "0000", "1000", "0000"], "0100", "1000"),
    // The match of one start doesn't hide that another fails.
    (["1000", "0100", "1100", "0000"], "0100", "1000"),
    // A clear drops what waits, in its own cycle too.
    (["1000", "0000", "1000", "0100"], "0000", "1000"),
    (["0000", "0000", "1000", "1000"], "0000", "0000"),
];

fn signal(place: usize) -> Expr
    requires { place < 4 }
    ensures { IsGuard (1 ∷ 1 ∷ 1 ∷ 1 ∷ []) (expr_of result) }
{
    Expr::Whole(place)
}

// The detector of a table whose symbols are a and b; none if it has others.
fn detector(alloc: Global, table: &Table) -> Result<Option<(Netlist, Net)>, AllocError> {
    if !are_guarded(table, 2) {
        return Ok(None);
    }
    let widths = [1, 1, 1, 1].to_vec(alloc)?;
    let mut net = Netlist::new(alloc, widths)?;
    let a = net.guard(&signal(0))?;
    let b = net.guard(&signal(1))?;
    let start = net.guard(&signal(2))?;
    let clear = net.guard(&signal(3))?;
    let found = detect(alloc, &mut net, table, &[a, b], start, clear)?;
    Ok(Some((net, found)))
}

// The check of an automaton whose symbols are a and b; none if it has others.
fn obligation(alloc: Global, automaton: &FailAuto) -> Result<Option<(Netlist, Check)>, AllocError>
    requires { IsWhole automaton.now }
{
    if !are_asked(automaton, 2) {
        return Ok(None);
    }
    let widths = [1, 1, 1, 1].to_vec(alloc)?;
    let mut net = Netlist::new(alloc, widths)?;
    let a = net.guard(&signal(0))?;
    let b = net.guard(&signal(1))?;
    let start = net.guard(&signal(2))?;
    let clear = net.guard(&signal(3))?;
    let check = oblige(alloc, &mut net, automaton, &[a, b], start, clear)?;
    Ok(Some((net, check)))
}

fn finds(alloc: Global, table: &Table, rows: &[Found]) -> Result<bool, AllocError> {
    let Some((net, found)) = detector(alloc, table)? else {
        return Ok(false);
    };
    for (texts, told) in rows {
        if !is_stream(alloc, &net, found, texts, told)? {
            return Ok(false);
        }
    }
    Ok(true)
}

fn tells(alloc: Global, automaton: &FailAuto, rows: &[Told]) -> Result<bool, AllocError>
    requires { IsWhole automaton.now }
{
    let Some((net, check)) = obligation(alloc, automaton)? else {
        return Ok(false);
    };
    for (texts, fails, pends) in rows {
        if !is_stream(alloc, &net, check.fail, texts, fails)?
            || !is_stream(alloc, &net, check.pend, texts, pends)?
        {
            return Ok(false);
        }
    }
    Ok(true)
}

// How many conjunctions the detector of a table has.
fn conjunctions(alloc: Global, table: &Table) -> Result<usize, AllocError> {
    let Some((net, _)) = detector(alloc, table)? else {
        return Ok(0);
    };
    let count = net
        .nodes()
        .iter()
        .filter(|node| matches!(node.op, Op::And(_, _)))
        .count();
    Ok(count)
}

#[test]
fn a_detector_finds_the_ends_of_matches(rt: HostRuntime) -> Result<(), Fail> {
    let table = two_steps(rt.alloc())?;
    assert!(rt; finds(rt.alloc(), &table, &A_THEN_B)?);
    Ok(())
}

#[test]
fn a_match_has_a_cycle(rt: HostRuntime) -> Result<(), Fail> {
    let step = symbol_table(rt.alloc(), 0)?;
    let table = again_and_again(rt.alloc(), &step)?;
    assert!(rt; finds(rt.alloc(), &table, &ANY_A)?);
    Ok(())
}

// Three states, and two ways, by each of which two edges lead on.
#[test]
fn edges_of_one_label_to_one_state_share_a_conjunction(rt: HostRuntime) -> Result<(), Fail> {
    let step = symbol_table(rt.alloc(), 0)?;
    let before = again_and_again(rt.alloc(), &step)?;
    let last = symbol_table(rt.alloc(), 1)?;
    let table = followed(rt.alloc(), &before, &last)?;
    assert_eq!(rt; table.edges().len(), 4);
    assert_eq!(rt; conjunctions(rt.alloc(), &table)?, 3 + 2);
    Ok(())
}

#[test]
fn an_obligation_tells_its_first_failure(rt: HostRuntime) -> Result<(), Fail> {
    let table = two_steps(rt.alloc())?;
    let automaton = rows_of(rt.alloc(), &table)?;
    assert!(rt; tells(rt.alloc(), &automaton, &A_THEN_B_IS_DUE)?);
    Ok(())
}
