//! Tables of the longest sequences, which are counted first.

use auto_core::Table;
use psl_model::{Expr, Sere, Subsere};
use psl_rewrite::Subcore;
use sequence_cores::{CoreError, core, places};
use sequence_tables::build;
use std::alloc::{AllocError, Global};
use symbol_alphabet::Symbols;

fn signal(alloc: Global, number: usize) -> Result<Subsere, AllocError> {
    Subsere::new(alloc, Sere::Bool(Expr::Whole(number)))
}

// `{a;b}[*1024]`
fn most_pairs(alloc: Global) -> Result<Subsere, AllocError> {
    let first = signal(alloc, 0)?;
    let second = signal(alloc, 1)?;
    let pair = Subsere::new(alloc, Sere::Then(first, second))?;
    Subsere::new(alloc, Sere::Repeat(pair, 1024, Some(1024)))
}

// `a[*0:1023]`
fn longest_range(alloc: Global) -> Result<Subsere, AllocError> {
    let one = signal(alloc, 0)?;
    Subsere::new(alloc, Sere::Repeat(one, 0, Some(1023)))
}

// The core sequence, on the heap, since a function that drops a bare tree is slow to prove.
fn core_of(alloc: Global, sere: &Sere) -> Result<Subcore, CoreError> {
    Ok(Subcore::new(alloc, core(alloc, sere)?)?)
}

fn table(alloc: Global, sere: &Sere) -> Option<Table> {
    let core = core_of(alloc, sere).ok()?;
    let mut symbols = Symbols::new(alloc);
    build(alloc, core.get(), &mut symbols).ok()
}

// Whether the sequence counts so many places, and its table has so many states and edges.
fn is_built(alloc: Global, sere: &Sere, counted: u64, states: u32, edges: usize) -> bool {
    match table(alloc, sere) {
        Some(table) => {
            places(sere) == counted && table.states() == states && table.edges().len() == edges
        }
        None => false,
    }
}

#[test]
fn as_many_copies_as_the_limit_allows_are_built(rt: HostRuntime) -> Result<(), AllocError> {
    let sere = most_pairs(rt.alloc())?;
    assert!(rt; is_built(rt.alloc(), sere.get(), 4096, 2049, 2048));
    Ok(())
}

#[test]
fn a_range_with_half_a_million_edges_is_built(rt: HostRuntime) -> Result<(), AllocError> {
    let sere = longest_range(rt.alloc())?;
    assert!(rt; is_built(rt.alloc(), sere.get(), 4093, 1024, 523776));
    Ok(())
}
