//! The net that is on where a sequence has matched.

ghost use Rattle.std.specs.Prelude.{◌≡◌, ◌≢◌, ◌↔◌, ◌<◌, ◌≤◌, ℕ, List, [], All, IfOk, OnOk, length, map};
ghost use Rattle.auto_core.specs.Graph.{graph_machine};
ghost use Rattle.auto_core.specs.Machine.{Accepts};
ghost use Rattle.psl_meaning.specs.Sequence.{Tight};
ghost use Rattle.psl_meaning.specs.SequenceSugar as sugar;
ghost use Rattle.psl_meaning.specs.Word.{Letter, bottom};
ghost use Rattle.psl_model.specs.View.{sere_of};
ghost use Rattle.psl_rewrite.specs.Conditions.{SereHas};
ghost use Rattle.psl_rewrite.specs.Meaning.{meant_core};
ghost use Rattle.psl_rewrite.specs.View.{core_of};
ghost use Rattle.sequence_cores.specs.PlaceGraph.{places_in};
ghost use Rattle.sequence_cores.specs.Places.{places_of, place_limit};
ghost use Rattle.sequence_cores.specs.Counted.{counted_as};
ghost use Rattle.symbol_alphabet.specs.Symbols.{seen_by};
ghost use Rattle.sequence_tables.specs.Steps.{HasSteps};
ghost use Rattle.circuit_core.specs.Netlist.{IsNet};
ghost use Rattle.circuit_core.specs.Run.{On, Throughout, InEachRun};
ghost use Rattle.circuit_core.specs.Growth.{Extends};
ghost use Rattle.circuit_core.specs.WellMade.{IsGuard};
ghost use Rattle.sequence_matches.specs.Growth.{GrowsWithin};
ghost use Rattle.sequence_matches.specs.Matches.{IsMatched};

use crate::guards::guard_nets;
use auto_core::Table;
use circuit_core::{Net, Netlist};
use psl_model::Sere;
use psl_rewrite::CoreSere;
use sequence_circuits::detect;
use sequence_cores::core;
use sequence_tables::build;
use std::alloc::{AllocError, Global};
use symbol_alphabet::Symbols;

/// A net that is on where a sequence has matched, and how many steps the sequence has.
#[derive(Clone, Copy, Debug, PartialEq, Eq)]
pub struct Matched {
    pub net: Net,
    pub steps: u64,
}

// The core sequence as which a sequence is counted.
fn counted(alloc: Global, sere: &Sere) -> Result<CoreSere, AllocError>
    ensures counted { IfOk result (λ core. core_of core ≡ counted_as (sere_of sere.now)) }
    ensures words { IfOk result (λ core. (widths : List ℕ) (w : List Letter) →
        Tight widths (meant_core (core_of core)) w ↔ Tight widths (sugar.core_of (sere_of sere.now)) w) }
    ensures places { IfOk result (λ core.
        length (places_in (meant_core (core_of core))) ≡ places_of (sere_of sere.now)) }
{
    match core(alloc, sere) {
        Ok(core) => Ok(core),
        Err(_) => Err(AllocError),
    }
}

// The table of a sequence, over symbols that it numbers.
fn table_of(alloc: Global, sere: &Sere, symbols: &mut Symbols) -> Result<Table, AllocError>
    requires { symbols.old ≡ [] }
    ensures guards { OnOk result ((widths : List ℕ) →
        SereHas (IsGuard widths) (sere_of sere.now) → All (IsGuard widths) symbols.new) }
    ensures numbered { IfOk result (λ table.
        All (λ e. All (λ l. l.symbol < length symbols.new) e.label) table.edges) }
    ensures words { IfOk result (λ table. (widths : List ℕ) (w : List Letter) → All (λ a. a ≢ bottom) w →
        Accepts (graph_machine table) (map (seen_by widths symbols.new) w) ↔
        Tight widths (sugar.core_of (sere_of sere.now)) w) }
    ensures states { IfOk result (λ table. length table.accepting ≤ places_of (sere_of sere.now)) }
    ensures steps { IfOk result (λ table.
        HasSteps (meant_core (counted_as (sere_of sere.now))) (length table.edges)) }
{
    let core = counted(alloc, sere)?;
    build(alloc, &core, symbols)
}

/// On in each cycle up to which some start has no cleared cycle, its own and this one included, if the letters from
/// that start to this cycle tightly satisfy the sequence.
///
/// Time and memory grow with the steps of the sequence and of its parts. It makes at most one register of one bit a
/// place.
pub fn matches(
    alloc: Global,
    net: &mut Netlist,
    sere: &Sere,
    start: Net,
    clear: Net,
) -> Result<Matched, AllocError>
    requires small { places_of (sere_of sere.now) ≤ place_limit }
    requires guards { SereHas (IsGuard net.old.widths) (sere_of sere.now) }
    requires start { IsNet net.old start.0 }
    requires clear { IsNet net.old clear.0 }
    ensures kept { Extends net.old net.new }
    ensures grows { OnOk result (GrowsWithin net.old net.new (places_of (sere_of sere.now))) }
    ensures net { IfOk result (λ x. IsNet net.new x.net.0) }
    ensures stream { IfOk result (λ x. InEachRun net.new (λ inputs run. Throughout inputs (λ n. On (run x.net.0) n ↔
        IsMatched net.old.widths inputs.trace (sere_of sere.now) (run start.0) (run clear.0) n))) }
    ensures steps { IfOk result (λ x. HasSteps (meant_core (counted_as (sere_of sere.now))) x.steps) }
{
    let mut symbols = Symbols::new(alloc);
    let table = table_of(alloc, sere, &mut symbols)?;
    let guards = guard_nets(alloc, net, &symbols)?;
    let found = detect(alloc, net, &table, guards.as_slice(), start, clear)?;
    Ok(Matched {
        net: found,
        steps: table.edges().len() as u64,
    })
}
