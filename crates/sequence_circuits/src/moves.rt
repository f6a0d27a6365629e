//! The nets that tell where the moves of rows lead.

ghost use Rattle.std.specs.Prelude.{◌≡◌, ◌↔◌, ◌⊎◌, ◌<◌, ◌+◌, ◌^◌, ℕ, IfOk, OnOk, All, length, slice_index_or};
ghost use Rattle.first_failure.specs.declared.automaton.Next.TheVariants.{Fail};
ghost use Rattle.circuit_core.specs.Netlist.{IsNet};
ghost use Rattle.circuit_core.specs.Run.{On, InEachCycle};
ghost use Rattle.circuit_core.specs.Growth.{Extends};
ghost use Rattle.sequence_circuits.specs.Guards.{numbers, values_at};
ghost use Rattle.sequence_circuits.specs.inner.Nets.{live_nets, stream_at};
ghost use Rattle.sequence_circuits.specs.inner.Moves.{Targets, move_of, IsRowIn, IsMovedTo};

use crate::edges::repeated;
use crate::states::State;
use crate::valuations::valuation_nets;
use circuit_core::{Net, Netlist};
use first_failure::{FailRow, Next};
use std::alloc::{AllocError, Global};

// Joins a net with the one at a place.
fn put_or(net: &mut Netlist, place: usize, more: Net, nets: &mut Vec<Net>) -> Result<(), AllocError>
    requires more { IsNet net.old more.0 }
    requires nets { All (λ k. IsNet net.old k.0) nets.old.items }
    requires place { place < length nets.old.items }
    ensures kept { Extends net.old net.new }
    ensures registers { net.new.registers ≡ net.old.registers }
    ensures size { length nets.new.items ≡ length nets.old.items }
    ensures nets { OnOk result (All (λ k. IsNet net.new k.0) nets.new.items) }
    ensures stream { OnOk result (InEachCycle net.new (λ run n. (s : ℕ) →
        On (stream_at run (numbers nets.new.items) s) n ↔
        (On (stream_at run (numbers nets.old.items) s) n ⊎ ((place ≡ s) × On (run more.0) n)))) }
{
    let joined = net.or(nets[place], more)?;
    nets[place] = joined;
    Ok(())
}

// Adds a move to what arrives at its target: at a row, or at the failure, whose place is behind the rows.
fn take_move(
    net: &mut Netlist,
    next: Next,
    taken: Net,
    failure: usize,
    arrivals: &mut Vec<Net>,
) -> Result<(), AllocError>
    requires taken { IsNet net.old taken.0 }
    requires arrivals { All (λ k. IsNet net.old k.0) arrivals.old.items }
    requires target { (s : ℕ) → Targets next failure s → s < length arrivals.old.items }
    ensures kept { Extends net.old net.new }
    ensures registers { net.new.registers ≡ net.old.registers }
    ensures size { length arrivals.new.items ≡ length arrivals.old.items }
    ensures nets { OnOk result (All (λ k. IsNet net.new k.0) arrivals.new.items) }
    ensures stream { OnOk result (InEachCycle net.new (λ run n. (s : ℕ) →
        On (stream_at run (numbers arrivals.new.items) s) n ↔
        (On (stream_at run (numbers arrivals.old.items) s) n ⊎ (Targets next failure s × On (run taken.0) n)))) }
{
    match next {
        Next::Done => Ok(()),
        Next::Fail => {
            put_or(net, failure, taken, arrivals)?;
            Ok(())
        }
        Next::Go(row) => {
            put_or(net, row as usize, taken, arrivals)?;
            Ok(())
        }
    }
}

fn take_moves(
    net: &mut Netlist,
    nexts: &[Next],
    taken: &[Net],
    failure: usize,
    arrivals: &mut Vec<Net>,
) -> Result<(), AllocError>
    requires taken { All (λ k. IsNet net.old k.0) taken.now }
    requires size { length taken.now ≡ length nexts.now }
    requires arrivals { All (λ k. IsNet net.old k.0) arrivals.old.items }
    requires targets { (v s : ℕ) → v < length nexts.now → Targets (slice_index_or nexts.now v Fail) failure s →
        s < length arrivals.old.items }
    ensures kept { Extends net.old net.new }
    ensures registers { net.new.registers ≡ net.old.registers }
    ensures size { length arrivals.new.items ≡ length arrivals.old.items }
    ensures nets { OnOk result (All (λ k. IsNet net.new k.0) arrivals.new.items) }
    ensures stream { OnOk result (InEachCycle net.new (λ run n. (s : ℕ) →
        On (stream_at run (numbers arrivals.new.items) s) n ↔
        (On (stream_at run (numbers arrivals.old.items) s) n
        ⊎ ((v : ℕ) × (v < length nexts.now) × (Targets (slice_index_or nexts.now v Fail) failure s
        × On (stream_at run (numbers taken.now) v) n))))) }
{
    for place in 0..nexts.len() {
        take_move(net, nexts[place], taken[place], failure, arrivals)?;
    }
    Ok(())
}

// The same for a row: where it is live, the move of its symbols' values is taken.
fn take_row(
    alloc: Global,
    net: &mut Netlist,
    row: &FailRow,
    guards: &[Net],
    live: Net,
    failure: usize,
    arrivals: &mut Vec<Net>,
) -> Result<(), AllocError>
    requires guards { All (λ k. IsNet net.old k.0) guards.now }
    requires live { IsNet net.old live.0 }
    requires row { IsRowIn (length guards.now) failure row.now }
    requires arrivals { All (λ k. IsNet net.old k.0) arrivals.old.items }
    requires places { length arrivals.old.items ≡ failure + 1 }
    ensures kept { Extends net.old net.new }
    ensures registers { net.new.registers ≡ net.old.registers }
    ensures size { length arrivals.new.items ≡ length arrivals.old.items }
    ensures nets { OnOk result (All (λ k. IsNet net.new k.0) arrivals.new.items) }
    ensures stream { OnOk result (InEachCycle net.new (λ run n. (s : ℕ) →
        On (stream_at run (numbers arrivals.new.items) s) n ↔
        (On (stream_at run (numbers arrivals.old.items) s) n
        ⊎ (On (run live.0) n × Targets (move_of row.now (values_at run (numbers guards.now) n)) failure s)))) }
{
    let taken = valuation_nets(alloc, net, guards, row.symbols.as_slice(), live)?;
    take_moves(
        net,
        row.next.as_slice(),
        taken.as_slice(),
        failure,
        arrivals,
    )?;
    Ok(())
}

fn take_rows(
    alloc: Global,
    net: &mut Netlist,
    rows: &[FailRow],
    guards: &[Net],
    states: &[State],
    arrivals: &mut Vec<Net>,
) -> Result<(), AllocError>
    requires guards { All (λ k. IsNet net.old k.0) guards.now }
    requires states { All (λ h. IsNet net.old h.live.0) states.now }
    requires each { length states.now ≡ length rows.now }
    requires rows { All (IsRowIn (length guards.now) (length rows.now)) rows.now }
    requires arrivals { All (λ k. IsNet net.old k.0) arrivals.old.items }
    requires places { length arrivals.old.items ≡ length rows.now + 1 }
    ensures kept { Extends net.old net.new }
    ensures registers { net.new.registers ≡ net.old.registers }
    ensures size { length arrivals.new.items ≡ length arrivals.old.items }
    ensures nets { OnOk result (All (λ k. IsNet net.new k.0) arrivals.new.items) }
    ensures stream { OnOk result (InEachCycle net.new (λ run n. (s : ℕ) →
        On (stream_at run (numbers arrivals.new.items) s) n ↔
        (On (stream_at run (numbers arrivals.old.items) s) n
        ⊎ IsMovedTo (length rows.now) rows.now (λ r. On (stream_at run (live_nets states.now) r) n)
        (values_at run (numbers guards.now) n) (length rows.now) s))) }
{
    for place in 0..rows.len() {
        take_row(
            alloc,
            net,
            &rows[place],
            guards,
            states[place].live,
            rows.len(),
            arrivals,
        )?;
    }
    Ok(())
}

// For each row, and behind them for the failure, what arrives there.
pub(crate) fn row_arrivals(
    alloc: Global,
    net: &mut Netlist,
    rows: &[FailRow],
    guards: &[Net],
    states: &[State],
) -> Result<Vec<Net>, AllocError>
    requires guards { All (λ k. IsNet net.old k.0) guards.now }
    requires states { All (λ h. IsNet net.old h.live.0) states.now }
    requires each { length states.now ≡ length rows.now }
    requires rows { All (IsRowIn (length guards.now) (length rows.now)) rows.now }
    ensures kept { Extends net.old net.new }
    ensures registers { net.new.registers ≡ net.old.registers }
    ensures size { IfOk result (λ arrivals. length arrivals.items ≡ length rows.now + 1) }
    ensures nets { IfOk result (λ arrivals. All (λ k. IsNet net.new k.0) arrivals.items) }
    ensures stream { IfOk result (λ arrivals. InEachCycle net.new (λ run n. (s : ℕ) → s < length rows.now + 1 →
        On (stream_at run (numbers arrivals.items) s) n ↔
        IsMovedTo (length rows.now) rows.now (λ r. On (stream_at run (live_nets states.now) r) n)
        (values_at run (numbers guards.now) n) (length rows.now) s)) }
{
    let off = net.bit(false)?;
    let mut arrivals = repeated(alloc, off, rows.len() + 1)?;
    take_rows(alloc, net, rows, guards, states, &mut arrivals)?;
    Ok(arrivals)
}
