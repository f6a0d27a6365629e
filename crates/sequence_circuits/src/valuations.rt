//! The nets of all valuations of some symbols.

ghost use Rattle.std.specs.Prelude.{◌≡◌, ◌↔◌, ◌<◌, ◌+◌, ◌*◌, ◌^◌, ℕ, IfOk, OnOk, All, length, map, slice_index_or};
ghost use Rattle.weak_determinise.specs.Nodes.{number_of};
ghost use Rattle.circuit_core.specs.Netlist.{IsNet};
ghost use Rattle.circuit_core.specs.Run.{On, InEachCycle};
ghost use Rattle.circuit_core.specs.Growth.{Extends};
ghost use Rattle.sequence_circuits.specs.Guards.{numbers, values_at};
ghost use Rattle.sequence_circuits.specs.inner.Nets.{stream_at};

use circuit_core::{Net, Netlist};
use std::alloc::{AllocError, Global};

// Puts the conjunction of each net with the guard at the end.
fn put_both(
    net: &mut Netlist,
    nets: &[Net],
    guard: Net,
    onto: &mut Vec<Net>,
) -> Result<(), AllocError>
    requires nets { All (λ k. IsNet net.old k.0) nets.now }
    requires guard { IsNet net.old guard.0 }
    requires onto { All (λ k. IsNet net.old k.0) onto.old.items }
    ensures kept { Extends net.old net.new }
    ensures registers { net.new.registers ≡ net.old.registers }
    ensures size { OnOk result (length onto.new.items ≡ length onto.old.items + length nets.now) }
    ensures nets { OnOk result (All (λ k. IsNet net.new k.0) onto.new.items) }
    ensures before { OnOk result ((s : ℕ) → s < length onto.old.items →
        slice_index_or (numbers onto.new.items) s 0 ≡ slice_index_or (numbers onto.old.items) s 0) }
    ensures stream { OnOk result (InEachCycle net.new (λ run n. (v : ℕ) → v < length nets.now →
        On (stream_at run (numbers onto.new.items) (length onto.old.items + v)) n ↔
        (On (stream_at run (numbers nets.now) v) n × On (run guard.0) n))) }
{
    for each in nets {
        let joined = net.and(*each, guard)?;
        onto.push(joined)?;
    }
    Ok(())
}

// Each net where the guard is off, and after these each where it is on.
fn split(alloc: Global, net: &mut Netlist, nets: &[Net], guard: Net) -> Result<Vec<Net>, AllocError>
    requires nets { All (λ k. IsNet net.old k.0) nets.now }
    requires guard { IsNet net.old guard.0 }
    ensures kept { Extends net.old net.new }
    ensures registers { net.new.registers ≡ net.old.registers }
    ensures size { IfOk result (λ both. length both.items ≡ 2 * length nets.now) }
    ensures nets { IfOk result (λ both. All (λ k. IsNet net.new k.0) both.items) }
    ensures off { IfOk result (λ both. InEachCycle net.new (λ run n. (v : ℕ) → v < length nets.now →
        On (stream_at run (numbers both.items) v) n ↔
        (On (stream_at run (numbers nets.now) v) n × ¬ On (run guard.0) n))) }
    ensures on { IfOk result (λ both. InEachCycle net.new (λ run n. (v : ℕ) → v < length nets.now →
        On (stream_at run (numbers both.items) (length nets.now + v)) n ↔
        (On (stream_at run (numbers nets.now) v) n × On (run guard.0) n))) }
{
    let without = net.not(guard)?;
    let mut both = Vec::new(alloc);
    put_both(net, nets, without, &mut both)?;
    put_both(net, nets, guard, &mut both)?;
    Ok(both)
}

// For each valuation of the symbols, by its number, a net that is on where `live` is and the symbols have these values.
pub(crate) fn valuation_nets(
    alloc: Global,
    net: &mut Netlist,
    guards: &[Net],
    symbols: &[usize],
    live: Net,
) -> Result<Vec<Net>, AllocError>
    requires guards { All (λ k. IsNet net.old k.0) guards.now }
    requires symbols { All (λ s. s < length guards.now) symbols.now }
    requires live { IsNet net.old live.0 }
    ensures kept { Extends net.old net.new }
    ensures registers { net.new.registers ≡ net.old.registers }
    ensures size { IfOk result (λ nets. length nets.items ≡ 2 ^ length symbols.now) }
    ensures nets { IfOk result (λ nets. All (λ k. IsNet net.new k.0) nets.items) }
    ensures stream { IfOk result (λ nets. InEachCycle net.new (λ run n. (v : ℕ) → v < 2 ^ length symbols.now →
        On (stream_at run (numbers nets.items) v) n ↔
        (On (run live.0) n × (number_of (map (values_at run (numbers guards.now) n) symbols.now) ≡ v)))) }
{
    let mut nets = Vec::new(alloc);
    nets.push(live)?;
    for symbol in symbols {
        nets = split(alloc, net, nets.as_slice(), guards[*symbol])?;
    }
    Ok(nets)
}
