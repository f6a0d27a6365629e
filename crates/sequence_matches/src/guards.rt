//! The nets of symbols.

ghost use Rattle.std.specs.Prelude.{◌≡◌, ◌<◌, ℕ, List, Some, IfOk, All, length, slice_get};
ghost use Rattle.auto_core.specs.Machine.{value_in};
ghost use Rattle.symbol_alphabet.specs.Symbols.{truths};
ghost use Rattle.circuit_core.specs.Netlist.{IsNet};
ghost use Rattle.circuit_core.specs.Run.{InEachRun};
ghost use Rattle.circuit_core.specs.Growth.{Extends};
ghost use Rattle.circuit_core.specs.WellMade.{IsGuard};
ghost use Rattle.sequence_circuits.specs.Guards.{numbers, is_on, values_at};

use circuit_core::{Net, Netlist};
use std::alloc::{AllocError, Global};
use symbol_alphabet::Symbols;

// On where the symbol of this number is true.
fn guard_net(net: &mut Netlist, symbols: &Symbols, symbol: usize) -> Result<Net, AllocError>
    requires there { symbol < length symbols.now }
    requires guards { All (IsGuard net.old.widths) symbols.now }
    ensures kept { Extends net.old net.new }
    ensures registers { net.new.registers ≡ net.old.registers }
    ensures net { IfOk result (λ k. IsNet net.new k.0) }
    ensures shown { IfOk result (λ k. InEachRun net.new (λ inputs run. (n : ℕ) (values : List ℕ) →
        slice_get inputs.trace n ≡ Some values →
        is_on (run k.0 n) ≡ value_in (truths net.old.widths symbols.now values) symbol)) }
{
    match symbols.get(symbol) {
        Some(expr) => net.guard(expr),
        None => Err(AllocError),
    }
}

// For each symbol, by its number, a net that is on where the symbol is true.
pub(crate) fn guard_nets(
    alloc: Global,
    net: &mut Netlist,
    symbols: &Symbols,
) -> Result<Vec<Net>, AllocError>
    requires guards { All (IsGuard net.old.widths) symbols.now }
    ensures kept { Extends net.old net.new }
    ensures registers { net.new.registers ≡ net.old.registers }
    ensures size { IfOk result (λ guards. length guards.items ≡ length symbols.now) }
    ensures nets { IfOk result (λ guards. All (λ k. IsNet net.new k.0) guards.items) }
    ensures shown { IfOk result (λ guards. InEachRun net.new (λ inputs run. (n : ℕ) (values : List ℕ) →
        slice_get inputs.trace n ≡ Some values → (symbol : ℕ) → symbol < length symbols.now →
        values_at run (numbers guards.items) n symbol ≡
        value_in (truths net.old.widths symbols.now values) symbol)) }
{
    let mut guards = Vec::new(alloc);
    for symbol in 0..symbols.count() {
        let guard = guard_net(net, symbols, symbol)?;
        guards.push(guard)?;
    }
    Ok(guards)
}
