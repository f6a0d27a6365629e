//! Laws of registers. The function does nothing: its contract is the law.

ghost use Rattle.std.specs.Prelude.{◌≡◌, length};
ghost use Rattle.circuit_core.specs.Netlist as plain;
ghost use Rattle.circuit_core.specs.WellMade.{IsWellMade};
ghost use Rattle.strong_obligations.specs.Bits.{register_bits};

/// A well made netlist has as many register bits as registers.
pub fn each_register_has_one_bit()
    ensures { (m : plain.Netlist) → IsWellMade m → register_bits m ≡ length m.registers }
{}
