//! Laws of netlists that grow. The function does nothing: its contract is the law.

ghost use Rattle.std.specs.Prelude.{◌≤◌, ◌+◌, ℕ};
ghost use Rattle.circuit_core.specs.Netlist.{Netlist};
ghost use Rattle.circuit_core.specs.Growth.{Grows};
ghost use Rattle.sequence_matches.specs.Growth.{GrowsWithin};

/// Growths are joined, and their bounds added up.
pub fn growths_within_join()
    ensures counted { (a b : Netlist) (m : ℕ) → Grows a b m → GrowsWithin a b m }
    ensures twice { (a b c : Netlist) (m n : ℕ) → GrowsWithin a b m → GrowsWithin b c n → GrowsWithin a c (m + n) }
    ensures wider { (a b : Netlist) (m n : ℕ) → m ≤ n → GrowsWithin a b m → GrowsWithin a b n }
{}
