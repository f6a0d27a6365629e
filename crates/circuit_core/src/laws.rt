//! Laws of netlists. The functions do nothing: each contract is the law.

ghost use Rattle.std.specs.Prelude.{◌≡◌, ◌↔◌, ◌<◌, ◌≤◌, ◌+◌, ℕ, suc, Some, IsSome, length, slice_get};
ghost use Rattle.circuit_core.specs.Netlist as plain;
ghost use Rattle.circuit_core.specs.Netlist.{IsNet, IsNetOf};
ghost use Rattle.circuit_core.specs.WellMade.{IsWellMade, IsFinished};
ghost use Rattle.circuit_core.specs.Growth.{Extends, IsSet, HaveNexts, Grows, closed};
ghost use Rattle.circuit_core.specs.Run.{Inputs, Run, IsRunOf, InEachRun};

pub use crate::netlist::a_netlist_is_well_made;

/// A well made netlist has a run over any inputs.
pub fn a_netlist_runs()
    ensures { (m : plain.Netlist) (inputs : Inputs) → IsWellMade m → (run : Run) × IsRunOf m inputs run }
{}

/// A finished netlist has one run over inputs: two runs have the same streams in the cycles of the trace.
pub fn a_finished_netlist_has_one_run()
    ensures { (m : plain.Netlist) (inputs : Inputs) (first second : Run) → IsFinished m →
        IsRunOf m inputs first → IsRunOf m inputs second →
        (n : ℕ) → n < length inputs.trace → (k : ℕ) → IsNet m k → first k n ≡ second k n }
{}

/// A netlist is finished once each register's next and the output are set.
pub fn a_netlist_with_all_set_is_finished()
    ensures { (m : plain.Netlist) → IsWellMade m → HaveNexts m 0 → IsSome m.output → IsFinished m }
{}

/// Each netlist extends itself, and what extends an extension extends the netlist.
pub fn extensions_join()
    ensures itself { (m : plain.Netlist) → Extends m m }
    ensures twice { (a b c : plain.Netlist) → Extends a b → Extends b c → Extends a c }
    // The next of a register that came later may be set.
    ensures set { (a b c : plain.Netlist) (r next : ℕ) → Extends a b → length a.registers ≤ r → IsSet b r next c →
        Extends a c }
{}

/// A register's net has in each later cycle the value that its next had before.
pub fn a_register_follows()
    ensures { (m : plain.Netlist) (r k width initial next : ℕ) → IsNetOf m r k →
        slice_get m.registers r ≡ Some (closed width initial next) →
        InEachRun m (λ inputs run. (n : ℕ) → suc n < length inputs.trace → run k (suc n) ≡ run next n) }
{}

/// How netlists that grow by registers join.
pub fn growths_join()
    ensures none { (m : plain.Netlist) → Grows m m 0 }
    ensures twice { (a b c : plain.Netlist) (m n : ℕ) → Grows a b m → Grows b c n → Grows a c (m + n) }
{}
