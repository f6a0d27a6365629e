//! From netlists to modules: a module that keeps the stream of a netlist that checks a formula checks it too. The
//! functions do nothing: each contract is a law.
#![tactic(auto)]

ghost use Rattle.std.specs.Prelude.{ℕ, List};
ghost use Rattle.psl_model.specs.Formula.{Formula};
ghost use Rattle.circuit_core.specs.Netlist.{Netlist};
ghost use Rattle.verilog_text.specs.Module.{Module};
ghost use Rattle.verilog_text.specs.Stream.{KeepsStream};
ghost use Rattle.checker_meaning.specs.Checks.{Checks};
ghost use Rattle.circuit_meaning.specs.Checks as circuit;
ghost use Rattle.checked_modules.specs.Readings.{ReadsAs};

use verilog_text::laws::wires_fit_their_widths;

/// A module that keeps the stream of a netlist checks what the netlist checks: over all signals, of which its ports are
/// those at some places, what that says over the ports.
pub fn a_module_of_a_checking_netlist_checks()
    ensures { (m : Netlist) (made : Module) (widths places : List ℕ) (f inner : Formula) →
        ReadsAs widths places m.widths f inner → circuit.Checks m m.widths inner → KeepsStream m made →
        Checks widths places made f }
{
    wires_fit_their_widths();
}
