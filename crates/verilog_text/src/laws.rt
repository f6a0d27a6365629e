//! Laws of the runs of a module. The functions do nothing: each contract is a law.

ghost use Rattle.std.specs.Prelude.{◌≡◌, ◌<◌, ℕ, List};
ghost use Rattle.verilog_text.specs.Module.{Module, IsLawful};
ghost use Rattle.verilog_text.specs.Run.{Cycle, FitWidths, IsSettled, IsRunFromReset};
ghost use Rattle.verilog_text.specs.State.{HasState, FitsModule, AreInputs, wire_widths};

use psl_model::laws::an_expression_reads_its_own_signals;

/// The inputs and registers of a cycle determine its wires, and its output.
pub fn inputs_and_registers_determine_the_wires()
    ensures { (m : Module) → IsLawful m → (reset eot : ℕ) (ports registers : List ℕ) → FitsModule m ports registers →
        (c d : Cycle) → HasState reset eot ports registers c → HasState reset eot ports registers d →
        IsSettled m c → IsSettled m d → (c.wires ≡ d.wires) × (c.fail ≡ d.fail) }
{
    an_expression_reads_its_own_signals();
}

/// Whatever a settled cycle's inputs and registers are, its wires fit their widths, and its output has one bit.
pub fn wires_fit_their_widths()
    ensures { (m : Module) (c : Cycle) → IsSettled m c → FitWidths (wire_widths m) c.wires × (c.fail < 2) }
{}

/// For inputs and registers that fit there is one settled cycle.
pub fn a_state_has_one_cycle()
    ensures there_is_one { (m : Module) → IsLawful m → (reset eot : ℕ) (ports registers : List ℕ) →
        FitsModule m ports registers → (c : Cycle) × HasState reset eot ports registers c × IsSettled m c }
    ensures no_other { (m : Module) → IsLawful m → (reset eot : ℕ) (ports registers : List ℕ) →
        FitsModule m ports registers → (c d : Cycle) →
        HasState reset eot ports registers c → HasState reset eot ports registers d →
        IsSettled m c → IsSettled m d → c ≡ d }
{
    an_expression_reads_its_own_signals();
}

/// From each power-up state there is one run over any inputs that fit. The state is that of the registers, and the
/// other inputs, in the cycle of reset.
pub fn a_state_has_one_run()
    ensures there_is_one { (m : Module) → IsLawful m → (eot : ℕ) (ports registers : List ℕ) →
        (inputs : List (List ℕ)) (eots : List ℕ) →
        eot < 2 → FitsModule m ports registers → AreInputs m inputs eots →
        (reset : Cycle) × (cycles : List Cycle) × HasState 1 eot ports registers reset
        × IsRunFromReset m inputs eots reset cycles }
    ensures no_other { (m : Module) → IsLawful m → (eot : ℕ) (ports registers : List ℕ) →
        (inputs : List (List ℕ)) (eots : List ℕ) → FitsModule m ports registers → AreInputs m inputs eots →
        (reset other_reset : Cycle) (cycles other_cycles : List Cycle) →
        HasState 1 eot ports registers reset → HasState 1 eot ports registers other_reset →
        IsRunFromReset m inputs eots reset cycles → IsRunFromReset m inputs eots other_reset other_cycles →
        (reset ≡ other_reset) × (cycles ≡ other_cycles) }
{
    an_expression_reads_its_own_signals();
}
