//! Laws of the machine's steps. The functions do nothing: each contract is the law.

ghost use Rattle.std.specs.Prelude.{◌≡◌, ℕ, Bool, List, [], ◌∷◌, ◌++◌, All, map};
ghost use Rattle.psl_model.specs.Value.{bit_of, FitWidths};
ghost use Rattle.verilog_text.specs.Module.{Module, IsLawful};
ghost use Rattle.verilog_text.specs.Run.{Cycle, IsRunFromReset, fail_stream};
ghost use Rattle.verilog_text.specs.Interface.{port_widths};
ghost use Rattle.verilog_cycles.specs.Steps.{reset_values, IsStep, AreSteps};

use verilog_text::laws::a_state_has_one_cycle;

/// A step for each cycle of a trace, from the reset values on, answers the fail stream of each run from reset over it,
/// whatever the registers were before and whatever the other inputs are in the cycle of reset.
pub fn steps_after_reset_answer_the_fail_stream()
    ensures { (m : Module) → IsLawful m →
        (inputs : List (List ℕ)) (eots answers : List Bool) (after : List ℕ) →
        All (FitWidths (port_widths m.ports)) inputs → AreSteps m inputs eots (reset_values m) answers after →
        (reset : Cycle) (cycles : List Cycle) → IsRunFromReset m inputs (map bit_of eots) reset cycles →
        fail_stream cycles ≡ map bit_of answers }
{
    a_state_has_one_cycle();
}

/// No step keeps the registers, and one more step goes on from where the steps before it ended.
pub fn steps_go_on()
    ensures none { (m : Module) (state : List ℕ) → AreSteps m [] [] state [] state }
    ensures more { (m : Module) (inputs : List (List ℕ)) (eots : List Bool) (before : List ℕ) (answers : List Bool)
        (between ports : List ℕ) (eot answer : Bool) (after : List ℕ) →
        AreSteps m inputs eots before answers between → IsStep m ports eot between after answer →
        AreSteps m (inputs ++ ports ∷ []) (eots ++ eot ∷ []) before (answers ++ answer ∷ []) after }
{}
