//! A small checker, its text and its runs. The functions do nothing: each contract is the example.

ghost use Rattle.std.specs.Prelude.{◌≡◌, ℕ, List, [], ◌∷◌};
ghost use Rattle.verilog_text.specs.Module.{IsLawful};
ghost use Rattle.verilog_text.specs.Text.{spelling};
ghost use Rattle.verilog_text.specs.Run.{Cycle, IsRunFromReset, fail_stream};
ghost use Rattle.verilog_text.specs.Examples.{small_checker, small_text, one_then_zero, never_ending, reset_cycle};
ghost use Rattle.verilog_text.specs.Examples.{two_cycles};

/// The checker has this text, byte for byte.
pub fn small_checker_is_spelled()
    ensures { spelling small_checker ≡ small_text }
{}

pub fn small_checker_is_lawful()
    ensures { IsLawful small_checker }
{}

/// It has a run from reset in which `a` is 1 and then 0.
pub fn small_checker_runs()
    ensures { IsRunFromReset small_checker one_then_zero never_ending reset_cycle two_cycles }
{}

/// In each such run its output is 0 and then 1, whatever the registers were and whatever `mbac_eot` is.
pub fn small_checker_fails_at_the_zero()
    ensures { (eots : List ℕ) (reset : Cycle) (cycles : List Cycle) →
        IsRunFromReset small_checker one_then_zero eots reset cycles → fail_stream cycles ≡ 0 ∷ 1 ∷ [] }
{}
