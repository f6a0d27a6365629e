//! Laws of checker texts. The functions do nothing: each contract is a law.

ghost use Rattle.std.specs.Prelude.{◌≡◌, ◌<◌, ◌^◌, ℕ, List, length};
ghost use Rattle.verilog_text.specs.Module.{Module};
ghost use Rattle.verilog_text.specs.Text.{StandsForModules};

/// Bytes stand for at most one list of modules. They are fewer than 2^64, as those of every slice are.
pub fn a_text_has_one_reading()
    ensures { (text : List ℕ) (ms ns : List Module) → length text < 2 ^ 64 →
        StandsForModules text ms → StandsForModules text ns → ms ≡ ns }
{}
