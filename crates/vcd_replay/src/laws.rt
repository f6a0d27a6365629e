//! Laws over the values of a waveform.

ghost use Rattle.std.specs.Prelude.{◌≡◌, ◌≢◌, ℕ, List, Option, Some, Result, Err, slice_get};
ghost use Rattle.vcd_reader.specs.declared.waveform.Change.{Change};
ghost use Rattle.vcd_replay.specs.Values.{Before, UpTo, HasDigits, AreKnown, bits_value, extended};
ghost use Rattle.vcd_replay.specs.Edges.{IsEdge, AreEdges};
ghost use Rattle.vcd_reader.specs.Sound.{IsSound};
ghost use Rattle.verilog_text.specs.Module.{Module};
ghost use Rattle.vcd_replay.specs.Ports.{IsFirst};
ghost use Rattle.vcd_reader.specs.declared.waveform.Var.{Var};
ghost use Rattle.vcd_replay.specs.declared.trace.SampleError.{SampleError};
ghost use Rattle.vcd_replay.specs.declared.trace.SampleError.TheVariants.{OutOfMemory};
ghost use Rattle.vcd_replay.specs.Sampling.{Source, IsRow, IsTrace, Answers};
ghost use Rattle.vcd_replay.specs.FirstFail.{ArePortsFrom, FitsRows, IsFirstFail};

/// A variable has one value before a time and one at it, and a clock rises only where something changes.
pub fn values_are_determined()
    ensures before { (changes : List Change) (code size t : ℕ) (x y : List ℕ)
        → HasDigits changes code size (Before t) x → HasDigits changes code size (Before t) y → x ≡ y }
    ensures up_to { (changes : List Change) (code size t : ℕ) (x y : List ℕ)
        → HasDigits changes code size (UpTo t) x → HasDigits changes code size (UpTo t) y → x ≡ y }
    ensures no_edge_between { (changes : List Change) (clock t : ℕ)
        → ((k : ℕ) (change : Change) → slice_get changes k ≡ Some change → ¬ (change.time ≡ t))
        → ¬ IsEdge changes clock t }
{}

/// The extension of known digits is known, and writes the same number.
pub fn extension_keeps_numbers()
    ensures known { (size : ℕ) (digits : List ℕ) → AreKnown digits → AreKnown (extended size digits) }
    ensures number { (size : ℕ) (digits : List ℕ) → AreKnown digits
        → bits_value (extended size digits) ≡ bits_value digits }
{}

/// The rows that are sampled from a waveform fit each module whose ports are among the wanted signals, one behind the
/// other.
#[tactic(auto, using(crate::proofs::FittingRows::rows_fit))]
pub fn sampled_rows_fit()
    ensures { (s : Source) (rows : List (List ℕ)) → IsSound (record { vars = s.vars; changes = s.changes })
        → IsTrace s rows → (m : Module) (from : ℕ) → ArePortsFrom m from s.wanted → FitsRows m from rows }
{}

/// A source has one answer, want of memory aside: what `sample` answers for one reason it answers for no other. Of its
/// parts, a clock's edges are one list, a scope and a name have one first variable, and a cycle has one row.
pub fn a_source_has_one_answer()
    ensures edges { (changes : List Change) (clock : ℕ) (xs ys : List ℕ)
        → AreEdges changes clock xs → AreEdges changes clock ys → xs ≡ ys }
    ensures first { (vars : List Var) (scope name : List ℕ) (x y : Var)
        → IsFirst vars scope name x → IsFirst vars scope name y → x ≡ y }
    ensures row { (s : Source) (times : List ℕ) (cycle : ℕ) (x y : List ℕ)
        → IsRow s times cycle x → IsRow s times cycle y → x ≡ y }
    ensures answer { (s : Source) (x y : Result (List (List ℕ)) SampleError) → Answers s x → Answers s y
        → x ≢ Err OutOfMemory → y ≢ Err OutOfMemory → x ≡ y }
{}

/// A stream has one first cycle in which it is 1, or none.
pub fn a_stream_has_one_first_fail()
    ensures { (stream : List ℕ) (x y : Option ℕ) → IsFirstFail stream x → IsFirstFail stream y → x ≡ y }
{}
