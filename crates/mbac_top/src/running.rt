//! The call that the program makes.

ghost use Rattle.std.specs.Prelude.{◌≡◌, ◌≢◌, ◌≤◌, ◌↔◌, ◌⊎◌, ℕ, map, string_bytes, IfOk, IfErr};
ghost use Rattle.mbac_io.specs.Device.{Rose, TakesSome, Appends, AppendsPart};
ghost use Rattle.mbac_top.specs.Words.{Command, Says, IsCommand, Reads};
ghost use Rattle.mbac_top.specs.Call.{slot_changes, sink_change, IsLeftAlone};
ghost use Rattle.mbac_top.specs.Causes.{IsCause, MeetsBytes};
ghost use Rattle.mbac_top.specs.Messages.{status_of, message_of};
ghost use Rattle.mbac_top.specs.inner.Ending.{IsTextOf, IsWhyUnread, WritesText, ReadsOnly};

use crate::compiling::compile;
use crate::message::tell;
use crate::outcome::{Cause, Outcome};
use crate::words::compile_file;
use mbac_io::{Inputs, ReadError, Sink, read_all, write_all};
use std::alloc::Global;
use unit_compile::laws::a_text_has_one_answer;

/// The most bytes of a unit's text.
const UNIT_TEXT_LIMIT: usize = 1_048_576;

/// Does what the words after the program's name say: `compile` reads slot 0 and writes the text of its
/// checkers to `out`. `notes` takes a message where there is no whole text.
///
/// The table of causes says when each answer comes. Want of memory may come in place of any answer but
/// `Usage`, and never after the first write to `out`.
pub fn run<I: Inputs, O: Sink, N: Sink>(
    alloc: Global,
    words: &[String],
    inputs: &mut I,
    out: &mut O,
    notes: &mut N,
) -> Outcome
    ensures status { result.status ≡ status_of result.cause }

    // When each answer comes: the words decide on `Usage` alone, and all else is the table of causes.
    ensures usage { (result.cause ≡ Cause.Usage) ↔ (¬ IsCommand (map string_bytes words.now)) }
    ensures command { result.cause ≢ Cause.Usage → IsCommand (map string_bytes words.now) }
    ensures only { IsCause (record {
      words = map string_bytes words.now;
      slots = slot_changes I.left I.faults inputs.old inputs.new;
      out = sink_change O.taken O.faults out.old out.new;
    }) result.cause }
    ensures due { MeetsBytes (record {
      words = map string_bytes words.now;
      slots = slot_changes I.left I.faults inputs.old inputs.new;
      out = sink_change O.taken O.faults out.old out.new;
    }) result.cause }

    // What it leaves alone. Slots lose bytes from their front, and only those that the command reads.
    ensures usage_reads_nothing { result.cause ≡ Cause.Usage → inputs.new ≡ inputs.old }
    ensures front_taken { (slot : ℕ) → TakesSome (I.left inputs.old slot) (I.left inputs.new slot) }
    ensures unread { (command : Command) (slot : ℕ) → Says (map string_bytes words.now) command →
        ¬ Reads command slot → IsLeftAlone (slot_changes I.left I.faults inputs.old inputs.new slot) }
    ensures unwritten { result.cause ≢ Cause.Done → result.cause ≢ Cause.WriteFault → out.new ≡ out.old }
    ensures silent { result.cause ≡ Cause.Done → notes.new ≡ notes.old }

    // What people are told: the message, or a part of it where `notes` failed.
    ensures told { result.cause ≢ Cause.Done →
        Appends (N.taken notes.old) (N.taken notes.new) (message_of result.cause)
        ⊎ (AppendsPart (N.taken notes.old) (N.taken notes.new) (message_of result.cause)
        × Rose (N.faults notes.old) (N.faults notes.new)) }

    // Counts of faults.
    ensures inputs_never_fall { (slot : ℕ) → I.faults inputs.old slot ≤ I.faults inputs.new slot }
    ensures out_never_falls { O.faults out.old ≤ O.faults out.new }
    ensures notes_never_fall { N.faults notes.old ≤ N.faults notes.new }
{
    a_text_has_one_answer();
    let cause = answer(alloc, words, inputs, out);
    end(cause, notes)
}

/// What a program ends with that has no memory for its words.
pub fn run_without_words<N: Sink>(notes: &mut N) -> Outcome
    ensures cause { result.cause ≡ Cause.OutOfMemory }
    ensures status { result.status ≡ status_of Cause.OutOfMemory }
    ensures told { Appends (N.taken notes.old) (N.taken notes.new) (message_of Cause.OutOfMemory)
        ⊎ (AppendsPart (N.taken notes.old) (N.taken notes.new) (message_of Cause.OutOfMemory)
        × Rose (N.faults notes.old) (N.faults notes.new)) }
    ensures never_falls { N.faults notes.old ≤ N.faults notes.new }
{
    end(Cause::OutOfMemory, notes)
}

/// The outcome of a cause, which is told where it isn't `Done`.
fn end<N: Sink>(cause: Cause, notes: &mut N) -> Outcome
    ensures same_cause { result.cause ≡ cause }
    ensures status { result.status ≡ status_of cause }
    ensures silent { cause ≡ Cause.Done → notes.new ≡ notes.old }
    ensures told { cause ≢ Cause.Done →
        Appends (N.taken notes.old) (N.taken notes.new) (message_of cause)
        ⊎ (AppendsPart (N.taken notes.old) (N.taken notes.new) (message_of cause)
        × Rose (N.faults notes.old) (N.faults notes.new)) }
    ensures never_falls { N.faults notes.old ≤ N.faults notes.new }
{
    if cause != Cause::Done {
        tell(notes, &cause);
    }
    Outcome {
        status: status(&cause),
        cause,
    }
}

/// The answer of the words, with its text written.
fn answer<I: Inputs, O: Sink>(alloc: Global, words: &[String], inputs: &mut I, out: &mut O) -> Cause
    ensures cause { IsCause (record {
      words = map string_bytes words.now;
      slots = slot_changes I.left I.faults inputs.old inputs.new;
      out = sink_change O.taken O.faults out.old out.new;
    }) result }
    ensures usage_reads_nothing { result ≡ Cause.Usage → inputs.new ≡ inputs.old }
    ensures read { ReadsOnly (slot_changes I.left I.faults inputs.old inputs.new) 0 }
    ensures unwritten { result ≢ Cause.Done → result ≢ Cause.WriteFault → out.new ≡ out.old }
    ensures out_never_falls { O.faults out.old ≤ O.faults out.new }
{
    if compile_file(words).is_none() {
        return Cause::Usage;
    }
    match compile_slot(alloc, inputs) {
        Ok(text) => write_text(out, &text),
        Err(cause) => cause,
    }
}

/// The checker text of the unit in slot 0, or why there is none.
fn compile_slot<I: Inputs>(alloc: Global, inputs: &mut I) -> Result<Vec<u8>, Cause>
    ensures text { IfOk result (λ text.
        IsTextOf (slot_changes I.left I.faults inputs.old inputs.new 0) text.items) }
    ensures cause { IfErr result (IsWhyUnread (slot_changes I.left I.faults inputs.old inputs.new 0)) }
    ensures read { ReadsOnly (slot_changes I.left I.faults inputs.old inputs.new) 0 }
{
    match read_all(alloc, inputs, 0, UNIT_TEXT_LIMIT) {
        Ok(bytes) => compile(alloc, &bytes),
        Err(ReadError::Failed) => Err(Cause::ReadFault { slot: 0 }),
        Err(ReadError::TooLong) => Err(Cause::InputTooLong { slot: 0 }),
        Err(ReadError::OutOfMemory) => Err(Cause::OutOfMemory),
    }
}

fn write_text<O: Sink>(out: &mut O, text: &[u8]) -> Cause
    ensures written { WritesText (sink_change O.taken O.faults out.old out.new) text.now result }
    ensures never_falls { O.faults out.old ≤ O.faults out.new }
{
    match write_all(out, text) {
        Ok(()) => Cause::Done,
        Err(_) => Cause::WriteFault,
    }
}

fn status(cause: &Cause) -> u8
    ensures { result ≡ status_of cause.now }
{
    match cause {
        Cause::Done => 0,
        Cause::Usage => 2,
        Cause::ReadFault { .. } => 3,
        Cause::WriteFault => 4,
        Cause::OutOfMemory => 5,
        Cause::InputTooLong { .. } | Cause::Refused(_) => 6,
    }
}
