//! The line that tells people why there is no text. It is written in pieces and takes no memory, so that
//! want of memory can be told too.

ghost use Rattle.std.specs.Prelude.{◌≤◌, ◌⊎◌, ◌++◌, codes};
ghost use Rattle.mbac_io.specs.Device.{Rose, Appends, AppendsPart};
ghost use Rattle.mbac_top.specs.Call.{sink_change};
ghost use Rattle.mbac_top.specs.Messages.{words_of, message_of};
ghost use Rattle.mbac_top.specs.inner.Ending.{EndsWriting};

use crate::numbers::write_numbered;
use crate::outcome::Cause;
use crate::refusals::write_refusal;
use mbac_io::{Failed, Sink, pieces_make_a_text, write_all};

/// Tells the cause.
pub(crate) fn tell<N: Sink>(notes: &mut N, cause: &Cause)
    ensures told { Appends (N.taken notes.old) (N.taken notes.new) (message_of cause.now)
        ⊎ (AppendsPart (N.taken notes.old) (N.taken notes.new) (message_of cause.now)
        × Rose (N.faults notes.old) (N.faults notes.new)) }
    ensures never_falls { N.faults notes.old ≤ N.faults notes.new }
{
    let _ = write_message(notes, cause);
}

fn write_message<N: Sink>(notes: &mut N, cause: &Cause) -> Result<(), Failed>
    ensures { EndsWriting (sink_change N.taken N.faults notes.old notes.new) (message_of cause.now) result }
{
    pieces_make_a_text();
    write_front(notes, cause)?;
    write_all(notes, b"\n")?;
    Ok(())
}

fn write_front<N: Sink>(notes: &mut N, cause: &Cause) -> Result<(), Failed>
    ensures { EndsWriting (sink_change N.taken N.faults notes.old notes.new) (codes "mbac: " ++ words_of cause.now)
        result }
{
    pieces_make_a_text();
    write_all(notes, b"mbac: ")?;
    write_words(notes, cause)?;
    Ok(())
}

/// The words of a cause: one row for each.
fn write_words<N: Sink>(notes: &mut N, cause: &Cause) -> Result<(), Failed>
    ensures { EndsWriting (sink_change N.taken N.faults notes.old notes.new) (words_of cause.now) result }
{
    match cause {
        Cause::Done => write_numbered(notes, "done", &[]),
        Cause::Usage => write_numbered(notes, "usage", &[]),
        Cause::ReadFault { slot } => write_numbered(
            notes,
            "read fault in file",
            &[u64::from(*slot)],
        ),
        Cause::WriteFault => write_numbered(notes, "write fault", &[]),
        Cause::OutOfMemory => write_numbered(notes, "out of memory", &[]),
        Cause::InputTooLong { slot } => write_numbered(notes, "InputTooLong", &[u64::from(*slot)]),
        Cause::Refused(refusal) => write_refusal(notes, refusal),
    }
}
