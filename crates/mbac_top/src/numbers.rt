//! Texts and numbers, written in pieces.

ghost use Rattle.std.specs.Prelude.{◌≤◌, ◌++◌, codes, decimal};
ghost use Rattle.mbac_top.specs.Call.{sink_change};
ghost use Rattle.mbac_top.specs.Messages.{numbers_of, numbered};
ghost use Rattle.mbac_top.specs.inner.Ending.{EndsWriting};

use itoa::Buffer;
use mbac_io::{Failed, Sink, pieces_make_a_text, write_all};

/// A text, and numbers after one blank each.
pub(crate) fn write_numbered<N: Sink>(
    notes: &mut N,
    text: &str,
    numbers: &[u64],
) -> Result<(), Failed>
    ensures { EndsWriting (sink_change N.taken N.faults notes.old notes.new) (numbered text.now numbers.now) result }
{
    pieces_make_a_text();
    write_all(notes, text.as_bytes())?;
    write_numbers(notes, numbers)?;
    Ok(())
}

/// Numbers, after one blank each.
pub(crate) fn write_numbers<N: Sink>(notes: &mut N, numbers: &[u64]) -> Result<(), Failed>
    ensures { EndsWriting (sink_change N.taken N.faults notes.old notes.new) (numbers_of numbers.now) result }
{
    pieces_make_a_text();
    for number in numbers {
        write_number(notes, *number)?;
    }
    Ok(())
}

fn write_number<N: Sink>(notes: &mut N, number: u64) -> Result<(), Failed>
    ensures { EndsWriting (sink_change N.taken N.faults notes.old notes.new) (codes " " ++ decimal number) result }
{
    pieces_make_a_text();
    let mut buffer = Buffer::new();
    write_all(notes, b" ")?;
    write_all(notes, buffer.format(number).as_bytes())?;
    Ok(())
}
