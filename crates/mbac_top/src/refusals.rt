//! The refusals of a unit: as causes, and as people are told of them.

ghost use Rattle.std.specs.Prelude.{◌≡◌, ◌∷◌, []};
ghost use Rattle.mbac_top.specs.Call.{sink_change};
ghost use Rattle.mbac_top.specs.Messages.{numbers_of, numbered, refusal_name, refusal_fields};
ghost use Rattle.mbac_top.specs.inner.Ending.{EndsWriting, IsCauseOf};

use crate::numbers::write_numbers;
use crate::outcome::Cause;
use mbac_io::{Failed, Sink, pieces_make_a_text, write_all};
use psl_model::Refusal;

/// The cause of a unit's refusal.
pub(crate) fn cause_of(refusal: Refusal) -> Cause
    ensures { IsCauseOf refusal result }
{
    match refusal {
        Refusal::OutOfMemory => Cause::OutOfMemory,
        other => Cause::Refused(other),
    }
}

/// The name of a refusal, and its fields after one blank each.
pub(crate) fn write_refusal<N: Sink>(notes: &mut N, refusal: &Refusal) -> Result<(), Failed>
    ensures { EndsWriting (sink_change N.taken N.faults notes.old notes.new)
        (numbered (refusal_name refusal.now) (refusal_fields refusal.now)) result }
{
    pieces_make_a_text();
    write_all(notes, refusal_name(refusal).as_bytes())?;
    write_fields(notes, refusal)?;
    Ok(())
}

fn refusal_name(refusal: &Refusal) -> &'static str
    ensures { result.now ≡ refusal_name refusal.now }
{
    match refusal {
        Refusal::BadByte { .. } => "BadByte",
        Refusal::LeftOut { .. } => "LeftOut",
        Refusal::NameTooLong { .. } => "NameTooLong",
        Refusal::Syntax { .. } => "Syntax",
        Refusal::TooDeep { .. } => "TooDeep",
        Refusal::DuplicateName { .. } => "DuplicateName",
        Refusal::BadRange { .. } => "BadRange",
        Refusal::CountTooLarge { .. } => "CountTooLarge",
        Refusal::TooManyDirectives { .. } => "TooManyDirectives",
        Refusal::TooManySignals { .. } => "TooManySignals",
        Refusal::BadLiteral { .. } => "BadLiteral",
        Refusal::BadSelect { .. } => "BadSelect",
        Refusal::TooWide { .. } => "TooWide",
        Refusal::ConstantArithmetic { .. } => "ConstantArithmetic",
        Refusal::TooTall { .. } => "TooTall",
        Refusal::TooLarge { .. } => "TooLarge",
        Refusal::Subset { .. } => "Subset",
        Refusal::TooManyPlaces { .. } => "TooManyPlaces",
        Refusal::Contradiction { .. } => "Contradiction",
        Refusal::SequenceTooLarge { .. } => "SequenceTooLarge",
        Refusal::TooManyRegisters { .. } => "TooManyRegisters",
        Refusal::TooManySteps { .. } => "TooManySteps",
        Refusal::OutOfMemory => "OutOfMemory",
        Refusal::Unbuilt => "Unbuilt",
    }
}

fn write_fields<N: Sink>(notes: &mut N, refusal: &Refusal) -> Result<(), Failed>
    ensures { EndsWriting (sink_change N.taken N.faults notes.old notes.new) (numbers_of (refusal_fields refusal.now))
        result }
{
    match refusal {
        Refusal::BadByte { offset } => write_numbers(notes, &[*offset]),
        Refusal::LeftOut { offset } => write_numbers(notes, &[*offset]),
        Refusal::NameTooLong { offset } => write_numbers(notes, &[*offset]),
        Refusal::Syntax { offset } => write_numbers(notes, &[*offset]),
        Refusal::TooDeep { offset } => write_numbers(notes, &[*offset]),
        Refusal::DuplicateName { offset } => write_numbers(notes, &[*offset]),
        Refusal::BadRange { offset } => write_numbers(notes, &[*offset]),
        Refusal::CountTooLarge { offset } => write_numbers(notes, &[*offset]),
        Refusal::TooManyDirectives { offset } => write_numbers(notes, &[*offset]),
        Refusal::TooManySignals { offset } => write_numbers(notes, &[*offset]),
        Refusal::BadLiteral { offset } => write_numbers(notes, &[*offset]),
        Refusal::BadSelect { offset } => write_numbers(notes, &[*offset]),
        Refusal::TooWide { offset } => write_numbers(notes, &[*offset]),
        Refusal::ConstantArithmetic { offset } => write_numbers(notes, &[*offset]),
        Refusal::TooTall { directive, depth } => write_directive(notes, *directive, *depth),
        Refusal::TooLarge { directive, nodes } => write_directive(notes, *directive, *nodes),
        Refusal::Subset { directive, rule } => write_directive(notes, *directive, u64::from(*rule)),
        Refusal::TooManyPlaces {
            directive,
            sequence,
            places,
        } => write_sequence(notes, *directive, *sequence, *places),
        Refusal::Contradiction {
            directive,
            sequence,
        } => write_directive(notes, *directive, u64::from(*sequence)),
        Refusal::SequenceTooLarge {
            directive,
            sequence,
        } => write_directive(notes, *directive, u64::from(*sequence)),
        Refusal::TooManyRegisters { directive, count } => write_directive(
            notes, *directive, *count,
        ),
        Refusal::TooManySteps { directive, count } => write_directive(notes, *directive, *count),
        Refusal::OutOfMemory | Refusal::Unbuilt => write_numbers(notes, &[]),
    }
}

/// The number of a directive, and another one.
fn write_directive<N: Sink>(notes: &mut N, directive: u32, number: u64) -> Result<(), Failed>
    ensures { EndsWriting (sink_change N.taken N.faults notes.old notes.new) (numbers_of (directive ∷ number ∷ []))
        result }
{
    write_numbers(notes, &[u64::from(directive), number])
}

/// The numbers of a directive and of its sequence, and another one.
fn write_sequence<N: Sink>(
    notes: &mut N,
    directive: u32,
    sequence: u32,
    number: u64,
) -> Result<(), Failed>
    ensures { EndsWriting (sink_change N.taken N.faults notes.old notes.new)
        (numbers_of (directive ∷ sequence ∷ number ∷ [])) result }
{
    write_numbers(notes, &[u64::from(directive), u64::from(sequence), number])
}
