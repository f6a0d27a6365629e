//! One run over inputs and sinks in memory.

use mbac_io::{MemoryInputs, MemorySink};
use mbac_top::{Cause, Outcome, run};
use std::alloc::{AllocError, Global};

/// The call that fails, by its number from 0.
#[derive(Clone, Copy, Debug)]
pub(crate) enum Failing {
    Nothing,
    Read(u64),
    Write(u64),
    Note(u64),
}

/// What a run ends with, and what it wrote to the output and to the notes.
#[derive(Drop)]
pub(crate) struct Seen {
    pub outcome: Outcome,
    pub out: MemorySink,
    pub notes: MemorySink,
}

fn words_of(alloc: Global, texts: &[&str]) -> Result<Vec<String>, AllocError> {
    let mut words = Vec::new(alloc);
    for text in texts {
        words.push(String::from_str(alloc, text)?)?;
    }
    Ok(words)
}

fn inputs_of(alloc: Global, file: &[u8], failing: Failing) -> Result<MemoryInputs, AllocError> {
    let files = vec![in alloc; file.to_vec(alloc)?]?;
    let mut calls = Vec::new(alloc);
    if let Failing::Read(call) = failing {
        calls.push(call)?;
    }
    Ok(MemoryInputs::new(files, 4096, calls))
}

// It takes 10 bytes in a call.
fn output_of(alloc: Global, failing: Failing) -> Result<MemorySink, AllocError> {
    let mut calls = Vec::new(alloc);
    if let Failing::Write(call) = failing {
        calls.push(call)?;
    }
    MemorySink::new(alloc, 1_000_000, 10, calls)
}

fn notes_of(alloc: Global, failing: Failing) -> Result<MemorySink, AllocError> {
    let mut calls = Vec::new(alloc);
    if let Failing::Note(call) = failing {
        calls.push(call)?;
    }
    MemorySink::new(alloc, 100, 100, calls)
}

/// Runs the program with this file as slot 0.
pub(crate) fn ran(
    alloc: Global,
    words: &[&str],
    file: &[u8],
    failing: Failing,
) -> Result<Seen, AllocError> {
    let words = words_of(alloc, words)?;
    let mut inputs = inputs_of(alloc, file, failing)?;
    let mut out = output_of(alloc, failing)?;
    let mut notes = notes_of(alloc, failing)?;
    let outcome = run(alloc, &words, &mut inputs, &mut out, &mut notes);
    Ok(Seen {
        outcome,
        out,
        notes,
    })
}

/// How a run is to end: its status, its cause, the output and what is told.
#[derive(Drop)]
pub(crate) struct Ending {
    pub status: u8,
    pub cause: Cause,
    pub text: &'static [u8],
    pub note: &'static [u8],
}

/// Whether a run ends so.
pub(crate) fn ends(
    alloc: Global,
    words: &[&str],
    file: &[u8],
    failing: Failing,
    ending: &Ending,
) -> bool {
    match ran(alloc, words, file, failing) {
        Ok(seen) => ended(&seen, ending),
        Err(_) => false,
    }
}

fn ended(seen: &Seen, ending: &Ending) -> bool {
    seen.outcome.status == ending.status
        && seen.outcome.cause == ending.cause
        && seen.out.taken() == ending.text
        && seen.notes.taken() == ending.note
}

/// Whether the unit is refused for this cause, which is told so, and nothing is written.
pub(crate) fn is_refused(alloc: Global, unit: &[u8], cause: &Cause, note: &[u8]) -> bool {
    match ran(alloc, &["compile", "u.psl"], unit, Failing::Nothing) {
        Ok(seen) => was_refused(&seen, cause, note),
        Err(_) => false,
    }
}

fn was_refused(seen: &Seen, cause: &Cause, note: &[u8]) -> bool {
    seen.outcome.status == 6
        && seen.outcome.cause == *cause
        && seen.out.taken().is_empty()
        && seen.notes.taken() == note
}

/// Whether the unit is compiled, and nothing is told.
pub(crate) fn is_compiled(alloc: Global, unit: &[u8]) -> bool {
    match ran(alloc, &["compile", "u.psl"], unit, Failing::Nothing) {
        Ok(seen) => was_compiled(&seen),
        Err(_) => false,
    }
}

fn was_compiled(seen: &Seen) -> bool {
    seen.outcome.status == 0 && seen.outcome.cause == Cause::Done && seen.notes.taken().is_empty()
}

/// Whether the unit is compiled to a text with this line.
pub(crate) fn has_line(alloc: Global, unit: &[u8], line: &[u8]) -> bool {
    match ran(alloc, &["compile", "u.psl"], unit, Failing::Nothing) {
        Ok(seen) => was_compiled(&seen) && stands_in(line, seen.out.taken()),
        Err(_) => false,
    }
}

fn stands_in(line: &[u8], text: &[u8]) -> bool {
    text.split(|byte| *byte == b'\n').any(|found| found == line)
}
