//! Texts read in pieces of any size.

ghost use Rattle.std.specs.Prelude.{◌<◌, ◌≤◌, IfOk};
ghost use Rattle.vcd_reader.specs.Sound.{IsSound};

use std::alloc::Global;
use vcd_reader::{Vcd, VcdError, VcdReader};

/// Texts of these tests are shorter.
const MOST: usize = 65_536;

/// The waveform of a text that comes in pieces of that many bytes.
pub fn read_in_pieces(alloc: Global, text: &[u8], size: usize) -> Result<Vcd, VcdError>
    requires { 0 < size }
{
    let mut reader = VcdReader::new(alloc);
    let mut taken: usize = 0;
    for piece in text.chunks(size) {
        if taken > MOST || piece.len() > MOST {
            return Err(VcdError::OutOfMemory);
        }
        match reader.feed(piece) {
            Ok(()) => {}
            Err(_) => return Err(VcdError::OutOfMemory),
        }
        taken += piece.len();
    }
    reader.finish()
}

/// What is wrong with a text, whole or in pieces of one, two or seven bytes; None also where the answers differ, or
/// where it is right.
pub fn fault_of(alloc: Global, text: &[u8]) -> Option<VcdError> {
    let whole = error_of(Vcd::read(alloc, text));
    let ones = error_of(read_in_pieces(alloc, text, 1));
    let twos = error_of(read_in_pieces(alloc, text, 2));
    let sevens = error_of(read_in_pieces(alloc, text, 7));
    if ones == whole && twos == whole && sevens == whole {
        whole
    } else {
        None
    }
}

fn error_of(answer: Result<Vcd, VcdError>) -> Option<VcdError> {
    match answer {
        Ok(_) => None,
        Err(error) => Some(error),
    }
}

/// A text is read alike whole and in pieces of one, two or seven bytes, with so many variables and changes.
pub fn reads(alloc: Global, text: &[u8], vars: usize, changes: usize) -> bool {
    has(Vcd::read(alloc, text), vars, changes)
        && has(read_in_pieces(alloc, text, 1), vars, changes)
        && has(read_in_pieces(alloc, text, 2), vars, changes)
        && has(read_in_pieces(alloc, text, 7), vars, changes)
}

fn has(answer: Result<Vcd, VcdError>, vars: usize, changes: usize) -> bool {
    match answer {
        Ok(vcd) => vcd.vars.len() == vars && vcd.changes.len() == changes,
        Err(_) => false,
    }
}

/// A text is the same waveform, or has the same fault, whole and in pieces of one, two or seven bytes.
pub fn is_read_alike(alloc: Global, text: &[u8]) -> bool {
    is_alike(Vcd::read(alloc, text), read_in_pieces(alloc, text, 1))
        && is_alike(Vcd::read(alloc, text), read_in_pieces(alloc, text, 2))
        && is_alike(Vcd::read(alloc, text), read_in_pieces(alloc, text, 7))
}

fn is_alike(whole: Result<Vcd, VcdError>, joined: Result<Vcd, VcdError>) -> bool {
    match (whole, joined) {
        (Ok(whole), Ok(joined)) => whole.vars == joined.vars && whole.changes == joined.changes,
        (Err(whole), Err(joined)) => whole == joined,
        _ => false,
    }
}
