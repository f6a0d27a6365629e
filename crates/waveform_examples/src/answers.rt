//! What a text gives, in short: its first fault, or how much is read and the trace of one signal.

use crate::pieces::is_read_alike;
use crate::samples::sampled;
use psl_model::Name;
use std::alloc::Global;
use vcd_reader::{Vcd, VcdError};
use vcd_replay::{SampleError, Trace};

/// What a text gives, whole and in pieces.
#[derive(Clone, Copy, Debug, PartialEq, Eq)]
pub enum Answer {
    /// The text ends too early.
    AtEnd,
    /// The token at this offset breaks a rule.
    Syntax(u64),
    /// The time at this offset goes back.
    Back(u64),
    /// So many variables and changes, and what is sampled.
    Read(usize, usize, Replay),
    OutOfMemory,
    /// Pieces give another answer than the whole text.
    Differs,
}

/// The trace of the signal `a`, of one bit, in the scope `top` with the clock `clk`, behind the first edge.
#[derive(Clone, Copy, Debug, PartialEq, Eq)]
pub enum Replay {
    /// The number of cycles, and the values in them, the first cycle leftmost.
    Values(u64, u64),
    NoScope,
    NoClock,
    NoSignal,
    WideClock,
    WideSignal,
    NoCycles,
    /// The signal is x or z in this cycle, and in none before.
    Unknown(u64),
    OutOfMemory,
}

/// What a text gives.
pub fn told(alloc: Global, text: &[u8]) -> Answer {
    if !is_read_alike(alloc, text) {
        return Answer::Differs;
    }
    match Vcd::read(alloc, text) {
        Ok(vcd) => Answer::Read(
            vcd.vars.len(),
            vcd.changes.len(),
            replayed(&sampled(alloc, text, b"top", b"clk", b"a", 1, 1)),
        ),
        Err(error) => fault(error, text.len() as u64),
    }
}

fn fault(error: VcdError, end: u64) -> Answer {
    match error {
        VcdError::VcdSyntax { offset } if offset == end => Answer::AtEnd,
        VcdError::VcdSyntax { offset } => Answer::Syntax(offset),
        VcdError::TimeGoesBack { offset } => Answer::Back(offset),
        VcdError::OutOfMemory => Answer::OutOfMemory,
    }
}

fn replayed(answer: &Result<Trace, SampleError>) -> Replay {
    match answer {
        Ok(trace) => Replay::Values(trace.cycles(), bits(trace)),
        Err(SampleError::NoScope) => Replay::NoScope,
        Err(SampleError::MissingSignal { name }) => by_name(
            name,
            Replay::NoClock,
            Replay::NoSignal,
        ),
        Err(SampleError::WidthDiffers { name }) => by_name(
            name,
            Replay::WideClock,
            Replay::WideSignal,
        ),
        Err(SampleError::NoCycles) => Replay::NoCycles,
        Err(SampleError::UnknownValue { cycle, .. }) => Replay::Unknown(*cycle),
        Err(SampleError::OutOfMemory) => Replay::OutOfMemory,
    }
}

fn by_name(name: &Name, clock: Replay, signal: Replay) -> Replay {
    if name.bytes() == b"clk".as_slice() {
        clock
    } else {
        signal
    }
}

// The values of the first signal, as binary digits.
fn bits(trace: &Trace) -> u64 {
    let mut bits = 0;
    for cycle in 0..trace.cycles() {
        bits = bits << 1;
        if trace.row(cycle).first() == Some(&1) {
            bits |= 1;
        }
    }
    bits
}
