//! Traces that are sampled from waveforms, and why there is none.

ghost use Rattle.std.specs.Prelude.{◌≡◌, ◌<◌, ◌≤◌, ◌+◌, ◌*◌, length, take, drop, Some, slice_get};

use psl_model::Name;
use std::marker::Model;

/// Why no trace is sampled.
#[derive(Debug, Drop, PartialEq, Eq)]
pub enum SampleError {
    /// No variable has the scope.
    NoScope,
    /// The clock, or else the first wanted signal, that the scope doesn't have.
    MissingSignal { name: Name },
    /// The clock, or else the first wanted signal, whose variable has another size.
    WidthDiffers { name: Name },
    /// No edge is left behind the skipped ones.
    NoCycles,
    /// The first sample with x or z, by cycle, from 0 behind the skipped edges, and then by the order of the signals.
    UnknownValue { cycle: u64, name: Name },
    OutOfMemory,
}

/// The values of the wanted signals, cycle by cycle. Contracts see it as the list of its rows.
#[derive(Debug, Drop)]
pub struct Trace {
    pub(crate) cycles: u64,
    pub(crate) ports: usize,
    pub(crate) values: Vec<u128>,
}

impl Model for Trace {
    ghost use Rattle.std.specs.Prelude.{List, ℕ, length};
    ghost use Rattle.vcd_replay.specs.inner.Rows.{rows, IsWhole};

    ghost Value = { List (List ℕ) };

    ghost view = { λ trace. rows trace.ports trace.cycles trace.values.items };

    ghost invariant = { λ trace. IsWhole trace.ports trace.cycles trace.values.items };
}

// The row of a cycle, among rows of so many values.
fn part(values: &[u128], cycle: usize, ports: usize) -> &[u128]
    requires { cycle * ports + ports ≤ length values.now }
    ensures row { result.now ≡ take ports (drop (cycle * ports) values.now) }
{
    let start = cycle * ports;
    let (_, behind) = values.split_at(start);
    let (row, _) = behind.split_at(ports);
    row
}

impl Trace {
    /// How many cycles the trace has.
    pub fn cycles(&self) -> u64
        ensures count { result ≡ length self.now }
    {
        self.cycles
    }

    /// The values of a cycle, one for each wanted signal, in their order.
    pub fn row(&self, cycle: u64) -> &[u128]
        requires { cycle < length self.now }
        ensures values { slice_get self.now cycle ≡ Some result.now }
    {
        part(&self.values, cycle as usize, self.ports)
    }
}
