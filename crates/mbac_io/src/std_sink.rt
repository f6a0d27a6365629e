ghost use Rattle.std.specs.Prelude.{◌≡◌};

use crate::device::{Failed, Sink};
use std::io::Write;
use std::marker::Model;

/// A sink over standard output or standard error, part of the edge that is trusted: it tells no bytes,
/// and of what it does only the count of faults is proved.
#[derive(Drop)]
pub struct StdSink<W> {
    writer: W,
    faults: u64,
}

// Contracts see its count of faults alone.
impl<W> Model for StdSink<W> {
    ghost use Rattle.std.specs.Prelude.{ℕ};

    ghost Value = { ℕ };

    ghost view = { λ sink. sink.faults };
}

impl<W: Write> StdSink<W> {
    /// A sink that hands the bytes to the writer, which must not hold any back: an error that comes
    /// after the write is lost.
    pub fn new(writer: W) -> Self
        ensures no_faults { ⟦<StdSink<W> as Sink>⟧.faults result ≡ 0 }
    {
        StdSink { writer, faults: 0 }
    }
}

impl<W: Write> Sink for StdSink<W> {
    ghost use Rattle.std.specs.Prelude.{None};

    ghost taken = { λ sink. None };

    ghost faults = { λ sink. sink };

    // A write that takes nothing is a fault: no later one need take anything either.
    fn write(&mut self, bytes: &[u8]) -> Result<usize, Failed> {
        match self.writer.write(bytes) {
            Ok(0) | Err(_) => {
                self.faults = self.faults.saturating_add(1);
                Err(Failed)
            }
            Ok(count) => Ok(count),
        }
    }
}
