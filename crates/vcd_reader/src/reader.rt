//! The reader of a waveform that comes in pieces, and of one that is there whole.

ghost use Rattle.std.specs.Prelude.{◌≡◌, ◌+◌, ◌<◌, ◌≤◌, ◌^◌, [], ◌++◌, List, ℕ, length, IfOk, OnOk, OnErr, IsErr, None};
ghost use Rattle.std.specs.Prelude.{Err};
ghost use Rattle.vcd_reader.specs.declared.waveform.VcdError.TheVariants.{OutOfMemory};
ghost use Rattle.vcd_reader.specs.Telling.{StandsFor};
ghost use Rattle.vcd_reader.specs.Sound.{IsSound};
ghost use Rattle.vcd_reader.specs.Stream.{after, stream_taken};

use crate::scanner::Scanner;
use crate::waveform::{Vcd, VcdError};
use std::alloc::{AllocError, Global};
use std::marker::Model;

/// Reads a waveform that comes in pieces, cut at any byte. Contracts see what it knows after the pieces so far, or
/// None once memory was wanting.
#[derive(Drop)]
pub struct VcdReader {
    lost: bool,
    scanner: Scanner,
}

impl Model for VcdReader {
    ghost use Rattle.std.specs.Prelude.{◌≡◌, false, cond, Some, None};
    ghost use Rattle.vcd_reader.specs.inner.Scan.{IsPartWithin};
    ghost use Rattle.vcd_reader.specs.Stream.{Stream};

    ghost Value = { Stream };

    ghost use Rattle.vcd_reader.specs.inner.ScanView.{scan_of};

    ghost view = { λ reader. cond reader.lost None (Some (scan_of reader.scanner)) };

    ghost invariant = { λ reader. reader.lost ≡ false → IsPartWithin (scan_of reader.scanner) };
}

impl VcdReader {
    /// A reader of nothing yet. It takes no memory before the first piece.
    pub fn new(alloc: Global) -> VcdReader
        ensures nothing { result ≡ after [] }
        ensures none_taken { stream_taken result ≡ 0 }
    {
        VcdReader {
            lost: false,
            scanner: Scanner::new(alloc),
        }
    }

    /// Takes the next piece. The pieces have together at most 18,446,744,073,709,551,615 bytes. After an `Err` every
    /// later call answers want of memory.
    pub fn feed(&mut self, piece: &[u8]) -> Result<(), AllocError>
        requires fits { stream_taken self.old + length piece.now < 2 ^ 64 }
        ensures takes { OnOk result ((bytes : List ℕ)
            → self.old ≡ after bytes → self.new ≡ after (bytes ++ piece.now)) }
        ensures counts { stream_taken self.new ≤ stream_taken self.old + length piece.now }
        ensures loses { OnErr result (self.new ≡ None) }
        ensures lost { self.old ≡ None → IsErr result }
    {
        if self.lost {
            return Err(AllocError);
        }
        match self.scanner.feed(piece) {
            Ok(()) => Ok(()),
            Err(error) => {
                self.lost = true;
                Err(error)
            }
        }
    }

    /// What the pieces joined stand for, as `Vcd::read` answers.
    pub fn finish(self) -> Result<Vcd, VcdError>
        ensures answers { (bytes : List ℕ) → self ≡ after bytes → StandsFor bytes result }
        ensures sound { (bytes : List ℕ) → self ≡ after bytes → IfOk result (λ vcd.
            IsSound (record { vars = vcd.vars.items; changes = vcd.changes.items })) }
        ensures lost { self ≡ None → result ≡ Err OutOfMemory }
    {
        let VcdReader { lost, scanner } = self;
        if lost {
            return Err(VcdError::OutOfMemory);
        }
        scanner.finish()
    }
}

impl Vcd {
    /// The waveform that the bytes stand for, or the first fault.
    pub fn read(alloc: Global, bytes: &[u8]) -> Result<Vcd, VcdError>
        ensures answers { StandsFor bytes.now result }
        ensures sound { IfOk result (λ vcd.
            IsSound (record { vars = vcd.vars.items; changes = vcd.changes.items })) }
    {
        let mut reader = VcdReader::new(alloc);
        match reader.feed(bytes) {
            Ok(()) => reader.finish(),
            Err(_) => Err(VcdError::OutOfMemory),
        }
    }
}
