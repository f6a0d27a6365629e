//! The bytes of a waveform, cut into tokens.

ghost use Rattle.std.specs.Prelude.{◌≡◌, ◌+◌, ◌≤◌, ◌<◌, ◌^◌, [], ◌++◌, length, ℕ, OnOk, IfOk, Some, None};
ghost use Rattle.std.specs.Option.{option_map_or};
ghost use Rattle.vcd_reader.specs.inner.StateView.{state_of};
ghost use Rattle.vcd_reader.specs.Tokens.{is_blank};
ghost use Rattle.vcd_reader.specs.inner.Rules.{next};
ghost use Rattle.vcd_reader.specs.Telling.{fault_at};
ghost use Rattle.vcd_reader.specs.Telling.{Answers};
ghost use Rattle.vcd_reader.specs.inner.Scan.{reads, fails, stepped, close, scan_from, first_scan, bytes_taken, ended};
ghost use Rattle.vcd_reader.specs.inner.Scan.{IsPartWithin};

use crate::reading::{Fault, Place, Reading, StepError};
use crate::waveform::{Vcd, VcdError};
use std::alloc::{AllocError, Global};

/// What is known of a text after some of its bytes.
#[derive(Drop)]
pub struct Scanner {
    pub alloc: Global,
    /// The first fault, once it has come.
    pub failed: Option<VcdError>,
    /// How many bytes have come, while there is no fault.
    pub at: u64,
    /// The bytes of the token that may go on in the next piece.
    pub partial: Vec<u8>,
    pub reading: Reading,
}

fn is_blank(byte: u8) -> bool
    ensures is { result ≡ is_blank byte }
{
    byte == b' ' || byte == b'\t' || byte == b'\n' || byte == b'\r'
}

fn fault_at(offset: u64, fault: Fault) -> VcdError
    ensures is { result ≡ fault_at offset fault }
{
    match fault {
        Fault::Syntax => VcdError::VcdSyntax { offset },
        Fault::TimeGoesBack => VcdError::TimeGoesBack { offset },
    }
}

// Takes a token that began at the offset `from`, and gives its fault.
fn take_token(
    alloc: Global,
    reading: &mut Reading,
    token: &[u8],
    from: u64,
) -> Result<Option<VcdError>, AllocError>
    ensures step { IfOk result (λ failed. (at : ℕ) →
        option_map_or fails failed (reads at [] (state_of reading.new))
        ≡ stepped at from (next (state_of reading.old) token.now)) }
{
    match reading.take(alloc, token) {
        Ok(()) => Ok(None),
        Err(StepError::Fault(fault)) => Ok(Some(fault_at(from, fault))),
        Err(StepError::Memory) => Err(AllocError),
    }
}

impl Scanner {
    ghost use Rattle.vcd_reader.specs.inner.ScanView.{scanned, scan_of};

    pub fn new(alloc: Global) -> Scanner
        ensures nothing { scan_of result ≡ first_scan }
    {
        Scanner {
            alloc,
            failed: None,
            at: 0,
            partial: Vec::new(alloc),
            reading: Reading::new(alloc),
        }
    }

    // Ends the token that the open bytes and `part` make, if there are any; `end` is the offset behind it.
    fn end_token(&mut self, part: &[u8], end: u64) -> Result<(), AllocError>
        requires fine { self.old.failed ≡ None }
        requires room { length self.old.partial.items + length part.now ≤ end }
        ensures closes { OnOk result (scanned end self.new
            ≡ close (reads end (self.old.partial.items ++ part.now) (state_of self.old.reading))) }
        ensures empty { OnOk result (self.new.partial.items ≡ []) }
        ensures at { self.new.at ≡ self.old.at }
    {
        if self.partial.is_empty() {
            if part.is_empty() {
                return Ok(());
            }
            let from = end - part.len() as u64;
            self.failed = take_token(self.alloc, &mut self.reading, part, from)?;
            Ok(())
        } else {
            self.partial.extend_from_slice(part)?;
            let from = end - self.partial.len() as u64;
            self.failed = take_token(self.alloc, &mut self.reading, &self.partial, from)?;
            self.partial.clear();
            Ok(())
        }
    }

    /// Takes the next bytes. After an `Err` the value is of no use.
    pub fn feed(&mut self, piece: &[u8]) -> Result<(), AllocError>
        requires fits { bytes_taken (scan_of self.old) + length piece.now < 2 ^ 64 }
        requires within { IsPartWithin (scan_of self.old) }
        ensures scans { OnOk result (scan_of self.new ≡ scan_from (scan_of self.old) piece.now) }
    {
        match self.failed {
            Some(_) => Ok(()),
            None => self.scan(piece),
        }
    }

    fn scan(&mut self, piece: &[u8]) -> Result<(), AllocError>
        requires fine { self.old.failed ≡ None }
        requires fits { self.old.at + length piece.now < 2 ^ 64 }
        requires within { length self.old.partial.items ≤ self.old.at }
        ensures scans { OnOk result (scan_of self.new
            ≡ scan_from (reads self.old.at self.old.partial.items (state_of self.old.reading)) piece.now) }
    {
        let mut start = 0;
        for (index, byte) in piece.iter().enumerate() {
            if is_blank(*byte) {
                self.end_token(&piece[start..index], self.at + index as u64)?;
                match self.failed {
                    Some(_) => return Ok(()),
                    None => start = index + 1,
                }
            }
        }
        self.partial.extend_from_slice(&piece[start..])?;
        self.at += piece.len() as u64;
        Ok(())
    }

    /// What the bytes stand for.
    pub fn finish(mut self) -> Result<Vcd, VcdError>
        requires within { IsPartWithin (scan_of self) }
        ensures outcome { Answers result (ended (scan_of self)) }
    {
        if self.failed.is_none() {
            let end = self.at;
            if self.end_token(&[], end).is_err() {
                return Err(VcdError::OutOfMemory);
            }
        }
        let Scanner {
            failed,
            at,
            reading,
            ..
        } = self;
        match failed {
            Some(fault) => Err(fault),
            None => {
                let Reading {
                    place,
                    vars,
                    changes,
                    ..
                } = reading;
                if place != Place::Changing {
                    return Err(VcdError::VcdSyntax { offset: at });
                }
                Ok(Vcd { vars, changes })
            }
        }
    }
}
