ghost use Rattle.std.specs.Prelude.{◌≡◌, ℕ, ◌<◌, ◌≤◌, length, IfOk};

use crate::device::{Failed, Inputs};
use crate::slot_faults::SlotFaults;
use std::fs;
use std::io::Read;
use std::marker::Model;
use std::rt::Files;

/// The files of a command, named by words: slot 0 reads the first, slot 1 the second.
///
/// This and `StdSink` are the edge that is trusted: no clause says what a real file, terminal or pipe
/// gives or takes, so they tell no bytes, and of what they do only the count of faults is proved.
#[derive(Drop)]
pub struct StdInputs<'a, R: Files> {
    files: &'a R,
    first: Source<'a, R::File>,
    second: Source<'a, R::File>,
    faults: SlotFaults,
}

#[derive(Drop)]
enum Source<'a, F> {
    Absent,
    Named(&'a str),
    Open(F),
}

// Contracts see its counts of faults alone.
impl<'a, R: Files> Model for StdInputs<'a, R> {
    ghost use Rattle.mbac_io.specs.Faults.{SlotCounts};
    ghost use Rattle.mbac_io.specs.inner.SlotCounts.{counts_of};

    ghost Value = { SlotCounts };

    ghost view = { λ inputs. counts_of inputs.faults };
}

impl<'a, R: Files> StdInputs<'a, R> {
    /// Inputs over the files of these names; a slot without a name has nothing left. A file is opened
    /// when its slot is first read, and where it can't be opened that read fails.
    pub fn new(files: &'a R, first: Option<&'a str>, second: Option<&'a str>) -> Self
        ensures no_faults { (slot : ℕ) → ⟦<StdInputs<'a, R> as Inputs>⟧.faults result slot ≡ 0 }
    {
        StdInputs {
            files,
            first: Source::of_name(first),
            second: Source::of_name(second),
            faults: SlotFaults::NONE,
        }
    }
}

impl<'a, F: Read> Source<'a, F> {
    fn of_name(name: Option<&'a str>) -> Self {
        match name {
            Some(name) => Source::Named(name),
            None => Source::Absent,
        }
    }

    fn read<R: Files<File = F>>(&mut self, files: &R, buffer: &mut [u8]) -> Result<usize, Failed>
        ensures within { IfOk result (λ count. count ≤ length buffer.new) }
    {
        if let Source::Named(name) = self {
            *self = Source::Open(fs::open(files, *name).map_err(|_| Failed)?);
        }
        match self {
            Source::Open(file) => file.read(buffer).map_err(|_| Failed),
            _ => Ok(0),
        }
    }
}

impl<R: Files> Inputs for StdInputs<'_, R> {
    ghost use Rattle.std.specs.Prelude.{None};
    ghost use Rattle.mbac_io.specs.Faults.{faults_of};

    ghost left = { λ inputs slot. None };

    ghost faults = { λ inputs slot. faults_of inputs slot };

    fn read(&mut self, slot: u32, buffer: &mut [u8]) -> Result<usize, Failed> {
        let answer = match slot {
            0 => self.first.read(self.files, buffer),
            1 => self.second.read(self.files, buffer),
            _ => Ok(0),
        };
        if answer.is_err() {
            self.faults.raise(slot);
        }
        answer
    }
}
