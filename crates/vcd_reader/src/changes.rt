//! The tokens behind the declarations.

ghost use Rattle.std.specs.Prelude.{◌≡◌, [], ◌∷◌, ◌++◌, IfOk, OnOk};
ghost use Rattle.std.specs.List.{list_all};
ghost use Rattle.vcd_reader.specs.Words.{is_value_digit};
ghost use Rattle.vcd_reader.specs.inner.StateView.{state_of};
ghost use Rattle.vcd_reader.specs.inner.Rules.{at_change, at_word, at_time, at_scalar, at_vector, at_vector_code};
ghost use Rattle.vcd_reader.specs.inner.Steps.{Gives};

use crate::numbers::number;
use crate::reading::{Fault, Place, Reading, StepError, is_end};
use crate::waveform::Change;
use psl_model::Name;
use std::alloc::Global;

// A digit of a value.
fn is_value_digit(byte: u8) -> bool
    ensures is { result ≡ is_value_digit byte }
{
    byte == b'0' || byte == b'1' || byte == b'x' || byte == b'z' || byte == b'X' || byte == b'Z'
}

fn are_value_digits(text: &[u8]) -> bool
    ensures all { result ≡ list_all is_value_digit text.now }
{
    text.iter().all(|byte| is_value_digit(*byte))
}

impl Reading {
    pub fn take_change(&mut self, alloc: Global, text: &[u8]) -> Result<(), StepError>
        ensures step { Gives result (state_of self.new) (at_change (state_of self.old) text.now) }
    {
        match text.split_first() {
            None => Err(StepError::Fault(Fault::Syntax)),
            Some((first, rest)) => {
                if is_value_digit(*first) {
                    self.take_scalar(alloc, *first, rest)
                } else if *first == b'#' {
                    self.take_time(rest)
                } else if *first == b'b' || *first == b'B' {
                    self.take_vector(rest)
                } else if *first == b'r' || *first == b'R' || *first == b's' || *first == b'S' {
                    self.place = Place::OtherCode;
                    Ok(())
                } else {
                    self.take_word(text)
                }
            }
        }
    }

    fn take_word(&mut self, text: &[u8]) -> Result<(), StepError>
        ensures step { Gives result (state_of self.new) (at_word (state_of self.old) text.now) }
    {
        if text == b"$comment".as_slice() {
            self.place = Place::Remark;
            Ok(())
        } else if is_end(text)
            || text == b"$dumpvars".as_slice()
            || text == b"$dumpall".as_slice()
            || text == b"$dumpon".as_slice()
            || text == b"$dumpoff".as_slice()
        {
            Ok(())
        } else {
            Err(StepError::Fault(Fault::Syntax))
        }
    }

    fn take_time(&mut self, digits: &[u8]) -> Result<(), StepError>
        ensures step { Gives result (state_of self.new) (at_time (state_of self.old) digits.now) }
    {
        match number(digits, u64::MAX) {
            None => Err(StepError::Fault(Fault::Syntax)),
            Some(time) => {
                if time < self.time {
                    return Err(StepError::Fault(Fault::TimeGoesBack));
                }
                self.time = time;
                Ok(())
            }
        }
    }

    fn take_scalar(&mut self, alloc: Global, digit: u8, id: &[u8]) -> Result<(), StepError>
        ensures step { Gives result (state_of self.new) (at_scalar digit (state_of self.old) id.now) }
    {
        match self.codes.find(id) {
            None => Err(StepError::Fault(Fault::Syntax)),
            Some((code, _)) => {
                let digits = Name::new(alloc, &[digit])?;
                let time = self.time;
                self.changes.push(Change { time, code, digits })?;
                Ok(())
            }
        }
    }

    fn take_vector(&mut self, digits: &[u8]) -> Result<(), StepError>
        ensures step { Gives result (state_of self.new) (at_vector (state_of self.old) digits.now) }
    {
        if digits.is_empty() || !are_value_digits(digits) {
            return Err(StepError::Fault(Fault::Syntax));
        }
        self.digits.clear();
        self.digits.extend_from_slice(digits)?;
        self.place = Place::VectorCode;
        Ok(())
    }

    pub fn take_vector_code(&mut self, alloc: Global, id: &[u8]) -> Result<(), StepError>
        ensures step { Gives result (state_of self.new) (at_vector_code (state_of self.old) id.now) }
    {
        match self.codes.find(id) {
            None => Err(StepError::Fault(Fault::Syntax)),
            Some((code, size)) => {
                if self.digits.len() > size as usize {
                    return Err(StepError::Fault(Fault::Syntax));
                }
                let digits = Name::new(alloc, &self.digits)?;
                let time = self.time;
                self.changes.push(Change { time, code, digits })?;
                self.digits.clear();
                self.place = Place::Changing;
                Ok(())
            }
        }
    }
}
