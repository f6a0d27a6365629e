//! The tokens of declarations.

ghost use Rattle.std.specs.Prelude.{◌≡◌, [], ◌++◌, IfOk, OnOk};
ghost use Rattle.vcd_reader.specs.inner.StateView.{state_of};
ghost use Rattle.vcd_reader.specs.inner.Rules.{at_declaration, at_upscope, at_scope_name, at_size};
ghost use Rattle.vcd_reader.specs.inner.Rules.{at_code, at_name, at_rest};
ghost use Rattle.vcd_reader.specs.inner.Steps.{Gives};

use crate::names::range_start;
use crate::numbers::number;
use crate::reading::{Fault, Place, Reading, StepError, is_end};
use crate::waveform::Var;
use psl_model::Name;
use std::alloc::Global;

const MAX_SIZE: u64 = 65_536;

impl Reading {
    pub fn take_declaration(&mut self, text: &[u8]) -> Result<(), StepError>
        ensures step { Gives result (state_of self.new) (at_declaration (state_of self.old) text.now) }
    {
        if text == b"$var".as_slice() {
            self.place = Place::VarType;
        } else if text == b"$scope".as_slice() {
            self.place = Place::ScopeType;
        } else if text == b"$upscope".as_slice() {
            self.close_scope()?;
        } else if text == b"$comment".as_slice()
            || text == b"$date".as_slice()
            || text == b"$version".as_slice()
            || text == b"$timescale".as_slice()
        {
            self.place = Place::Skipping;
        } else if text == b"$enddefinitions".as_slice() {
            self.place = Place::DefinitionsEnd;
        } else {
            return Err(StepError::Fault(Fault::Syntax));
        }
        Ok(())
    }

    fn close_scope(&mut self) -> Result<(), StepError>
        ensures step { Gives result (state_of self.new) (at_upscope (state_of self.old)) }
    {
        match self.outer.pop() {
            None => Err(StepError::Fault(Fault::Syntax)),
            Some(length) => {
                self.path.truncate(length);
                self.place = Place::DeclarationEnd;
                Ok(())
            }
        }
    }

    pub fn open_scope(&mut self, text: &[u8]) -> Result<(), StepError>
        ensures step { Gives result (state_of self.new) (at_scope_name (state_of self.old) text.now) }
    {
        if is_end(text) {
            return Err(StepError::Fault(Fault::Syntax));
        }
        let length = self.path.len();
        self.outer.push(length)?;
        if length > 0 {
            self.path.push(b'.')?;
        }
        self.path.extend_from_slice(text)?;
        self.place = Place::DeclarationEnd;
        Ok(())
    }

    pub fn take_size(&mut self, text: &[u8]) -> Result<(), StepError>
        ensures step { Gives result (state_of self.new) (at_size (state_of self.old) text.now) }
    {
        match number(text, MAX_SIZE) {
            Some(size) if size > 0 => {
                self.place = Place::VarCode { size: size as u32 };
                Ok(())
            }
            _ => Err(StepError::Fault(Fault::Syntax)),
        }
    }

    pub fn take_code(&mut self, alloc: Global, text: &[u8], size: u32) -> Result<(), StepError>
        ensures step { Gives result (state_of self.new) (at_code size (state_of self.old) text.now) }
    {
        if is_end(text) {
            return Err(StepError::Fault(Fault::Syntax));
        }
        match self.codes.find(text) {
            None => {
                let code = self.codes.add(alloc, text, size)?;
                self.place = Place::VarName { size, code };
                Ok(())
            }
            Some((code, known)) => {
                if known != size {
                    return Err(StepError::Fault(Fault::Syntax));
                }
                self.place = Place::VarName { size, code };
                Ok(())
            }
        }
    }

    pub fn begin_name(&mut self, text: &[u8], size: u32, code: usize) -> Result<(), StepError>
        ensures step { Gives result (state_of self.new) (at_name size code (state_of self.old) text.now) }
    {
        if is_end(text) {
            return Err(StepError::Fault(Fault::Syntax));
        }
        self.joined.clear();
        self.joined.extend_from_slice(text)?;
        self.place = Place::VarRest { size, code };
        Ok(())
    }

    pub fn go_on_with_name(
        &mut self,
        alloc: Global,
        text: &[u8],
        size: u32,
        code: usize,
    ) -> Result<(), StepError>
        ensures step { Gives result (state_of self.new) (at_rest size code (state_of self.old) text.now) }
    {
        if is_end(text) {
            let scope = Name::new(alloc, &self.path)?;
            let end = range_start(&self.joined);
            let name = Name::new(alloc, &self.joined[..end])?;
            self.vars.push(Var {
                scope,
                name,
                size,
                code,
            })?;
            self.joined.clear();
            self.place = Place::Declaring;
        } else {
            self.joined.extend_from_slice(text)?;
        }
        Ok(())
    }
}
