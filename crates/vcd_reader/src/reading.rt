//! A waveform while its tokens come.

ghost use Rattle.std.specs.Prelude.{◌≡◌, [], ◌++◌, IfOk, OnOk};
ghost use Rattle.vcd_reader.specs.Words.{is_word};
ghost use Rattle.vcd_reader.specs.inner.State.{start};
ghost use Rattle.vcd_reader.specs.inner.StateView.{state_of};
ghost use Rattle.vcd_reader.specs.inner.Rules.{next, at_end};
ghost use Rattle.vcd_reader.specs.inner.Steps.{Gives};

use crate::codes::Codes;
use crate::waveform::{Change, Var};
use std::alloc::{AllocError, AllocFailed, Global};

/// Where the next token stands.
#[derive(Clone, Copy, Debug, PartialEq, Eq)]
pub enum Place {
    /// Between declarations.
    Declaring,
    /// In a part that is skipped up to its `$end`.
    Skipping,
    ScopeType,
    ScopeName,
    /// Behind the last part of a declaration, before its `$end`.
    DeclarationEnd,
    VarType,
    VarSize,
    VarCode { size: u32 },
    VarName { size: u32, code: usize },
    /// Behind a part of the name, before a further part or `$end`.
    VarRest { size: u32, code: usize },
    DefinitionsEnd,
    /// Between changes.
    Changing,
    /// In a comment between changes.
    Remark,
    /// Behind a real or a text value, before its identifier.
    OtherCode,
    /// Behind the digits of a vector, before its identifier.
    VectorCode,
}

/// Which rule a token breaks.
#[derive(Clone, Copy, Debug, PartialEq, Eq)]
pub enum Fault {
    Syntax,
    TimeGoesBack,
}

#[derive(Clone, Copy, Debug)]
pub enum StepError {
    Fault(Fault),
    Memory,
}

impl From<AllocError> for StepError {
    ghost use Rattle.std.specs.Prelude.{◌≡◌};
    ghost use Rattle.vcd_reader.specs.declared.reading.StepError.TheVariants.{Memory};

    ghost from_gives = { λ _ e. e ≡ Memory };

    fn from(_: AllocError) -> StepError {
        StepError::Memory
    }
}

impl<T: Drop> From<AllocFailed<T>> for StepError {
    ghost use Rattle.std.specs.Prelude.{◌≡◌};
    ghost use Rattle.vcd_reader.specs.declared.reading.StepError.TheVariants.{Memory};

    ghost from_gives = { λ _ e. e ≡ Memory };

    fn from(_: AllocFailed<T>) -> StepError {
        StepError::Memory
    }
}

/// What the tokens so far have declared and changed.
#[derive(Drop)]
pub struct Reading {
    pub place: Place,
    /// The path of the open scopes.
    pub path: Vec<u8>,
    /// The length of the path round each open scope, outermost first.
    pub outer: Vec<usize>,
    pub codes: Codes,
    pub vars: Vec<Var>,
    /// The parts of the name of the variable that is being declared.
    pub joined: Vec<u8>,
    pub time: u64,
    /// The digits of the vector that is being changed.
    pub digits: Vec<u8>,
    pub changes: Vec<Change>,
}

pub fn is_end(text: &[u8]) -> bool
    ensures is { result ≡ is_word "$end" text.now }
{
    text == b"$end".as_slice()
}

impl Reading {
    pub fn new(alloc: Global) -> Reading
        ensures nothing { state_of result ≡ start }
    {
        Reading {
            place: Place::Declaring,
            path: Vec::new(alloc),
            outer: Vec::new(alloc),
            codes: Codes::new(alloc),
            vars: Vec::new(alloc),
            joined: Vec::new(alloc),
            time: 0,
            digits: Vec::new(alloc),
            changes: Vec::new(alloc),
        }
    }

    /// Takes the next token. After an `Err` the value is of no use.
    pub fn take(&mut self, alloc: Global, text: &[u8]) -> Result<(), StepError>
        ensures step { Gives result (state_of self.new) (next (state_of self.old) text.now) }
    {
        match self.place {
            Place::Changing => self.take_change(alloc, text),
            Place::VectorCode => self.take_vector_code(alloc, text),
            Place::OtherCode => {
                self.place = Place::Changing;
                Ok(())
            }
            Place::Remark => {
                if is_end(text) {
                    self.place = Place::Changing;
                }
                Ok(())
            }
            Place::Declaring => self.take_declaration(text),
            Place::Skipping => {
                if is_end(text) {
                    self.place = Place::Declaring;
                }
                Ok(())
            }
            Place::ScopeType => {
                self.place = Place::ScopeName;
                Ok(())
            }
            Place::ScopeName => self.open_scope(text),
            Place::DeclarationEnd => self.end_part(text, Place::Declaring),
            Place::VarType => {
                self.place = Place::VarSize;
                Ok(())
            }
            Place::VarSize => self.take_size(text),
            Place::VarCode { size } => self.take_code(alloc, text, size),
            Place::VarName { size, code } => self.begin_name(text, size, code),
            Place::VarRest { size, code } => self.go_on_with_name(alloc, text, size, code),
            Place::DefinitionsEnd => self.end_part(text, Place::Changing),
        }
    }

    // The `$end` of a part, behind which another place is.
    fn end_part(&mut self, text: &[u8], behind: Place) -> Result<(), StepError>
        ensures step { Gives result (state_of self.new) (at_end behind (state_of self.old) text.now) }
    {
        if !is_end(text) {
            return Err(StepError::Fault(Fault::Syntax));
        }
        self.place = behind;
        Ok(())
    }
}
