//! Whole texts.

ghost use Rattle.std.specs.Prelude.{◌≡◌, ℕ, List, [], length, map, IfOk, Err};
ghost use Rattle.verilog_text.specs.Module as plain;
ghost use Rattle.verilog_text.specs.Text.{StandsForModules};
ghost use Rattle.verilog_text.specs.View.{module_of};
ghost use Rattle.verilog_reader.specs.inner.Answers.{Gives};
ghost use Rattle.verilog_reader.specs.declared.errors.TextError.TheVariants.{NotChecker};
ghost use Rattle.verilog_reader.specs.inner.Lines.{module_at, modules_at};

use crate::bytes::{split_run, strip};
use crate::errors::{Stop, TextError};
use crate::modules::read_module;
use crate::names::put_name;
use crate::tables::find;
use indexmap::IndexMap;
use psl_model::Name;
use std::alloc::{AllocError, Global};
use verilog_text::Module;

/// The modules that the bytes stand for, in their order. `NotChecker` comes exactly where they stand for none.
///
/// The line that it tells is the first in which something stands that can't stand there; a rest without a line feed
/// is such a line, and where the text ends too early it is the line behind the last. No clause says so yet.
pub fn read_modules(alloc: Global, bytes: &[u8]) -> Result<Vec<Module>, TextError>
    ensures found { IfOk result (λ modules. StandsForModules bytes.now (map module_of modules.items)) }
    ensures no_other { IfOk result (λ modules.
        (ms : List plain.Module) → StandsForModules bytes.now ms → ms ≡ map module_of modules.items) }
    ensures refused { (line : ℕ) → result ≡ Err (NotChecker line) →
        (ms : List plain.Module) → ¬ StandsForModules bytes.now ms }
{
    match read_all(alloc, bytes) {
        Ok(modules) => Ok(modules),
        Err(Stop::Wrong { left }) => Err(TextError::NotChecker {
            line: line_of(bytes, left),
        }),
        Err(Stop::OutOfMemory) => Err(TextError::OutOfMemory),
    }
}

/// The modules, whose names must differ.
fn read_all(alloc: Global, bytes: &[u8]) -> Result<Vec<Module>, Stop>
    ensures { Gives (λ modules. map module_of modules.items) result (modules_at (length bytes.now) ([], []) bytes.now) }
{
    let mut seen = IndexMap::new(alloc);
    let mut modules = Vec::new(alloc);
    let mut rest = bytes;
    'modules: for most in 0..bytes.len() {
        if rest.is_empty() {
            return Ok(modules);
        }
        let (checker, after) = read_next(alloc, &seen, rest)?;
        let name = checker.name.copy(alloc)?;
        put_name(&mut seen, name, 1, rest.len())?;
        modules.push(checker)?;
        rest = after;
    }
    if rest.is_empty() {
        Ok(modules)
    } else {
        Err(Stop::Wrong { left: rest.len() })
    }
}

/// The module at the front. A name that a module before it has is a fault of its first line, whatever follows.
fn read_next<'a>(
    alloc: Global,
    seen: &IndexMap<Name, u32>,
    bytes: &'a [u8],
) -> Result<(Module, &'a [u8]), Stop>
    ensures { Gives (λ read. (module_of read.0, read.1.now)) result (module_at bytes.now) }
{
    match read_module(alloc, bytes) {
        Ok(read) => Ok(read),
        Err(Stop::Wrong { left }) => {
            if has_known_name(alloc, seen, bytes)? {
                Err(Stop::Wrong { left: bytes.len() })
            } else {
                Err(Stop::Wrong { left })
            }
        }
        Err(Stop::OutOfMemory) => Err(Stop::OutOfMemory),
    }
}

/// Whether the first line names a module that is known.
fn has_known_name(
    alloc: Global,
    seen: &IndexMap<Name, u32>,
    bytes: &[u8],
) -> Result<bool, AllocError> {
    match strip(bytes, b"module ") {
        Some(start) => {
            let (name, _) = split_run(start);
            let found = find(alloc, seen, name)?;
            Ok(found.is_some())
        }
        None => Ok(false),
    }
}

/// The line, from 1, of the place from which so many bytes stand to the end.
fn line_of(bytes: &[u8], left: usize) -> u64 {
    let passed = bytes.len().saturating_sub(left);
    let mut line = 1;
    'lines: for place in 0..passed {
        if bytes[place] == b'\n' {
            line += 1;
        }
    }
    line
}
