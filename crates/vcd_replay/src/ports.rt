//! The variables of a scope.

ghost use Rattle.std.specs.Prelude.{IsFalse, MatchResult, All, ◌≡◌, ℕ, ◌<◌, length, Some, slice_get, MatchOption};
ghost use Rattle.std.specs.Prelude.{IsTrue, ◌↔◌};
ghost use Rattle.vcd_reader.specs.declared.waveform.Var.{Var};
ghost use Rattle.vcd_replay.specs.Ports.{IsNamed, HasNoVariable, HasScope, HasNoScope};
ghost use Rattle.vcd_replay.specs.inner.PortView.{AnswersPort, ArePorts, HasPortFault};

use crate::trace::SampleError;
use psl_model::{Name, Signal};
use std::alloc::Global;
use vcd_reader::Var;

// The variable has that scope and name.
fn is_named(var: &Var, scope: &[u8], name: &[u8]) -> bool
    ensures is { IsTrue result ↔ IsNamed scope.now name.now var.now }
{
    var.scope.bytes() == scope && var.name.bytes() == name
}

/// The place of the first variable of that scope and name.
pub fn find(vars: &[Var], scope: &[u8], name: &[u8]) -> Option<usize>
    ensures cases { MatchOption result (HasNoVariable vars.now scope.now name.now) (λ place.
        ((var : Var) × (slice_get vars.now place ≡ Some var) × IsNamed scope.now name.now var)
        × ((k : ℕ) (other : Var) → k < place → slice_get vars.now k ≡ Some other
        → ¬ IsNamed scope.now name.now other)) }
{
    for (place, var) in vars.iter().enumerate() {
        if is_named(var, scope, name) {
            return Some(place);
        }
    }
    None
}

// The variable has that scope.
fn is_within(var: &Var, scope: &[u8]) -> bool
    ensures is { IsTrue result ↔ (var.now.scope ≡ scope.now) }
{
    var.scope.bytes() == scope
}

/// Some variable has the scope.
pub fn has_scope(vars: &[Var], scope: &[u8]) -> bool
    ensures has { IsTrue result → HasScope vars.now scope.now }
    ensures none { IsFalse result → HasNoScope vars.now scope.now }
{
    for var in vars {
        if is_within(var, scope) {
            return true;
        }
    }
    false
}

/// The code of the variable of a scope that has the name and the width.
pub fn port(
    alloc: Global,
    vars: &[Var],
    scope: &[u8],
    name: &[u8],
    width: u32,
) -> Result<usize, SampleError>
    ensures answers { AnswersPort vars.now scope.now (record { name = name.now; width = width }) result }
{
    match find(vars, scope, name) {
        None => match Name::new(alloc, name) {
            Ok(name) => Err(SampleError::MissingSignal { name }),
            Err(_) => Err(SampleError::OutOfMemory),
        },
        Some(place) => {
            if vars[place].size == width {
                return Ok(vars[place].code);
            }
            match Name::new(alloc, name) {
                Ok(name) => Err(SampleError::WidthDiffers { name }),
                Err(_) => Err(SampleError::OutOfMemory),
            }
        }
    }
}

/// The codes of the variables of a scope that are the signals, in their order.
pub fn ports(
    alloc: Global,
    vars: &[Var],
    scope: &[u8],
    signals: &[Signal],
) -> Result<Vec<usize>, SampleError>
    ensures answers { MatchResult result (λ codes. ArePorts vars.now scope.now signals.now codes.items)
        (HasPortFault vars.now scope.now signals.now) }
{
    let mut codes = Vec::new(alloc);
    for signal in signals {
        match port(alloc, vars, scope, signal.name.bytes(), signal.width) {
            Err(error) => return Err(error),
            Ok(code) => match codes.push(code) {
                Ok(()) => {}
                Err(_) => return Err(SampleError::OutOfMemory),
            },
        }
    }
    Ok(codes)
}
