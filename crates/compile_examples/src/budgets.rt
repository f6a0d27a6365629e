//! The limit of a checker's registers, which is 65,536 bits: one for each `always`, and one that tells the first cycle.

ghost use Rattle.std.specs.Prelude.{[], ◌∷◌, IfOk};
ghost use Rattle.property_circuits.specs.Conditions.{IsBuilt, HasGuards};

use crate::formulas::{always, always_holds, and, bit, holds};
use crate::seen::checker;
use property_circuits::CircuitError;
use psl_rewrite::Subbase;
use std::alloc::{AllocError, Global};
use std::test::Fail;

// 2 to the power of `depth` formulas joined by `&&`: `always cnt[0]`, and once `last`.
fn many(alloc: Global, depth: u32, last: Subbase) -> Result<Subbase, AllocError>
    requires built { IsBuilt last }
    requires guards { HasGuards (4 ∷ []) last }
    ensures built { IfOk result (λ f. IsBuilt f) }
    ensures guards { IfOk result (λ f. HasGuards (4 ∷ []) f) }
{
    if depth == 0 {
        return Ok(last);
    }
    let other = always_holds(alloc, bit(0))?;
    let left = many(alloc, depth - 1, other)?;
    let right = many(alloc, depth - 1, last)?;
    and(alloc, left, right)
}

// A formula whose checker has 65,536 registers.
fn most(alloc: Global) -> Result<Subbase, AllocError>
    ensures built { IfOk result (λ f. IsBuilt f) }
    ensures guards { IfOk result (λ f. HasGuards (4 ∷ []) f) }
{
    let last = holds(alloc, bit(1))?;
    many(alloc, 16, last)
}

// A formula whose checker would have one more.
fn too_many(alloc: Global) -> Result<Subbase, AllocError>
    ensures built { IfOk result (λ f. IsBuilt f) }
    ensures guards { IfOk result (λ f. HasGuards (4 ∷ []) f) }
{
    let most = most(alloc)?;
    always(alloc, most)
}

// How many registers the checker has, or why there is none.
fn registers(alloc: Global, formula: &Subbase) -> Result<usize, CircuitError>
    requires built { IsBuilt formula.now }
    requires guards { HasGuards (4 ∷ []) formula.now }
{
    match checker(alloc, formula) {
        Ok(made) => Ok(made.checker.regs.len()),
        Err(error) => Err(error),
    }
}

#[test]
fn as_many_registers_as_may_be_are_made(rt: HostRuntime) -> Result<(), Fail> {
    let formula = most(rt.alloc())?;
    assert!(rt; matches!(registers(rt.alloc(), &formula), Ok(65_536)));
    Ok(())
}

#[test]
fn one_register_more_is_refused(rt: HostRuntime) -> Result<(), Fail> {
    let formula = too_many(rt.alloc())?;
    let made = registers(rt.alloc(), &formula);
    assert!(rt; matches!(made, Err(CircuitError::TooManyRegisters { count: 65_537 })));
    Ok(())
}
