//! Base formulas over the counter.

ghost use Rattle.std.specs.Prelude.{[], ◌∷◌, ◌<◌, IfOk};
ghost use Rattle.psl_model.specs.View.{expr_of};
ghost use Rattle.circuit_core.specs.WellMade.{IsGuard};
ghost use Rattle.property_circuits.specs.Conditions.{IsBuilt, HasGuards};

use psl_model::Expr;
use psl_rewrite::{Base, Subbase};
use std::alloc::{AllocError, Global};

/// A bit of the counter.
pub(crate) fn bit(place: u32) -> Expr
    requires { place < 4 }
    ensures { IsGuard (4 ∷ []) (expr_of result) }
{
    Expr::Bit(0, place)
}

pub(crate) fn holds(alloc: Global, test: Expr) -> Result<Subbase, AllocError>
    requires { IsGuard (4 ∷ []) (expr_of test) }
    ensures built { IfOk result (λ f. IsBuilt f) }
    ensures guards { IfOk result (λ f. HasGuards (4 ∷ []) f) }
{
    Subbase::new(alloc, Base::Bool(test))
}

pub(crate) fn always(alloc: Global, body: Subbase) -> Result<Subbase, AllocError>
    requires built { IsBuilt body }
    requires guards { HasGuards (4 ∷ []) body }
    ensures built { IfOk result (λ f. IsBuilt f) }
    ensures guards { IfOk result (λ f. HasGuards (4 ∷ []) f) }
{
    Subbase::new(alloc, Base::Always(body))
}

pub(crate) fn implies(alloc: Global, test: Expr, body: Subbase) -> Result<Subbase, AllocError>
    requires test { IsGuard (4 ∷ []) (expr_of test) }
    requires built { IsBuilt body }
    requires guards { HasGuards (4 ∷ []) body }
    ensures built { IfOk result (λ f. IsBuilt f) }
    ensures guards { IfOk result (λ f. HasGuards (4 ∷ []) f) }
{
    Subbase::new(alloc, Base::Implies(test, body))
}

pub(crate) fn and(alloc: Global, left: Subbase, right: Subbase) -> Result<Subbase, AllocError>
    requires left_built { IsBuilt left }
    requires left_guards { HasGuards (4 ∷ []) left }
    requires right_built { IsBuilt right }
    requires right_guards { HasGuards (4 ∷ []) right }
    ensures built { IfOk result (λ f. IsBuilt f) }
    ensures guards { IfOk result (λ f. HasGuards (4 ∷ []) f) }
{
    Subbase::new(alloc, Base::And(left, right))
}

// always an expression
pub(crate) fn always_holds(alloc: Global, test: Expr) -> Result<Subbase, AllocError>
    requires { IsGuard (4 ∷ []) (expr_of test) }
    ensures built { IfOk result (λ f. IsBuilt f) }
    ensures guards { IfOk result (λ f. HasGuards (4 ∷ []) f) }
{
    let body = holds(alloc, test)?;
    always(alloc, body)
}
