//! Which formulas checkers are made of, and the base formula over a checker's ports.

ghost use Rattle.std.specs.Prelude.{◌≡◌, IfOk};
ghost use Rattle.psl_model.specs.View.{formula_of};
ghost use Rattle.psl_rewrite.specs.View.{base_of};
ghost use Rattle.psl_rewrite.specs.BaseForm.{base_form_of};
ghost use Rattle.port_formulas.specs.Over.{over};
ghost use Rattle.mbac_compile.specs.Built.{is_built};
ghost use Rattle.mbac_compile.specs.inner.Forms.{fits_reach, is_sequence};

use port_formulas::over_places;
use psl_model::{Formula, Reach};
use psl_rewrite::{Base, rewrite};
use simple_subset::is_boolean;
use std::alloc::{AllocError, Global};

// Whether circuits are made of a `next` over such a range.
fn fits_reach(reach: Reach, low: u32, high: u32) -> bool
    ensures { result ≡ fits_reach reach low high }
{
    match reach {
        Reach::One => true,
        Reach::All => low <= high,
        Reach::Some => false,
    }
}

fn is_sequence(formula: &Formula) -> bool
    ensures { result ≡ is_sequence (formula_of formula.now) }
{
    matches!(formula, Formula::Seq { .. })
}

/// Whether circuits are made of the base form of the formula. It takes no memory, and recurs as deep as the formula is
/// high.
#[tactic(auto, using(crate::proofs::Forms::or_left_built, crate::proofs::Forms::or_right_built, crate::proofs::Forms::next_built, crate::proofs::Forms::never_built, crate::proofs::Forms::eventually_built))]
pub fn has_built_form(formula: &Formula) -> bool
    ensures { result ≡ is_built (base_form_of (formula_of formula.now)) }
{
    match formula {
        Formula::Bool(_)
        | Formula::Not(_)
        | Formula::Iff(_, _)
        | Formula::Before { .. }
        | Formula::Never(_) => true,
        Formula::And(left, right) => has_built_form(left.get()) && has_built_form(right.get()),
        Formula::Or(left, right) => {
            if is_boolean(left.get()) {
                has_built_form(right.get())
            } else {
                has_built_form(left.get())
            }
        }
        Formula::Implies(_, body) | Formula::Always(body) | Formula::Suffix { body, .. } => {
            has_built_form(body.get())
        }
        Formula::Until { left, .. } => has_built_form(left.get()),
        Formula::Next {
            reach,
            low,
            high,
            body,
            ..
        } => fits_reach(*reach, *low, *high) && has_built_form(body.get()),
        Formula::Eventually(body) => !is_sequence(body.get()),
        Formula::Seq { .. } | Formula::Event { .. } | Formula::Abort(_, _) => false,
    }
}

/// The base form of the formula over the signals at some places.
pub(crate) fn base_over(
    alloc: Global,
    places: &[usize],
    formula: &Formula,
) -> Result<Base, AllocError>
    ensures { IfOk result (λ base. base_of base ≡ base_form_of (over places.now (formula_of formula.now))) }
{
    let inner = over_places(alloc, places, formula)?;
    rewrite(alloc, &inner)
}
