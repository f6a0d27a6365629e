//! From a formula of the simple subset to its base form.

ghost use Rattle.std.specs.Prelude.{◌≡◌, ◌+◌, ℕ, List, IfOk};
ghost use Rattle.psl_model.specs.View.{expr_of, sere_of, formula_of};
ghost use Rattle.simple_subset.specs.Subset.{InSubset};
ghost use Rattle.psl_rewrite.specs.View.{base_of};
ghost use Rattle.psl_rewrite.specs.Base.{until};
ghost use Rattle.psl_rewrite.specs.Meaning.{named};
ghost use Rattle.psl_rewrite.specs.BaseForm.{as_expr, not_expr, and_expr, iff_expr, suffix_sere, never_form};
ghost use Rattle.psl_rewrite.specs.BaseForm.{eventually_form, next_form, event_form, stop_of};
ghost use Rattle.psl_rewrite.specs.BaseForm.{before_form, base_form_of};
ghost use Rattle.psl_rewrite.specs.SameMeaning.{MeanTheSame};
ghost use Rattle.psl_rewrite.specs.Conditions.{IsAllowed, FormulaHas, BaseHas, FormulaCounts, BaseCounts};
ghost use Rattle.psl_rewrite.specs.Conditions.{formula_sequences, base_sequences};

use crate::base::{Base, Subbase};
use crate::laws::{a_base_form_keeps_the_conditions, a_base_form_keeps_the_meaning};
use psl_model::{BinOp, Expr, Formula, Reach, Sere, Subexpr, Subformula, Subsere, UnOp};
use simple_subset::is_boolean;
use std::alloc::{AllocError, Global};

/// The base form of a formula. It is made for formulas of the simple subset: of others it loses the
/// meaning. Each part is copied as often as it stands in the result, and the recursion goes as deep
/// as the formula is high.
pub fn rewrite(alloc: Global, formula: &Formula) -> Result<Base, AllocError>
    ensures base_form { IfOk result (λ base. base_of base ≡ base_form_of (formula_of formula.now)) }
    ensures meaning { IfOk result (λ base.
        InSubset (formula_of formula.now) → MeanTheSame (named (base_of base)) (formula_of formula.now)) }
    ensures expressions { IfOk result (λ base. (widths : List ℕ) (limit : ℕ) →
        FormulaHas (IsAllowed widths limit) (formula_of formula.now) →
        BaseHas (IsAllowed widths (limit + 3)) (base_of base)) }
    ensures counts { IfOk result (λ base. FormulaCounts (formula_of formula.now) → BaseCounts (base_of base)) }
    ensures sequences { IfOk result (λ base. InSubset (formula_of formula.now) →
        base_sequences (base_of base) ≡ formula_sequences (formula_of formula.now)) }
{
    a_base_form_keeps_the_meaning();
    a_base_form_keeps_the_conditions();
    form(alloc, formula)
}

#[cycle(form)]
#[tactic(auto, using(crate::proofs::OrForm::or_left, crate::proofs::OrForm::or_other))]
fn form(alloc: Global, formula: &Formula) -> Result<Base, AllocError>
    ensures base_form { IfOk result (λ base. base_of base ≡ base_form_of (formula_of formula.now)) }
{
    match formula {
        Formula::Bool(expr) => Ok(Base::Bool(expr.copy(alloc)?)),
        Formula::Not(body) => Ok(Base::Bool(negated(alloc, body.get())?)),
        Formula::And(left, right) => Ok(Base::And(part(alloc, left)?, part(alloc, right)?)),
        // the Boolean comes first
        Formula::Or(left, right) => {
            if is_boolean(left.get()) {
                Ok(Base::OrBool(as_expr(alloc, left.get())?, part(alloc, right)?))
            } else {
                Ok(Base::OrBool(as_expr(alloc, right.get())?, part(alloc, left)?))
            }
        }
        Formula::Implies(left, right) => {
            Ok(Base::Implies(as_expr(alloc, left.get())?, part(alloc, right)?))
        }
        Formula::Iff(left, right) => Ok(Base::Bool(iff_expr(alloc, left.get(), right.get())?)),
        Formula::Seq { sere, strong } => Ok(Base::Seq {
            sere: sere.copy(alloc)?,
            strong: *strong,
        }),
        Formula::Suffix { sere, later, body } => {
            Ok(Base::Suffix(suffix_sere(alloc, *later, sere)?, part(alloc, body)?))
        }
        Formula::Always(body) => Ok(Base::Always(part(alloc, body)?)),
        Formula::Never(body) => never_form(alloc, body.get()),
        Formula::Eventually(body) => eventually_form(alloc, body.get()),
        Formula::Next {
            strong,
            reach,
            low,
            high,
            body,
        } => { next_form(alloc, *strong, *reach, *low, *high, body) }
        Formula::Event {
            on,
            strong,
            reach,
            low,
            high,
            body,
        } => { event_form(alloc, body, *strong, on, *reach, *low, *high) }
        Formula::Until {
            strong,
            overlap,
            left,
            right,
        } => {
            let body = part(alloc, left)?;
            until_form(alloc, *strong, *overlap, body, left.get(), right.get())
        }
        Formula::Before {
            strong,
            overlap,
            left,
            right,
        } => { before_form(alloc, *strong, *overlap, left.get(), right.get()) }
        Formula::Abort(body, on) => Ok(Base::Abort(part(alloc, body)?, on.copy(alloc)?)),
    }
}

/// The base form of a part, on the heap.
#[cycle(form)]
fn part(alloc: Global, formula: &Subformula) -> Result<Subbase, AllocError>
    ensures { IfOk result (λ part. part ≡ base_form_of formula.now) }
{
    Subbase::new(alloc, form(alloc, formula.get())?)
}

#[cycle(form)]
fn next_form(
    alloc: Global,
    strong: bool,
    reach: Reach,
    low: u32,
    high: u32,
    body: &Subformula,
) -> Result<Base, AllocError>
    ensures { IfOk result (λ base.
        base_of base ≡ next_form reach strong low high body.now (base_form_of body.now)) }
{
    Ok(match reach {
        Reach::One => Base::Next {
            strong,
            count: low,
            body: part(alloc, body)?,
        },
        Reach::All => Base::NextAll {
            strong,
            low,
            high,
            body: part(alloc, body)?,
        },
        Reach::Some => Base::NextSome {
            strong,
            low,
            high,
            seen: as_expr(alloc, body.get())?,
        },
    })
}

#[cycle(form)]
fn event_form(
    alloc: Global,
    body: &Subformula,
    strong: bool,
    on: &Expr,
    reach: Reach,
    low: u32,
    high: u32,
) -> Result<Base, AllocError>
    ensures { IfOk result (λ base.
        base_of base ≡ event_form reach strong (expr_of on.now) low high body.now (base_form_of body.now)) }
{
    let on = on.copy(alloc)?;
    Ok(match reach {
        Reach::One => Base::Event {
            strong,
            on,
            low,
            high: low,
            body: part(alloc, body)?,
        },
        Reach::All => Base::Event {
            strong,
            on,
            low,
            high,
            body: part(alloc, body)?,
        },
        Reach::Some => Base::EventSome {
            strong,
            on,
            low,
            high,
            seen: as_expr(alloc, body.get())?,
        },
    })
}

/// The expression that a Boolean is.
fn as_expr(alloc: Global, formula: &Formula) -> Result<Expr, AllocError>
    ensures { IfOk result (λ expr. expr_of expr ≡ as_expr (formula_of formula.now)) }
{
    match formula {
        Formula::Bool(expr) => expr.copy(alloc),
        _ => Ok(Expr::Sized(1, 0)),
    }
}

fn not_expr(alloc: Global, expr: Expr) -> Result<Expr, AllocError>
    ensures { IfOk result (λ made. expr_of made ≡ not_expr (expr_of expr)) }
{
    Ok(Expr::Unary(UnOp::Not, Subexpr::new(alloc, expr)?))
}

/// The negation of the expression that a Boolean is.
fn negated(alloc: Global, formula: &Formula) -> Result<Expr, AllocError>
    ensures { IfOk result (λ expr. expr_of expr ≡ not_expr (as_expr (formula_of formula.now))) }
{
    let expr = as_expr(alloc, formula)?;
    not_expr(alloc, expr)
}

fn and_expr(alloc: Global, left: Expr, right: Expr) -> Result<Expr, AllocError>
    ensures { IfOk result (λ made. expr_of made ≡ and_expr (expr_of left) (expr_of right)) }
{
    Ok(Expr::Binary(
        BinOp::And,
        Subexpr::new(alloc, left)?,
        Subexpr::new(alloc, right)?,
    ))
}

fn iff_expr(alloc: Global, left: &Formula, right: &Formula) -> Result<Expr, AllocError>
    ensures { IfOk result (λ made.
        expr_of made ≡ iff_expr (as_expr (formula_of left.now)) (as_expr (formula_of right.now))) }
{
    let left = negated(alloc, left)?;
    let right = negated(alloc, right)?;
    Ok(Expr::Binary(
        BinOp::Eq,
        Subexpr::new(alloc, left)?,
        Subexpr::new(alloc, right)?,
    ))
}

/// The sequence of a suffix implication, with a cycle more where the body starts later.
fn suffix_sere(alloc: Global, later: bool, sere: &Sere) -> Result<Sere, AllocError>
    ensures { IfOk result (λ made. sere_of made ≡ suffix_sere later (sere_of sere.now)) }
{
    let copy = sere.copy(alloc)?;
    if later {
        let first = Subsere::new(alloc, copy)?;
        let last = Subsere::new(alloc, Sere::Bool(Expr::Sized(1, 1)))?;
        Ok(Sere::Then(first, last))
    } else {
        Ok(copy)
    }
}

fn never_form(alloc: Global, formula: &Formula) -> Result<Base, AllocError>
    ensures { IfOk result (λ base. base_of base ≡ never_form (formula_of formula.now)) }
{
    if let Formula::Seq { sere, .. } = formula {
        let sere = sere.copy(alloc)?;
        let body = Subbase::new(alloc, Base::Bool(Expr::Sized(1, 0)))?;
        Ok(Base::Always(Subbase::new(alloc, Base::Suffix(sere, body))?))
    } else {
        let body = negated(alloc, formula)?;
        Ok(Base::Always(Subbase::new(alloc, Base::Bool(body))?))
    }
}

fn eventually_form(alloc: Global, formula: &Formula) -> Result<Base, AllocError>
    ensures { IfOk result (λ base. base_of base ≡ eventually_form (formula_of formula.now)) }
{
    if let Formula::Seq { sere, .. } = formula {
        Ok(Base::Eventually(sere.copy(alloc)?))
    } else {
        let stop = as_expr(alloc, formula)?;
        let body = Subbase::new(alloc, Base::Bool(Expr::Sized(1, 1)))?;
        Ok(Base::Until {
            strong: true,
            body,
            stop,
        })
    }
}

/// An `until` whose left side has this base form.
fn until_form(
    alloc: Global,
    strong: bool,
    overlap: bool,
    body: Subbase,
    left: &Formula,
    right: &Formula,
) -> Result<Base, AllocError>
    ensures { IfOk result (λ base.
        base_of base ≡ until strong body (stop_of overlap (formula_of left.now) (formula_of right.now))) }
{
    let stop = stop_of(alloc, overlap, left, right)?;
    Ok(Base::Until { strong, body, stop })
}

/// The Boolean at which an `until` stops.
fn stop_of(
    alloc: Global,
    overlap: bool,
    left: &Formula,
    right: &Formula,
) -> Result<Expr, AllocError>
    ensures { IfOk result (λ stop.
        expr_of stop ≡ stop_of overlap (formula_of left.now) (formula_of right.now)) }
{
    let stop = as_expr(alloc, right)?;
    if overlap {
        let both = as_expr(alloc, left)?;
        and_expr(alloc, both, stop)
    } else {
        Ok(stop)
    }
}

fn before_form(
    alloc: Global,
    strong: bool,
    overlap: bool,
    left: &Formula,
    right: &Formula,
) -> Result<Base, AllocError>
    ensures { IfOk result (λ base.
        base_of base ≡ before_form strong overlap (formula_of left.now) (formula_of right.now)) }
{
    let later = negated(alloc, right)?;
    let body = Subbase::new(alloc, Base::Bool(later))?;
    let first = as_expr(alloc, left)?;
    if overlap {
        Ok(Base::Until {
            strong,
            body,
            stop: first,
        })
    } else {
        let not_yet = negated(alloc, right)?;
        let stop = and_expr(alloc, first, not_yet)?;
        Ok(Base::Until { strong, body, stop })
    }
}
