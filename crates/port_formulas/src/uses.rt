//! Which signals a formula uses.

ghost use Rattle.std.specs.Prelude.{◌≡◌, ℕ, IfOk, false, true, filter, length, replicate, slice_index_or, slice_set};
ghost use Rattle.std.specs.List.{range_with_len};
ghost use Rattle.psl_model.specs.Uses as uses;
ghost use Rattle.psl_model.specs.View.{expr_of, sere_of, formula_of};
ghost use Rattle.port_formulas.specs.inner.Marks.{marked_expr, marked_sere, marked_formula};

use psl_model::{Expr, Formula, Sere};
use std::alloc::{AllocError, Global};

/// The places of the signals that a formula uses, of `count` signals, in their order. A signal whose place is no less
/// than `count` is left out. One walk through the formula and one through the signals.
pub fn used_places(alloc: Global, count: usize, formula: &Formula) -> Result<Vec<usize>, AllocError>
    ensures { IfOk result (λ places. places.items ≡ uses.used_places count (formula_of formula.now)) }
{
    let mut marks = unmarked(alloc, count)?;
    mark_formula(formula, &mut marks);
    marked_places(alloc, &marks)
}

fn unmarked(alloc: Global, count: usize) -> Result<Vec<bool>, AllocError>
    ensures { IfOk result (λ marks. marks.items ≡ replicate count false) }
{
    Ok(vec![in alloc; false; count]?)
}

/// The places of the marks that are set, in their order.
#[tactic(auto, using(crate::proofs::Positions::kept_more, crate::proofs::Positions::left_out))]
fn marked_places(alloc: Global, marks: &[bool]) -> Result<Vec<usize>, AllocError>
    ensures { IfOk result (λ places. places.items ≡
        filter (λ place. slice_index_or marks.now place false) (range_with_len 0 (length marks.now))) }
{
    let mut places = Vec::new(alloc);
    for (place, marked) in marks.iter().enumerate() {
        if *marked {
            places.push(place)?;
        }
    }
    Ok(places)
}

fn mark(marks: &mut [bool], signal: usize)
    ensures { marks.new ≡ slice_set marks.old signal true }
{
    if signal < marks.len() {
        marks[signal] = true;
    }
}

fn mark_expr(expr: &Expr, marks: &mut [bool])
    ensures { marks.new ≡ marked_expr (expr_of expr.now) marks.old }
{
    match expr {
        Expr::Whole(signal) | Expr::Bit(signal, _) | Expr::Part(signal, _, _) => mark(
            marks, *signal,
        ),
        Expr::Plain(_) | Expr::Sized(_, _) => {}
        Expr::Unary(_, operand) => mark_expr(operand.get(), marks),
        Expr::Binary(_, left, right) => {
            mark_expr(left.get(), marks);
            mark_expr(right.get(), marks);
        }
        Expr::Choice(test, yes, no) => {
            mark_expr(test.get(), marks);
            mark_expr(yes.get(), marks);
            mark_expr(no.get(), marks);
        }
    }
}

fn mark_sere(sere: &Sere, marks: &mut [bool])
    ensures { marks.new ≡ marked_sere (sere_of sere.now) marks.old }
{
    match sere {
        Sere::Bool(expr) | Sere::Goto(expr, _, _) | Sere::Equal(expr, _, _) => mark_expr(
            expr, marks,
        ),
        Sere::Then(left, right)
        | Sere::Fuse(left, right)
        | Sere::Or(left, right)
        | Sere::Both(left, right)
        | Sere::Meet(left, right)
        | Sere::Within(left, right) => {
            mark_sere(left.get(), marks);
            mark_sere(right.get(), marks);
        }
        Sere::Repeat(body, _, _) => mark_sere(body.get(), marks),
    }
}

fn mark_formula(formula: &Formula, marks: &mut [bool])
    ensures { marks.new ≡ marked_formula (formula_of formula.now) marks.old }
{
    match formula {
        Formula::Bool(expr) => mark_expr(expr, marks),
        Formula::Not(body)
        | Formula::Always(body)
        | Formula::Never(body)
        | Formula::Eventually(body)
        | Formula::Next { body, .. } => mark_formula(body.get(), marks),
        Formula::And(left, right)
        | Formula::Or(left, right)
        | Formula::Implies(left, right)
        | Formula::Iff(left, right)
        | Formula::Until { left, right, .. }
        | Formula::Before { left, right, .. } => {
            mark_formula(left.get(), marks);
            mark_formula(right.get(), marks);
        }
        Formula::Seq { sere, .. } => mark_sere(sere, marks),
        Formula::Suffix { sere, body, .. } => {
            mark_sere(sere, marks);
            mark_formula(body.get(), marks);
        }
        Formula::Event { on, body, .. } => {
            mark_expr(on, marks);
            mark_formula(body.get(), marks);
        }
        Formula::Abort(body, on) => {
            mark_formula(body.get(), marks);
            mark_expr(on, marks);
        }
    }
}
