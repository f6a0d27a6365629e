//! The rules of the simple subset, and which of them a formula breaks first.
#![tactic(auto)]

ghost use Rattle.std.specs.Prelude.{◌≡◌, [], Some, IfOk, IfErr, slice_get};
ghost use Rattle.psl_model.specs.View.{formula_of};
ghost use Rattle.simple_subset.specs.Subset.{is_boolean, is_plain_sequence, unless, for_some, until_rule};
ghost use Rattle.simple_subset.specs.Subset.{broken_at, broken_rules, first_broken, InSubset};

use psl_model::{Formula, Reach};

/// A rule of the simple subset, by its number, from 1 to 11.
#[derive(Clone, Copy, Debug, PartialEq, Eq, Drop)]
pub struct Rule {
    pub number: u8,
}

/// Whether the formula is in the simple subset; if not, the first rule in reading order that it
/// breaks. It takes no memory, and recurs as deep as the formula is high.
#[tactic(auto, using(crate::proofs::Lists::first_left, crate::proofs::Lists::first_right, crate::proofs::Lists::empty))]
pub fn check(formula: &Formula) -> Result<(), Rule>
    ensures in_subset { IfOk result (λ _. InSubset (formula_of formula.now)) }
    ensures first_broken { IfErr result (λ rule. first_broken (formula_of formula.now) ≡ Some rule.number) }
{
    check_operator(formula)?;
    match formula {
        Formula::Bool(_) | Formula::Seq { .. } => Ok(()),
        Formula::Not(body)
        | Formula::Always(body)
        | Formula::Never(body)
        | Formula::Eventually(body)
        | Formula::Suffix { body, .. }
        | Formula::Next { body, .. }
        | Formula::Event { body, .. }
        | Formula::Abort(body, _) => check(body.get()),
        Formula::And(left, right) => {
            check(left.get())?;
            check(right.get())
        }
        Formula::Or(left, right) => {
            check(left.get())?;
            check(right.get())
        }
        Formula::Implies(left, right) => {
            check(left.get())?;
            check(right.get())
        }
        Formula::Iff(left, right) => {
            check(left.get())?;
            check(right.get())
        }
        Formula::Until { left, right, .. } => {
            check(left.get())?;
            check(right.get())
        }
        Formula::Before { left, right, .. } => {
            check(left.get())?;
            check(right.get())
        }
    }
}

/// The rule that the formula's own operator breaks, if it breaks one.
fn check_operator(formula: &Formula) -> Result<(), Rule>
    ensures met { IfOk result (λ _. broken_at (formula_of formula.now) ≡ []) }
    ensures broken { IfErr result (λ rule. slice_get (broken_at (formula_of formula.now)) 0 ≡ Some rule.number) }
{
    match formula {
        Formula::Not(body) => unless(is_boolean(body.get()), 1),
        Formula::Never(body) => unless(is_boolean(body.get()) || is_plain_sequence(body.get()), 2),
        Formula::Eventually(body) => {
            unless(is_boolean(body.get()) || is_plain_sequence(body.get()), 3)
        }
        Formula::Or(left, right) => unless(is_boolean(left.get()) || is_boolean(right.get()), 4),
        Formula::Implies(left, _) => unless(is_boolean(left.get()), 5),
        Formula::Iff(left, right) => unless(is_boolean(left.get()) && is_boolean(right.get()), 6),
        Formula::Until {
            overlap,
            left,
            right,
            ..
        } => { until_rule(*overlap, is_boolean(left.get()), is_boolean(right.get())) }
        Formula::Before { left, right, .. } => {
            unless(is_boolean(left.get()) && is_boolean(right.get()), 9)
        }
        Formula::Next { reach, body, .. } => for_some(*reach, is_boolean(body.get()), 10),
        Formula::Event { reach, body, .. } => for_some(*reach, is_boolean(body.get()), 11),
        _ => Ok(()),
    }
}

/// Whether the formula is an expression, and no operator of formulas.
pub fn is_boolean(formula: &Formula) -> bool
    ensures { result ≡ is_boolean (formula_of formula.now) }
{
    matches!(formula, Formula::Bool(_))
}

fn is_plain_sequence(formula: &Formula) -> bool
    ensures { result ≡ is_plain_sequence (formula_of formula.now) }
{
    matches!(formula, Formula::Seq { strong: false, .. })
}

/// The rule, where its demand isn't met.
fn unless(demand: bool, number: u8) -> Result<(), Rule>
    ensures met { IfOk result (λ _. unless demand number ≡ []) }
    ensures broken { IfErr result (λ rule. slice_get (unless demand number) 0 ≡ Some rule.number) }
{
    if demand { Ok(()) } else { Err(Rule { number }) }
}

/// A demand on the forms that speak of some cycle alone.
fn for_some(reach: Reach, demand: bool, number: u8) -> Result<(), Rule>
    ensures met { IfOk result (λ _. for_some reach demand number ≡ []) }
    ensures broken { IfErr result (λ rule. slice_get (for_some reach demand number) 0 ≡ Some rule.number) }
{
    match reach {
        Reach::One | Reach::All => Ok(()),
        Reach::Some => unless(demand, number),
    }
}

fn until_rule(overlap: bool, left: bool, right: bool) -> Result<(), Rule>
    ensures met { IfOk result (λ _. until_rule overlap left right ≡ []) }
    ensures broken { IfErr result (λ rule. slice_get (until_rule overlap left right) 0 ≡ Some rule.number) }
{
    if overlap {
        unless(left && right, 8)
    } else {
        unless(right, 7)
    }
}
