//! Formulas of one operator over `a`, `b`, `{a}` and `always b`.

use psl_model::{Expr, Formula, Reach, Sere, Subformula};
use std::alloc::{AllocError, Global};

/// What stands under an operator, or by itself.
#[derive(Clone, Copy, Drop)]
pub(crate) enum Operand {
    A,
    B,
    /// `{a}`
    Sequence,
    /// `{a}!`
    StrongSequence,
    AlwaysB,
}

/// An operator on one formula. Those with a range speak of cycles 2 to 3, and their marks tell the strong forms.
#[derive(Clone, Copy, Drop)]
pub(crate) enum Unary {
    Not,
    Always,
    Never,
    Eventually,
    Suffix,
    LaterSuffix,
    AbortByA,
    Next(Reach, bool),
    EventOfA(Reach, bool),
}

/// An operator on two formulas. Of those with two marks, the first tells the strong form and the second the overlap.
#[derive(Clone, Copy, Drop)]
pub(crate) enum Binary {
    And,
    Or,
    Implies,
    Iff,
    Until(bool, bool),
    Before(bool, bool),
}

fn a() -> Expr {
    Expr::Whole(0)
}

fn b() -> Expr {
    Expr::Whole(1)
}

fn sequence(strong: bool) -> Formula {
    Formula::Seq {
        sere: Sere::Bool(a()),
        strong,
    }
}

/// An operand of this kind.
pub(crate) fn make_operand(alloc: Global, kind: Operand) -> Result<Subformula, AllocError> {
    let formula = match kind {
        Operand::A => Formula::Bool(a()),
        Operand::B => Formula::Bool(b()),
        Operand::Sequence => sequence(false),
        Operand::StrongSequence => sequence(true),
        Operand::AlwaysB => Formula::Always(Subformula::new(alloc, Formula::Bool(b()))?),
    };
    Subformula::new(alloc, formula)
}

fn suffix(later: bool, body: Subformula) -> Formula {
    Formula::Suffix {
        sere: Sere::Bool(a()),
        later,
        body,
    }
}

// The last of the cycles from the second on: that of one cycle alone is the second.
fn last(reach: Reach) -> u32 {
    match reach {
        Reach::One => 2,
        Reach::All | Reach::Some => 3,
    }
}

fn next(reach: Reach, strong: bool, body: Subformula) -> Formula {
    Formula::Next {
        strong,
        reach,
        low: 2,
        high: last(reach),
        body,
    }
}

fn event(reach: Reach, strong: bool, body: Subformula) -> Formula {
    Formula::Event {
        on: a(),
        strong,
        reach,
        low: 2,
        high: last(reach),
        body,
    }
}

fn over_one(operator: Unary, body: Subformula) -> Formula {
    match operator {
        Unary::Not => Formula::Not(body),
        Unary::Always => Formula::Always(body),
        Unary::Never => Formula::Never(body),
        Unary::Eventually => Formula::Eventually(body),
        Unary::Suffix => suffix(false, body),
        Unary::LaterSuffix => suffix(true, body),
        Unary::AbortByA => Formula::Abort(body, a()),
        Unary::Next(reach, strong) => next(reach, strong, body),
        Unary::EventOfA(reach, strong) => event(reach, strong, body),
    }
}

/// The operator over an operand of this kind.
pub(crate) fn make_unary(
    alloc: Global,
    operator: Unary,
    kind: Operand,
) -> Result<Subformula, AllocError> {
    let body = make_operand(alloc, kind)?;
    Subformula::new(alloc, over_one(operator, body))
}

fn until(strong: bool, overlap: bool, left: Subformula, right: Subformula) -> Formula {
    Formula::Until {
        strong,
        overlap,
        left,
        right,
    }
}

fn before(strong: bool, overlap: bool, left: Subformula, right: Subformula) -> Formula {
    Formula::Before {
        strong,
        overlap,
        left,
        right,
    }
}

fn over_two(operator: Binary, left: Subformula, right: Subformula) -> Formula {
    match operator {
        Binary::And => Formula::And(left, right),
        Binary::Or => Formula::Or(left, right),
        Binary::Implies => Formula::Implies(left, right),
        Binary::Iff => Formula::Iff(left, right),
        Binary::Until(strong, overlap) => until(strong, overlap, left, right),
        Binary::Before(strong, overlap) => before(strong, overlap, left, right),
    }
}

/// The operator between operands of these kinds.
pub(crate) fn make_binary(
    alloc: Global,
    operator: Binary,
    left: Operand,
    right: Operand,
) -> Result<Subformula, AllocError> {
    let left = make_operand(alloc, left)?;
    let right = make_operand(alloc, right)?;
    Subformula::new(alloc, over_two(operator, left, right))
}
