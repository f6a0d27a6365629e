//! Formulas of one operator, over operands of four kinds.

use psl_model::{Expr, Formula, Reach, Sere, Subformula};
use std::alloc::{AllocError, Global};

/// What stands under an operator: `a`, `{a}`, `{a}!`, or `always a`.
#[derive(Clone, Copy, Debug, PartialEq, Eq, Drop)]
pub(crate) enum Operand {
    Boolean,
    Sequence,
    MarkedSequence,
    Always,
}

/// The kinds of operands, in the order of the tables.
pub(crate) const OPERANDS: [Operand; 4] = [
    Operand::Boolean,
    Operand::Sequence,
    Operand::MarkedSequence,
    Operand::Always,
];

/// An operator on one formula. Those with a range speak of cycles 2 to 3, or of cycle 2 alone.
#[derive(Clone, Copy, Debug, Drop)]
pub(crate) enum Unary {
    Not,
    Always,
    Never,
    Eventually,
    Suffix,
    LaterSuffix,
    Abort,
    Next(Reach),
    Event(Reach),
}

/// An operator on two formulas.
#[derive(Clone, Copy, Debug, Drop)]
pub(crate) enum Binary {
    And,
    Or,
    Implies,
    Iff,
    Until,
    OverlappingUntil,
    Before,
    OverlappingBefore,
}

fn signal() -> Expr {
    Expr::Whole(0)
}

fn sequence(strong: bool) -> Formula {
    Formula::Seq {
        sere: Sere::Bool(signal()),
        strong,
    }
}

/// An operand of this kind.
pub(crate) fn make_operand(alloc: Global, kind: Operand) -> Result<Subformula, AllocError> {
    let formula = match kind {
        Operand::Boolean => Formula::Bool(signal()),
        Operand::Sequence => sequence(false),
        Operand::MarkedSequence => sequence(true),
        Operand::Always => Formula::Always(Subformula::new(alloc, Formula::Bool(signal()))?),
    };
    Subformula::new(alloc, formula)
}

fn last_cycle(reach: Reach) -> u32 {
    match reach {
        Reach::One => 2,
        Reach::All | Reach::Some => 3,
    }
}

fn suffix(later: bool, body: Subformula) -> Formula {
    Formula::Suffix {
        sere: Sere::Bool(signal()),
        later,
        body,
    }
}

/// The operator over its body. `strong` marks those that can be marked.
pub(crate) fn make_unary(operator: Unary, strong: bool, body: Subformula) -> Formula {
    match operator {
        Unary::Not => Formula::Not(body),
        Unary::Always => Formula::Always(body),
        Unary::Never => Formula::Never(body),
        Unary::Eventually => Formula::Eventually(body),
        Unary::Suffix => suffix(false, body),
        Unary::LaterSuffix => suffix(true, body),
        Unary::Abort => Formula::Abort(body, signal()),
        Unary::Next(reach) => Formula::Next {
            strong,
            reach,
            low: 2,
            high: last_cycle(reach),
            body,
        },
        Unary::Event(reach) => Formula::Event {
            on: signal(),
            strong,
            reach,
            low: 2,
            high: last_cycle(reach),
            body,
        },
    }
}

fn until(strong: bool, overlap: bool, left: Subformula, right: Subformula) -> Formula {
    Formula::Until {
        strong,
        overlap,
        left,
        right,
    }
}

fn before(strong: bool, overlap: bool, left: Subformula, right: Subformula) -> Formula {
    Formula::Before {
        strong,
        overlap,
        left,
        right,
    }
}

/// The operator between its two operands. `strong` marks those that can be marked.
pub(crate) fn make_binary(
    operator: Binary,
    strong: bool,
    left: Subformula,
    right: Subformula,
) -> Formula {
    match operator {
        Binary::And => Formula::And(left, right),
        Binary::Or => Formula::Or(left, right),
        Binary::Implies => Formula::Implies(left, right),
        Binary::Iff => Formula::Iff(left, right),
        Binary::Until => until(strong, false, left, right),
        Binary::OverlappingUntil => until(strong, true, left, right),
        Binary::Before => before(strong, false, left, right),
        Binary::OverlappingBefore => before(strong, true, left, right),
    }
}
