//! The base form of each kind of formula, by what it prints: `Whole(0)` is `a`, `Whole(1)` is `b`, and a number of one
//! bit is a truth value.

use crate::formulas::{Binary, Operand, Unary, make_binary, make_operand, make_unary};
use psl_model::{Formula, Reach, Subformula};
use psl_rewrite::{Base, Subbase, rewrite};
use std::alloc::{AllocError, Global};

static LEAVES: [(Operand, &str); 3] = [
    (Operand::A, "Bool(Whole(0))"),
    (
        Operand::Sequence,
        "Seq { sere: Bool(Whole(0)), strong: false }",
    ),
    (
        Operand::StrongSequence,
        "Seq { sere: Bool(Whole(0)), strong: true }",
    ),
];

static UNARY: [(Unary, Operand, &str); 21] = [
    (
        Unary::Not,
        Operand::A,
        "Bool(Unary(Not, Subexpr { node: Whole(0) }))",
    ),
    (
        Unary::Always,
        Operand::A,
        "Always(Subbase { node: Bool(Whole(0)) })",
    ),
    (
        Unary::Never,
        Operand::A,
        "Always(Subbase { node: Bool(Unary(Not, Subexpr { node: Whole(0) })) })",
    ),
    (
        Unary::Never,
        Operand::Sequence,
        "Always(Subbase { node: Suffix(Bool(Whole(0)), Subbase { node: Bool(Sized(1, 0)) }) })",
    ),
    (
        Unary::Eventually,
        Operand::A,
        "Until { strong: true, body: Subbase { node: Bool(Sized(1, 1)) }, stop: Whole(0) }",
    ),
    (
        Unary::Eventually,
        Operand::Sequence,
        "Eventually(Bool(Whole(0)))",
    ),
    (
        Unary::Suffix,
        Operand::AlwaysB,
        "Suffix(Bool(Whole(0)), Subbase { node: Always(Subbase { node: Bool(Whole(1)) }) })",
    ),
    (
        Unary::LaterSuffix,
        Operand::B,
        "Suffix(Then(Subsere { node: Bool(Whole(0)) }, Subsere { node: Bool(Sized(1, 1)) }), \
         Subbase { node: Bool(Whole(1)) })",
    ),
    (
        Unary::AbortByA,
        Operand::AlwaysB,
        "Abort(Subbase { node: Always(Subbase { node: Bool(Whole(1)) }) }, Whole(0))",
    ),
    (
        Unary::Next(Reach::One, false),
        Operand::B,
        "Next { strong: false, count: 2, body: Subbase { node: Bool(Whole(1)) } }",
    ),
    (
        Unary::Next(Reach::One, true),
        Operand::B,
        "Next { strong: true, count: 2, body: Subbase { node: Bool(Whole(1)) } }",
    ),
    (
        Unary::Next(Reach::All, true),
        Operand::B,
        "NextAll { strong: true, low: 2, high: 3, body: Subbase { node: Bool(Whole(1)) } }",
    ),
    (
        Unary::Next(Reach::All, false),
        Operand::B,
        "NextAll { strong: false, low: 2, high: 3, body: Subbase { node: Bool(Whole(1)) } }",
    ),
    (
        Unary::Next(Reach::Some, false),
        Operand::B,
        "NextSome { strong: false, low: 2, high: 3, seen: Whole(1) }",
    ),
    (
        Unary::Next(Reach::Some, true),
        Operand::B,
        "NextSome { strong: true, low: 2, high: 3, seen: Whole(1) }",
    ),
    (
        Unary::EventOfA(Reach::One, false),
        Operand::B,
        "Event { strong: false, on: Whole(0), low: 2, high: 2, body: Subbase { node: Bool(Whole(1)) } }",
    ),
    (
        Unary::EventOfA(Reach::One, true),
        Operand::B,
        "Event { strong: true, on: Whole(0), low: 2, high: 2, body: Subbase { node: Bool(Whole(1)) } }",
    ),
    (
        Unary::EventOfA(Reach::All, true),
        Operand::B,
        "Event { strong: true, on: Whole(0), low: 2, high: 3, body: Subbase { node: Bool(Whole(1)) } }",
    ),
    (
        Unary::EventOfA(Reach::All, false),
        Operand::B,
        "Event { strong: false, on: Whole(0), low: 2, high: 3, body: Subbase { node: Bool(Whole(1)) } }",
    ),
    (
        Unary::EventOfA(Reach::Some, false),
        Operand::B,
        "EventSome { strong: false, on: Whole(0), low: 2, high: 3, seen: Whole(1) }",
    ),
    (
        Unary::EventOfA(Reach::Some, true),
        Operand::B,
        "EventSome { strong: true, on: Whole(0), low: 2, high: 3, seen: Whole(1) }",
    ),
];

static BINARY: [(Binary, Operand, Operand, &str); 14] = [
    (
        Binary::And,
        Operand::A,
        Operand::AlwaysB,
        "And(Subbase { node: Bool(Whole(0)) }, Subbase { node: Always(Subbase { node: Bool(Whole(1)) }) })",
    ),
    (
        Binary::Or,
        Operand::A,
        Operand::B,
        "OrBool(Whole(0), Subbase { node: Bool(Whole(1)) })",
    ),
    (
        Binary::Or,
        Operand::A,
        Operand::AlwaysB,
        "OrBool(Whole(0), Subbase { node: Always(Subbase { node: Bool(Whole(1)) }) })",
    ),
    (
        Binary::Or,
        Operand::AlwaysB,
        Operand::A,
        "OrBool(Whole(0), Subbase { node: Always(Subbase { node: Bool(Whole(1)) }) })",
    ),
    (
        Binary::Implies,
        Operand::A,
        Operand::AlwaysB,
        "Implies(Whole(0), Subbase { node: Always(Subbase { node: Bool(Whole(1)) }) })",
    ),
    (
        Binary::Iff,
        Operand::A,
        Operand::B,
        "Bool(Binary(Eq, Subexpr { node: Unary(Not, Subexpr { node: Whole(0) }) }, \
         Subexpr { node: Unary(Not, Subexpr { node: Whole(1) }) }))",
    ),
    (
        Binary::Until(false, false),
        Operand::A,
        Operand::B,
        "Until { strong: false, body: Subbase { node: Bool(Whole(0)) }, stop: Whole(1) }",
    ),
    (
        Binary::Until(false, true),
        Operand::A,
        Operand::B,
        "Until { strong: false, body: Subbase { node: Bool(Whole(0)) }, \
         stop: Binary(And, Subexpr { node: Whole(0) }, Subexpr { node: Whole(1) }) }",
    ),
    (
        Binary::Until(true, false),
        Operand::A,
        Operand::B,
        "Until { strong: true, body: Subbase { node: Bool(Whole(0)) }, stop: Whole(1) }",
    ),
    (
        Binary::Until(true, true),
        Operand::A,
        Operand::B,
        "Until { strong: true, body: Subbase { node: Bool(Whole(0)) }, \
         stop: Binary(And, Subexpr { node: Whole(0) }, Subexpr { node: Whole(1) }) }",
    ),
    (
        Binary::Before(false, false),
        Operand::A,
        Operand::B,
        "Until { strong: false, body: Subbase { node: Bool(Unary(Not, Subexpr { node: Whole(1) })) }, \
         stop: Binary(And, Subexpr { node: Whole(0) }, Subexpr { node: Unary(Not, Subexpr { node: Whole(1) }) }) }",
    ),
    (
        Binary::Before(false, true),
        Operand::A,
        Operand::B,
        "Until { strong: false, body: Subbase { node: Bool(Unary(Not, Subexpr { node: Whole(1) })) }, \
         stop: Whole(0) }",
    ),
    (
        Binary::Before(true, false),
        Operand::A,
        Operand::B,
        "Until { strong: true, body: Subbase { node: Bool(Unary(Not, Subexpr { node: Whole(1) })) }, \
         stop: Binary(And, Subexpr { node: Whole(0) }, Subexpr { node: Unary(Not, Subexpr { node: Whole(1) }) }) }",
    ),
    (
        Binary::Before(true, true),
        Operand::A,
        Operand::B,
        "Until { strong: true, body: Subbase { node: Bool(Unary(Not, Subexpr { node: Whole(1) })) }, \
         stop: Whole(0) }",
    ),
];

fn prints(alloc: Global, base: &Base, told: &str) -> bool {
    match format!(in alloc; "{base:?}") {
        Ok(text) => text.as_str() == told,
        Err(_) => false,
    }
}

// The base form, on the heap, since a function that drops a bare tree is slow to prove.
fn base_form(alloc: Global, formula: &Formula) -> Result<Subbase, AllocError> {
    Subbase::new(alloc, rewrite(alloc, formula)?)
}

fn has_base_form(alloc: Global, formula: &Formula, told: &str) -> bool {
    match base_form(alloc, formula) {
        Ok(base) => prints(alloc, base.get(), told),
        Err(_) => false,
    }
}

// Whether the formula is made, and its base form prints as this text.
fn is_told(alloc: Global, made: Result<Subformula, AllocError>, told: &str) -> bool {
    match made {
        Ok(formula) => has_base_form(alloc, formula.get(), told),
        Err(_) => false,
    }
}

#[test]
fn leaves_stay_as_they_are(rt: HostRuntime) {
    for (kind, told) in &LEAVES {
        let leaf = make_operand(rt.alloc(), *kind);
        assert!(rt; is_told(rt.alloc(), leaf, told), "{told}");
    }
}

#[test]
fn operators_on_one_formula_have_their_base_forms(rt: HostRuntime) {
    for (operator, kind, told) in &UNARY {
        let formula = make_unary(rt.alloc(), *operator, *kind);
        assert!(rt; is_told(rt.alloc(), formula, told), "{told}");
    }
}

#[test]
fn operators_on_two_formulas_have_their_base_forms(rt: HostRuntime) {
    for (operator, left, right, told) in &BINARY {
        let formula = make_binary(rt.alloc(), *operator, *left, *right);
        assert!(rt; is_told(rt.alloc(), formula, told), "{told}");
    }
}
