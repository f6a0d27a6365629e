//! What each operator accepts. A row has for each kind of operand the rule that is broken, and 0 where none is.

use crate::formulas::{Binary, OPERANDS, Operand, Unary, make_binary, make_operand, make_unary};
use psl_model::{Formula, Reach};
use simple_subset::check;
use std::alloc::{AllocError, Global};
use std::test::Fail;

const UNARY: [(Unary, [u8; 4]); 13] = [
    (Unary::Not, [0, 1, 1, 1]),
    (Unary::Never, [0, 0, 2, 2]),
    (Unary::Eventually, [0, 0, 3, 3]),
    (Unary::Always, [0, 0, 0, 0]),
    (Unary::Suffix, [0, 0, 0, 0]),
    (Unary::LaterSuffix, [0, 0, 0, 0]),
    (Unary::Abort, [0, 0, 0, 0]),
    (Unary::Next(Reach::One), [0, 0, 0, 0]),
    (Unary::Next(Reach::All), [0, 0, 0, 0]),
    (Unary::Next(Reach::Some), [0, 10, 10, 10]),
    (Unary::Event(Reach::One), [0, 0, 0, 0]),
    (Unary::Event(Reach::All), [0, 0, 0, 0]),
    (Unary::Event(Reach::Some), [0, 11, 11, 11]),
];

// to the right of a Boolean, and to the right of another formula
const BINARY: [(Binary, [u8; 4], [u8; 4]); 8] = [
    (Binary::And, [0, 0, 0, 0], [0, 0, 0, 0]),
    (Binary::Or, [0, 0, 0, 0], [0, 4, 4, 4]),
    (Binary::Implies, [0, 0, 0, 0], [5, 5, 5, 5]),
    (Binary::Iff, [0, 6, 6, 6], [6, 6, 6, 6]),
    (Binary::Until, [0, 7, 7, 7], [0, 7, 7, 7]),
    (Binary::OverlappingUntil, [0, 8, 8, 8], [8, 8, 8, 8]),
    (Binary::Before, [0, 9, 9, 9], [9, 9, 9, 9]),
    (Binary::OverlappingBefore, [0, 9, 9, 9], [9, 9, 9, 9]),
];

fn broken(formula: &Formula) -> u8 {
    match check(formula) {
        Ok(()) => 0,
        Err(rule) => rule.number,
    }
}

fn broken_by_unary(
    alloc: Global,
    operator: Unary,
    strong: bool,
    kind: Operand,
) -> Result<u8, AllocError> {
    let body = make_operand(alloc, kind)?;
    let formula = make_unary(operator, strong, body);
    Ok(broken(&formula))
}

fn broken_by_binary(
    alloc: Global,
    operator: Binary,
    strong: bool,
    left: Operand,
    right: Operand,
) -> Result<u8, AllocError> {
    let left = make_operand(alloc, left)?;
    let right = make_operand(alloc, right)?;
    let formula = make_binary(operator, strong, left, right);
    Ok(broken(&formula))
}

#[test]
fn an_operator_on_one_formula_takes_what_it_may(rt: HostRuntime) -> Result<(), Fail> {
    for (operator, rules) in UNARY {
        for (kind, rule) in OPERANDS.iter().zip(rules.iter()) {
            for strong in [false, true] {
                let found = broken_by_unary(rt.alloc(), operator, strong, *kind)?;
                assert!(rt; found == *rule, "{operator:?} over {kind:?}");
            }
        }
    }
    Ok(())
}

#[test]
fn an_operator_on_two_formulas_takes_what_it_may(rt: HostRuntime) -> Result<(), Fail> {
    for (operator, to_boolean, to_other) in BINARY {
        for left in OPERANDS {
            let rules = if left == Operand::Boolean {
                to_boolean
            } else {
                to_other
            };
            for (right, rule) in OPERANDS.iter().zip(rules.iter()) {
                let weak = broken_by_binary(rt.alloc(), operator, false, left, *right)?;
                let strong = broken_by_binary(rt.alloc(), operator, true, left, *right)?;
                assert!(rt;
                    weak == *rule && strong == *rule,
                    "{operator:?}, {left:?}, {right:?}"
                );
            }
        }
    }
    Ok(())
}
