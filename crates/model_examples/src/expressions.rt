//! Expressions with widths and values that were worked out by hand.

use psl_model::{
    BinOp, Directive, Expr, Formula, Name, OPERATORS, PslUnit, Subexpr, UnOp, operator_table,
};
use sqlite_items::Items;
use std::alloc::Global;
use std::collections::HashSet;
use std::process::Abort;
use std::test::Fail;

const TOP: u128 = 1 << 63;

const ALL: u128 = (1 << 64) - 1;

/// Operator, width and value of the operand, the width of the whole, its context and its value.
static PREFIXES: [(UnOp, u32, u128, u32, u32, u128); 16] = [
    (UnOp::Not, 4, 0, 1, 1, 1),
    (UnOp::Not, 4, 8, 1, 64, 0),
    (UnOp::Not, 64, ALL, 1, 128, 0),
    (UnOp::Flip, 1, 1, 1, 1, 0),
    (UnOp::Flip, 4, 5, 4, 4, 10),
    (UnOp::Flip, 1, 1, 1, 64, ALL - 1),
    (UnOp::Flip, 64, ALL, 64, 128, ALL << 64),
    (UnOp::AllOnes, 4, 15, 1, 1, 1),
    (UnOp::AllOnes, 4, 14, 1, 64, 0),
    (UnOp::AllOnes, 64, ALL, 1, 128, 1),
    (UnOp::AnyOne, 4, 0, 1, 1, 0),
    (UnOp::AnyOne, 4, 8, 1, 64, 1),
    (UnOp::AnyOne, 64, TOP, 1, 128, 1),
    (UnOp::Parity, 4, 7, 1, 1, 1),
    (UnOp::Parity, 8, 255, 1, 64, 0),
    (UnOp::Parity, 64, TOP, 1, 128, 1),
];

/// Operator, width and value of the left and of the right operand, the width of the whole, its
/// context and its value.
static JOINED: [(BinOp, u32, u128, u32, u128, u32, u32, u128); 53] = [
    (BinOp::Add, 1, 1, 1, 1, 1, 1, 0),
    (BinOp::Add, 4, 15, 4, 1, 4, 4, 0),
    (BinOp::Add, 4, 15, 4, 1, 4, 64, 16),
    (BinOp::Add, 64, ALL, 1, 1, 64, 64, 0),
    (BinOp::Add, 64, ALL, 1, 1, 64, 128, ALL + 1),
    (BinOp::Sub, 1, 0, 1, 1, 1, 1, 1),
    (BinOp::Sub, 8, 5, 4, 7, 8, 8, 254),
    (BinOp::Sub, 4, 0, 4, 1, 4, 64, ALL),
    (BinOp::Sub, 4, 0, 4, 1, 4, 128, u128::MAX),
    (BinOp::Shl, 1, 1, 1, 1, 1, 1, 0),
    (BinOp::Shl, 4, 9, 3, 4, 4, 4, 0),
    (BinOp::Shl, 4, 9, 3, 4, 4, 8, 144),
    (BinOp::Shl, 64, 1, 7, 127, 64, 128, TOP << 64),
    (BinOp::Shl, 64, 1, 8, 128, 64, 128, 0),
    (BinOp::Shl, 8, 1, 33, 4294967297, 8, 64, 0),
    (BinOp::Shr, 1, 1, 1, 1, 1, 1, 0),
    (BinOp::Shr, 8, 200, 2, 3, 8, 8, 25),
    (BinOp::Shr, 4, 9, 3, 4, 4, 4, 0),
    (BinOp::Shr, 64, TOP, 6, 63, 64, 128, 1),
    (BinOp::Shr, 64, ALL, 33, 4294967296, 64, 64, 0),
    (BinOp::Lt, 4, 7, 4, 8, 1, 1, 1),
    (BinOp::Lt, 8, 16, 4, 15, 1, 64, 0),
    (BinOp::Lt, 64, ALL, 64, ALL, 1, 128, 0),
    (BinOp::Le, 4, 8, 4, 8, 1, 1, 1),
    (BinOp::Le, 4, 9, 4, 8, 1, 64, 0),
    (BinOp::Le, 1, 1, 64, TOP, 1, 128, 1),
    (BinOp::Gt, 4, 8, 4, 7, 1, 1, 1),
    (BinOp::Gt, 4, 8, 4, 8, 1, 64, 0),
    (BinOp::Gt, 64, TOP, 1, 1, 1, 128, 1),
    (BinOp::Ge, 4, 8, 4, 8, 1, 1, 1),
    (BinOp::Ge, 4, 7, 8, 128, 1, 64, 0),
    (BinOp::Ge, 64, ALL, 64, TOP, 1, 128, 1),
    (BinOp::Eq, 4, 1, 8, 1, 1, 1, 1),
    (BinOp::Eq, 4, 1, 8, 17, 1, 64, 0),
    (BinOp::Eq, 64, ALL, 64, ALL, 1, 128, 1),
    (BinOp::Ne, 4, 1, 8, 1, 1, 1, 0),
    (BinOp::Ne, 4, 1, 8, 17, 1, 64, 1),
    (BinOp::Ne, 64, ALL, 64, TOP, 1, 128, 1),
    (BinOp::BitAnd, 1, 1, 1, 0, 1, 1, 0),
    (BinOp::BitAnd, 4, 12, 8, 170, 8, 64, 8),
    (BinOp::BitAnd, 64, ALL, 64, TOP, 64, 128, TOP),
    (BinOp::BitXor, 1, 1, 1, 1, 1, 1, 0),
    (BinOp::BitXor, 4, 12, 8, 170, 8, 64, 166),
    (BinOp::BitXor, 64, ALL, 64, TOP, 64, 128, TOP - 1),
    (BinOp::BitOr, 1, 0, 1, 1, 1, 1, 1),
    (BinOp::BitOr, 4, 12, 8, 170, 8, 64, 174),
    (BinOp::BitOr, 64, TOP, 64, TOP - 1, 64, 128, ALL),
    (BinOp::And, 4, 8, 8, 16, 1, 1, 1),
    (BinOp::And, 4, 8, 8, 0, 1, 64, 0),
    (BinOp::And, 64, TOP, 1, 1, 1, 128, 1),
    (BinOp::Or, 4, 0, 8, 0, 1, 1, 0),
    (BinOp::Or, 4, 0, 8, 16, 1, 64, 1),
    (BinOp::Or, 64, TOP, 1, 0, 1, 128, 1),
];

/// A step of building an expression on a stack: a leaf, or an operator over the expressions on top.
#[derive(Clone, Copy)]
enum Step {
    Signal(usize),
    Bit(usize, u32),
    Part(usize, u32, u32),
    Plain(u32),
    Sized(u32, u128),
    Prefix(UnOp),
    Join(BinOp),
    Choose,
}

use BinOp::{Add, BitAnd, BitXor, Eq, Ge, Gt, Le, Lt, Or, Shl, Shr, Sub};
use Step::{Bit, Choose, Join, Part, Plain, Prefix, Signal, Sized};
use UnOp::{AllOnes, Flip, Not};

fn leaf(step: Step) -> Option<Expr> {
    match step {
        Signal(signal) => Some(Expr::Whole(signal)),
        Bit(signal, place) => Some(Expr::Bit(signal, place)),
        Part(signal, high, low) => Some(Expr::Part(signal, high, low)),
        Plain(number) => Some(Expr::Plain(number)),
        Sized(width, value) => Some(Expr::Sized(width, value)),
        Prefix(_) | Join(_) | Choose => None,
    }
}

fn operand(alloc: Global, stack: &mut Vec<Expr>) -> Result<Subexpr, Fail> {
    match stack.pop() {
        Some(expr) => Ok(Subexpr::new(alloc, expr)?),
        None => Err("an operand".into()),
    }
}

fn operation(alloc: Global, step: Step, stack: &mut Vec<Expr>) -> Result<Expr, Fail> {
    let last = operand(alloc, stack)?;
    if let Prefix(op) = step {
        return Ok(Expr::Unary(op, last));
    }
    let middle = operand(alloc, stack)?;
    if let Join(op) = step {
        return Ok(Expr::Binary(op, middle, last));
    }
    Ok(Expr::Choice(operand(alloc, stack)?, middle, last))
}

fn built(alloc: Global, steps: &[Step]) -> Result<Expr, Fail> {
    let mut stack = Vec::new(alloc);
    for step in steps {
        let expr = match leaf(*step) {
            Some(leaf) => leaf,
            None => operation(alloc, *step, &mut stack)?,
        };
        stack.push(expr)?;
    }
    match stack.pop() {
        Some(expr) => Ok(expr),
        None => Err("an expression".into()),
    }
}

/// A signal of 1 bit at 1, one of 4 bits at 15, and one of 64 bits with its highest bit alone.
fn is_worth(rt: &impl Abort, expr: &Expr, own: u32, context: u32, value: u128) {
    let widths = [1, 4, 64];
    let values = [1, 15, TOP];
    assert!(rt; expr.valid(&widths));
    let width = expr.width(&widths);
    assert_eq!(rt; width, own);
    assert!(rt; width <= context && context <= 128);
    assert_eq!(rt; expr.value(context, &widths, &values), value, "{expr:?}");
    assert_eq!(rt;
        expr.holds(&widths, &values),
        expr.value(own, &widths, &values) != 0
    );
}

#[test]
fn each_operator_has_its_width_and_its_value(rt: HostRuntime) -> Result<(), Fail> {
    for (op, w, x, own, context, value) in &PREFIXES {
        let expr = built(rt.alloc(), &[Sized(*w, *x), Prefix(*op)])?;
        is_worth(&rt, &expr, *own, *context, *value);
    }
    for (op, v, x, w, y, own, context, value) in &JOINED {
        let expr = built(rt.alloc(), &[Sized(*v, *x), Sized(*w, *y), Join(*op)])?;
        is_worth(&rt, &expr, *own, *context, *value);
    }
    Ok(())
}

/// An expression, its width, its context and its value.
static COMPOSED: [(&[Step], u32, u32, u128); 22] = [
    (&[Signal(0)], 1, 1, 1),
    (&[Signal(2)], 64, 128, TOP),
    (&[Bit(1, 3)], 1, 64, 1),
    (&[Bit(2, 62)], 1, 1, 0),
    (&[Part(1, 2, 1)], 2, 128, 3),
    (&[Part(2, 63, 60)], 4, 4, 8),
    (&[Plain(4294967295)], 32, 64, 4294967295),
    (&[Sized(64, ALL)], 64, 64, ALL),
    // a counter at 15 plus one: by itself, beside a plain number, and beside 5 bits
    (
        &[Signal(1), Sized(4, 1), Join(Add), Sized(4, 0), Join(Eq)],
        1,
        1,
        1,
    ),
    (
        &[Signal(1), Plain(1), Join(Add), Plain(0), Join(Eq)],
        1,
        64,
        0,
    ),
    (
        &[Sized(5, 16), Signal(1), Sized(4, 1), Join(Add), Join(Eq)],
        1,
        128,
        1,
    ),
    // ~cnt == 8'd240, and ~(~cnt) > 8'd14
    (&[Signal(1), Prefix(Flip), Sized(8, 240), Join(Eq)], 1, 1, 1),
    (
        &[
            Signal(1),
            Prefix(Flip),
            Prefix(Flip),
            Sized(8, 14),
            Join(Gt),
        ],
        1,
        64,
        1,
    ),
    // the amount of a shift stands by itself: 8'd1 << (cnt + 4'd1)
    (
        &[Sized(8, 1), Signal(1), Sized(4, 1), Join(Add), Join(Shl)],
        8,
        64,
        1,
    ),
    // so does what a reduction takes: (&cnt) + 1'd1
    (
        &[Signal(1), Prefix(AllOnes), Sized(1, 1), Join(Add)],
        1,
        64,
        2,
    ),
    // (cnt + 4'd1) ? 5'd1 : (a ? cnt + 4'd1 : 8'd7)
    (
        &[
            Signal(1),
            Sized(4, 1),
            Join(Add),
            Sized(5, 1),
            Signal(0),
            Signal(1),
            Sized(4, 1),
            Join(Add),
            Sized(8, 7),
            Choose,
            Choose,
        ],
        8,
        8,
        16,
    ),
    // (a ? (4'd0 ? 4'd1 : 4'd2) : 4'd3) - 4'd3
    (
        &[
            Signal(0),
            Sized(4, 0),
            Sized(4, 1),
            Sized(4, 2),
            Choose,
            Sized(4, 3),
            Choose,
            Sized(4, 3),
            Join(Sub),
        ],
        4,
        64,
        ALL,
    ),
    // a ? ~1'd1 : 1'd0 at 1, 64 and 128 bits
    (
        &[Signal(0), Sized(1, 1), Prefix(Flip), Sized(1, 0), Choose],
        1,
        1,
        0,
    ),
    (
        &[Signal(0), Sized(1, 1), Prefix(Flip), Sized(1, 0), Choose],
        1,
        64,
        ALL - 1,
    ),
    (
        &[Signal(0), Sized(1, 1), Prefix(Flip), Sized(1, 0), Choose],
        1,
        128,
        u128::MAX - 1,
    ),
    // (a ? cnt : 8'd0) + 8'd250 wraps at 8 bits alone
    (
        &[
            Signal(0),
            Signal(1),
            Sized(8, 0),
            Choose,
            Sized(8, 250),
            Join(Add),
        ],
        8,
        8,
        9,
    ),
    (
        &[
            Signal(0),
            Signal(1),
            Sized(8, 0),
            Choose,
            Sized(8, 250),
            Join(Add),
        ],
        8,
        64,
        265,
    ),
];

#[test]
fn operands_take_the_widths_around_them(rt: HostRuntime) -> Result<(), Fail> {
    for (steps, own, context, value) in &COMPOSED {
        let expr = built(rt.alloc(), *steps)?;
        is_worth(&rt, &expr, *own, *context, *value);
    }
    Ok(())
}

/// Expressions over signals of 1 and 4 bits and one without bits, and whether they are valid.
static JUDGED: [(&[Step], bool); 59] = [
    (&[Signal(2)], true),
    (&[Signal(3)], false),
    (&[Bit(1, 3)], true),
    (&[Bit(1, 4)], false),
    (&[Bit(0, 0)], false),
    (&[Bit(2, 0)], false),
    (&[Bit(3, 0)], false),
    (&[Part(1, 3, 0)], true),
    (&[Part(1, 2, 2)], true),
    (&[Part(1, 4, 0)], false),
    (&[Part(1, 1, 2)], false),
    (&[Part(0, 0, 0)], false),
    (&[Plain(4294967295)], true),
    (&[Sized(1, 1)], true),
    (&[Sized(1, 2)], false),
    (&[Sized(0, 0)], false),
    (&[Sized(64, ALL)], true),
    (&[Sized(64, ALL + 1)], false),
    (&[Sized(65, 0)], false),
    // each operator on two bare operands, and with a width beside one of them
    (&[Plain(1), Plain(2), Join(Add)], false),
    (&[Plain(1), Signal(1), Join(Add)], true),
    (&[Plain(1), Plain(2), Join(Sub)], false),
    (&[Signal(1), Plain(2), Join(Sub)], true),
    (&[Plain(1), Plain(2), Join(Lt)], false),
    (&[Plain(1), Signal(1), Join(Lt)], true),
    (&[Plain(1), Plain(2), Join(Le)], false),
    (&[Signal(1), Plain(2), Join(Le)], true),
    (&[Plain(1), Plain(2), Join(Gt)], false),
    (&[Plain(1), Signal(1), Join(Gt)], true),
    (&[Plain(1), Plain(2), Join(Ge)], false),
    (&[Signal(1), Plain(2), Join(Ge)], true),
    (&[Plain(1), Plain(2), Join(Eq)], true),
    (&[Plain(1), Plain(2), Join(BinOp::Ne)], true),
    (&[Plain(1), Plain(2), Join(BinOp::And)], true),
    (&[Plain(1), Plain(2), Join(Or)], true),
    // each bare form beside `< 1`, with its neighbours that aren't bare
    (
        &[Plain(1), Plain(2), Join(BitAnd), Plain(1), Join(Lt)],
        false,
    ),
    (
        &[Plain(1), Signal(1), Join(BitAnd), Plain(1), Join(Lt)],
        true,
    ),
    (
        &[Plain(1), Plain(2), Join(BitXor), Plain(1), Join(Lt)],
        false,
    ),
    (
        &[Signal(1), Plain(2), Join(BitXor), Plain(1), Join(Lt)],
        true,
    ),
    (
        &[Plain(1), Plain(2), Join(BinOp::BitOr), Plain(1), Join(Lt)],
        false,
    ),
    (
        &[Plain(1), Signal(1), Join(BinOp::BitOr), Plain(1), Join(Lt)],
        true,
    ),
    (&[Plain(1), Signal(1), Join(Shl), Plain(1), Join(Lt)], false),
    (&[Signal(1), Plain(1), Join(Shl), Plain(1), Join(Lt)], true),
    (&[Plain(1), Signal(1), Join(Shr), Plain(1), Join(Lt)], false),
    (&[Signal(1), Plain(1), Join(Shr), Plain(1), Join(Lt)], true),
    (&[Plain(1), Plain(2), Join(Eq), Plain(1), Join(Lt)], true),
    (&[Plain(1), Plain(2), Join(Or), Plain(1), Join(Lt)], true),
    (&[Plain(1), Prefix(Flip), Plain(1), Join(Lt)], false),
    (&[Signal(1), Prefix(Flip), Plain(1), Join(Lt)], true),
    (&[Plain(1), Prefix(Not), Plain(1), Join(Lt)], true),
    (&[Plain(1), Prefix(AllOnes), Plain(1), Join(Lt)], true),
    (&[Plain(1), Prefix(UnOp::AnyOne), Plain(1), Join(Lt)], true),
    (&[Plain(1), Prefix(UnOp::Parity), Plain(1), Join(Lt)], true),
    (
        &[Signal(0), Plain(1), Plain(2), Choose, Plain(1), Join(Lt)],
        false,
    ),
    (
        &[Plain(0), Plain(1), Signal(1), Choose, Plain(1), Join(Lt)],
        true,
    ),
    (
        &[Plain(0), Signal(1), Plain(2), Choose, Plain(1), Join(Lt)],
        true,
    ),
    // an operand that isn't valid
    (&[Signal(3), Prefix(Not)], false),
    (&[Signal(0), Signal(3), Join(Eq)], false),
    (&[Signal(3), Signal(0), Signal(0), Choose], false),
];

#[test]
fn expressions_are_valid_by_the_rules(rt: HostRuntime) -> Result<(), Fail> {
    for (steps, valid) in &JUDGED {
        let expr = built(rt.alloc(), *steps)?;
        assert_eq!(rt; expr.valid(&[1, 4, 0]), *valid, "{expr:?}");
    }
    Ok(())
}

#[test]
fn the_table_and_the_operators_tell_the_same(rt: HostRuntime) {
    assert_eq!(rt; operator_table()[0].spelling, "!");
    assert_eq!(rt; OPERATORS[12].spelling, ">=");
    assert_eq!(rt;
        (UnOp::Parity.row().level, UnOp::Parity.row().operands),
        (0, 1)
    );
    assert_eq!(rt; (BinOp::Or.row().level, BinOp::Or.row().operands), (9, 2));
}

#[test]
fn copies_are_equal(rt: HostRuntime) -> Result<(), Fail> {
    let mut seen = HashSet::new(rt.alloc());
    for (steps, _, _, _) in &COMPOSED[..18] {
        let expr = built(rt.alloc(), *steps)?;
        let copy = expr.copy(rt.alloc())?;
        assert!(rt; copy == expr, "{copy:?}");
        assert!(rt; !seen.contains(&expr));
        seen.insert(copy)?;
        assert!(rt; seen.contains(&expr));
    }
    Ok(())
}

#[test]
fn a_unit_keeps_its_parts(rt: HostRuntime) -> Result<(), Fail> {
    let mut directives = Items::new(rt.alloc());
    directives.push(Directive {
        label: None,
        report: None,
        formula: Formula::Bool(Expr::Whole(0)),
    })?;
    let unit = PslUnit {
        name: Name::new(rt.alloc(), b"u")?,
        signals: Items::new(rt.alloc()),
        directives,
    };
    for directive in unit.directives.as_slice() {
        assert!(rt; matches!(directive.formula, Formula::Bool(Expr::Whole(0))));
    }
    assert_eq!(rt; unit.directives.len(), 1);
    Ok(())
}
