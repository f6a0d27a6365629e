//! Which of several faults is told.

use crate::asking::Rule;
use crate::making::{breaks, breaks_first};
use std::alloc::Global;

/// A rule, and items that break it.
type Broken = (Rule, &'static [u8]);

static FAULTS: [Broken; 7] = [
    (Rule::DuplicateName, b"wire a, @a; "),
    (Rule::BadRange, b"assert {b[*3:@2]}; "),
    (Rule::CountTooLarge, b"assert next[@4097](b); "),
    (Rule::BadLiteral, b"assert @4'd16; "),
    (Rule::BadSelect, b"assert c[@0]; "),
    (Rule::TooWide, b"wire [@64:0] d; "),
    (Rule::ConstantArithmetic, b"assert 1 @< 2; "),
];

// Whether some items are refused by their rule, whichever of the faults stands behind them.
fn is_told_before_all(alloc: Global, first: &Broken) -> bool {
    for second in &FAULTS {
        if !breaks_first(alloc, first.0, first.1, second.1) {
            return false;
        }
    }
    true
}

#[test]
fn of_two_items_the_first_is_told(rt: HostRuntime) {
    for first in &FAULTS {
        assert!(rt; is_told_before_all(rt.alloc(), first), "{first:?}");
    }
}

// Two faults in one phrase, in both orders, and two at one token.
static BOTH: [Broken; 15] = [
    (Rule::BadLiteral, b"assert @4'd16 == (1 < 2);"),
    (Rule::ConstantArithmetic, b"assert (1 @< 2) == 4'd16;"),
    (Rule::BadSelect, b"wire [7:0] d; assert d[@8] == 4'd16;"),
    (Rule::BadLiteral, b"wire [7:0] d; assert @4'd16 == d[8];"),
    (Rule::BadSelect, b"wire [7:0] d; assert d[@8:9];"),
    (Rule::BadLiteral, b"assert {@4'd16[*3:2]};"),
    (Rule::BadRange, b"assert {a[*3:@2];4'd16};"),
    (Rule::BadRange, b"assert next_event_a(a)[@0:4097](4'd16);"),
    (Rule::BadLiteral, b"assert next_event_a(@4'd16)[0:4097](a);"),
    (Rule::CountTooLarge, b"assert {a[*@4098:4097]};"),
    (Rule::TooWide, b"wire [@70:1] d, d;"),
    (Rule::BadRange, b"wire [7:@1] d, d;"),
    (Rule::DuplicateName, b"L: assert a; @L: assert 4'd16;"),
    (
        Rule::DuplicateName,
        b"sequence s = {a}; sequence @s = {4'd16};",
    ),
    (Rule::DuplicateName, b"property p = (1 == 2) && @p[0];"),
];

// Whether each of some items is refused by its rule.
fn all_break(alloc: Global, rows: &[Broken]) -> bool {
    for row in rows {
        if !breaks(alloc, row.0, row.1) {
            return false;
        }
    }
    true
}

#[test]
fn in_one_item_the_first_is_told(rt: HostRuntime) {
    assert!(rt; all_break(rt.alloc(), &BOTH));
}

static UNUSED: [Broken; 8] = [
    (Rule::CountTooLarge, b"sequence s = {a[*@4097]}; assert b;"),
    (Rule::BadRange, b"sequence s = {a[->@0]}; assert b;"),
    (Rule::BadLiteral, b"sequence s = {@4'd16}; assert b;"),
    (Rule::DuplicateName, b"sequence s = {a;@s}; assert b;"),
    (Rule::ConstantArithmetic, b"property p = 1 @< 2; assert b;"),
    (Rule::BadSelect, b"property p = never a[@0]; assert b;"),
    (Rule::BadRange, b"property p = next_a[2:@1](a); assert b;"),
    (Rule::TooWide, b"wire [@64:0] d; assert b;"),
];

#[test]
fn what_nothing_uses_is_judged_too(rt: HostRuntime) {
    assert!(rt; all_break(rt.alloc(), &UNUSED));
}
