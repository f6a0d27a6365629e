//! Counts, ranges, literals, selects and widths.

use super::{Row, first_wrong};
use crate::asking::Rule;

static RANGES: [Row; 12] = [
    (b"assert {a[*3:@2]};", b"assert {a[*2:2]};"),
    (b"assert {a[=3:@2]};", b"assert {a[=2:3]};"),
    (b"assert {[*3:@2];a};", b"assert {[*0:0];a};"),
    (b"assert {a[->@0]};", b"assert {a[*0];a};"),
    (b"assert {a[->@0:2]};", b"assert {a[=0:2]};"),
    (b"assert next_a[3:@2](a);", b"assert next_a[0:2](a);"),
    (b"assert next_event(a)[@0](b);", b"assert next[0](b);"),
    (
        b"assert next_event_a(a)[@00:2](b);",
        b"assert next_event_a(a)[01:2](b);",
    ),
    (
        b"assert next_event_e!(a)[@0:2](b);",
        b"assert next_event_e!(a)[1:2](b);",
    ),
    (
        b"assert next_event_e(a)[2:@1](b);",
        b"assert next_event_e(a)[2:2](b);",
    ),
    (b"wire [3:@1] d;", b"wire [3:0] d;"),
    (b"wire [@0:0] d;", b"wire [0_1:0_0] d;"),
];

#[test]
fn a_range_has_its_ends_where_they_may_be(rt: HostRuntime) {
    assert_eq!(rt; first_wrong(rt.alloc(), Rule::BadRange, &RANGES), None);
}

static COUNTS: [Row; 9] = [
    (
        b"assert always (go -> next_e[0:@100000](ack));",
        b"assert always (go -> next_e[0:1000](ack));",
    ),
    (
        b"assert always (go -> next[@1048577](a));",
        b"assert always (go -> next[4096](a));",
    ),
    (
        b"assert always (a -> next[@65535](b));",
        b"assert always (a -> next[4_096](b));",
    ),
    (b"assert next![@4097](a);", b"assert next![4096](a);"),
    (b"assert {a[*@4097]};", b"assert {a[*4_096]};"),
    (b"assert {a[*1:@4097]};", b"assert {a[*1:4096]};"),
    (b"assert {a[*@4097:inf]};", b"assert {a[*4096:inf]};"),
    (b"assert {[*@4097];a};", b"assert {[*4096];a};"),
    (
        b"assert next_event_a(a)[1:@99999999999999999999](b);",
        b"assert next_event_a(a)[1:0000000000000000000099](b);",
    ),
];

#[test]
fn a_count_is_no_larger_than_one_may_be(rt: HostRuntime) {
    assert_eq!(rt; first_wrong(rt.alloc(), Rule::CountTooLarge, &COUNTS), None);
}

static LITERALS: [Row; 14] = [
    (b"assert @4'd16;", b"assert 4'd15;"),
    (b"assert @0'd0;", b"assert 1'd0;"),
    (b"assert @65'd0;", b"assert 64'd0;"),
    (b"assert @4294967297'd1;", b"assert 0_1'd1;"),
    (b"assert @4'b12;", b"assert 4'b11;"),
    (b"assert @4'O8;", b"assert 4'O7;"),
    (b"assert @4'D1f;", b"assert 4'D1_1;"),
    (b"assert @4'h_;", b"assert 4'h_f;"),
    (b"assert @8'hx1;", b"assert 8'HA1;"),
    (b"assert @2'b1?;", b"assert 2'B10;"),
    (b"assert @3'b1000;", b"assert 3'b0111;"),
    (b"assert a == @4294967296;", b"assert a == 4_294_967_295;"),
    (
        b"assert a == @18446744073709551616;",
        b"assert a == 00000000000000000000000016;",
    ),
    (
        b"assert @64'd18446744073709551616;",
        b"assert 64'd18446744073709551615;",
    ),
];

#[test]
fn a_literal_fits_its_width(rt: HostRuntime) {
    assert_eq!(rt; first_wrong(rt.alloc(), Rule::BadLiteral, &LITERALS), None);
}

static SELECTS: [Row; 9] = [
    (
        b"wire [7:0] d; assert d[@8];",
        b"wire [7:0] d; assert d[7];",
    ),
    (b"wire d; assert d[@0];", b"wire [1:0] d; assert d[0];"),
    (b"assert d[@0];", b"assert d;"),
    (b"assert d[@0:0];", b"wire [63:0] d; assert d[0:0];"),
    (
        b"wire [7:0] d; assert d[3:@4];",
        b"wire [7:0] d; assert d[4:4];",
    ),
    (
        b"wire [7:0] d; assert d[@8:0];",
        b"wire [7:0] d; assert d[7:0];",
    ),
    (
        b"wire [7:0] d; assert d[7:@8];",
        b"wire [8:0] d; assert d[8:7];",
    ),
    (
        b"wire [7:0] d; assert d[@4294967296];",
        b"wire [7:0] d; assert d[0000000000_1];",
    ),
    (
        b"wire [7:0] d; sequence s = {d[@9]};",
        b"wire [9:0] d; sequence s = {d[9]};",
    ),
];

#[test]
fn a_select_names_places_of_its_signal(rt: HostRuntime) {
    assert_eq!(rt; first_wrong(rt.alloc(), Rule::BadSelect, &SELECTS), None);
}

static VECTORS: [Row; 4] = [
    (b"wire [@64:0] d;", b"wire [63:0] d;"),
    (b"wire [@64:1] d;", b"wire [1:0] d;"),
    (
        b"wire a; wire [@1_00:0] d, e;",
        b"wire a; wire [1_0:0] d, e;",
    ),
    (
        b"wire [@18446744073709551616:0] d;",
        b"wire [00000000009:0] d;",
    ),
];

#[test]
fn a_vector_is_no_wider_than_one_may_be(rt: HostRuntime) {
    assert_eq!(rt; first_wrong(rt.alloc(), Rule::TooWide, &VECTORS), None);
}

static CONSTANTS: [Row; 10] = [
    (b"assert 1 @< 2;", b"assert 1 < 2'd2;"),
    (b"assert (1 @+ 1) == a;", b"assert (1 & 1) == a;"),
    (b"assert a == ~1 @- 1;", b"assert a == ~1 - b;"),
    (b"assert (1 << a) @>= 3;", b"assert (a << 1) >= 3;"),
    (b"assert (1 ^ 2) @<= 3;", b"assert (1 ^ a) <= 3;"),
    (b"assert (a ? 1 : 2) @<= 3;", b"assert (a ? 1 : 2'd2) <= 3;"),
    (b"assert 5 @+ (1 | 2) == a;", b"assert &5 + 1 == a;"),
    (b"property p = 1 @> 2;", b"property p = 1 == 2;"),
    (b"assert a abort 1 @< 2;", b"assert a abort 1 != 2;"),
    (b"assert {a;1 @< 2};", b"assert {a;(1 == 2) < 3};"),
];

#[test]
fn an_operator_has_a_width(rt: HostRuntime) {
    assert_eq!(rt;
        first_wrong(rt.alloc(), Rule::ConstantArithmetic, &CONSTANTS),
        None
    );
}
