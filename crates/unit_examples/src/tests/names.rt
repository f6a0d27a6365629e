//! A name means one thing, and a label stands once.

use super::{Row, first_wrong};
use crate::asking::{Answer, Rule};
use crate::making::answer_to_items;

static SIGNALS: [Row; 9] = [
    (b"wire a; wire @a;", b"wire a; wire b;"),
    (b"wire a, @a;", b"wire a, b;"),
    (b"wire a; wire [3:0] b, @a;", b"wire a; wire [3:0] b, c;"),
    (b"assert a; wire @a;", b"wire a; assert a;"),
    (
        b"sequence s = {a}; wire b, @a;",
        b"wire b, a; sequence s = {a};",
    ),
    (
        b"wire a; sequence @a = {b};",
        b"sequence a = {b}; assert a;",
    ),
    (b"wire a; property @a = b;", b"property a = b; assert a;"),
    (
        b"assert a; sequence @a = {b};",
        b"assert b; sequence a = {b};",
    ),
    (b"assert a; property @a = b;", b"assert b; property a = b;"),
];

#[test]
fn a_signal_gets_no_second_meaning(rt: HostRuntime) {
    assert_eq!(rt;
        first_wrong(rt.alloc(), Rule::DuplicateName, &SIGNALS),
        None
    );
}

static PHRASES: [Row; 8] = [
    (b"sequence s = {a}; wire @s;", b"sequence s = {a}; wire t;"),
    (
        b"sequence s = {a}; sequence @s = {b};",
        b"sequence s = {a}; sequence t = {b};",
    ),
    (
        b"sequence s = {a}; property @s = b;",
        b"sequence s = {a}; property q = b;",
    ),
    (b"property p = a; wire @p;", b"property p = a; wire q;"),
    (
        b"property p = a; sequence @p = {b};",
        b"property p = a; sequence s = {b};",
    ),
    (
        b"property p = a; property @p = b;",
        b"property p = a; property q = b;",
    ),
    (b"sequence s = {@s};", b"sequence s = {t};"),
    (b"property p = a && @p;", b"property p = a && q;"),
];

#[test]
fn a_sequence_or_property_gets_no_second_meaning(rt: HostRuntime) {
    assert_eq!(rt;
        first_wrong(rt.alloc(), Rule::DuplicateName, &PHRASES),
        None
    );
}

static LABELS: [Row; 3] = [
    (b"L: assert a; @L: assert b;", b"L: assert a; M: assert b;"),
    (
        b"L: assert a; M: assert b; assert c; @L: assert a;",
        b"L: assert a; M: assert b; assert c; l: assert a;",
    ),
    (
        b"L: assert a; M: assert L; @M: assert L;",
        b"L: assert a; M: assert L; N: assert M;",
    ),
];

#[test]
fn a_label_stands_once(rt: HostRuntime) {
    assert_eq!(rt; first_wrong(rt.alloc(), Rule::DuplicateName, &LABELS), None);
}

#[test]
fn names_of_the_unit_clocks_and_labels_mean_nothing(rt: HostRuntime) {
    let items = b"default clock = posedge u; wire u; u: assert u; property p = u; p: assert p;";
    assert_eq!(rt; answer_to_items(rt.alloc(), items), Answer::Unit);
}
