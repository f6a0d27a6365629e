//! Units with what they have.

use crate::asking::unit_of;
use psl_model::{Directive, Formula, Name, PslUnit, Signal};
use std::alloc::Global;

/// The names of signals, and their bits.
type Signals = &'static [(&'static [u8], u32)];

static NUMBERED: [(&[u8], Signals); 6] = [
    (b"vunit u { }", &[]),
    (
        b"vunit u { wire [7:0] d; assert x; assert d == y; }",
        &[(b"d", 8), (b"x", 1), (b"y", 1)],
    ),
    (
        b"vunit u { assert x; wire [63:0] d, e; wire y; }",
        &[(b"x", 1), (b"d", 64), (b"e", 64), (b"y", 1)],
    ),
    (
        b"vunit u { sequence s = {b;a;b}; property p = c until s; assert a; }",
        &[(b"b", 1), (b"a", 1), (b"c", 1)],
    ),
    (
        b"vunit u { assert next_event(b)[2](a ? c : d) abort e; }",
        &[(b"b", 1), (b"a", 1), (b"c", 1), (b"d", 1), (b"e", 1)],
    ),
    (
        b"vunit u (m) { default clock = posedge k; L: assert (a && (b)) report \"c\"; }",
        &[(b"a", 1), (b"b", 1)],
    ),
];

fn are_signals(found: &[Signal], want: &[(&[u8], u32)]) -> bool {
    if found.len() != want.len() {
        return false;
    }
    for (signal, row) in found.iter().zip(want) {
        if signal.name.bytes() != row.0 || signal.width != row.1 {
            return false;
        }
    }
    true
}

fn has_signals(alloc: Global, text: &[u8], want: &[(&[u8], u32)]) -> bool {
    match unit_of(alloc, text) {
        Some(unit) => are_signals(unit.signals.as_slice(), want),
        None => false,
    }
}

#[test]
fn signals_are_numbered_by_their_first_places(rt: HostRuntime) {
    for (text, want) in &NUMBERED {
        assert!(rt; has_signals(rt.alloc(), *text, *want), "{text:?}");
    }
}

const LABELLED: &[u8] =
    b"vunit bus (m) { L: assert a report \"bad a\"; assert b; a: assert b report \"\"; }";

/// Labels and reports.
static LABELS: [(Option<&[u8]>, Option<&[u8]>); 3] = [
    (Some(b"L"), Some(b"bad a")),
    (None, None),
    (Some(b"a"), Some(b"")),
];

fn is_name(name: &Option<Name>, want: Option<&[u8]>) -> bool {
    match (name, want) {
        (None, None) => true,
        (Some(name), Some(want)) => name.bytes() == want,
        _ => false,
    }
}

fn are_labelled(found: &[Directive], want: &[(Option<&[u8]>, Option<&[u8]>)]) -> bool {
    if found.len() != want.len() {
        return false;
    }
    for (directive, row) in found.iter().zip(want) {
        if !is_name(&directive.label, row.0) || !is_name(&directive.report, row.1) {
            return false;
        }
    }
    true
}

fn has_labels(alloc: Global, text: &[u8], want: &[(Option<&[u8]>, Option<&[u8]>)]) -> bool {
    match unit_of(alloc, text) {
        Some(unit) => unit.name.bytes() == b"bus".as_slice()
            && are_labelled(unit.directives.as_slice(), want),
        None => false,
    }
}

#[test]
fn directives_have_their_labels_and_reports(rt: HostRuntime) {
    assert!(rt; has_labels(rt.alloc(), LABELLED, &LABELS));
}

// The range of a directive's word of `next`.
fn range_of(directive: &Directive) -> Option<(u32, u32)> {
    match &directive.formula {
        Formula::Next { low, high, .. } => Some((*low, *high)),
        Formula::Event { low, high, .. } => Some((*low, *high)),
        _ => None,
    }
}

fn first_range(unit: &PslUnit) -> Option<(u32, u32)> {
    match unit.directives.get(0) {
        Some(directive) => range_of(directive),
        None => None,
    }
}

fn has_range(alloc: Global, text: &[u8], low: u32, high: u32) -> bool {
    match unit_of(alloc, text) {
        Some(unit) => first_range(&unit) == Some((low, high)),
        None => false,
    }
}

static REACHES: [(&[u8], u32, u32); 7] = [
    (b"vunit u { assert next a; }", 1, 1),
    (b"vunit u { assert next![0] a; }", 0, 0),
    (b"vunit u { assert next[4_0] a; }", 40, 40),
    (b"vunit u { assert next_e[0:3] a; }", 0, 3),
    (b"vunit u { assert next_event(b) a; }", 1, 1),
    (b"vunit u { assert next_event!(b)[2] a; }", 2, 2),
    (
        b"vunit u { property p = next_event_a(b)[1:4] a; assert p; }",
        1,
        4,
    ),
];

#[test]
fn words_of_next_have_their_ranges(rt: HostRuntime) {
    for (text, low, high) in &REACHES {
        assert!(rt; has_range(rt.alloc(), *text, *low, *high), "{text:?}");
    }
}

// Whether the first directives of two units are the same sequence.
fn are_same(first: &PslUnit, second: &PslUnit) -> bool {
    let (Some(first), Some(second)) = (first.directives.get(0), second.directives.get(0)) else {
        return false;
    };
    match (&first.formula, &second.formula) {
        (
            Formula::Seq { sere, strong },
            Formula::Seq {
                sere: other,
                strong: also,
            },
        ) => { sere == other && strong == also }
        _ => false,
    }
}

// Whether two texts spell the same sequence; None where one is no unit.
fn spell_the_same(alloc: Global, first: &[u8], second: &[u8]) -> Option<bool> {
    match (unit_of(alloc, first), unit_of(alloc, second)) {
        (Some(first), Some(second)) => Some(are_same(&first, &second)),
        _ => None,
    }
}

static SPELLINGS: [(&[u8], &[u8]); 8] = [
    (
        b"vunit u { sequence s = {a;b[*2]}; sequence t = {s}; assert {t|{c;s}}; }",
        b"vunit u { assert {{a;b[*2]}|{c;{a;b[*2]}}}; }",
    ),
    (
        b"vunit u { property p = {a}!; assert p; }",
        b"vunit u { assert {a}!; }",
    ),
    (
        b"vunit u { assert {a[*]}; }",
        b"vunit u { assert {a[*0:inf]}; }",
    ),
    (
        b"vunit u { assert {a[+]}; }",
        b"vunit u { assert {a[*1:inf]}; }",
    ),
    (
        b"vunit u { assert {a[*2]}; }",
        b"vunit u { assert {a[*2:2]}; }",
    ),
    (
        b"vunit u { assert {a[->]}; }",
        b"vunit u { assert {a[->1:1]}; }",
    ),
    (
        b"vunit u { assert {a;[*3]}; }",
        b"vunit u { assert {a;true[*3:3]}; }",
    ),
    (
        b"vunit u { assert {false;true}; }",
        b"vunit u { assert {1'b0;1'h1}; }",
    ),
];

#[test]
fn sequences_that_are_spelled_in_two_ways_are_one(rt: HostRuntime) {
    for (first, second) in &SPELLINGS {
        let same = spell_the_same(rt.alloc(), *first, *second);
        assert_eq!(rt; same, Some(true), "{first:?}");
    }
}

static DIFFERENT: [(&[u8], &[u8]); 5] = [
    (b"vunit u { assert {a}; }", b"vunit u { assert {a}!; }"),
    (b"vunit u { assert {a;b}; }", b"vunit u { assert {b;b}; }"),
    (
        b"vunit u { assert {a[*2]}; }",
        b"vunit u { assert {a[*2:3]}; }",
    ),
    (
        b"vunit u { assert {a[*2:inf]}; }",
        b"vunit u { assert {a[*2]}; }",
    ),
    (
        b"vunit u { assert {a|{a;b}}; }",
        b"vunit u { assert {a:{a;b}}; }",
    ),
];

#[test]
fn other_sequences_differ(rt: HostRuntime) {
    for (first, second) in &DIFFERENT {
        let same = spell_the_same(rt.alloc(), *first, *second);
        assert_eq!(rt; same, Some(false), "{first:?}");
    }
}
