//! How deep directives may be, and how many nodes they may have, with names put in place.

use crate::asking::{Answer, Rule};
use crate::making::{answer_to_chain, answer_to_items, chain, chain_breaks, joined};
use std::alloc::{AllocError, Global};

// A directive of two sequences, one in the other, of that many operators each.
fn nested_text(alloc: Global, inner: u32, outer: u32) -> Result<Vec<u8>, AllocError> {
    let first = chain(
        alloc,
        b"sequence s = {a",
        b";a",
        inner,
        b"}; sequence t = {s",
    )?;
    chain(alloc, &first, b";a", outer, b"}; assert t;")
}

fn nested(alloc: Global, inner: u32, outer: u32) -> Answer {
    match nested_text(alloc, inner, outer) {
        Ok(items) => answer_to_items(alloc, &items),
        Err(_) => Answer::NoMemory,
    }
}

#[test]
fn a_directive_is_512_deep_at_most(rt: HostRuntime) {
    assert_eq!(rt; nested(rt.alloc(), 299, 299), Answer::Tall(1, 599));
    assert_eq!(rt; nested(rt.alloc(), 255, 256), Answer::Unit);
    assert_eq!(rt; nested(rt.alloc(), 255, 257), Answer::Tall(1, 513));
}

#[test]
fn operators_of_expressions_add_to_the_depth(rt: HostRuntime) {
    let alloc = rt.alloc();
    let most = answer_to_chain(alloc, b"assert a", b" + a", 511, b";");
    assert_eq!(rt; most, Answer::Unit);
    let sum = answer_to_chain(alloc, b"assert a", b" + a", 1022, b";");
    assert_eq!(rt; sum, Answer::Tall(1, 1023));
    let second = answer_to_chain(alloc, b"assert b; assert a", b" ^ a", 512, b";");
    assert_eq!(rt; second, Answer::Tall(2, 513));
}

// Items whose first has depth 1, and whose others are each one deeper than the one before.
static STEPS: [(&[u8], &[u8]); 10] = [
    (b"property x0 = a; ", b"property x% = !x#; "),
    (b"property x0 = a; ", b"property x% = next x#; "),
    (b"property x0 = a; ", b"property x% = next_event(b)[2] x#; "),
    (b"property x0 = a; ", b"property x% = x# && b; "),
    (b"property x0 = a; ", b"property x% = b -> x#; "),
    (b"property x0 = a; ", b"property x% = b until x#; "),
    (b"property x0 = a; ", b"property x% = {b} |-> x#; "),
    (b"property x0 = a; ", b"property x% = x# abort b; "),
    (b"sequence x0 = {a}; ", b"sequence x% = {x#[*2]}; "),
    (b"sequence x0 = {a}; ", b"sequence x% = {{x#}|{b}}; "),
];

fn is_one_deeper(alloc: Global, first: &[u8], piece: &[u8]) -> bool {
    answer_to_chain(alloc, first, piece, 512, b"assert x511;") == Answer::Unit
        && answer_to_chain(alloc, first, piece, 512, b"assert x512;") == Answer::Tall(1, 513)
}

#[test]
fn operators_over_names_add_one_to_the_depth(rt: HostRuntime) {
    for (first, piece) in &STEPS {
        assert!(rt; is_one_deeper(rt.alloc(), *first, *piece), "{piece:?}");
    }
}

// The same for others that are no deeper.
static COPIES: [(&[u8], &[u8]); 4] = [
    (b"property x0 = a; ", b"property x% = x#; "),
    (b"property x0 = a; ", b"property x% = (x#); "),
    (b"sequence x0 = {a}; ", b"sequence x% = {x#}; "),
    (b"sequence x0 = {a}; ", b"sequence x% = {{{x#}}}; "),
];

#[test]
fn names_and_brackets_add_nothing_to_the_depth(rt: HostRuntime) {
    for (first, piece) in &COPIES {
        let answer = answer_to_chain(rt.alloc(), *first, *piece, 600, b"assert x600;");
        assert_eq!(rt; answer, Answer::Unit, "{piece:?}");
    }
}

// Sequences of which each is twice the one before. `s0` has 3 nodes.
const FIRST: &[u8] = b"sequence s0 = {a;a}; ";

const TWICE: &[u8] = b"sequence s% = {s#;s#}; ";

// What items are answered behind such sequences.
fn doubled(alloc: Global, last: u32, items: &[u8]) -> Answer {
    answer_to_chain(alloc, FIRST, TWICE, last, items)
}

#[test]
fn directives_have_65536_nodes_at_most(rt: HostRuntime) {
    let alloc = rt.alloc();
    let most = doubled(alloc, 13, b"assert s13; assert s13; assert !a;");
    assert_eq!(rt; most, Answer::Unit);
    let more = doubled(alloc, 13, b"assert s13; assert s13; assert !a; assert a;");
    assert_eq!(rt; more, Answer::Large(4, 65537));
}

// The sequence that is asserted, and its nodes.
static DOUBLED: [(u32, &[u8], u64); 5] = [
    (14, b"assert s14; assert a;", 65_535),
    (15, b"assert s15;", 131_071),
    (61, b"assert s61;", 9_223_372_036_854_775_807),
    (62, b"assert s62;", 9_223_372_036_854_775_808),
    (63, b"assert s63;", 9_223_372_036_854_775_808),
];

#[test]
fn what_doubles_has_its_exact_number(rt: HostRuntime) {
    for (last, items, nodes) in &DOUBLED {
        let want = if *nodes <= 65_536 {
            Answer::Unit
        } else {
            Answer::Large(1, *nodes)
        };
        assert_eq!(rt; doubled(rt.alloc(), *last, *items), want);
    }
}

#[test]
fn what_doubles_and_is_used_nowhere_counts_for_nothing(rt: HostRuntime) {
    assert_eq!(rt; doubled(rt.alloc(), 100, b"assert a;"), Answer::Unit);
}

// Properties with their nodes.
static NODES: [(&[u8], u64); 16] = [
    (b"a;", 1),
    (b"(d[3:0]);", 1),
    (b"{[*2]};", 1),
    (b"{a}!;", 1),
    (b"~d[0];", 2),
    (b"{a[*2:inf]};", 2),
    (b"next[7] a;", 2),
    (b"!!a;", 3),
    (b"a + 1;", 3),
    (b"a && p0;", 3),
    (b"{a;b};", 3),
    (b"{a[*2][+]};", 3),
    (b"a abort b;", 3),
    (b"next_event(b)(a);", 3),
    (b"a ? b : c;", 4),
    (b"{a;b} |=> {c;a};", 7),
];

// What is answered where a property stands behind 65,534 nodes.
fn behind_many(alloc: Global, property: &[u8]) -> Answer {
    let items = joined(
        alloc,
        b"wire [3:0] d; property p0 = a; assert s13; assert s13; assert ",
        property,
    );
    match items {
        Ok(items) => doubled(alloc, 13, &items),
        Err(_) => Answer::NoMemory,
    }
}

#[test]
fn each_operator_and_leaf_is_a_node(rt: HostRuntime) {
    for (property, nodes) in &NODES {
        let want = if *nodes <= 2 {
            Answer::Unit
        } else {
            Answer::Large(3, 65_534 + *nodes)
        };
        assert_eq!(rt; behind_many(rt.alloc(), *property), want, "{property:?}");
    }
}

// What is answered where the first directive is too large, and the second too deep.
fn large_and_tall(alloc: Global) -> Answer {
    match chain(alloc, b"assert s15; assert {a", b";a", 512, b"};") {
        Ok(items) => doubled(alloc, 15, &items),
        Err(_) => Answer::NoMemory,
    }
}

#[test]
fn depth_is_told_before_nodes(rt: HostRuntime) {
    assert_eq!(rt; large_and_tall(rt.alloc()), Answer::Tall(2, 513));
}

#[test]
fn a_broken_rule_is_told_before_depth_and_nodes(rt: HostRuntime) {
    let alloc = rt.alloc();
    let rule = Rule::DuplicateName;
    assert!(rt; chain_breaks(alloc, rule, FIRST, TWICE, 15, b"assert s15; wire @a;"));
    assert!(rt; chain_breaks(alloc, rule, b"assert a", b" + a", 1022, b"; wire @a;"));
}
