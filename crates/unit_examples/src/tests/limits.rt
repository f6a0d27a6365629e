//! How many directives and signals there may be.

use crate::asking::{Answer, Rule};
use crate::making::{answer_to_chain, chain_breaks};
use std::alloc::Global;

const MANY: Rule = Rule::TooManyDirectives;

#[test]
fn a_unit_has_256_directives_at_most(rt: HostRuntime) {
    let alloc = rt.alloc();
    let most = answer_to_chain(alloc, b"", b"assert a; ", 256, b"");
    assert_eq!(rt; most, Answer::Unit);
    let more = answer_to_chain(alloc, b"", b"assert a; ", 257, b"");
    assert_eq!(rt; more, Answer::Broken(MANY, 2570));
}

// Whether 256 directives and then these items are refused at the `@`.
fn are_refused(alloc: Global, rule: Rule, last: &[u8]) -> bool {
    let piece = b"x%: assert a; wire w%; ";
    chain_breaks(alloc, rule, b"", piece, 256, last)
}

#[test]
fn the_directive_past_the_most_is_told_at_its_word(rt: HostRuntime) {
    assert!(rt; are_refused(rt.alloc(), MANY, b"@assert 4'd16; assert b;"));
    assert!(rt; are_refused(rt.alloc(), MANY, b"x: @assert b;"));
    assert!(rt; are_refused(rt.alloc(), Rule::DuplicateName, b"@x1: assert b;"));
}

#[test]
fn other_items_are_no_directives(rt: HostRuntime) {
    let items = b"sequence s% = {a}; property p% = a; wire w%; assert a; ";
    assert_eq!(rt;
        answer_to_chain(rt.alloc(), b"", items, 256, b""),
        Answer::Unit
    );
}

// What a unit is answered that declares so many signals, `s0` and so on, before other items.
fn with_signals(alloc: Global, more: u32, last: &[u8]) -> Answer {
    answer_to_chain(alloc, b"wire s0", b", s%", more, last)
}

// Whether 1,024 signals and then these items are refused at the `@`.
fn are_too_many(alloc: Global, last: &[u8]) -> bool {
    chain_breaks(alloc, Rule::TooManySignals, b"wire s0", b", s%", 1023, last)
}

#[test]
fn a_unit_has_1024_signals_at_most(rt: HostRuntime) {
    let alloc = rt.alloc();
    assert_eq!(rt; with_signals(alloc, 1023, b";"), Answer::Unit);
    let fault = Answer::Broken(Rule::TooManySignals, 6073);
    assert_eq!(rt; with_signals(alloc, 1024, b";"), fault);
}

#[test]
fn a_signal_counts_where_it_first_stands(rt: HostRuntime) {
    let alloc = rt.alloc();
    assert!(rt; are_too_many(alloc, b"; wire @t, u;"));
    assert!(rt; are_too_many(alloc, b"; assert s0 == @t;"));
    assert!(rt; are_too_many(alloc, b"; sequence s = {@t};"));
    assert!(rt; are_too_many(alloc, b"; property p = s0 abort @t[0];"));
}

#[test]
fn what_is_no_new_signal_counts_for_nothing(rt: HostRuntime) {
    let items =
        b"; default clock = posedge k; sequence s = {s0;s1}; property p = s; L: assert p; assert s0 == s1023;";
    assert_eq!(rt; with_signals(rt.alloc(), 1023, items), Answer::Unit);
}
