//! Properties.

use super::{prop_gives, stops_at};
use std::test::Fail;

#[test]
fn properties_bind_by_their_levels(rt: HostRuntime) {
    for (text, tree) in [
        (b"p".as_slice(), b"<p>".as_slice()),
        (b"always a -> b", b"[always [-> a b]]"),
        (b"never always a", b"[never [always a]]"),
        (b"a -> b -> c", b"[-> a [-> b c]]"),
        (b"(a -> b) -> c", b"[-> [-> a b] c]"),
        (b"a <-> b", b"[<-> a b]"),
        (b"always a <-> b", b"[always [<-> a b]]"),
        (b"a -> b <-> c", b"[-> a [<-> b c]]"),
        (b"a <-> {b} |-> c", b"[<-> a [|-> b c]]"),
        (b"{a} |-> b -> c", b"[-> [|-> a b] c]"),
        (b"{a} |=> {b} |-> c", b"[|=> a [|-> b c]]"),
        (b"a[*2] |-> b", b"[|-> {[* a 2} b]"),
        (b"s |-> b", b"[|-> {s} b]"),
        (b"{a} |-> b until c", b"[|-> a [until b c]]"),
        (b"a until! b", b"[until! a b]"),
        (b"a until_ b", b"[until_ a b]"),
        (b"a until!_ b", b"[until!_ a b]"),
        (b"a before b", b"[before a b]"),
        (b"a before! b", b"[before! a b]"),
        (b"a before_ b", b"[before_ a b]"),
        (b"a before!_ b", b"[before!_ a b]"),
        (b"a until b -> c", b"[-> [until a b] c]"),
        (b"a abort b", b"[abort a b]"),
        (b"a abort b abort c", b"[abort [abort a b] c]"),
        (b"a && p abort b || c", b"[abort [&& a <p>] (|| b c)]"),
        (b"p || a abort b", b"[abort [|| <p> a] b]"),
        (b"a ? b : c abort d", b"[abort (? a b c) d]"),
        (b"a[*2] abort b", b"[abort [{[* a 2}] b]"),
        (b"a abort b until c", b"[until [abort a b] c]"),
        (b"!p", b"[! <p>]"),
        (b"!!p", b"[! [! <p>]]"),
        (b"!(a -> b)", b"[! [-> a b]]"),
        (b"!p && a", b"[&& [! <p>] a]"),
        (b"a && p && b", b"[&& [&& a <p>] b]"),
        (b"a && p || b", b"[|| [&& a <p>] b]"),
        (b"a && b || p", b"[|| (&& a b) <p>]"),
        (b"p || a && b", b"[|| <p> (&& a b)]"),
        (b"p || a || b", b"[|| [|| <p> a] b]"),
        (b"(a -> b) && c | d", b"[&& [-> a b] (| c d)]"),
    ] {
        assert!(rt; prop_gives(rt.alloc(), text, tree), "{text:?}");
    }
}

#[test]
fn forms_of_next_take_their_counts(rt: HostRuntime) {
    for (text, tree) in [
        (b"next a".as_slice(), b"[next a]".as_slice()),
        (b"next[2] a", b"[next 2 a]"),
        (b"next! a", b"[next! a]"),
        (b"next![2] a", b"[next! 2 a]"),
        (b"next_a[1:2] a", b"[next_a 1 2 a]"),
        (b"next_a![1:2] a", b"[next_a! 1 2 a]"),
        (b"next_e[1:2] a", b"[next_e 1 2 a]"),
        (b"next_e![1:2] a", b"[next_e! 1 2 a]"),
        (b"next_event(b) a", b"[next_event b a]"),
        (b"next_event(b)[2] a", b"[next_event b 2 a]"),
        (b"next_event!(b) a", b"[next_event! b a]"),
        (b"next_event!(b)[2] a", b"[next_event! b 2 a]"),
        (b"next_event_a(b)[1:2] a", b"[next_event_a b 1 2 a]"),
        (b"next_event_a!(b)[1:2] a", b"[next_event_a! b 1 2 a]"),
        (b"next_event_e(b)[1:2] a", b"[next_event_e b 1 2 a]"),
        (b"next_event_e!(b)[1:2] a", b"[next_event_e! b 1 2 a]"),
        (b"eventually! a", b"[eventually! a]"),
        (b"next next a", b"[next [next a]]"),
        (b"next a until b", b"[until [next a] b]"),
        (b"a until next b", b"[until a [next b]]"),
        (b"eventually! a until b", b"[until [eventually! a] b]"),
        (b"next a abort b", b"[next [abort a b]]"),
        (b"next (a -> b)", b"[next [-> a b]]"),
        (b"a -> next b", b"[-> a [next b]]"),
    ] {
        assert!(rt; prop_gives(rt.alloc(), text, tree), "{text:?}");
    }
}

#[test]
fn what_is_no_property_is_refused(rt: HostRuntime) {
    for (text, token) in [
        (b"a b".as_slice(), 17),
        (b"a until b until c", 19),
        (b"a <-> b <-> c", 19),
        (b"a <-> b -> c", 19),
        (b"a |-> b", 17),
        (b"({a}) |-> b", 21),
        (b"{a}! |-> b", 20),
        (b"p + 1", 17),
        (b"{a} + 1", 19),
        (b"a ? p : b", 18),
        (b"a ? b", 19),
        (b"always", 17),
        (b"a -> always b", 18),
        (b"{a} |-> always b", 20),
        (b"next always a", 17),
        (b"a + next b", 18),
        (b"next_a a", 17),
        (b"next_event a", 17),
        (b"next_event(p) a", 18),
        (b"next_event({a}) b", 18),
        (b"next[b] a", 18),
        (b"(always a", 19),
        (b"a abort p", 18),
        (b"a)", 17),
    ] {
        assert!(rt; stops_at(rt.alloc(), text, token), "{text:?}");
    }
}
