//! Sequences, in braces and outside.

use super::{prop_gives, stops_at};
use std::test::Fail;

#[test]
fn sequences_join_by_their_levels(rt: HostRuntime) {
    for (text, tree) in [
        (b"{a}".as_slice(), b"[a]".as_slice()),
        (b"{a}!", b"[a !]"),
        (b"({a})", b"[a]"),
        (b"!{a}", b"[! [a]]"),
        (b"s", b"[{s}]"),
        (b"s!", b"[{s} !]"),
        (b"s[*2]", b"[{[* {s} 2}]"),
        (b"{a;b;c}", b"[{; {; a b} c}]"),
        (b"{a:b;c}", b"[{; {: a b} c}]"),
        (b"{a;b:c}", b"[{; a {: b c}}]"),
        (b"{a:b:c}", b"[{: {: a b} c}]"),
        (b"{{a}|{b}:{c}}", b"[{: {| a b} c}]"),
        (b"{{a}:{b}|{c}}", b"[{: a {| b c}}]"),
        (b"{{a}|{b}|{c}}", b"[{| {| a b} c}]"),
        (b"{{a}&{b}|{c}}", b"[{| {& a b} c}]"),
        (b"{{a}|{b}&&{c}}", b"[{| a {&& b c}}]"),
        (b"{{a}&{b}&&{c}}", b"[{&& {& a b} c}]"),
        (b"{{a} within {b} & {c}}", b"[{& {within a b} c}]"),
        (b"{{a}&{b} within {c}}", b"[{& a {within b c}}]"),
        (b"{a within b within c}", b"[{within {within a b} c}]"),
        (b"{a[*2] within {b}[+]}", b"[{within {[* a 2} {[+] b}}]"),
        (b"{a within b[*2]}", b"[{within a {[* b 2}}]"),
        (b"{a && b[*2]}", b"[{[* (&& a b) 2}]"),
        (b"{a && {b}}", b"[{&& a b}]"),
        (b"{a && [*2]}", b"[{&& a {[* 2}}]"),
        (b"{a | s}", b"[{| a {s}}]"),
        (b"{a | b}", b"[(| a b)]"),
        (b"{(a | b) & c}", b"[(& (| a b) c)]"),
        (b"{a ? b : c : d}", b"[{: (? a b c) d}]"),
        (b"a && b[*2]", b"[{[* (&& a b) 2}]"),
        (b"{a} && {b}", b"[&& [a] [b]]"),
    ] {
        assert!(rt; prop_gives(rt.alloc(), text, tree), "{text:?}");
    }
}

#[test]
fn repetitions_stand_behind_what_they_repeat(rt: HostRuntime) {
    for (text, tree) in [
        (b"{a[*]}".as_slice(), b"[{[* a}]".as_slice()),
        (b"{a[*2]}", b"[{[* a 2}]"),
        (b"{a[*2:3]}", b"[{[* a 2 3}]"),
        (b"{a[*2:inf]}", b"[{[* a 2 inf}]"),
        (b"{a[+]}", b"[{[+] a}]"),
        (b"{a[->]}", b"[{[-> a}]"),
        (b"{a[->2]}", b"[{[-> a 2}]"),
        (b"{a[->2:3]}", b"[{[-> a 2 3}]"),
        (b"{a[->2:inf]}", b"[{[-> a 2 inf}]"),
        (b"{a[=1]}", b"[{[= a 1}]"),
        (b"{a[=1:3]}", b"[{[= a 1 3}]"),
        (b"{a[=1:inf]}", b"[{[= a 1 inf}]"),
        (b"{a[->][*2]}", b"[{[* {[-> a} 2}]"),
        (b"{a[*2][+]}", b"[{[+] {[* a 2}}]"),
        (b"{{a}[*2]}", b"[{[* a 2}]"),
        (b"{[*]}", b"[{[*}]"),
        (b"{[*2]}", b"[{[* 2}]"),
        (b"{[*2:3]}", b"[{[* 2 3}]"),
        (b"{[*2:inf]}", b"[{[* 2 inf}]"),
        (b"[+]", b"[{[+]}]"),
        (b"[*2]!", b"[{[* 2} !]"),
        (b"a[*2]!", b"[{[* a 2} !]"),
        (b"a[->]", b"[{[-> a}]"),
        (b"a[=1]", b"[{[= a 1}]"),
        (b"{a[3][*2]}", b"[{[* a[3] 2}]"),
    ] {
        assert!(rt; prop_gives(rt.alloc(), text, tree), "{text:?}");
    }
}

#[test]
fn what_is_no_sequence_is_refused(rt: HostRuntime) {
    for (text, token) in [
        (b"{a | p}".as_slice(), 19),
        (b"{a[*2][->]}", 21),
        (b"{a[*2][=1]}", 21),
        (b"{{a}[->]}", 20),
        (b"{{a}[=1]}", 20),
        (b"{}", 17),
        (b"{a;}", 19),
        (b"{a[*2:]}", 21),
        (b"{a within}", 19),
        (b"{always a}", 17),
        (b"{a", 19),
    ] {
        assert!(rt; stops_at(rt.alloc(), text, token), "{text:?}");
    }
}
