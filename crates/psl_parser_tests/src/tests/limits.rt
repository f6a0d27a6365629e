//! How many phrases may be open, and how many tokens an item may have.

use super::{depth_of, fault_of};
use psl_parser::ParseError;
use std::alloc::{AllocError, Global};
use std::test::Fail;

// A unit of one item: its first bytes, a piece again and again, the middle, another piece as often, and `; }`.
fn long(
    alloc: Global,
    first: &[u8],
    opens: &[u8],
    count: usize,
    middle: &[u8],
    closes: &[u8],
) -> Result<Vec<u8>, AllocError> {
    let mut text = b"vunit u { ".to_vec(alloc)?;
    text.extend_from_slice(first)?;
    for _ in 0..count {
        text.extend_from_slice(opens)?;
    }
    text.extend_from_slice(middle)?;
    for _ in 0..count {
        text.extend_from_slice(closes)?;
    }
    text.extend_from_slice(b"; }")?;
    Ok(text)
}

// Whether the parser and the tokens alone tell of a text that this token is the first too deep, or that it is a unit.
fn tells(alloc: Global, text: &[u8], want: Option<u32>) -> bool {
    let fault = match want {
        None => None,
        Some(token) => Some(ParseError::TooDeep { token }),
    };
    depth_of(alloc, text) == want && fault_of(alloc, text) == fault
}

// Whether this is told of a unit whose assertion opens a phrase so often.
fn deep(alloc: Global, opens: &[u8], count: usize, closes: &[u8], want: Option<u32>) -> bool {
    match long(alloc, b"assert ", opens, count, b"a", closes) {
        Ok(text) => tells(alloc, &text, want),
        Err(_) => false,
    }
}

#[test]
fn a_token_stands_in_64_open_phrases_at_most(rt: HostRuntime) {
    for (opens, closes, most, more, token) in [
        (b"(".as_slice(), b")".as_slice(), 64, 65, 69),
        (b"{", b"}", 64, 65, 69),
        (b"!", b"", 64, 65, 69),
        (b"~ ", b"", 64, 65, 69),
        (b"& ", b"", 64, 65, 69),
        (b"| ", b"", 64, 65, 69),
        (b"^ ", b"", 64, 65, 69),
        (b"always ", b"", 64, 65, 69),
        (b"never ", b"", 64, 65, 69),
        (b"eventually! ", b"", 64, 65, 69),
        (b"next ", b"", 64, 65, 69),
        (b"next![2] ", b"", 64, 65, 264),
        (b"next_a[1:2] ", b"", 64, 65, 394),
        (b"next_e![1:2] ", b"", 64, 65, 394),
        (b"next_event(b) ", b"", 64, 65, 262),
        (b"next_event!(b)[2] ", b"", 64, 65, 454),
        (b"next_event_a(b)[1:2] ", b"", 64, 65, 582),
        (b"next_event_e!(b)[1:2] ", b"", 64, 65, 582),
        (b"a ? b : ", b"", 64, 65, 262),
        (b"a ? ", b" : b", 64, 65, 134),
        (b"a -> ", b"", 64, 65, 134),
        (b"{a} |-> ", b"", 64, 65, 261),
        (b"{a} |=> ", b"", 64, 65, 261),
        (b"!(", b")", 32, 33, 69),
        (b"(always (next ", b"))", 16, 17, 69),
        (b"(b -> next[1] ! ", b")", 16, 17, 133),
    ] {
        assert!(rt; deep(rt.alloc(), opens, most, closes, None), "{opens:?}");
        assert!(rt;
            deep(rt.alloc(), opens, more, closes, Some(token)),
            "{opens:?}"
        );
    }
}

// Whether no token is too deep of a unit that begins with the first bytes, has a piece 70 times, and ends with the
// last.
fn flat(alloc: Global, first: &[u8], piece: &[u8], last: &[u8]) -> bool {
    match long(alloc, first, piece, 70, last, b"") {
        Ok(text) => tells(alloc, &text, None),
        Err(_) => false,
    }
}

#[test]
fn phrases_end_where_no_more_is_joined_to_them(rt: HostRuntime) {
    for (first, piece, last) in [
        (b"assert ".as_slice(), b"!a && ".as_slice(), b"a".as_slice()),
        (b"assert ", b"!{a}! && ", b"a"),
        (b"assert ", b"!{a}[*2] || ", b"a"),
        (b"assert ", b"(a ? b : c) + ", b"a"),
        (b"assert ", b"& a ^ | b[3:0] & ~ c == ", b"a"),
        (b"assert ", b"(next_event(b)[2] & a) && ", b"a"),
        (b"assert ", b"(next[2] | a) && ", b"a"),
        (b"assert ", b"(next_a[1:2] ! a) && ", b"a"),
        (b"assert ", b"(next_event_e(b)[1:2] ^ a) && ", b"a"),
        (b"assert ", b"(next a until !b) && ", b"a"),
        (b"assert ", b"(next a -> b) && ", b"a"),
        (b"assert ", b"({a} |-> b <-> c) && ", b"a"),
        (b"assert {", b"a ? b : c : ", b"a}"),
        (b"assert {", b"a ? b : c ; ", b"a}"),
        (b"assert {", b"!a ; ", b"a}"),
        (b"assert {", b"!a : ", b"a}"),
        (b"assert {", b"a ? b : c & {d} & ", b"a}"),
        (b"assert {", b"a ? b : c[*2] | ", b"a}"),
        (b"assert {", b"!a[->2] within ", b"a}"),
        (b"assert ", b"a abort !b abort ", b"a abort a"),
        (b"", b"L: assert always !a report \"t\"; ", b"assert a"),
        (b"", b"default clock = (posedge c); ", b"assert a"),
        (b"", b"sequence s = {a ; !a[=1]}; ", b"assert a"),
    ] {
        assert!(rt; flat(rt.alloc(), first, piece, last), "{first:?} {piece:?}");
    }
}

#[test]
fn a_choice_ends_before_a_name_of_a_sequence(rt: HostRuntime) -> Result<(), Fail> {
    let alloc = rt.alloc();
    let declared = b"sequence s = {a}; assert {";
    let text = long(alloc, declared, b"a ? b : ", 63, b"c & s & !d}", b"")?;
    assert!(rt; tells(alloc, &text, None));
    let text = long(alloc, b"assert {", b"a ? b : ", 63, b"c & s & !d}", b"")?;
    assert!(rt; tells(alloc, &text, Some(262)));
    Ok(())
}

#[test]
fn the_earlier_fault_is_told(rt: HostRuntime) -> Result<(), Fail> {
    let alloc = rt.alloc();
    let text = long(alloc, b"assert a b; assert ", b"(", 65, b"a", b")")?;
    let fault = ParseError::Syntax { token: 5 };
    assert_eq!(rt; fault_of(alloc, &text), Some(fault));
    let text = long(alloc, b"assert a", b" + a", 1100, b" b", b"")?;
    let fault = ParseError::TooDeep { token: 2051 };
    assert_eq!(rt; fault_of(alloc, &text), Some(fault));
    let text = long(alloc, b"assert a b", b" + a", 1100, b"", b"")?;
    let fault = ParseError::Syntax { token: 5 };
    assert_eq!(rt; fault_of(alloc, &text), Some(fault));
    Ok(())
}

#[test]
fn where_no_phrase_begins_depth_is_no_fault(rt: HostRuntime) -> Result<(), Fail> {
    let fault = ParseError::Syntax { token: 69 };
    for middle in [b"".as_slice(), b")", b"+ a"] {
        let text = long(rt.alloc(), b"assert ", b"(", 65, middle, b"")?;
        assert_eq!(rt; fault_of(rt.alloc(), &text), Some(fault), "{middle:?}");
    }
    Ok(())
}

#[test]
fn an_item_has_2048_tokens_at_most(rt: HostRuntime) -> Result<(), Fail> {
    let alloc = rt.alloc();
    let text = long(alloc, b"assert !a", b" + a", 1022, b"", b"")?;
    assert!(rt; tells(alloc, &text, None));
    let text = long(alloc, b"assert a", b" + a", 1023, b"", b"")?;
    assert!(rt; tells(alloc, &text, Some(2051)));
    let text = long(alloc, b"assert {a", b";a", 1022, b"}", b"")?;
    assert!(rt; tells(alloc, &text, Some(2051)));
    let text = long(alloc, b"wire a", b", a", 1500, b"", b"")?;
    assert!(rt; tells(alloc, &text, None));
    Ok(())
}
