//! Items and units.

use super::{fault_of, joined, unit_gives};
use psl_lexer::{Token, tokens};
use psl_parser::ParseError;
use std::alloc::Global;
use std::test::Fail;

#[test]
fn units_have_their_items(rt: HostRuntime) {
    for (text, tree) in [
        (b"vunit u { }".as_slice(), b"u:".as_slice()),
        (b"vunit u (m) { assert a; }", b"u: assert a;"),
        (
            b"vunit u { default clock = posedge c; default clock = (posedge d); }",
            b"u: clock c; clock d;",
        ),
        (
            b"vunit u { wire [3:0] x, y; wire z; }",
            b"u: wire 3:0 x y; wire z;",
        ),
        (
            b"vunit u { L: assert a report \"t\"; assert b report \"\"; }",
            b"u: L: assert a report \"t\"; assert b report \"\";",
        ),
        (
            b"vunit u { sequence t = a[*2]; property q = never t; assert q; }",
            b"u: sequence t = {[* a 2}; property q = [never [{t}]]; assert <q>;",
        ),
        (
            b"vunit u { assert s; sequence s = {a}; assert s; }",
            b"u: assert s; sequence s = a; assert [{s}];",
        ),
        (
            b"vunit u { assert p; property p = a; assert p; }",
            b"u: assert p; property p = a; assert <p>;",
        ),
        (
            b"vunit u { sequence s = {s}; property s = s; assert s; }",
            b"u: sequence s = s; property s = [{s}]; assert <s>;",
        ),
        (b"vunit s { s: assert s; }", b"s: s: assert s;"),
    ] {
        assert!(rt; unit_gives(rt.alloc(), text, Ok(tree)), "{text:?}");
    }
}

#[test]
fn what_is_no_unit_is_refused(rt: HostRuntime) {
    for (text, token) in [
        (b"".as_slice(), 0),
        (b"unit", 0),
        (b"vunit {", 1),
        (b"vunit u (m { }", 4),
        (b"vunit u { a }", 4),
        (b"vunit u { wire [3] x; }", 6),
        (b"vunit u { wire x,; }", 6),
        (b"vunit u { sequence s = a; }", 7),
        (b"vunit u { default clock = c; }", 6),
        (b"vunit u { assert a report; }", 6),
        (b"vunit u { ; }", 3),
        (b"vunit u { } assert a;", 4),
        (b"vunit u { assert a; } }", 7),
    ] {
        let fault = ParseError::Syntax { token };
        assert!(rt; unit_gives(rt.alloc(), text, Err(fault)), "{text:?}");
    }
}

// Whether the parser stops at the end of the text where it is cut off before any of its tokens.
fn stops_at_each_end(alloc: Global, text: &[u8], found: &[Token]) -> bool {
    let mut number = 0;
    for token in found {
        let start = token.start as usize;
        if text.len() < start || number == u32::MAX {
            return false;
        }
        if fault_of(alloc, &text[0..start]) != Some(ParseError::Syntax { token: number }) {
            return false;
        }
        number += 1;
    }
    true
}

// Whether a text is a unit, and the parser stops at the end of it wherever it is cut off before a token.
fn is_unit_as_a_whole(alloc: Global, text: &[u8]) -> bool {
    if text.len() > 1_048_576 {
        return false;
    }
    match tokens(alloc, text) {
        Err(_) => false,
        Ok(found) => stops_at_each_end(alloc, text, &found) && fault_of(alloc, text).is_none(),
    }
}

#[test]
fn a_unit_that_is_cut_off_is_refused_at_its_end(rt: HostRuntime) -> Result<(), Fail> {
    let text = joined(
        rt.alloc(),
        b"vunit u (m) { default clock = (posedge c); wire [3:0] x, y; sequence s = {a;x[3]==1[*2:inf]};",
        b" property p = never {s|a}; L: assert always (a -> next_event(b)[2] !p until! y[3:0] ? c : d",
        b" abort b) report \"t\"; }",
    )?;
    assert!(rt; is_unit_as_a_whole(rt.alloc(), &text));
    Ok(())
}

#[test]
fn a_unit_of_many_items_is_refused_at_its_end(rt: HostRuntime) -> Result<(), Fail> {
    let mut text = b"// blocks of words on a line\nvunit line (dut) {".to_vec(rt.alloc())?;
    for item in [
        b" default clock = (posedge ck); wire [7:0] place; wire [3:0] left;".as_slice(),
        b" sequence block = {begun; word[*4]; final};",
        b" property quiet = always (used -> !free);",
        b" slow: assert always (ask -> next_e![1:16](given)) report \"slow answer\";",
        b" hold: assert always ((ask && !given) -> next ask);",
        b" assert always ({block} |=> next_e[0:3](ready));",
        b" assert never {given; given; !ask};",
        b" assert always ({begun} |=> {word[*1:4]; final});",
        b" assert always ({{word[=2]} within {begun; (!final)[*]; final}} |-> next fine);",
        b" assert always (begun -> next_event!(final)(place == 8'd0));",
        b" assert always (given -> (!wrong until ready)) abort clear;",
        b" assert always (held -> (held until_ freed));",
        b" assert always (told -> (ready before! go));",
        b" assert quiet;",
        b" assert always (left == 4'd15 -> next[2](left == 4'd0));",
        b" }",
    ] {
        text.extend_from_slice(item)?;
    }
    assert!(rt; is_unit_as_a_whole(rt.alloc(), &text));
    Ok(())
}
