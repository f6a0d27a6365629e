//! What texts are refused for, and how many checkers those have that aren't.

use psl_model::Refusal;
use std::alloc::Global;
use std::test::Fail;
use unit_compile::modules;

static REFUSED: [(&[u8], Refusal); 21] = [
    (b"", Refusal::Syntax { offset: 0 }),
    (b"vunit u { assert always", Refusal::Syntax { offset: 23 }),
    (
        b"vunit u { assert always a # b; }",
        Refusal::BadByte { offset: 26 },
    ),
    (
        b"vunit u { assert forall i; }",
        Refusal::LeftOut { offset: 17 },
    ),
    (
        b"vunit u { wire a; wire a; }",
        Refusal::DuplicateName { offset: 23 },
    ),
    (
        b"vunit u { assert {a[*3:2]}; }",
        Refusal::BadRange { offset: 23 },
    ),
    (
        b"vunit u { assert always (go -> next[1048577](a)); }",
        Refusal::CountTooLarge { offset: 36 },
    ),
    (
        b"vunit u { assert 4'd16; }",
        Refusal::BadLiteral { offset: 17 },
    ),
    (
        b"vunit u { wire [7:0] d; assert d[8]; }",
        Refusal::BadSelect { offset: 33 },
    ),
    (
        b"vunit u { wire [64:0] d; }",
        Refusal::TooWide { offset: 16 },
    ),
    (
        b"vunit u { assert 1 < 2; }",
        Refusal::ConstantArithmetic { offset: 19 },
    ),
    (b"vunit u { assert {a;b}; }", Refusal::Unbuilt),
    (
        b"vunit u { assert {{a;b}[*1025]} |-> c; }",
        Refusal::TooManyPlaces {
            directive: 1,
            sequence: 1,
            places: 4100,
        },
    ),
    (
        b"vunit u { assert {a} |-> ({b;c} |-> {{a;b}[*1025]} |-> c); }",
        Refusal::TooManyPlaces {
            directive: 1,
            sequence: 3,
            places: 4100,
        },
    ),
    (
        b"vunit u { assert a; assert next_e[1:2](a); assert b; }",
        Refusal::Unbuilt,
    ),
    (
        b"vunit u { assert a; assert a until (always b); assert {a;b}; }",
        Refusal::Subset {
            directive: 2,
            rule: 7,
        },
    ),
    (
        b"vunit u { assert (always a) || (always b); }",
        Refusal::Subset {
            directive: 1,
            rule: 4,
        },
    ),
    // Of two directives the first is told, whatever stands against it.
    (
        b"vunit u { assert {a;b}; assert !(always a); }",
        Refusal::Unbuilt,
    ),
    (
        b"vunit u { assert {a;b} ; assert 1 < 2; }",
        Refusal::ConstantArithmetic { offset: 34 },
    ),
    (
        b"vunit u { assert a; l: assert b; l: assert c; }",
        Refusal::DuplicateName { offset: 33 },
    ),
    (b"vunit u { } ;", Refusal::Syntax { offset: 12 }),
];

static ACCEPTED: [(&[u8], usize); 10] = [
    (b"vunit u { }", 0),
    (b"vunit u { assert always a; }", 1),
    (
        b"vunit u { l: assert a -> b; assert never c; assert (a || (always b)) && c; }",
        3,
    ),
    (b"vunit u { property p = always a; assert p; assert p; }", 2),
    (
        b"vunit u { assert always (a -> next! b); assert a until_ b; assert next_a[1:3](c); }",
        3,
    ),
    (b"vunit u { assert {{a;b}[*1024]} |-> c; }", 1),
    (b"vunit u { assert {a[*0:1023]} |-> b; }", 1),
    (
        b"vunit u { assert always ({a[->];b} |=> c until d); assert never {a;!b}; }",
        2,
    ),
    (
        b"vunit u { wire [3:0] cnt; assert always !(cnt + 1 == 0); }",
        1,
    ),
    (
        b"vunit u { wire [3:0] cnt; assert always !(cnt + 4'd1 == 4'd0) report \"wraps\"; }",
        1,
    ),
];

/// The most bytes of a text.
pub(crate) const LONGEST: usize = 1_048_576;

fn is_refused(alloc: Global, text: &[u8], refusal: &Refusal) -> bool {
    if text.len() > LONGEST {
        return false;
    }
    match modules(alloc, text) {
        Ok(_) => false,
        Err(found) => found == *refusal,
    }
}

fn is_accepted(alloc: Global, text: &[u8], count: usize) -> bool {
    if text.len() > LONGEST {
        return false;
    }
    match modules(alloc, text) {
        Ok(found) => found.len() == count,
        Err(_) => false,
    }
}

/// A front, a part many times and an end.
fn repeated(
    alloc: Global,
    front: &[u8],
    part: &[u8],
    count: usize,
    end: &[u8],
) -> Result<Vec<u8>, Fail> {
    let mut text = Vec::from_slice(alloc, front)?;
    for _ in 0..count {
        text.extend_from_slice(part)?;
    }
    text.extend_from_slice(end)?;
    Ok(text)
}

#[test]
fn texts_are_refused_at_their_first_fault(rt: HostRuntime) {
    for (text, refusal) in &REFUSED {
        assert!(rt; is_refused(rt.alloc(), text, refusal), "{text:?}");
    }
}

#[test]
fn units_have_a_checker_for_each_directive(rt: HostRuntime) {
    for (text, count) in &ACCEPTED {
        assert!(rt; is_accepted(rt.alloc(), text, *count), "{text:?}");
    }
}

#[test]
fn a_unit_has_256_directives_at_most(rt: HostRuntime) -> Result<(), Fail> {
    let text = repeated(rt.alloc(), b"vunit u {", b" assert a;", 257, b" }")?;
    let refusal = Refusal::TooManyDirectives { offset: 2570 };
    assert!(rt; is_refused(rt.alloc(), &text, &refusal));
    Ok(())
}

/// Sixteen `next`, one in the other, of which the front has the first, and an end.
fn nested_next(alloc: Global, front: &[u8], end: &[u8]) -> Result<Vec<u8>, Fail> {
    let mut text = repeated(alloc, front, b"next[4096](", 15, b"b")?;
    for _ in 0..16 {
        text.push(b')')?;
    }
    text.extend_from_slice(end)?;
    Ok(text)
}

#[test]
fn a_checker_has_65536_registers_at_most(rt: HostRuntime) -> Result<(), Fail> {
    let text = nested_next(rt.alloc(), b"vunit u { assert next[4095](", b"; }")?;
    assert!(rt; is_accepted(rt.alloc(), &text, 1));
    let text = nested_next(rt.alloc(), b"vunit u { assert next[4096](", b"; }")?;
    let refusal = Refusal::TooManyRegisters {
        directive: 1,
        count: 65_537,
    };
    assert!(rt; is_refused(rt.alloc(), &text, &refusal));
    Ok(())
}

/// Units of which one directive has too many registers: what stands before and behind its sixteen `next`.
static TOO_FULL: [(&[u8], &[u8], Refusal); 10] = [
    (
        b"vunit u { assert next[4096](",
        b"; assert a until (always b); }",
        Refusal::TooManyRegisters {
            directive: 1,
            count: 65_537,
        },
    ),
    (
        b"vunit u { assert a until (always b); assert next[4096](",
        b"; }",
        Refusal::Subset {
            directive: 1,
            rule: 7,
        },
    ),
    (
        b"vunit u { assert {a;b}; assert next[4096](",
        b"; }",
        Refusal::Unbuilt,
    ),
    (
        b"vunit u { assert next[4096](",
        b"; assert {a;b}; }",
        Refusal::TooManyRegisters {
            directive: 1,
            count: 65_537,
        },
    ),
    (
        b"vunit u { assert a; assert always next[4096](",
        b"; assert {a;b}; assert a until (always b); }",
        Refusal::TooManyRegisters {
            directive: 2,
            count: 65_538,
        },
    ),
    // One directive is judged by its form first.
    (
        b"vunit u { assert (always a) || (always next[4096](",
        b"); }",
        Refusal::Subset {
            directive: 1,
            rule: 4,
        },
    ),
    (
        b"vunit u { assert {a;b} |-> next[4096](",
        b"; }",
        Refusal::TooManyRegisters {
            directive: 1,
            count: 65_541,
        },
    ),
    // A sequence comes before the registers of its own directive, and behind those of an earlier one.
    (
        b"vunit u { assert {{a;b}[*1025]} |-> next[4096](",
        b"; }",
        Refusal::TooManyPlaces {
            directive: 1,
            sequence: 1,
            places: 4100,
        },
    ),
    (
        b"vunit u { assert next[4096](",
        b"; assert {{a;b}[*1025]} |-> c; }",
        Refusal::TooManyRegisters {
            directive: 1,
            count: 65_537,
        },
    ),
    // What stands against the unit as a whole comes before what stands against a directive.
    (
        b"vunit u { assert next[4096](",
        b"; assert 1 < 2; }",
        Refusal::ConstantArithmetic { offset: 221 },
    ),
];

#[test]
fn directives_are_judged_one_after_the_other(rt: HostRuntime) -> Result<(), Fail> {
    for (front, end, refusal) in &TOO_FULL {
        let text = nested_next(rt.alloc(), front, end)?;
        assert!(rt; is_refused(rt.alloc(), &text, refusal), "{text:?}");
    }
    Ok(())
}
