//! Units at the limits.

use crate::runs::{is_compiled, is_refused};
use itoa::Buffer;
use mbac_top::Cause;
use psl_model::Refusal;
use std::alloc::{AllocError, Global};
use std::test::Fail;

/// A front, a part many times and an end.
fn repeated(
    alloc: Global,
    front: &[u8],
    part: &[u8],
    count: usize,
    end: &[u8],
) -> Result<Vec<u8>, AllocError> {
    let mut text = Vec::from_slice(alloc, front)?;
    for _ in 0..count {
        text.extend_from_slice(part)?;
    }
    text.extend_from_slice(end)?;
    Ok(text)
}

#[test]
fn a_text_has_1_048_576_bytes_at_most(rt: HostRuntime) -> Result<(), Fail> {
    let alloc = rt.alloc();
    let longer = vec![in alloc; b' '; 1_048_577]?;
    let cause = Cause::InputTooLong { slot: 0 };
    assert!(rt; is_refused(alloc, &longer, &cause, b"mbac: InputTooLong 0\n"));
    let longest = vec![in alloc; b' '; 1_048_576]?;
    let cause = Cause::Refused(Refusal::Syntax { offset: 1_048_576 });
    assert!(rt; is_refused(alloc, &longest, &cause, b"mbac: Syntax 1048576\n"));
    Ok(())
}

#[test]
fn a_name_has_255_letters_at_most(rt: HostRuntime) -> Result<(), Fail> {
    let alloc = rt.alloc();
    let longer = repeated(alloc, b"vunit ", b"n", 256, b"")?;
    let cause = Cause::Refused(Refusal::NameTooLong { offset: 6 });
    assert!(rt; is_refused(alloc, &longer, &cause, b"mbac: NameTooLong 6\n"));
    let longest = repeated(alloc, b"vunit ", b"n", 255, b" { }")?;
    assert!(rt; is_compiled(alloc, &longest));
    Ok(())
}

// An assertion in so many parentheses.
fn nested(alloc: Global, count: usize) -> Result<Vec<u8>, AllocError> {
    let front = repeated(alloc, b"vunit u { assert ", b"(", count, b"a")?;
    repeated(alloc, &front, b")", count, b"; }")
}

#[test]
fn a_token_stands_in_64_phrases_at_most(rt: HostRuntime) -> Result<(), Fail> {
    let alloc = rt.alloc();
    let deeper = nested(alloc, 65)?;
    let cause = Cause::Refused(Refusal::TooDeep { offset: 82 });
    assert!(rt; is_refused(alloc, &deeper, &cause, b"mbac: TooDeep 82\n"));
    let deepest = nested(alloc, 64)?;
    assert!(rt; is_compiled(alloc, &deepest));
    Ok(())
}

#[test]
fn a_unit_has_256_directives_at_most(rt: HostRuntime) -> Result<(), Fail> {
    let alloc = rt.alloc();
    let more = repeated(alloc, b"vunit u {", b" assert a;", 257, b" }")?;
    let cause = Cause::Refused(Refusal::TooManyDirectives { offset: 2570 });
    assert!(rt; is_refused(alloc, &more, &cause, b"mbac: TooManyDirectives 2570\n"));
    let most = repeated(alloc, b"vunit u {", b" assert a;", 256, b" }")?;
    assert!(rt; is_compiled(alloc, &most));
    Ok(())
}

// A unit that declares so many signals.
fn declared(alloc: Global, count: u32) -> Result<Vec<u8>, AllocError> {
    let mut text = Vec::from_slice(alloc, b"vunit u { wire s0")?;
    for number in 1..count {
        text.extend_from_slice(b",s")?;
        text.extend_from_slice(Buffer::new().format(number).as_bytes())?;
    }
    text.extend_from_slice(b"; }")?;
    Ok(text)
}

#[test]
fn a_unit_has_1_024_signals_at_most(rt: HostRuntime) -> Result<(), Fail> {
    let alloc = rt.alloc();
    let more = declared(alloc, 1025)?;
    let cause = Cause::Refused(Refusal::TooManySignals { offset: 5049 });
    assert!(rt; is_refused(alloc, &more, &cause, b"mbac: TooManySignals 5049\n"));
    let most = declared(alloc, 1024)?;
    assert!(rt; is_compiled(alloc, &most));
    Ok(())
}

// A sequence of 300 parts, and one that begins with it and has so many parts more.
fn tall(alloc: Global, more: usize) -> Result<Vec<u8>, AllocError> {
    let front = repeated(
        alloc,
        b"vunit u { sequence s = {a",
        b";a",
        299,
        b"}; sequence t = {s",
    )?;
    repeated(alloc, &front, b";a", more, b"}; assert t; }")
}

#[test]
fn a_directive_is_512_deep_at_most(rt: HostRuntime) -> Result<(), Fail> {
    let alloc = rt.alloc();
    let taller = tall(alloc, 213)?;
    let cause = Cause::Refused(Refusal::TooTall {
        directive: 1,
        depth: 513,
    });
    assert!(rt; is_refused(alloc, &taller, &cause, b"mbac: TooTall 1 513\n"));
    let tallest = tall(alloc, 212)?;
    let cause = Cause::Refused(Refusal::Unbuilt);
    assert!(rt; is_refused(alloc, &tallest, &cause, b"mbac: Unbuilt\n"));
    Ok(())
}

// A sequence of two letters that is doubled 15 times.
fn doubled(alloc: Global) -> Result<Vec<u8>, AllocError> {
    let mut text = Vec::from_slice(alloc, b"vunit u { sequence s0 = {a;a};")?;
    for number in 1u32..16 {
        let before = number - 1;
        let item = format!(in alloc; " sequence s{number} = {{s{before};s{before}}};")?;
        text.extend_from_slice(item.as_bytes())?;
    }
    text.extend_from_slice(b" assert s15; }")?;
    Ok(text)
}

#[test]
fn directives_have_65_536_nodes_at_most(rt: HostRuntime) -> Result<(), Fail> {
    let alloc = rt.alloc();
    let unit = doubled(alloc)?;
    let cause = Cause::Refused(Refusal::TooLarge {
        directive: 1,
        nodes: 131_071,
    });
    assert!(rt; is_refused(alloc, &unit, &cause, b"mbac: TooLarge 1 131071\n"));
    Ok(())
}
