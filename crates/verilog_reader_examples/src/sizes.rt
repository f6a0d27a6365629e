//! Widths, reports and parentheses up to their limits.

use crate::checker::{changed, is_read_back, refused_at};
use itoa::Buffer;
use std::alloc::{AllocError, Global};
use std::test::Fail;

fn put_number(number: u64, out: &mut Vec<u8>) -> Result<(), AllocError> {
    out.extend_from_slice(Buffer::new().format(number).as_bytes())
}

/// A range of so many bits, at least one.
fn put_range(width: u64, out: &mut Vec<u8>) -> Result<(), AllocError> {
    if width <= 1 {
        return Ok(());
    }
    out.extend_from_slice(b"[")?;
    put_number(width - 1, out)?;
    out.extend_from_slice(b":0] ")
}

/// A module with a port, a register and a wire of this width, and a register's value after reset.
fn wide(alloc: Global, width: u64, initial: u64) -> Result<Vec<u8>, AllocError> {
    let mut text = Vec::new(alloc);
    text.extend_from_slice(b"module mbac_wide (mbac_clk, mbac_rst, mbac_eot, a, mbac_fail);\n")?;
    text.extend_from_slice(b"  input mbac_clk;\n  input mbac_rst;\n  input mbac_eot;\n  input ")?;
    put_range(width, &mut text)?;
    text.extend_from_slice(b"a;\n  output mbac_fail;\n  reg ")?;
    put_range(width, &mut text)?;
    text.extend_from_slice(b"mbac_r0;\n  wire ")?;
    put_range(width, &mut text)?;
    text.extend_from_slice(b"mbac_n0 = (a - mbac_r0);\n  assign mbac_fail = mbac_n0;\n")?;
    text.extend_from_slice(b"  always @(posedge mbac_clk) mbac_r0 <= (mbac_rst ? ")?;
    put_number(width, &mut text)?;
    text.extend_from_slice(b"'d")?;
    put_number(initial, &mut text)?;
    text.extend_from_slice(b" : a);\nendmodule\n")?;
    Ok(text)
}

/// The checker with a report of so many bytes.
fn reported(alloc: Global, count: usize) -> Result<Vec<u8>, AllocError> {
    let mut lines = Vec::from_slice(alloc, b"  // ")?;
    for _ in 0..count {
        lines.push(b'x')?;
    }
    lines.extend_from_slice(b"\n  input mbac_clk;\n")?;
    changed(alloc, 2, &lines)
}

/// The checker with a wire in which so many parentheses are open.
fn nested(alloc: Global, count: usize) -> Result<Vec<u8>, AllocError> {
    let mut wire = Vec::from_slice(alloc, b"  wire mbac_n0 = ")?;
    for _ in 0..count {
        wire.extend_from_slice(b"(!")?;
    }
    wire.extend_from_slice(b"a")?;
    for _ in 0..count {
        wire.extend_from_slice(b")")?;
    }
    wire.extend_from_slice(b";\n")?;
    changed(alloc, 8, &wire)
}

/// The checker with a name of so many bytes in its header.
fn named(alloc: Global, count: usize) -> Result<Vec<u8>, AllocError> {
    let mut name = Vec::new(alloc);
    for _ in 0..count {
        name.push(b'x')?;
    }
    let mut header = Vec::from_slice(alloc, b"module mbac_u_1 (mbac_clk, mbac_rst, mbac_eot, ")?;
    header.extend_from_slice(&name)?;
    header.extend_from_slice(b", mbac_fail);\n")?;
    changed(alloc, 1, &header)
}

#[test]
fn widths_go_from_1_to_64(rt: HostRuntime) -> Result<(), Fail> {
    let mut most = 0u64;
    for width in 1..65u64 {
        most = u64::MAX >> (64 - width);
        let text = wide(rt.alloc(), width, most)?;
        assert!(rt; is_read_back(rt.alloc(), &text, 1), "{width}");
    }
    let text = wide(rt.alloc(), 65, most)?;
    assert_eq!(rt; refused_at(rt.alloc(), &text), Some(5));
    Ok(())
}

#[test]
fn a_value_after_reset_fits_its_register(rt: HostRuntime) -> Result<(), Fail> {
    for width in 1..64u64 {
        let text = wide(rt.alloc(), width, 1u64 << width)?;
        assert_eq!(rt; refused_at(rt.alloc(), &text), Some(10), "{width}");
    }
    Ok(())
}

#[test]
fn reports_and_names_have_255_bytes_at_most(rt: HostRuntime) -> Result<(), Fail> {
    let text = reported(rt.alloc(), 255)?;
    assert!(rt; is_read_back(rt.alloc(), &text, 1));
    let text = reported(rt.alloc(), 256)?;
    assert_eq!(rt; refused_at(rt.alloc(), &text), Some(2));
    let text = named(rt.alloc(), 255)?;
    assert_eq!(rt; refused_at(rt.alloc(), &text), Some(5));
    let text = named(rt.alloc(), 256)?;
    assert_eq!(rt; refused_at(rt.alloc(), &text), Some(1));
    Ok(())
}

#[test]
fn at_most_520_parentheses_are_open(rt: HostRuntime) -> Result<(), Fail> {
    let text = nested(rt.alloc(), 520)?;
    assert!(rt; is_read_back(rt.alloc(), &text, 1));
    let text = nested(rt.alloc(), 521)?;
    assert_eq!(rt; refused_at(rt.alloc(), &text), Some(8));
    Ok(())
}
