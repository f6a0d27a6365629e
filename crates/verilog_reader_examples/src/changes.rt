//! The checker with one line changed as a hand would.

use crate::checker::{changed, refused_at};
use std::alloc::Global;
use std::test::Fail;

// Other first lines, refused there.
static HEADERS: [&[u8]; 13] = [
    b"module u_1 (mbac_clk, mbac_rst, mbac_eot, a, mbac_fail);\n",
    b"module mbac_u-1 (mbac_clk, mbac_rst, mbac_eot, a, mbac_fail);\n",
    b"module mbac_u_1 (mbac_rst, mbac_clk, mbac_eot, a, mbac_fail);\n",
    b"module mbac_u_1 (mbac_clk, mbac_rst, mbac_eot, a, a, mbac_fail);\n",
    b"module mbac_u_1 (mbac_clk, mbac_rst, mbac_eot, reg, mbac_fail);\n",
    b"module mbac_u_1 (mbac_clk, mbac_rst, mbac_eot, until, mbac_fail);\n",
    b"module mbac_u_1 (mbac_clk, mbac_rst, mbac_eot, mutable, mbac_fail);\n",
    b"module mbac_u_1 (mbac_clk, mbac_rst, mbac_eot, mbac_a, mbac_fail);\n",
    b"module mbac_u_1 (mbac_clk, mbac_rst, mbac_eot, 1a, mbac_fail);\n",
    b"module mbac_u_1 (mbac_clk, mbac_rst, mbac_eot, $a, mbac_fail);\n",
    b"module mbac_u_1 (mbac_clk, mbac_rst, mbac_eot, , mbac_fail);\n",
    b"module mbac_u_1 (mbac_clk, mbac_rst, mbac_eot, a, mbac_fail);\r\n",
    b"// a checker\nmodule mbac_u_1 (mbac_clk, mbac_rst, mbac_eot, a, mbac_fail);\n",
];

// A report before the second line.
static REPORTS_TAKEN: [&[u8]; 2] = [
    b"  // a\n  input mbac_clk;\n",
    b"  // a[*2] & ~b\n  input mbac_clk;\n",
];

// Other second lines, refused there.
static REPORTS: [&[u8]; 5] = [
    b"  //\n  input mbac_clk;\n",
    b"  // \n  input mbac_clk;\n",
    b"  // \"a\"\n  input mbac_clk;\n",
    b"  // a\tb\n  input mbac_clk;\n",
    b"\tinput mbac_clk;\n",
];

// Other declarations of the port.
static PORTS: [&[u8]; 8] = [
    b"  input [0:0] a;\n",
    b"  input [07:0] a;\n",
    b"  input [7:1] a;\n",
    b"  input [7:0]a;\n",
    b"  input [64:0] a;\n",
    b"  input [18446744073709551616:0] a;\n",
    b"  input [1:0] b;\n",
    b"  input a, b;\n",
];

// Other declarations of the output.
static OUTPUTS: [&[u8]; 3] = [
    b"  output [1:0] mbac_fail;\n",
    b"  output reg mbac_fail;\n",
    b"  output mbac_fail\n",
];

// Other declarations of the register.
static REGISTERS: [&[u8]; 4] = [
    b"  reg mbac_r1;\n",
    b"  reg mbac_r00;\n",
    b"  reg [0:0] mbac_r0;\n",
    b"  reg mbac_r0 = 1'd1;\n",
];

// Other first wires that are refused.
static WIRES: [&[u8]; 37] = [
    b"  wire mbac_n0 = (|b);\n",
    b"  wire mbac_n0 = (|mbac_n1);\n",
    b"  wire mbac_n0 = mbac_n0;\n",
    b"  wire mbac_n0 = mbac_clk;\n",
    b"  wire mbac_n0 = mbac_fail;\n",
    b"  wire mbac_n0 = mbac_r1;\n",
    b"  wire [64:0] mbac_n0 = a;\n",
    b"  wire [0:0] mbac_n0 = a;\n",
    b"  wire mbac_n1 = (|a);\n",
    b"  wire mbac_n0 = |a;\n",
    b"  wire mbac_n0 = (a);\n",
    b"  wire mbac_n0 = (|a));\n",
    b"  wire mbac_n0 = ((|a);\n",
    b"  wire mbac_n0 = (-a);\n",
    b"  wire mbac_n0 = (~&a);\n",
    b"  wire mbac_n0 = (a&a);\n",
    b"  wire mbac_n0 = (a & a & a);\n",
    b"  wire mbac_n0 = (a * a);\n",
    b"  wire mbac_n0 = (a >>> a);\n",
    b"  wire mbac_n0 = (a === a);\n",
    b"  wire mbac_n0 = (a ? a: a);\n",
    b"  wire mbac_n0 = (a ? a);\n",
    b"  wire mbac_n0 = a[0];\n",
    b"  wire mbac_n0 = a[0:0];\n",
    b"  wire mbac_n0 = 4294967296;\n",
    b"  wire mbac_n0 = 01;\n",
    b"  wire mbac_n0 = 1_0;\n",
    b"  wire mbac_n0 = +1;\n",
    b"  wire mbac_n0 = 1'd2;\n",
    b"  wire mbac_n0 = 1'd01;\n",
    b"  wire mbac_n0 = 01'd1;\n",
    b"  wire mbac_n0 = 1'b1;\n",
    b"  wire mbac_n0 = 0'd0;\n",
    b"  wire mbac_n0 = 64'd18446744073709551616;\n",
    b"  wire mbac_n0 = 65'd0;\n",
    b"  wire mbac_n0 = (1 + 1);\n",
    b"  wire mbac_n0 = (1 < (2 << a));\n",
];

// Other first wires that are taken.
static WIRES_TAKEN: [&[u8]; 11] = [
    b"  wire mbac_n0 = mbac_r0;\n",
    b"  wire mbac_n0 = (mbac_rst & mbac_eot);\n",
    b"  wire [63:0] mbac_n0 = a;\n",
    b"  wire mbac_n0 = (a & a);\n",
    b"  wire mbac_n0 = (a ? a : a);\n",
    b"  wire mbac_n0 = 4294967295;\n",
    b"  wire mbac_n0 = 1'd1;\n",
    b"  wire mbac_n0 = 64'd18446744073709551615;\n",
    b"  wire mbac_n0 = (1 + 1'd1);\n",
    b"  wire mbac_n0 = (1 == 1);\n",
    b"  wire mbac_n0 = (~1);\n",
];

// A port of eight bits, and a wire in the seventh line. It is taken, and so the line behind it is refused.
static SELECTS_TAKEN: [&[u8]; 3] = [
    b"  input [7:0] a;\n  output mbac_fail;\n  wire mbac_n0 = a[7];\n",
    b"  input [7:0] a;\n  output mbac_fail;\n  wire mbac_n0 = a[7:0];\n",
    b"  input [7:0] a;\n  output mbac_fail;\n  wire mbac_n0 = a[3:3];\n",
];

// Here the wire is refused.
static SELECTS: [&[u8]; 6] = [
    b"  input [7:0] a;\n  output mbac_fail;\n  wire mbac_n0 = a[8];\n",
    b"  input [7:0] a;\n  output mbac_fail;\n  wire mbac_n0 = a[00];\n",
    b"  input [7:0] a;\n  output mbac_fail;\n  wire mbac_n0 = a[2:3];\n",
    b"  input [7:0] a;\n  output mbac_fail;\n  wire mbac_n0 = a[8:3];\n",
    b"  input [7:0] a;\n  output mbac_fail;\n  wire mbac_n0 = a[a];\n",
    b"  input [7:0] a;\n  output mbac_fail;\n  wire mbac_n0 = a [7];\n",
];

// Other right sides of the output.
static OUTPUT_VALUES: [&[u8]; 4] = [
    b"  assign mbac_fail = mbac_n2;\n",
    b"  assign mbac_fail = mbac_n01;\n",
    b"  assign mbac_fail = mbac_n1;;\n",
    b"  assign a = mbac_n1;\n",
];

// Other right sides of the register.
static UPDATES: [&[u8]; 11] = [
    b"  always @(posedge mbac_clk) mbac_r1 <= (mbac_rst ? 1'd1 : 1'd0);\n",
    b"  always @(negedge mbac_clk) mbac_r0 <= (mbac_rst ? 1'd1 : 1'd0);\n",
    b"  always @(posedge mbac_clk) mbac_r0 = (mbac_rst ? 1'd1 : 1'd0);\n",
    b"  always @(posedge mbac_clk) mbac_r0 <= (mbac_eot ? 1'd1 : 1'd0);\n",
    b"  always @(posedge mbac_clk) mbac_r0 <= mbac_rst ? 1'd1 : 1'd0;\n",
    b"  always @(posedge mbac_clk) mbac_r0 <= (mbac_rst ? 1'd2 : 1'd0);\n",
    b"  always @(posedge mbac_clk) mbac_r0 <= (mbac_rst ? 2'd1 : 1'd0);\n",
    b"  always @(posedge mbac_clk) mbac_r0 <= (mbac_rst ? 1 : 1'd0);\n",
    b"  always @(posedge mbac_clk) mbac_r0 <= (mbac_rst ? 1'd01 : 1'd0);\n",
    b"  always @(posedge mbac_clk) mbac_r0 <= (mbac_rst ? 1'd1 : 1'd2);\n",
    b"  always @(posedge mbac_clk) mbac_r0 <= (mbac_rst ? 1'd1 : b);\n",
];

// Other last lines.
static ENDS: [&[u8]; 5] = [
    b"",
    b"endmodule",
    b" endmodule\n",
    b"endmodule \n",
    b"endmodule\r\n",
];

// A line in place of the one of this number, and the line at which the checker is refused then, or 0.
static OTHERS: [(usize, &[u8], u64); 18] = [
    (
        1,
        b"module mbac_u (mbac_clk, mbac_rst, mbac_eot, a, mbac_fail);\n",
        0,
    ),
    (
        1,
        b"module mbac_ (mbac_clk, mbac_rst, mbac_eot, a, mbac_fail);\n",
        0,
    ),
    (
        1,
        b"module mbac_u_1 (mbac_clk, mbac_rst, mbac_eot, b, mbac_fail);\n",
        5,
    ),
    (
        1,
        b"module mbac_u_1 (mbac_clk, mbac_rst, mbac_eot, mbac_fail);\n",
        5,
    ),
    (
        1,
        b"module mbac_u_1 (mbac_clk, mbac_rst, mbac_eot, a, b, mbac_fail);\n",
        6,
    ),
    (
        1,
        b"module mbac_u_1 (mbac_clk, mbac_rst, mbac_eot, a, mbac_fail);\n\n",
        2,
    ),
    (2, b"  // a\n  // b\n  input mbac_clk;\n", 3),
    (3, b"  input mbac_eot;\n", 3),
    (4, b"  input [0:0] mbac_eot;\n", 4),
    (5, b"  input [7:0] a;\n", 0),
    (7, b"  reg [1:0] mbac_r0;\n", 11),
    (7, b"  reg mbac_r0;\n  reg mbac_r1;\n", 13),
    (9, b"  wire mbac_n1 = (!mbac_n1);\n", 9),
    (9, b"  wire mbac_n01 = (!mbac_n0);\n", 9),
    (10, b"  assign mbac_fail = a;\n", 0),
    (
        11,
        b"  always @(posedge mbac_clk) mbac_r0 <= (mbac_rst ? 1'd0 : mbac_n1);\n",
        0,
    ),
    (12, b"endmodule\n\n", 13),
    (12, b"endmodule\nendmodule\n", 13),
];

/// Whether the checker is refused at one line with each of these in place of the line of this number.
fn are_refused_at(
    alloc: Global,
    number: usize,
    lines: &[&[u8]],
    wanted: u64,
) -> Result<bool, Fail> {
    for line in lines {
        let text = changed(alloc, number, line)?;
        if refused_at(alloc, &text) != Some(wanted) {
            return Ok(false);
        }
    }
    Ok(true)
}

#[test]
fn the_first_lines_are_refused_where_they_are_changed(rt: HostRuntime) -> Result<(), Fail> {
    let alloc = rt.alloc();
    assert!(rt; are_refused_at(alloc, 1, &HEADERS, 1)?);
    assert!(rt; are_refused_at(alloc, 2, &REPORTS_TAKEN, 0)?);
    assert!(rt; are_refused_at(alloc, 2, &REPORTS, 2)?);
    assert!(rt; are_refused_at(alloc, 5, &PORTS, 5)?);
    assert!(rt; are_refused_at(alloc, 6, &OUTPUTS, 6)?);
    Ok(())
}

#[test]
fn declarations_are_refused_where_they_are_changed(rt: HostRuntime) -> Result<(), Fail> {
    let alloc = rt.alloc();
    assert!(rt; are_refused_at(alloc, 7, &REGISTERS, 7)?);
    assert!(rt; are_refused_at(alloc, 8, &WIRES_TAKEN, 0)?);
    assert!(rt; are_refused_at(alloc, 8, &WIRES, 8)?);
    assert!(rt; are_refused_at(alloc, 5, &SELECTS_TAKEN, 8)?);
    assert!(rt; are_refused_at(alloc, 5, &SELECTS, 7)?);
    Ok(())
}

#[test]
fn the_last_lines_are_refused_where_they_are_changed(rt: HostRuntime) -> Result<(), Fail> {
    let alloc = rt.alloc();
    assert!(rt; are_refused_at(alloc, 10, &OUTPUT_VALUES, 10)?);
    assert!(rt; are_refused_at(alloc, 11, &UPDATES, 11)?);
    assert!(rt; are_refused_at(alloc, 12, &ENDS, 12)?);
    Ok(())
}

#[test]
fn other_lines_are_told_as_the_first_that_no_text_has(rt: HostRuntime) -> Result<(), Fail> {
    for (number, line, wanted) in &OTHERS {
        let text = changed(rt.alloc(), *number, line)?;
        assert_eq!(rt; refused_at(rt.alloc(), &text), Some(*wanted), "{line:?}");
    }
    Ok(())
}
