//! Units that are compiled, each with a line of its text.

use crate::runs::has_line;

static LINES: [(&[u8], &[u8]); 8] = [
    // A number without a size widens the sum, and one of four bits doesn't.
    (
        b"vunit u { wire [3:0] cnt; assert always !(cnt + 1 == 0); }",
        b"  wire mbac_n6 = (|(!((cnt + 1) == 0)));",
    ),
    (
        b"vunit u { wire [3:0] cnt; assert always !(cnt + 4'd1 == 4'd0); }",
        b"  wire mbac_n6 = (|(!((cnt + 4'd1) == 4'd0)));",
    ),
    // Labels and numbers name the modules.
    (
        b"vunit u { late: assert a; }",
        b"module mbac_u_late (mbac_clk, mbac_rst, mbac_eot, a, mbac_fail);",
    ),
    (
        b"vunit u { late: assert a; assert b; }",
        b"module mbac_u_2 (mbac_clk, mbac_rst, mbac_eot, b, mbac_fail);",
    ),
    // Ports stand in the order of the unit's signals, and are those that the directive uses.
    (
        b"vunit u { wire a, b; wire [7:0] c; assert always (c == 8'd0 -> a); }",
        b"module mbac_u_1 (mbac_clk, mbac_rst, mbac_eot, a, c, mbac_fail);",
    ),
    (
        b"vunit u { wire a, b; wire [7:0] c; assert always (c == 8'd0 -> a); }",
        b"  input [7:0] c;",
    ),
    // A report's text is shown.
    (
        b"vunit u { assert always a report \"a is low\"; }",
        b"  // a is low",
    ),
    // A name stands for its property.
    (
        b"vunit u { property idle = never (busy && done); assert idle; }",
        b"  wire mbac_n6 = (|(!(busy && done)));",
    ),
];

#[test]
fn a_text_has_the_lines_that_its_unit_asks_for(rt: HostRuntime) {
    for (unit, line) in &LINES {
        assert!(rt; has_line(rt.alloc(), unit, line), "{unit:?}");
    }
}
