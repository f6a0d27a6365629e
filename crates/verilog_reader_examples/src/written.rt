//! Checkers that the compiler writes, read back and printed again.

use crate::checker::is_read_back;
use std::alloc::Global;
use unit_compile::compile;

// Units, and how many checkers they have.
static UNITS: [(&[u8], usize); 13] = [
    (b"vunit u { }", 0),
    (b"vunit u { assert always a; }", 1),
    (b"vunit u { assert never a; }", 1),
    (
        b"vunit bus (dut) { late: assert always (req -> !idle) report \"late ack\"; }",
        1,
    ),
    (
        b"vunit u { l: assert a -> b; assert never c; assert (a || (always b)) && c; }",
        3,
    ),
    (
        b"vunit u { property p = always a; assert p; assert p; assert p; }",
        3,
    ),
    (
        b"vunit u { wire [3:0] cnt; assert always !(cnt + 1 == 0) report \"wraps\"; }",
        1,
    ),
    (
        b"vunit u { wire [63:0] d; assert always ((d << 3) >= (d[63:1] - d[0])); }",
        1,
    ),
    (
        b"vunit u { wire [7:0] d; assert always ((&d) | ((^d) ^ (~(|d)))) != (d ? 1 : 2); }",
        1,
    ),
    (
        b"vunit u { wire [7:0] d; assert always (d >> 1 < 8'd200 && d <= 255 || d > 0); }",
        1,
    ),
    (
        b"vunit u { assert always (a && !b == c); assert always (a & b == c | d); }",
        2,
    ),
    (
        b"vunit u { assert always (a -> (always (b -> (always c)))); }",
        1,
    ),
    (
        b"vunit u { assert a -> next![3](b until c); assert always ({a;b[*2:3]} |=> c); assert never {a;b}; }",
        3,
    ),
];

/// The text of a unit's checkers.
pub(crate) fn compiled(alloc: Global, unit: &[u8]) -> Option<Vec<u8>> {
    if unit.len() > 1_048_576 {
        return None;
    }
    match compile(alloc, unit) {
        Ok(text) => Some(text),
        Err(_) => None,
    }
}

fn is_so_written(alloc: Global, unit: &[u8], count: usize) -> bool {
    match compiled(alloc, unit) {
        Some(text) => is_read_back(alloc, text.as_slice(), count),
        None => false,
    }
}

#[test]
fn what_the_compiler_writes_is_read_back(rt: HostRuntime) {
    for (unit, count) in &UNITS {
        assert!(rt; is_so_written(rt.alloc(), unit, *count), "{unit:?}");
    }
}
