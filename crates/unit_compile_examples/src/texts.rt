//! The text of the checkers of a unit.

use crate::answers::LONGEST;
use std::alloc::Global;
use unit_compile::compile;

const ALWAYS_A: &[u8] = b"\
module mbac_u_1 (mbac_clk, mbac_rst, mbac_eot, a, mbac_fail);
  input mbac_clk;
";

/// `compile` gives a text that begins so.
fn begins(alloc: Global, unit: &[u8], front: &[u8]) -> bool {
    if unit.len() > LONGEST {
        return false;
    }
    match compile(alloc, unit) {
        Ok(text) => text.as_slice().starts_with(front),
        Err(_) => false,
    }
}

#[test]
fn an_assertion_gives_a_checker(rt: HostRuntime) {
    let unit = b"vunit u { assert always a; }";
    assert!(rt; begins(rt.alloc(), unit, ALWAYS_A));
}
