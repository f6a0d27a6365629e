//! Checker modules.

use psl_model::{Expr, Name, Signal};
use sqlite_items::Items;

/// A checker module over one clock, `mbac_clk`. Its expressions name places in its table of names:
/// 0 is `mbac_rst`, 1 is `mbac_eot`, then come the ports, the registers and the wires.
#[derive(Debug, Drop)]
pub struct Module {
    pub name: Name,
    /// A text for people.
    pub report: Option<Name>,
    /// The inputs that it watches.
    pub ports: Items<Signal>,
    pub regs: Items<RegDecl>,
    pub wires: Items<WireDecl>,
    /// The right side of the output `mbac_fail`.
    pub fail: Expr,
}

/// A register, `mbac_r` and its number.
#[derive(Debug, Drop)]
pub struct RegDecl {
    /// In bits.
    pub width: u32,
    /// Its value after reset.
    pub init: u128,
    /// What it takes at an edge of the clock without reset.
    pub next: Expr,
}

/// A wire, `mbac_n` and its number.
#[derive(Debug, Drop)]
pub struct WireDecl {
    /// In bits.
    pub width: u32,
    pub value: Expr,
}
