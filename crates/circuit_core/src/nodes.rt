//! What a netlist is made of.

use psl_model::Expr;

/// A net, by the number of its node.
#[derive(Clone, Copy, Debug, PartialEq, Eq)]
pub struct Net(pub usize);

/// A register, by its number.
#[derive(Clone, Copy, Debug, PartialEq, Eq)]
pub struct Reg(pub usize);

/// The two nets of a check: on where something was found to be violated, and where something pends.
#[derive(Clone, Copy, Debug, PartialEq, Eq)]
pub struct Check {
    pub fail: Net,
    pub pend: Net,
}

/// The nets of a gate: on where it starts its body, where it fails by itself, and where something pends.
#[derive(Clone, Copy, Debug, PartialEq, Eq)]
pub struct Gate {
    pub go: Net,
    pub fail: Net,
    pub pend: Net,
}

/// What gives a net its value: the call of the same name on `Netlist` and what it was given. `Register` names the
/// register that `reg` made.
#[derive(Debug, Drop)]
pub enum Op {
    Bit(bool),
    Eot,
    Guard(Expr),
    Not(Net),
    And(Net, Net),
    Or(Net, Net),
    Register(Reg),
}

#[derive(Debug, Drop)]
pub struct Node {
    /// In bits.
    pub width: u32,
    pub op: Op,
}

#[derive(Clone, Copy, Debug, PartialEq, Eq)]
pub struct NetReg {
    /// In bits.
    pub width: u32,
    /// The value after reset.
    pub init: u128,
    /// The net whose value it takes at the end of each cycle: none until `set_next` was called for it.
    pub next: Option<Net>,
}
