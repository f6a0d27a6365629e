//! A netlist's values, cycle by cycle, by the plainest rules.

use circuit_core::{Net, Netlist, Op};
use psl_model::Expr;
use std::alloc::{AllocError, Global};

fn is_on(nets: &[bool], net: Net) -> bool {
    nets.get(net.0).copied().unwrap_or(false)
}

// The value of a node in a cycle, from those of the nodes before it. A guard names a whole signal.
fn value(op: &Op, nets: &[bool], held: &[bool], bits: &[bool]) -> bool {
    match op {
        Op::Bit(value) => *value,
        Op::Guard(Expr::Whole(place)) => bits.get(*place).copied().unwrap_or(false),
        Op::Not(a) => !is_on(nets, *a),
        Op::And(a, b) => is_on(nets, *a) && is_on(nets, *b),
        Op::Or(a, b) => is_on(nets, *a) || is_on(nets, *b),
        Op::Register(register) => held.get(register.0).copied().unwrap_or(false),
        _ => false,
    }
}

// The values of all nets in a cycle.
fn cycle(
    alloc: Global,
    net: &Netlist,
    held: &[bool],
    bits: &[bool],
) -> Result<Vec<bool>, AllocError> {
    let mut nets = Vec::new(alloc);
    for node in net.nodes() {
        let on = value(&node.op, &nets, held, bits);
        nets.push(on)?;
    }
    Ok(nets)
}

// What the registers hold in the next cycle.
fn next(alloc: Global, net: &Netlist, nets: &[bool]) -> Result<Vec<bool>, AllocError> {
    let mut held = Vec::new(alloc);
    for reg in net.regs() {
        let on = match reg.next {
            Some(next) => is_on(nets, next),
            None => false,
        };
        held.push(on)?;
    }
    Ok(held)
}

// What the registers hold at first.
fn begun(alloc: Global, net: &Netlist) -> Result<Vec<bool>, AllocError> {
    let mut held = Vec::new(alloc);
    for reg in net.regs() {
        held.push(reg.init == 1)?;
    }
    Ok(held)
}

// The signals in a cycle, whose texts have a binary digit a cycle.
fn signals(alloc: Global, texts: &[&str; 4], now: usize) -> Result<Vec<bool>, AllocError> {
    let mut bits = Vec::new(alloc);
    for text in texts {
        bits.push(text.as_bytes().get(now) == Some(&b'1'))?;
    }
    Ok(bits)
}

/// Whether a net is on in just those cycles in which a text has a 1, where the signals have the values of these texts.
pub(crate) fn is_stream(
    alloc: Global,
    net: &Netlist,
    found: Net,
    texts: &[&str; 4],
    told: &str,
) -> Result<bool, AllocError> {
    let mut held = begun(alloc, net)?;
    for now in 0..texts[0].len() {
        let bits = signals(alloc, texts, now)?;
        let nets = cycle(alloc, net, &held, &bits)?;
        if is_on(&nets, found) != (told.as_bytes().get(now) == Some(&b'1')) {
            return Ok(false);
        }
        held = next(alloc, net, &nets)?;
    }
    Ok(true)
}
