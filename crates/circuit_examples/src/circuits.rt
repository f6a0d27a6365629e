//! Whole circuits of formulas, and how many registers they may have.

ghost use Rattle.std.specs.Prelude.{◌≤◌};
ghost use Rattle.formula_limits.specs.Steps.{step_limit};
ghost use Rattle.circuit_examples.specs.Examples.{IsWritten};

use crate::cycles::first_on;
use crate::formulas::{A, B, always_holds, holds, many};
use property_circuits::{Circuit, CircuitError, check_circuit};
use psl_rewrite::Subbase;
use std::alloc::{AllocError, Global};
use std::test::Fail;

// The circuit of a formula that may have so many steps.
pub(crate) fn circuit_of(
    alloc: Global,
    formula: &Subbase,
    steps_left: u64,
) -> Result<Circuit, CircuitError>
    requires formula { IsWritten formula.now }
    requires steps_left { steps_left ≤ step_limit }
{
    let widths: [u32; 4] = [1, 1, 1, 1];
    check_circuit(alloc, formula.get(), &widths, steps_left)
}

// The first cycle in which the output of a circuit is on, where execution ends in cycle 3.
pub(crate) fn first_output(
    alloc: Global,
    circuit: &Circuit,
    a: &'static str,
) -> Result<Option<usize>, AllocError> {
    match circuit.netlist.output() {
        Some(out) => first_on(
            alloc,
            &circuit.netlist,
            out,
            &[a, "0000", "0000", "0000"],
            3,
        ),
        None => Ok(None),
    }
}

#[test]
fn a_circuit_is_started_in_the_first_cycle(rt: HostRuntime) -> Result<(), Fail> {
    let once = holds(rt.alloc(), A)?;
    let circuit = circuit_of(rt.alloc(), &once, 0)?;
    assert_eq!(rt; circuit.netlist.register_bits(), 1);
    for (a, first) in [("1000", None), ("0111", Some(0))] {
        assert_eq!(rt; first_output(rt.alloc(), &circuit, a)?, first);
    }
    Ok(())
}

#[test]
fn a_circuit_of_always_has_a_register_more(rt: HostRuntime) -> Result<(), Fail> {
    let each = always_holds(rt.alloc(), A)?;
    let circuit = circuit_of(rt.alloc(), &each, 0)?;
    assert_eq!(rt; circuit.netlist.register_bits(), 2);
    assert_eq!(rt; first_output(rt.alloc(), &circuit, "1101")?, Some(2));
    Ok(())
}

#[test]
fn a_register_more_than_the_limit_is_refused(rt: HostRuntime) -> Result<(), Fail> {
    let last = always_holds(rt.alloc(), B)?;
    let formula = many(rt.alloc(), 16, last)?;
    assert!(rt;
        matches!(
            circuit_of(rt.alloc(), &formula, 0),
            Err(CircuitError::TooManyRegisters { count: 65_537 })
        )
    );
    Ok(())
}

#[test]
fn as_many_registers_as_the_limit_are_taken(rt: HostRuntime) -> Result<(), Fail> {
    let last = holds(rt.alloc(), B)?;
    let formula = many(rt.alloc(), 16, last)?;
    let circuit = circuit_of(rt.alloc(), &formula, 0)?;
    assert_eq!(rt; circuit.netlist.register_bits(), 65_536);
    Ok(())
}
