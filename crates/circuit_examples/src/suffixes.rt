//! Checks and circuits of formulas behind a sequence.

use crate::checks::{Row, fails_as_told};
use crate::circuits::{circuit_of, first_output};
use crate::formulas::{B, after_three, always, both, holds, written_after};
use property_circuits::CircuitError;
use std::test::Fail;

const AFTER_THREE: [Row; 6] = [
    (["1111", "0000", "1000", "0000"], Some(2)),
    (["1101", "0000", "1000", "0000"], None),
    // A start while another is under way has its own match.
    (["11110", "00100", "11000", "00000"], Some(3)),
    // A match in a cycle that is cleared doesn't count.
    (["11100", "00000", "10000", "00100"], None),
    // Nor does one of a start before the clear; a later start has its own.
    (["1111", "0000", "1000", "0100"], None),
    (["11111", "00000", "10100", "01000"], Some(4)),
];

#[test]
fn a_body_is_checked_where_a_sequence_has_matched(rt: HostRuntime) -> Result<(), Fail> {
    let body = holds(rt.alloc(), B)?;
    let formula = after_three(rt.alloc(), body)?;
    assert!(rt; fails_as_told(rt.alloc(), &formula, &AFTER_THREE)?);
    Ok(())
}

#[test]
fn always_behind_a_sequence_rises_at_its_first_match(rt: HostRuntime) -> Result<(), Fail> {
    let body = holds(rt.alloc(), B)?;
    let each = after_three(rt.alloc(), body)?;
    let formula = always(rt.alloc(), each)?;
    let circuit = circuit_of(rt.alloc(), &formula, 3)?;
    assert_eq!(rt; circuit.steps, 3);
    assert_eq!(rt; first_output(rt.alloc(), &circuit, "1110")?, Some(2));
    assert_eq!(rt; first_output(rt.alloc(), &circuit, "0111")?, Some(3));
    assert_eq!(rt; first_output(rt.alloc(), &circuit, "1101")?, None);
    Ok(())
}

#[test]
fn a_step_more_than_are_left_is_refused(rt: HostRuntime) -> Result<(), Fail> {
    let body = holds(rt.alloc(), B)?;
    let formula = after_three(rt.alloc(), body)?;
    assert!(rt;
        matches!(
            circuit_of(rt.alloc(), &formula, 2),
            Err(CircuitError::TooManySteps { count: 3 })
        )
    );
    Ok(())
}

#[test]
fn the_second_sequence_has_too_many_places(rt: HostRuntime) -> Result<(), Fail> {
    let left = holds(rt.alloc(), B)?;
    let small = after_three(rt.alloc(), left)?;
    let right = holds(rt.alloc(), B)?;
    let large = written_after(rt.alloc(), 2_049, right)?;
    let formula = both(rt.alloc(), small, large)?;
    assert!(rt;
        matches!(
            circuit_of(rt.alloc(), &formula, 1_000_000),
            Err(CircuitError::TooManyPlaces {
                sequence: 2,
                places: 4_098
            })
        )
    );
    Ok(())
}
