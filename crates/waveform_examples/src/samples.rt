//! Samples of texts, worked out by hand: the values before each rising edge of a clock.

use crate::pieces::is_read_alike;
use psl_model::{Name, Signal};
use std::alloc::Global;
use std::test::Fail;
use vcd_reader::Vcd;
use vcd_replay::{SampleError, Trace, sample};

/// The trace of one signal, of 64 bits at most, of a text that is read alike whole and in pieces.
pub fn sampled(
    alloc: Global,
    text: &[u8],
    scope: &[u8],
    clock: &[u8],
    name: &[u8],
    width: u32,
    skip: u32,
) -> Result<Trace, SampleError> {
    if width > 64 || !is_read_alike(alloc, text) {
        return Err(SampleError::OutOfMemory);
    }
    let Ok(vcd) = Vcd::read(alloc, text) else {
        return Err(SampleError::OutOfMemory);
    };
    let Ok(name) = Name::new(alloc, name) else {
        return Err(SampleError::OutOfMemory);
    };
    let wanted = [Signal { name, width }];
    sample(alloc, &vcd, scope, clock, &wanted, skip)
}

/// The trace of the first signal has these values.
pub fn shows(answer: &Result<Trace, SampleError>, wanted: &[u128]) -> bool {
    match answer {
        Err(_) => false,
        Ok(trace) => has_values(trace, wanted),
    }
}

fn has_values(trace: &Trace, wanted: &[u128]) -> bool {
    if trace.cycles() != wanted.len() as u64 {
        return false;
    }
    for (cycle, value) in wanted.iter().enumerate() {
        if trace.row(cycle as u64).first() != Some(value) {
            return false;
        }
    }
    true
}

fn refusal(answer: Result<Trace, SampleError>) -> Option<SampleError> {
    match answer {
        Ok(_) => None,
        Err(error) => Some(error),
    }
}

// A clock of one bit and a vector of four, in the scope `t`; a scope `u` has a clock of two bits.
const HEAD: &str =
    "$scope module t $end $var wire 1 ! c $end $var wire 4 % d [3:0] $end $var wire 4 & d $end \
    $upscope $end $scope module u $end $var wire 2 ? c $end $upscope $end $enddefinitions $end ";

#[test]
fn rows_are_the_values_before_the_edges(rt: HostRuntime) -> Result<(), Fail> {
    for (tail, skip, wanted) in [
        (
            "#0 0! b101 % #5 1! b11 % #10 0! #15 b1 % 0! 1! #20 0! #25 1! bx %",
            0u32,
            [5u128, 3, 1].as_slice(),
        ),
        (
            "#0 0! b101 % #5 1! b11 % #10 0! #15 b1 % 0! 1! #20 0! #25 1! bx %",
            1,
            [3, 1].as_slice(),
        ),
        (
            "#0 0! b101 % #5 1! b11 % #10 0! #15 b1 % 0! 1! #20 0! #25 1! bx %",
            2,
            [1].as_slice(),
        ),
        ("#5 1! b1 % #10 0! #15 1!", 0, [1].as_slice()),
        ("#0 0! b10 % #5 1! #6 1! #7 0! #8 1!", 0, [2, 2].as_slice()),
        ("0! b1001 % #5 1!", 0, [9].as_slice()),
        ("0! b1 % #5 1! 0! #6 1!", 0, [1].as_slice()),
        ("0! bx % #1 1! b10 % #2 0! #3 1!", 1, [2].as_slice()),
    ] {
        let text = format!(in rt.alloc(); "{HEAD}{tail}")?;
        let trace = sampled(rt.alloc(), text.as_bytes(), b"t", b"c", b"d", 4, skip);
        assert!(rt; shows(&trace, wanted));
    }
    Ok(())
}

#[test]
fn a_refusal_tells_the_first_that_is_wrong(rt: HostRuntime) -> Result<(), Fail> {
    let d = Name::new(rt.alloc(), b"d")?;
    let c = Name::new(rt.alloc(), b"c")?;
    let e = Name::new(rt.alloc(), b"e")?;
    for (scope, name, width, skip, wanted) in [
        (b"s", b"d", 4u32, 0u32, SampleError::NoScope),
        (b"t", b"e", 4, 0, SampleError::MissingSignal { name: e }),
        (
            b"t",
            b"d",
            3,
            0,
            SampleError::WidthDiffers {
                name: d.copy(rt.alloc())?,
            },
        ),
        (b"u", b"e", 4, 0, SampleError::WidthDiffers { name: c }),
        (b"t", b"d", 4, 2, SampleError::NoCycles),
        (
            b"t",
            b"d",
            4,
            0,
            SampleError::UnknownValue { cycle: 1, name: d },
        ),
    ] {
        let text = format!(in rt.alloc(); "{HEAD}0! b1 % #1 1! bz1 % #2 0! #3 1!")?;
        let answer = sampled(rt.alloc(), text.as_bytes(), scope, b"c", name, width, skip);
        assert_eq!(rt; refusal(answer), Some(wanted));
    }
    Ok(())
}

/// Digits of the vector of four bits, and the value that they are sampled as: none where a bit is x or z.
static DIGITS: [(&str, Option<u128>); 16] = [
    ("b0", Some(0)),
    ("b01", Some(1)),
    ("b1", Some(1)),
    ("b11", Some(3)),
    ("b101", Some(5)),
    ("B0110", Some(6)),
    ("b1000", Some(8)),
    ("B1111", Some(15)),
    ("bx", None),
    ("bX1", None),
    ("bz", None),
    ("BZ10", None),
    ("b1x", None),
    ("b0Z01", None),
    ("bz111", None),
    ("Bx000", None),
];

fn sampled_digits(alloc: Global, digits: &str) -> Result<Trace, SampleError> {
    match format!(in alloc; "{HEAD}0! {digits} % #1 1!") {
        Ok(text) => sampled(alloc, text.as_bytes(), b"t", b"c", b"d", 4, 0),
        Err(_) => Err(SampleError::OutOfMemory),
    }
}

fn are_sampled_as(alloc: Global, digits: &str, value: Option<u128>) -> bool {
    let answer = sampled_digits(alloc, digits);
    match value {
        Some(value) => shows(&answer, &[value]),
        None => matches!(answer, Err(SampleError::UnknownValue { cycle: 0, .. })),
    }
}

#[test]
fn a_short_vector_is_extended_by_its_first_digit(rt: HostRuntime) -> Result<(), Fail> {
    for (digits, value) in &DIGITS {
        assert!(rt; are_sampled_as(rt.alloc(), *digits, *value), "{digits}");
    }
    Ok(())
}
