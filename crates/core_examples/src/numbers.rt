//! How many places a sequence counts, and which are refused for them.

use crate::sequences::{Form, make};
use psl_model::{Sere, Subsere};
use psl_rewrite::Subcore;
use sequence_cores::{CoreError, core, places};
use std::alloc::{AllocError, Global};

static PLACES: [(Form, u64); 29] = [
    (Form::A, 2),
    (Form::Then, 4),
    (Form::Fuse, 4),
    (Form::Or, 5),
    (Form::Both, 4),
    (Form::Meet, 21),
    (Form::Within, 16),
    (Form::Repeat(0, None), 3),
    (Form::Repeat(0, Some(0)), 1),
    (Form::Repeat(1, Some(1)), 2),
    (Form::Repeat(3, Some(3)), 6),
    (Form::Repeat(2, Some(5)), 16),
    (Form::Repeat(0, Some(2)), 9),
    (Form::Repeat(1, None), 5),
    (Form::Repeat(3, None), 9),
    (Form::RepeatTwo(2, Some(3)), 14),
    (Form::Goto(1, Some(1)), 5),
    (Form::Goto(2, Some(3)), 17),
    (Form::Goto(2, None), 16),
    (Form::Equal(1, Some(1)), 8),
    (Form::Equal(2, Some(3)), 20),
    (Form::Equal(0, Some(0)), 4),
    (Form::RepeatTwo(1024, Some(1024)), 4096),
    (Form::LongAgain, 4097),
    (Form::RepeatTwo(1025, Some(1025)), 4100),
    // (2^32 - 2) 2^31, which is 2^63 - 2^32
    (Form::TwoLong(2147483647, 1073741824), 9223372032559808512),
    // 2^63 and 2^64
    (Form::TwoLong(2147483648, 1073741824), 9223372036854775808),
    (Form::TwoLong(2147483648, 2147483648), 9223372036854775808),
    (Form::Repeat(0, Some(4294967295)), 17179869181),
];

static REFUSED: [(Form, u64); 3] = [
    (Form::LongAgain, 4097),
    (Form::RepeatTwo(1025, Some(1025)), 4100),
    (Form::TwoLong(2147483648, 2147483648), 9223372036854775808),
];

// Whether the sequence is made, and counts so many places.
fn counts(made: Result<Subsere, AllocError>, told: u64) -> bool {
    match made {
        Ok(sere) => places(sere.get()) == told,
        Err(_) => false,
    }
}

// The core sequence, on the heap, since a function that drops a bare tree is slow to prove.
fn core_of(alloc: Global, sere: &Sere) -> Result<Subcore, CoreError> {
    Ok(Subcore::new(alloc, core(alloc, sere)?)?)
}

fn is_refused(alloc: Global, made: Result<Subsere, AllocError>, told: u64) -> bool {
    match made {
        Ok(sere) => {
            let answer = core_of(alloc, sere.get());
            matches!(answer, Err(CoreError::TooManyPlaces { places }) if places == told)
        }
        Err(_) => false,
    }
}

#[test]
fn sequences_count_their_places(rt: HostRuntime) {
    for (form, told) in &PLACES {
        let sere = make(rt.alloc(), *form);
        assert!(rt; counts(sere, *told), "{told}");
    }
}

#[test]
fn sequences_of_too_many_places_are_refused(rt: HostRuntime) {
    for (form, told) in &REFUSED {
        let sere = make(rt.alloc(), *form);
        assert!(rt; is_refused(rt.alloc(), sere, *told), "{told}");
    }
}
