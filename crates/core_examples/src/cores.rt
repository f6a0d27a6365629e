//! The core sequence as which each form is counted, by what it prints: `Whole(0)` is `a`, `Whole(1)` is `b`, and
//! `Sized(1, 1)` is `true`.

use crate::sequences::{Form, make};
use psl_model::{Sere, Subsere};
use psl_rewrite::Subcore;
use sequence_cores::{CoreError, core};
use std::alloc::{AllocError, Global};

static CORES: [(Form, &str); 21] = [
    (Form::A, "Bool(Whole(0))"),
    (
        Form::Then,
        "Then(Subcore { node: Bool(Whole(0)) }, Subcore { node: Bool(Whole(1)) })",
    ),
    (
        Form::Fuse,
        "Fuse(Subcore { node: Bool(Whole(0)) }, Subcore { node: Bool(Whole(1)) })",
    ),
    (
        Form::Or,
        "Or(Subcore { node: Bool(Whole(0)) }, Subcore { node: Bool(Whole(1)) })",
    ),
    (
        Form::Both,
        "Both(Subcore { node: Bool(Whole(0)) }, Subcore { node: Bool(Whole(1)) })",
    ),
    (
        Form::Meet,
        "Or(Subcore { node: Both(Subcore { node: Bool(Whole(0)) }, Subcore { node: Then(Subcore { node: \
         Bool(Whole(1)) }, Subcore { node: Star(Subcore { node: Bool(Sized(1, 1)) }) }) }) }, Subcore { \
         node: Both(Subcore { node: Then(Subcore { node: Bool(Whole(0)) }, Subcore { node: Star(Subcore { \
         node: Bool(Sized(1, 1)) }) }) }, Subcore { node: Bool(Whole(1)) }) })",
    ),
    (
        Form::Within,
        "Both(Subcore { node: Then(Subcore { node: Then(Subcore { node: Star(Subcore { node: \
         Bool(Sized(1, 1)) }) }, Subcore { node: Bool(Whole(0)) }) }, Subcore { node: Star(Subcore { \
         node: Bool(Sized(1, 1)) }) }) }, Subcore { node: Bool(Whole(1)) })",
    ),
    (
        Form::Repeat(0, None),
        "Star(Subcore { node: Bool(Whole(0)) })",
    ),
    (
        Form::Repeat(2, None),
        "Then(Subcore { node: Power(Subcore { node: Bool(Whole(0)) }, 2) }, Subcore { node: Star(Subcore \
         { node: Bool(Whole(0)) }) })",
    ),
    (Form::Repeat(0, Some(0)), "Empty"),
    (Form::Repeat(1, Some(1)), "Bool(Whole(0))"),
    (
        Form::Repeat(3, Some(3)),
        "Power(Subcore { node: Bool(Whole(0)) }, 3)",
    ),
    (
        Form::Repeat(1, Some(2)),
        "Then(Subcore { node: Bool(Whole(0)) }, Subcore { node: Or(Subcore { node: Empty }, Subcore { \
         node: Bool(Whole(0)) }) })",
    ),
    (
        Form::Repeat(0, Some(2)),
        "Then(Subcore { node: Empty }, Subcore { node: Power(Subcore { node: Or(Subcore { node: Empty }, \
         Subcore { node: Bool(Whole(0)) }) }, 2) })",
    ),
    (
        Form::RepeatTwo(2, Some(5)),
        "Then(Subcore { node: Power(Subcore { node: Then(Subcore { node: Bool(Whole(0)) }, Subcore { \
         node: Bool(Whole(1)) }) }, 2) }, Subcore { node: Power(Subcore { node: Or(Subcore { node: Empty \
         }, Subcore { node: Then(Subcore { node: Bool(Whole(0)) }, Subcore { node: Bool(Whole(1)) }) }) \
         }, 3) })",
    ),
    (
        Form::Goto(1, Some(1)),
        "Then(Subcore { node: Star(Subcore { node: Bool(Unary(Not, Subexpr { node: Whole(0) })) }) }, \
         Subcore { node: Bool(Whole(0)) })",
    ),
    (
        Form::Goto(2, Some(3)),
        "Then(Subcore { node: Power(Subcore { node: Then(Subcore { node: Star(Subcore { node: \
         Bool(Unary(Not, Subexpr { node: Whole(0) })) }) }, Subcore { node: Bool(Whole(0)) }) }, 2) }, \
         Subcore { node: Or(Subcore { node: Empty }, Subcore { node: Then(Subcore { node: Star(Subcore { \
         node: Bool(Unary(Not, Subexpr { node: Whole(0) })) }) }, Subcore { node: Bool(Whole(0)) }) }) })",
    ),
    (
        Form::Goto(0, None),
        "Star(Subcore { node: Then(Subcore { node: Star(Subcore { node: Bool(Unary(Not, Subexpr { node: \
         Whole(0) })) }) }, Subcore { node: Bool(Whole(0)) }) })",
    ),
    (
        Form::Equal(1, Some(1)),
        "Then(Subcore { node: Then(Subcore { node: Star(Subcore { node: Bool(Unary(Not, Subexpr { node: \
         Whole(0) })) }) }, Subcore { node: Bool(Whole(0)) }) }, Subcore { node: Star(Subcore { node: \
         Bool(Unary(Not, Subexpr { node: Whole(0) })) }) })",
    ),
    (
        Form::Equal(2, None),
        "Then(Subcore { node: Then(Subcore { node: Power(Subcore { node: Then(Subcore { node: \
         Star(Subcore { node: Bool(Unary(Not, Subexpr { node: Whole(0) })) }) }, Subcore { node: \
         Bool(Whole(0)) }) }, 2) }, Subcore { node: Star(Subcore { node: Then(Subcore { node: \
         Star(Subcore { node: Bool(Unary(Not, Subexpr { node: Whole(0) })) }) }, Subcore { node: \
         Bool(Whole(0)) }) }) }) }, Subcore { node: Star(Subcore { node: Bool(Unary(Not, Subexpr { node: \
         Whole(0) })) }) })",
    ),
    (
        Form::RepeatTwo(1024, Some(1024)),
        "Power(Subcore { node: Then(Subcore { node: Bool(Whole(0)) }, Subcore { node: Bool(Whole(1)) }) \
         }, 1024)",
    ),
];

// The core sequence, on the heap, since a function that drops a bare tree is slow to prove.
fn core_of(alloc: Global, sere: &Sere) -> Result<Subcore, CoreError> {
    Ok(Subcore::new(alloc, core(alloc, sere)?)?)
}

fn prints(alloc: Global, core: &Subcore, told: &str) -> bool {
    match format!(in alloc; "{:?}", core.get()) {
        Ok(text) => text.as_str() == told,
        Err(_) => false,
    }
}

fn has_core(alloc: Global, sere: &Sere, told: &str) -> bool {
    match core_of(alloc, sere) {
        Ok(core) => prints(alloc, &core, told),
        Err(_) => false,
    }
}

// Whether the sequence is made, and its core sequence prints as this text.
fn is_told(alloc: Global, made: Result<Subsere, AllocError>, told: &str) -> bool {
    match made {
        Ok(sere) => has_core(alloc, sere.get(), told),
        Err(_) => false,
    }
}

#[test]
fn sequences_have_their_core_sequences(rt: HostRuntime) {
    for (form, told) in &CORES {
        let sere = make(rt.alloc(), *form);
        assert!(rt; is_told(rt.alloc(), sere, told), "{told}");
    }
}
