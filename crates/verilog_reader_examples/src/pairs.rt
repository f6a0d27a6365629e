//! Checkers of two signals, written, read back and run up to the end of a trace.

ghost use Rattle.std.specs.Prelude.{◌≡◌, true, [], ◌∷◌};
ghost use Rattle.verilog_text.specs.Interface.{port_widths};
ghost use Rattle.verilog_text.specs.Module.{IsLawful};
ghost use Rattle.verilog_text.specs.View.{module_of};

use crate::runs::read_last;
use crate::written::compiled;
use std::alloc::Global;
use verilog_cycles::Machine;
use verilog_text::Module;

// A unit, in each cycle its two signals in the order of their names' first use and whether the trace ends there, and
// the first cycle in which the checker fails.
static RISES: [(&[u8], &[(bool, bool, bool)], Option<usize>); 18] = [
    (
        b"vunit u { assert always (req -> next ack); }",
        &[(true, false, true)],
        None,
    ),
    (
        b"vunit u { assert always (req -> next! ack); }",
        &[(true, false, true)],
        Some(0),
    ),
    (
        b"vunit u { assert always (req -> next ack); }",
        &[
            (true, false, false),
            (true, true, false),
            (false, false, false),
        ],
        Some(2),
    ),
    (
        b"vunit u { assert always (req -> next![2] ack); }",
        &[(true, false, false), (false, true, true)],
        Some(1),
    ),
    (
        b"vunit u { assert req -> next_a[1:2] ack; }",
        &[
            (true, false, false),
            (false, true, false),
            (false, false, false),
        ],
        Some(2),
    ),
    (
        b"vunit u { assert a until! b; }",
        &[(true, false, false), (true, false, true)],
        Some(1),
    ),
    (
        b"vunit u { assert a until! b; }",
        &[(true, false, false), (true, false, false)],
        None,
    ),
    (
        b"vunit u { assert a until b; }",
        &[(true, false, false), (true, false, true)],
        None,
    ),
    (
        b"vunit u { assert a until b; }",
        &[(true, false, false), (false, true, false)],
        None,
    ),
    (
        b"vunit u { assert a until_ b; }",
        &[(true, false, false), (false, true, false)],
        Some(1),
    ),
    (
        b"vunit u { assert a before b; }",
        &[(false, false, false), (true, true, false)],
        Some(1),
    ),
    (
        b"vunit u { assert a before_ b; }",
        &[(false, false, false), (true, true, false)],
        None,
    ),
    (
        b"vunit u { assert always ({b[*3]} |-> c); }",
        &[
            (true, false, false),
            (true, false, false),
            (true, false, false),
        ],
        Some(2),
    ),
    (
        b"vunit u { assert always ({a;a} |=> b); }",
        &[
            (true, false, false),
            (true, false, false),
            (false, true, false),
            (true, false, true),
        ],
        None,
    ),
    // A match under way isn't forgotten where another one begins.
    (
        b"vunit u { assert always ({a;true;true} |-> b); }",
        &[
            (true, false, false),
            (true, false, false),
            (false, false, false),
        ],
        Some(2),
    ),
    (
        b"vunit u { assert always ({a} |=> next! b); }",
        &[(true, false, false), (false, false, true)],
        Some(1),
    ),
    (
        b"vunit u { assert never {a;b}; }",
        &[
            (true, false, false),
            (true, false, false),
            (false, true, false),
        ],
        Some(2),
    ),
    (
        b"vunit u { assert {a[*];b} |-> a; }",
        &[
            (true, false, false),
            (false, false, false),
            (false, true, false),
        ],
        None,
    ),
];

fn has_two_bits(checker: &Module) -> bool
    ensures { result ≡ true → port_widths checker.now.ports ≡ 1 ∷ 1 ∷ [] }
{
    match checker.ports.as_slice() {
        [first, second] => first.width == 1 && second.width == 1,
        _ => false,
    }
}

/// A cycle with these values and, perhaps, the end.
fn step(machine: &mut Machine, first: bool, second: bool, end: bool) -> bool
    requires { port_widths machine.old.loaded.ports ≡ 1 ∷ 1 ∷ [] }
    ensures { machine.new.loaded ≡ machine.old.loaded }
{
    machine.step(&[u128::from(first), u128::from(second)], end)
}

/// The first of the cycles in which the output is 1.
fn first_rise(machine: &mut Machine, cycles: &[(bool, bool, bool)]) -> Option<usize>
    requires { port_widths machine.old.loaded.ports ≡ 1 ∷ 1 ∷ [] }
{
    for (cycle, (first, second, end)) in cycles.iter().enumerate() {
        if step(machine, *first, *second, *end) {
            return Some(cycle);
        }
    }
    None
}

fn loaded_rises(
    alloc: Global,
    checker: Module,
    cycles: &[(bool, bool, bool)],
    wanted: Option<usize>,
) -> bool
    requires lawful { IsLawful (module_of checker) }
    requires ports { port_widths checker.ports ≡ 1 ∷ 1 ∷ [] }
{
    match Machine::load(alloc, checker) {
        Ok(loaded) => {
            let mut machine = loaded;
            machine.reset();
            first_rise(&mut machine, cycles) == wanted
        }
        Err(_) => false,
    }
}

/// Whether the last checker of a text has two ports of one bit and first fails in this cycle.
fn rises(alloc: Global, text: &[u8], cycles: &[(bool, bool, bool)], wanted: Option<usize>) -> bool {
    match read_last(alloc, text) {
        Some(checker) => {
            if has_two_bits(&checker) {
                loaded_rises(alloc, checker, cycles, wanted)
            } else {
                false
            }
        }
        None => false,
    }
}

#[test]
fn checkers_of_two_signals_fail_where_they_are_to(rt: HostRuntime) {
    for (unit, cycles, wanted) in &RISES {
        match compiled(rt.alloc(), unit) {
            Some(text) => assert!(rt; rises(rt.alloc(), &text, cycles, *wanted), "{unit:?}"),
            None => assert!(rt; false, "{unit:?}"),
        }
    }
}
