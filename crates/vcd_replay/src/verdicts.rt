//! The verdict of a module on a trace.

ghost use Rattle.std.specs.Prelude.{◌≡◌, ◌<◌, ◌+◌, Bool, List, Some, map, length, slice_get};
ghost use Rattle.psl_model.specs.Value.{bit_of};
ghost use Rattle.verilog_text.specs.Run.{Cycle, IsRunFromReset, fail_stream};
ghost use Rattle.verilog_text.specs.View.{module_of};
ghost use Rattle.verilog_cycles.specs.Steps.{IsStep};
ghost use Rattle.vcd_replay.specs.FirstFail.{port_row, port_rows, end_values, IsFirstFail, FitsRow, FitsRows};

use crate::trace::Trace;
use verilog_cycles::Machine;
use verilog_cycles::laws::{steps_after_reset_answer_the_fail_stream, steps_go_on};

// `mbac_eot` in a cycle: 1 in the last one, if the execution ends at all.
fn ends_in(end: bool, cycle: u64, cycles: u64) -> bool
    requires { cycle < cycles }
    ensures { slice_get (end_values end cycles) cycle ≡ Some result }
{
    if cycle + 1 == cycles { end } else { false }
}

// A step on the module's part of a row.
fn step_on(machine: &mut Machine, row: &[u128], from: usize, count: usize, eot: bool) -> bool
    requires fits { FitsRow (module_of machine.old.loaded) from row.now }
    requires counts { count ≡ length (module_of machine.old.loaded).ports }
    ensures module { machine.new.loaded ≡ machine.old.loaded }
    ensures step { let m = module_of machine.old.loaded in
        IsStep m (port_row from (length m.ports) row.now) eot machine.old.registers machine.new.registers result }
{
    machine.step(&row[from..from + count], eot)
}

/// The first cycle of a trace, from 0, in which the module's output is 1 in a run from reset; None exactly where there
/// is none. The module's ports are the trace's signals from place `from` on, and `mbac_eot` is 1 in the last cycle
/// where `end` is true, and else 0 throughout. The machine may be in any state before, and is in some state after.
pub fn first_fail(machine: &mut Machine, trace: &Trace, from: usize, end: bool) -> Option<u64>
    requires fits { FitsRows (module_of machine.old.loaded) from trace.now }
    ensures module { machine.new.loaded ≡ machine.old.loaded }
    ensures first { let m = module_of machine.old.loaded in (reset : Cycle) (cycles : List Cycle) →
        IsRunFromReset m (port_rows from (length m.ports) trace.now)
        (map bit_of (end_values end (length trace.now))) reset cycles →
        IsFirstFail (fail_stream cycles) result }
{
    steps_after_reset_answer_the_fail_stream();
    steps_go_on();
    let count = machine.module().ports.len();
    machine.reset();
    let cycles = trace.cycles();
    for cycle in 0..cycles {
        let eot = ends_in(end, cycle, cycles);
        if step_on(machine, trace.row(cycle), from, count, eot) {
            return Some(cycle);
        }
    }
    None
}
