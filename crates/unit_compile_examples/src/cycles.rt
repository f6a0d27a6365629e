//! The cycles in which the last checker of a unit fails. Each watches one signal, of one bit or of four.

ghost use Rattle.std.specs.Prelude.{◌≡◌, ◌<◌, ◌≤◌, ◌^◌, ◌∷◌, [], All, IfSome, length, map};
ghost use Rattle.psl_model.specs.Limits.{unit_text_limit};
ghost use Rattle.verilog_text.specs.Interface.{port_widths};
ghost use Rattle.verilog_text.specs.Module.{IsLawful};
ghost use Rattle.verilog_text.specs.View.{module_of};

use crate::answers::LONGEST;
use std::alloc::Global;
use unit_compile::modules;
use verilog_cycles::Machine;
use verilog_text::Module;

// The last of some modules.
fn last_of(mut modules: Vec<Module>) -> Option<Module>
    requires { All IsLawful (map module_of modules.items) }
    ensures { IfSome result (λ m. IsLawful (module_of m)) }
{
    modules.pop()
}

// The last checker of a unit.
fn last_checker(alloc: Global, unit: &[u8]) -> Option<Module>
    requires { length unit.now ≤ unit_text_limit }
    ensures { IfSome result (λ m. IsLawful (module_of m)) }
{
    match modules(alloc, unit) {
        Ok(found) => last_of(found),
        Err(_) => None,
    }
}

// The bits of the one port.
fn one_width(machine: &Machine) -> Option<u32>
    ensures { IfSome result (λ width. port_widths (module_of machine.now.loaded).ports ≡ width ∷ []) }
{
    match machine.module().ports.as_slice() {
        [port] => Some(port.width),
        _ => None,
    }
}

// A value that fits so many bits.
fn fitting(width: u32, value: u8) -> u128
    ensures { result < 2 ^ width }
{
    match width {
        1 => u128::from(value % 2),
        4 => u128::from(value % 16),
        _ => 0,
    }
}

fn step(machine: &mut Machine, width: u32, value: u8) -> bool
    requires { port_widths (module_of machine.old.loaded).ports ≡ width ∷ [] }
    ensures { machine.new.loaded ≡ machine.old.loaded }
{
    machine.step(&[fitting(width, value)], false)
}

fn steps_so(machine: &mut Machine, width: u32, cycles: &[(u8, bool)]) -> bool
    requires { port_widths (module_of machine.old.loaded).ports ≡ width ∷ [] }
{
    for (value, fails) in cycles {
        if step(machine, width, *value) != *fails {
            return false;
        }
    }
    true
}

fn runs_so(machine: &mut Machine, cycles: &[(u8, bool)]) -> bool {
    machine.reset();
    match one_width(machine) {
        Some(width) => steps_so(machine, width, cycles),
        None => false,
    }
}

fn loads_and_runs_so(alloc: Global, checker: Module, cycles: &[(u8, bool)]) -> bool
    requires { IsLawful (module_of checker) }
{
    match Machine::load(alloc, checker) {
        Ok(loaded) => {
            let mut machine = loaded;
            runs_so(&mut machine, cycles)
        }
        Err(_) => false,
    }
}

// Whether the checker fails in just these cycles after reset, in which its signal has these values.
fn fails_so(alloc: Global, unit: &[u8], cycles: &[(u8, bool)]) -> bool {
    if unit.len() > LONGEST {
        return false;
    }
    match last_checker(alloc, unit) {
        Some(checker) => loads_and_runs_so(alloc, checker, cycles),
        None => false,
    }
}

static UNITS: [(&[u8], [(u8, bool); 3]); 4] = [
    (
        b"vunit u { assert always a; }",
        [(1, false), (1, false), (0, true)],
    ),
    // 15 and 1 more are 16 in 32 bits, and 0 in four.
    (
        b"vunit u { wire [3:0] cnt; assert always !(cnt + 1 == 0); }",
        [(15, false), (15, false), (0, false)],
    ),
    (
        b"vunit u { wire [3:0] cnt; assert always !(cnt + 4'd1 == 4'd0); }",
        [(15, true), (14, false), (15, true)],
    ),
    // `always` binds more loosely than `->`: what follows is wanted of each cycle.
    (
        b"vunit u { wire [3:0] cnt; assert always cnt[0] -> cnt[1]; }",
        [(3, false), (0, false), (1, true)],
    ),
];

#[test]
fn checkers_fail_where_their_assertion_is_violated(rt: HostRuntime) {
    for (unit, cycles) in &UNITS {
        assert!(rt; fails_so(rt.alloc(), unit, cycles), "{unit:?}");
    }
}
