//! Checkers that are written, read back and run cycle by cycle.

ghost use Rattle.std.specs.Prelude.{◌≡◌, ◌≤◌, ◌<◌, ◌^◌, true, [], ◌∷◌, map, All, IfSome};
ghost use Rattle.verilog_text.specs.Interface.{port_widths};
ghost use Rattle.verilog_text.specs.Module.{IsLawful};
ghost use Rattle.verilog_text.specs.View.{module_of};

use crate::written::compiled;
use std::alloc::Global;
use verilog_cycles::Machine;
use verilog_reader::read_modules;
use verilog_text::Module;

// A unit, the width of its port, the port's values, and the first cycle in which the checker fails.
static RISES: [(&[u8], u32, &[u8], Option<usize>); 6] = [
    (b"vunit u { assert always a; }", 1, b"\x01\x01\x00", Some(2)),
    (b"vunit u { assert always a; }", 1, b"\x01\x01\x01", None),
    (b"vunit u { assert never a; }", 1, b"\x00\x01\x00", Some(1)),
    (
        b"vunit u { wire [3:0] d; assert always (d[3] -> d[0]); }",
        4,
        b"\x07\x09\x0a\x0b",
        Some(2),
    ),
    (
        b"vunit u { wire [3:0] cnt; assert always !(cnt + 1 == 0); }",
        4,
        b"\x0f",
        None,
    ),
    (
        b"vunit u { wire [3:0] cnt; assert always !(cnt + 4'd1 == 4'd0); }",
        4,
        b"\x0f",
        Some(0),
    ),
];

/// The last of the modules.
fn last(modules: Vec<Module>) -> Option<Module>
    requires { All IsLawful (map module_of modules.items) }
    ensures { IfSome result (λ checker. IsLawful (module_of checker)) }
{
    let mut modules = modules;
    modules.pop()
}

/// The last of the modules that the bytes stand for.
pub(crate) fn read_last(alloc: Global, text: &[u8]) -> Option<Module>
    ensures { IfSome result (λ checker. IsLawful (module_of checker)) }
{
    match read_modules(alloc, text) {
        Ok(modules) => last(modules),
        Err(_) => None,
    }
}

fn has_one_port(checker: &Module, width: u32) -> bool
    ensures { result ≡ true → port_widths checker.now.ports ≡ width ∷ [] }
{
    match checker.ports.as_slice() {
        [port] => port.width == width,
        _ => false,
    }
}

/// The low bits of a value.
fn cut(value: u8, width: u32) -> u128
    requires { width ≤ 8 }
    ensures { result < 2 ^ width }
{
    u128::from(value) % (1u128 << width)
}

/// A cycle in which the port has this value.
fn step(machine: &mut Machine, width: u32, value: u8) -> bool
    requires width { width ≤ 8 }
    requires ports { port_widths machine.old.loaded.ports ≡ width ∷ [] }
    ensures { machine.new.loaded ≡ machine.old.loaded }
{
    machine.step(&[cut(value, width)], false)
}

/// The first of the cycles in which the output is 1.
fn first_rise(machine: &mut Machine, width: u32, values: &[u8]) -> Option<usize>
    requires width { width ≤ 8 }
    requires ports { port_widths machine.old.loaded.ports ≡ width ∷ [] }
{
    for (cycle, value) in values.iter().enumerate() {
        if step(machine, width, *value) {
            return Some(cycle);
        }
    }
    None
}

fn loaded_rises(
    alloc: Global,
    checker: Module,
    width: u32,
    values: &[u8],
    wanted: Option<usize>,
) -> bool
    requires lawful { IsLawful (module_of checker) }
    requires width { width ≤ 8 }
    requires ports { port_widths checker.ports ≡ width ∷ [] }
{
    match Machine::load(alloc, checker) {
        Ok(loaded) => {
            let mut machine = loaded;
            machine.reset();
            first_rise(&mut machine, width, values) == wanted
        }
        Err(_) => false,
    }
}

/// Whether the last checker of a text has one port of this width and first fails in this cycle.
fn rises(alloc: Global, text: &[u8], width: u32, values: &[u8], wanted: Option<usize>) -> bool {
    match read_last(alloc, text) {
        Some(checker) => {
            if width <= 8 && has_one_port(&checker, width) {
                loaded_rises(alloc, checker, width, values, wanted)
            } else {
                false
            }
        }
        None => false,
    }
}

#[test]
fn checkers_that_are_read_back_fail_where_they_are_to(rt: HostRuntime) {
    for (unit, width, values, wanted) in &RISES {
        match compiled(rt.alloc(), unit) {
            Some(text) => {
                assert!(rt;
                    rises(rt.alloc(), &text, *width, values, *wanted),
                    "{unit:?}"
                );
            }
            None => assert!(rt; false, "{unit:?}"),
        }
    }
}
