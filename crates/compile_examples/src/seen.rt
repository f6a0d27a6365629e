//! What is seen of the checker of a base formula over the counter.

ghost use Rattle.std.specs.Prelude.{◌≡◌, [], ◌∷◌, IfOk};
ghost use Rattle.property_circuits.specs.Conditions.{IsBuilt, HasGuards};
ghost use Rattle.verilog_text.specs.Module.{IsLawful};
ghost use Rattle.verilog_text.specs.View.{module_of};
ghost use Rattle.compile_examples.specs.Ports.{module_name, counter};

use crate::ports::{called, ports, the_counter_is_a_port};
use mbac_compile::{Checker, checker_of};
use property_circuits::CircuitError;
use psl_model::{Name, Signal};
use psl_rewrite::Subbase;
use std::alloc::Global;
use verilog_cycles::Machine;
use verilog_text::{Module, print};

// The checker over the counter, where no step of a sequence's table is left.
fn made(
    alloc: Global,
    formula: &Subbase,
    name: Name,
    ports: Vec<Signal>,
) -> Result<Checker, CircuitError>
    requires built { IsBuilt formula.now }
    requires guards { HasGuards (4 ∷ []) formula.now }
    requires name { name ≡ module_name }
    requires ports { ports.items ≡ counter }
    ensures lawful { IfOk result (λ x. IsLawful (module_of x.checker)) }
    ensures ports { IfOk result (λ x. x.checker.ports ≡ counter) }
{
    the_counter_is_a_port();
    let widths: [u32; 1] = [4];
    checker_of(alloc, formula.get(), &widths, 0, name, None, ports)
}

/// The checker of a base formula.
pub(crate) fn checker(alloc: Global, formula: &Subbase) -> Result<Checker, CircuitError>
    requires built { IsBuilt formula.now }
    requires guards { HasGuards (4 ∷ []) formula.now }
    ensures lawful { IfOk result (λ x. IsLawful (module_of x.checker)) }
    ensures ports { IfOk result (λ x. x.checker.ports ≡ counter) }
{
    let name = called(alloc)?;
    let ports = ports(alloc)?;
    made(alloc, formula, name, ports)
}

/// Whether the module has this text.
pub(crate) fn prints_so(alloc: Global, checker: &Module, wanted: &[u8]) -> bool {
    let mut text = Vec::new(alloc);
    match print(checker, &mut text) {
        Ok(()) => text.as_slice() == wanted,
        Err(_) => false,
    }
}

/// Whether the checker is made and has this text.
pub(crate) fn has_text(alloc: Global, formula: &Subbase, wanted: &[u8]) -> bool
    requires built { IsBuilt formula.now }
    requires guards { HasGuards (4 ∷ []) formula.now }
{
    match checker(alloc, formula) {
        Ok(made) => prints_so(alloc, &made.checker, wanted),
        Err(_) => false,
    }
}

// A cycle in which the counter has this value, 15 at most.
fn step(machine: &mut Machine, count: u8) -> bool
    requires { machine.old.loaded.ports ≡ counter }
    ensures { machine.new.loaded ≡ machine.old.loaded }
{
    machine.step(&[u128::from(count % 16)], false)
}

fn steps_so(machine: &mut Machine, cycles: &[(u8, bool)]) -> bool
    requires { machine.old.loaded.ports ≡ counter }
{
    for (count, fails) in cycles {
        if step(machine, *count) != *fails {
            return false;
        }
    }
    true
}

fn runs_so(alloc: Global, checker: Module, cycles: &[(u8, bool)]) -> bool
    requires lawful { IsLawful (module_of checker) }
    requires ports { checker.ports ≡ counter }
{
    match Machine::load(alloc, checker) {
        Ok(loaded) => {
            let mut machine = loaded;
            machine.reset();
            steps_so(&mut machine, cycles)
        }
        Err(_) => false,
    }
}

/// Whether the checker is made and fails in just these cycles after reset, in which the counter has these values.
pub(crate) fn fails_so(alloc: Global, formula: &Subbase, cycles: &[(u8, bool)]) -> bool
    requires built { IsBuilt formula.now }
    requires guards { HasGuards (4 ∷ []) formula.now }
{
    match checker(alloc, formula) {
        Ok(made) => runs_so(alloc, made.checker, cycles),
        Err(_) => false,
    }
}
