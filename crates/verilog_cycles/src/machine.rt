//! The cycle machine.

ghost use Rattle.std.specs.Prelude.{◌≡◌, ℕ, IfOk, map};
ghost use Rattle.verilog_text.specs.Module as plain;
ghost use Rattle.verilog_text.specs.Module.{IsLawful};
ghost use Rattle.verilog_text.specs.Run.{FitWidths};
ghost use Rattle.verilog_text.specs.View.{module_of};
ghost use Rattle.verilog_text.specs.Interface.{port_widths};
ghost use Rattle.verilog_text.specs.State.{register_widths};
ghost use Rattle.verilog_cycles.specs.Steps.{IsStep, reset_values};

use crate::cycles::{put_initial, run};
use crate::program::Program;
use std::alloc::{AllocError, Global};
use std::marker::Model;
use verilog_text::Module;

/// A checker module that runs cycle by cycle. Contracts see the module and the values of its registers.
#[derive(Debug, Drop)]
pub struct Machine {
    checker: Module,
    program: Program,
    /// The registers, now.
    state: Vec<u64>,
    /// The values of the latest cycle, kept so that a step takes no memory.
    table: Vec<u64>,
}

impl Model for Machine {
    ghost use Rattle.verilog_cycles.specs.State.{State};
    ghost use Rattle.verilog_cycles.specs.inner.StateCode.{coded_state};

    ghost Value = { State };

    ghost coded = { coded_state };

    ghost use Rattle.verilog_text.specs.View.{module_of};
    ghost use Rattle.verilog_cycles.specs.inner.Program.{IsLoaded};

    ghost view = { λ x. record { loaded = x.checker; registers = x.state.items } };

    ghost invariant = { λ x. IsLoaded (module_of x.checker) x.program.first x.program.nodes.items
        x.program.nexts.items x.program.fail x.state.items x.table.items };
}

impl Machine {
    /// Takes a lawful module over. All registers are 0 until the first reset. This call alone takes memory.
    pub fn load(alloc: Global, checker: Module) -> Result<Machine, AllocError>
        requires { IsLawful (module_of checker) }
        ensures loaded { IfOk result (λ machine. machine.loaded ≡ checker) }
        ensures zeroes { IfOk result (λ machine.
            machine.registers ≡ map (λ (r : plain.Register). 0) (module_of checker).registers) }
    {
        let program = Program::new(alloc, &checker)?;
        let table = vec![in alloc; 0; program.nodes.len()]?;
        let state = vec![in alloc; 0; checker.regs.len()]?;
        Ok(Machine {
            checker,
            program,
            state,
            table,
        })
    }

    /// Runs the cycle of reset, with all other inputs 0.
    pub fn reset(&mut self)
        ensures module { self.new.loaded ≡ self.old.loaded }
        ensures registers { self.new.registers ≡ reset_values (module_of self.old.loaded) }
    {
        put_initial(self.checker.regs.as_slice(), &mut self.state);
    }

    /// Runs one cycle without reset and gives `mbac_fail`. There is a value for each port, in their order, and `eot` is
    /// `mbac_eot`.
    pub fn step(&mut self, values: &[u128], eot: bool) -> bool
        requires { FitWidths (port_widths (module_of self.old.loaded).ports) values.now }
        ensures module { self.new.loaded ≡ self.old.loaded }
        ensures step { IsStep (module_of self.old.loaded) values.now eot
            self.old.registers self.new.registers result }
    {
        run(&self.program, &mut self.table, &mut self.state, values, eot)
    }

    /// The module that was loaded.
    pub fn module(&self) -> &Module
        ensures same { result.now ≡ self.now.loaded }
        ensures lawful { IsLawful (module_of self.now.loaded) }
        ensures registers_fit { FitWidths (register_widths (module_of self.now.loaded)) self.now.registers }
    {
        &self.checker
    }
}
