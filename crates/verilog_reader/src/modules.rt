//! Whole modules.

ghost use Rattle.std.specs.Prelude.{◌≡◌, length, map};
ghost use Rattle.indexmap.specs.IndexMap.{keys, values};
ghost use Rattle.verilog_text.specs.Text.{output_line};
ghost use Rattle.verilog_text.specs.View.{module_of};
ghost use Rattle.verilog_reader.specs.inner.Answers.{Gives};
ghost use Rattle.verilog_reader.specs.inner.InterfaceView.{interface_of};
ghost use Rattle.verilog_reader.specs.inner.Lines.{inputs_at, interface_at, module_at};
ghost use Rattle.verilog_reader.specs.inner.Pieces.{after_text};

use crate::behaviour::read_behaviour;
use crate::bytes::expect;
use crate::declarations::{read_ports, read_registers, read_wires};
use crate::errors::Stop;
use crate::headers::{read_header, read_report};
use crate::interfaces::Interface;
use crate::names::port_table;
use sqlite_items::Items;
use std::alloc::Global;
use verilog_text::Module;

/// What follows the lines of the clock, of reset and of the end of execution.
#[tactic(auto, using(crate::proofs::Steps::stopped), unfolding(crate::specs::inner::Lines::inputs_at))]
fn expect_inputs(bytes: &[u8]) -> Result<&[u8], Stop>
    ensures { Gives (λ rest. rest.now) result (inputs_at bytes.now) }
{
    let reset = expect(bytes, b"  input mbac_clk;\n")?;
    let end = expect(reset, b"  input mbac_rst;\n")?;
    let rest = expect(end, b"  input mbac_eot;\n")?;
    Ok(rest)
}

#[tactic(auto, unfolding(verilog_text::specs::Text::output_line))]
fn expect_output(bytes: &[u8]) -> Result<&[u8], Stop>
    ensures { Gives (λ rest. rest.now) result (after_text output_line bytes.now) }
{
    expect(bytes, b"  output mbac_fail;\n")
}

/// The lines up to the output's. The ports' names are compared at the header.
#[tactic(auto, using(crate::proofs::Steps::stopped), unfolding(crate::specs::inner::Lines::interface_at))]
fn read_interface(alloc: Global, bytes: &[u8]) -> Result<Interface<'_>, Stop>
    ensures { Gives interface_of result (interface_at bytes.now) }
{
    let (name, header, after) = read_header(alloc, bytes)?;
    let _names = port_table(alloc, header.as_slice(), bytes.len())?;
    let (report, lines) = read_report(alloc, after)?;
    let inputs = expect_inputs(lines)?;
    let (ports, outputs) = read_ports(alloc, header.as_slice(), inputs)?;
    let table = port_table(alloc, ports.as_slice(), inputs.len())?;
    let rest = expect_output(outputs)?;
    Ok(Interface {
        name,
        report,
        ports,
        table,
        rest,
    })
}

/// The module at the front, and what follows it.
#[tactic(auto, using(crate::proofs::Steps::stopped), unfolding(crate::specs::inner::Lines::module_at))]
pub fn read_module(alloc: Global, bytes: &[u8]) -> Result<(Module, &[u8]), Stop>
    ensures { Gives (λ read. (module_of read.0, read.1.now)) result (module_at bytes.now) }
{
    let interface = read_interface(alloc, bytes)?;
    let Interface {
        name,
        report,
        ports,
        mut table,
        rest,
    } = interface;
    let (widths, declared) = read_registers(alloc, &mut table, rest)?;
    let (wires, lines) = read_wires(alloc, &mut table, declared)?;
    let (fail, registers, end) = read_behaviour(alloc, &table, widths.as_slice(), lines)?;
    Ok((
        Module {
            name,
            report,
            ports: Items::from_vec(ports),
            regs: Items::from_vec(registers),
            wires: Items::from_vec(wires),
            fail,
        },
        end,
    ))
}
