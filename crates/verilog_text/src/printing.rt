//! The text of a module, line by line.

ghost use Rattle.std.specs.Prelude.{◌≡◌, ◌++◌, OnOk, codes, map, flat_map};
ghost use Rattle.verilog_text.specs.Module.{names_of};
ghost use Rattle.verilog_text.specs.Text.{each_numbered, range_text, header_line, report_line, input_lines, port_line};
ghost use Rattle.verilog_text.specs.Text.{output_line, register_line, wire_declaration, wire_line, fail_line};
ghost use Rattle.verilog_text.specs.Text.{update_text, always_line, end_line, interface_lines, declaration_lines};
ghost use Rattle.verilog_text.specs.Text.{behaviour_lines, spelling};
ghost use Rattle.verilog_text.specs.View.{module_of, register_of, wire_of};
ghost use Rattle.verilog_text.specs.Growth.{Extends};

use crate::bytes::{put, put_number};
use crate::expressions::{put_expression, put_sized};
use crate::module::{Module, RegDecl, WireDecl};
use crate::names::{put_register_name, put_wire_name};
use psl_model::{Name, Signal};
use std::alloc::AllocError;

/// Appends the module's text. Every module is spelled; the text of a lawful one is a checker text.
#[tactic(auto, using(crate::proofs::Growth::extends_twice))]
pub fn print(checker: &Module, out: &mut Vec<u8>) -> Result<(), AllocError>
    ensures text { OnOk result (out.new.items ≡ out.old.items ++ spelling (module_of checker.now)) }
    ensures kept { Extends out.old.items out.new.items }
{
    put_interface(checker, out)?;
    put_declarations(checker, out)?;
    put_behaviour(checker, out)
}

#[tactic(auto, using(crate::proofs::Growth::extends_twice), unfolding(crate::specs::Text::interface_lines))]
fn put_interface(checker: &Module, out: &mut Vec<u8>) -> Result<(), AllocError>
    ensures text { OnOk result (out.new.items ≡ out.old.items ++ interface_lines (module_of checker.now)) }
    ensures kept { Extends out.old.items out.new.items }
{
    put_header(checker, out)?;
    put_report(&checker.report, out)?;
    put_inputs(out)?;
    put_ports(checker.ports.as_slice(), out)?;
    put_output(out)
}

#[tactic(auto, using(crate::proofs::Growth::extends_twice), unfolding(crate::specs::Text::declaration_lines))]
fn put_declarations(checker: &Module, out: &mut Vec<u8>) -> Result<(), AllocError>
    ensures text { OnOk result (out.new.items ≡ out.old.items ++ declaration_lines (module_of checker.now)) }
    ensures kept { Extends out.old.items out.new.items }
{
    put_registers(checker.regs.as_slice(), out)?;
    put_wires(checker, checker.wires.as_slice(), out)
}

#[tactic(auto, using(crate::proofs::Growth::extends_twice), unfolding(crate::specs::Text::behaviour_lines))]
fn put_behaviour(checker: &Module, out: &mut Vec<u8>) -> Result<(), AllocError>
    ensures text { OnOk result (out.new.items ≡ out.old.items ++ behaviour_lines (module_of checker.now)) }
    ensures kept { Extends out.old.items out.new.items }
{
    put_fail(checker, out)?;
    put_always_lines(checker, checker.regs.as_slice(), out)?;
    put_end(out)
}

#[tactic(auto, using(crate::proofs::Growth::extends_twice), unfolding(crate::specs::Text::header_line))]
fn put_header(checker: &Module, out: &mut Vec<u8>) -> Result<(), AllocError>
    ensures text { OnOk result (out.new.items ≡ out.old.items ++ header_line (module_of checker.now)) }
    ensures kept { Extends out.old.items out.new.items }
{
    put(b"module ", out)?;
    put(checker.name.bytes(), out)?;
    put(b" (mbac_clk, mbac_rst, mbac_eot, ", out)?;
    put_port_names(checker.ports.as_slice(), out)?;
    put(b"mbac_fail);\n", out)
}

#[tactic(auto, using(crate::proofs::Growth::extends_twice, crate::proofs::Growth::extends_none))]
fn put_port_names(ports: &[Signal], out: &mut Vec<u8>) -> Result<(), AllocError>
    ensures text { OnOk result (out.new.items ≡ out.old.items ++ flat_map (λ p. p.name ++ codes ", ") ports.now) }
    ensures kept { Extends out.old.items out.new.items }
{
    for port in ports {
        put(port.name.bytes(), out)?;
        put(b", ", out)?;
    }
    Ok(())
}

#[tactic(auto, using(crate::proofs::Growth::extends_twice), unfolding(crate::specs::Text::report_line))]
fn put_report(report: &Option<Name>, out: &mut Vec<u8>) -> Result<(), AllocError>
    ensures text { OnOk result (out.new.items ≡ out.old.items ++ report_line report.now) }
    ensures kept { Extends out.old.items out.new.items }
{
    let Some(text) = report else {
        return Ok(());
    };
    put(b"  // ", out)?;
    put(text.bytes(), out)?;
    put(b"\n", out)
}

#[tactic(auto, using(crate::proofs::Growth::extends_twice), unfolding(crate::specs::Text::input_lines))]
fn put_inputs(out: &mut Vec<u8>) -> Result<(), AllocError>
    ensures text { OnOk result (out.new.items ≡ out.old.items ++ input_lines) }
    ensures kept { Extends out.old.items out.new.items }
{
    put(b"  input mbac_clk;\n", out)?;
    put(b"  input mbac_rst;\n", out)?;
    put(b"  input mbac_eot;\n", out)
}

#[tactic(auto, using(crate::proofs::Growth::extends_twice, crate::proofs::Growth::extends_none))]
fn put_ports(ports: &[Signal], out: &mut Vec<u8>) -> Result<(), AllocError>
    ensures text { OnOk result (out.new.items ≡ out.old.items ++ flat_map port_line ports.now) }
    ensures kept { Extends out.old.items out.new.items }
{
    for port in ports {
        put_port(port, out)?;
    }
    Ok(())
}

#[tactic(auto, using(crate::proofs::Growth::extends_twice), unfolding(crate::specs::Text::port_line))]
fn put_port(port: &Signal, out: &mut Vec<u8>) -> Result<(), AllocError>
    ensures text { OnOk result (out.new.items ≡ out.old.items ++ port_line port.now) }
    ensures kept { Extends out.old.items out.new.items }
{
    put(b"  input ", out)?;
    put_range(port.width, out)?;
    put(port.name.bytes(), out)?;
    put(b";\n", out)
}

/// The range of a vector, and nothing for one bit.
#[tactic(auto, using(crate::proofs::Growth::extends_twice), unfolding(crate::specs::Text::range_text))]
fn put_range(width: u32, out: &mut Vec<u8>) -> Result<(), AllocError>
    ensures text { OnOk result (out.new.items ≡ out.old.items ++ range_text width) }
    ensures kept { Extends out.old.items out.new.items }
{
    if width == 1 {
        return Ok(());
    }
    put(b"[", out)?;
    put_number(width.saturating_sub(1), out)?;
    put(b":0] ", out)
}

#[tactic(auto, using(crate::proofs::Growth::extends_twice), unfolding(crate::specs::Text::output_line))]
fn put_output(out: &mut Vec<u8>) -> Result<(), AllocError>
    ensures text { OnOk result (out.new.items ≡ out.old.items ++ output_line) }
    ensures kept { Extends out.old.items out.new.items }
{
    put(b"  output mbac_fail;\n", out)
}

#[tactic(auto, using(crate::proofs::Growth::extends_twice), unfolding(crate::specs::Text::end_line))]
fn put_end(out: &mut Vec<u8>) -> Result<(), AllocError>
    ensures text { OnOk result (out.new.items ≡ out.old.items ++ end_line) }
    ensures kept { Extends out.old.items out.new.items }
{
    put(b"endmodule\n", out)
}

#[tactic(auto, using(crate::proofs::Growth::extends_twice, crate::proofs::Growth::extends_none))]
fn put_registers(registers: &[RegDecl], out: &mut Vec<u8>) -> Result<(), AllocError>
    ensures text { OnOk result
        (out.new.items ≡ out.old.items ++ each_numbered register_line 0 (map register_of registers.now)) }
    ensures kept { Extends out.old.items out.new.items }
{
    for (number, register) in registers.iter().enumerate() {
        put_register(number, register, out)?;
    }
    Ok(())
}

#[tactic(auto, using(crate::proofs::Growth::extends_twice), unfolding(crate::specs::Text::register_line))]
fn put_register(number: usize, register: &RegDecl, out: &mut Vec<u8>) -> Result<(), AllocError>
    ensures text { OnOk result (out.new.items ≡ out.old.items ++ register_line number (register_of register.now)) }
    ensures kept { Extends out.old.items out.new.items }
{
    put(b"  reg ", out)?;
    put_range(register.width, out)?;
    put_register_name(number, out)?;
    put(b";\n", out)
}

#[tactic(auto, using(crate::proofs::Growth::extends_twice, crate::proofs::Growth::extends_none))]
fn put_wires(checker: &Module, wires: &[WireDecl], out: &mut Vec<u8>) -> Result<(), AllocError>
    ensures text { OnOk result (out.new.items ≡ out.old.items
        ++ each_numbered (wire_line (names_of (module_of checker.now))) 0 (map wire_of wires.now)) }
    ensures kept { Extends out.old.items out.new.items }
{
    for (number, wire) in wires.iter().enumerate() {
        put_wire(checker, number, wire, out)?;
    }
    Ok(())
}

#[tactic(auto, using(crate::proofs::Growth::extends_twice), unfolding(crate::specs::Text::wire_line))]
fn put_wire(
    checker: &Module,
    number: usize,
    wire: &WireDecl,
    out: &mut Vec<u8>,
) -> Result<(), AllocError>
    ensures text { OnOk result
        (out.new.items ≡ out.old.items ++ wire_line (names_of (module_of checker.now)) number (wire_of wire.now)) }
    ensures kept { Extends out.old.items out.new.items }
{
    put_wire_declaration(number, wire, out)?;
    put(b" = ", out)?;
    put_expression(checker, &wire.value, out)?;
    put(b";\n", out)
}

#[tactic(auto, using(crate::proofs::Growth::extends_twice), unfolding(crate::specs::Text::wire_declaration))]
fn put_wire_declaration(number: usize, wire: &WireDecl, out: &mut Vec<u8>) -> Result<(), AllocError>
    ensures text { OnOk result (out.new.items ≡ out.old.items ++ wire_declaration number (wire_of wire.now)) }
    ensures kept { Extends out.old.items out.new.items }
{
    put(b"  wire ", out)?;
    put_range(wire.width, out)?;
    put_wire_name(number, out)
}

#[tactic(auto, using(crate::proofs::Growth::extends_twice), unfolding(crate::specs::Text::fail_line))]
fn put_fail(checker: &Module, out: &mut Vec<u8>) -> Result<(), AllocError>
    ensures text { OnOk result (out.new.items ≡ out.old.items
        ++ fail_line (names_of (module_of checker.now)) (module_of checker.now).fail) }
    ensures kept { Extends out.old.items out.new.items }
{
    put(b"  assign mbac_fail = ", out)?;
    put_expression(checker, &checker.fail, out)?;
    put(b";\n", out)
}

#[tactic(auto, using(crate::proofs::Growth::extends_twice, crate::proofs::Growth::extends_none))]
fn put_always_lines(
    checker: &Module,
    registers: &[RegDecl],
    out: &mut Vec<u8>,
) -> Result<(), AllocError>
    ensures text { OnOk result (out.new.items ≡ out.old.items
        ++ each_numbered (always_line (names_of (module_of checker.now))) 0 (map register_of registers.now)) }
    ensures kept { Extends out.old.items out.new.items }
{
    for (number, register) in registers.iter().enumerate() {
        put_always(checker, number, register, out)?;
    }
    Ok(())
}

#[tactic(auto, using(crate::proofs::Growth::extends_twice), unfolding(crate::specs::Text::always_line))]
fn put_always(
    checker: &Module,
    number: usize,
    register: &RegDecl,
    out: &mut Vec<u8>,
) -> Result<(), AllocError>
    ensures text { OnOk result (out.new.items ≡ out.old.items
        ++ always_line (names_of (module_of checker.now)) number (register_of register.now)) }
    ensures kept { Extends out.old.items out.new.items }
{
    put(b"  always @(posedge mbac_clk) ", out)?;
    put_register_name(number, out)?;
    put(b" <= ", out)?;
    put_update(checker, register, out)?;
    put(b";\n", out)
}

#[tactic(auto, using(crate::proofs::Growth::extends_twice), unfolding(crate::specs::Text::update_text))]
fn put_update(checker: &Module, register: &RegDecl, out: &mut Vec<u8>) -> Result<(), AllocError>
    ensures text { OnOk result
        (out.new.items ≡ out.old.items ++ update_text (names_of (module_of checker.now)) (register_of register.now)) }
    ensures kept { Extends out.old.items out.new.items }
{
    put(b"(mbac_rst ? ", out)?;
    put_sized(register.width, register.init, out)?;
    put(b" : ", out)?;
    put_expression(checker, &register.next, out)?;
    put(b")", out)
}
