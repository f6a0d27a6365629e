//! The lines that declare ports, registers and wires.

ghost use Rattle.std.specs.Prelude.{◌≡◌, ◌<◌, ◌++◌, true, decimal, length, map, IfOk};
ghost use Rattle.verilog_text.specs.Text.{register_name, wire_name};
ghost use Rattle.verilog_text.specs.View.{wire_of};
ghost use Rattle.indexmap.specs.IndexMap.{keys, values};
ghost use Rattle.verilog_reader.specs.inner.Answers.{Gives};
ghost use Rattle.verilog_reader.specs.inner.Lines.{range_fits, wide_range_at, range_at, declaration_at, port_at};
ghost use Rattle.verilog_reader.specs.inner.Lines.{ports_at, register_at, wire_value_at, wire_at, registers_at};
ghost use Rattle.verilog_reader.specs.inner.Lines.{wires_at};

use crate::bytes::{expect, read_number, strip};
use crate::errors::Stop;
use crate::expressions::read_expression;
use crate::names::put_name;
use indexmap::IndexMap;
use itoa::Buffer;
use psl_model::{Name, Signal};
use std::alloc::{AllocError, Global};
use verilog_text::WireDecl;

/// The most parentheses that may be open at any place of an expression.
pub const PARENTHESES: u32 = 520;

#[tactic(auto, unfolding(crate::specs::inner::Lines::range_fits))]
fn is_range(high: u64) -> bool
    ensures value { result ≡ range_fits high }
    ensures small { result ≡ true → high < 64 }
{
    1 <= high && high < 64
}

/// The width of a range, from its high end on.
#[tactic(auto, using(crate::proofs::Steps::stopped), unfolding(crate::specs::inner::Lines::wide_range_at))]
fn read_wide_range(bytes: &[u8]) -> Result<(u32, &[u8]), Stop>
    ensures { Gives (λ read. (read.0, read.1.now)) result (wide_range_at bytes.now) }
{
    let (high, after) = read_number(bytes)?;
    let rest = expect(after, b":0] ")?;
    if is_range(high) {
        Ok((high as u32 + 1, rest))
    } else {
        Err(Stop::Wrong { left: bytes.len() })
    }
}

/// The width of a range. Without one it is 1.
#[tactic(auto, unfolding(crate::specs::inner::Lines::range_at))]
fn read_range(bytes: &[u8]) -> Result<(u32, &[u8]), Stop>
    ensures { Gives (λ read. (read.0, read.1.now)) result (range_at bytes.now) }
{
    match strip(bytes, b"[") {
        Some(start) => read_wide_range(start),
        None => Ok((1, bytes)),
    }
}

/// A range, this name and this end.
#[tactic(auto, using(crate::proofs::Steps::stopped), unfolding(crate::specs::inner::Lines::declaration_at))]
pub fn read_declaration<'a>(
    name: &[u8],
    end: &[u8],
    bytes: &'a [u8],
) -> Result<(u32, &'a [u8]), Stop>
    ensures { Gives (λ read. (read.0, read.1.now)) result (declaration_at name.now end.now bytes.now) }
{
    let (width, start) = read_range(bytes)?;
    let named = expect(start, name)?;
    let rest = expect(named, end)?;
    Ok((width, rest))
}

/// A port's line.
#[tactic(auto, using(crate::proofs::Steps::stopped), unfolding(crate::specs::inner::Lines::port_at))]
fn read_port<'a>(alloc: Global, port: &Signal, bytes: &'a [u8]) -> Result<(Signal, &'a [u8]), Stop>
    ensures { Gives (λ read. (read.0, read.1.now)) result (port_at port.now bytes.now) }
{
    let start = expect(bytes, b"  input ")?;
    let (width, rest) = read_declaration(port.name.bytes(), b";\n", start)?;
    let name = port.name.copy(alloc)?;
    Ok((Signal { name, width }, rest))
}

/// The ports' lines, in the header's order.
pub fn read_ports<'a>(
    alloc: Global,
    header: &[Signal],
    bytes: &'a [u8],
) -> Result<(Vec<Signal>, &'a [u8]), Stop>
    ensures { Gives (λ read. (read.0.items, read.1.now)) result (ports_at header.now bytes.now) }
{
    let mut ports = Vec::new(alloc);
    let mut rest = bytes;
    'ports: for port in header {
        let (declared, after) = read_port(alloc, port, rest)?;
        ports.push(declared)?;
        rest = after;
    }
    Ok((ports, rest))
}

/// A stem with a number behind it.
fn numbered_name(alloc: Global, stem: &[u8], number: usize) -> Result<Name, AllocError>
    ensures { IfOk result (λ name. name ≡ stem.now ++ decimal number) }
{
    let mut bytes = Vec::from_slice(alloc, stem)?;
    bytes.extend_from_slice(Buffer::new().format(number).as_bytes())?;
    Name::new(alloc, bytes.as_slice())
}

#[tactic(auto, unfolding(verilog_text::specs::Text::register_name))]
pub fn register_name(alloc: Global, number: usize) -> Result<Name, AllocError>
    ensures { IfOk result (λ name. name ≡ register_name number) }
{
    numbered_name(alloc, b"mbac_r", number)
}

#[tactic(auto, unfolding(verilog_text::specs::Text::wire_name))]
pub fn wire_name(alloc: Global, number: usize) -> Result<Name, AllocError>
    ensures { IfOk result (λ name. name ≡ wire_name number) }
{
    numbered_name(alloc, b"mbac_n", number)
}

/// A register, behind its first word.
#[tactic(auto, using(crate::proofs::Steps::stopped), unfolding(crate::specs::inner::Lines::register_at))]
fn read_register<'a>(
    alloc: Global,
    table: &mut IndexMap<Name, u32>,
    number: usize,
    bytes: &'a [u8],
) -> Result<(u32, &'a [u8]), Stop>
    ensures { Gives (λ read. ((read.0, (keys table.new, values table.new)), read.1.now)) result
        (register_at (keys table.old, values table.old) number bytes.now) }
{
    let name = register_name(alloc, number)?;
    let (width, rest) = read_declaration(name.bytes(), b";\n", bytes)?;
    put_name(table, name, width, bytes.len())?;
    Ok((width, rest))
}

/// A wire of this name, behind its first word and over the names before it.
#[tactic(auto, using(crate::proofs::Steps::stopped), unfolding(crate::specs::inner::Lines::wire_value_at))]
fn read_wire_value<'a>(
    alloc: Global,
    table: &IndexMap<Name, u32>,
    name: &[u8],
    bytes: &'a [u8],
) -> Result<(WireDecl, &'a [u8]), Stop>
    ensures { Gives (λ read. (wire_of read.0, read.1.now)) result
        (wire_value_at (keys table.now, values table.now) name.now bytes.now) }
{
    let (width, start) = read_declaration(name, b" = ", bytes)?;
    let value = read_expression(alloc, table, PARENTHESES, start)?;
    let rest = expect(value.rest, b";\n")?;
    Ok((
        WireDecl {
            width,
            value: value.expr,
        },
        rest,
    ))
}

/// A wire, behind its first word.
#[tactic(auto, using(crate::proofs::Steps::stopped), unfolding(crate::specs::inner::Lines::wire_at))]
fn read_wire<'a>(
    alloc: Global,
    table: &mut IndexMap<Name, u32>,
    number: usize,
    bytes: &'a [u8],
) -> Result<(WireDecl, &'a [u8]), Stop>
    ensures { Gives (λ read. ((wire_of read.0, (keys table.new, values table.new)), read.1.now)) result
        (wire_at (keys table.old, values table.old) number bytes.now) }
{
    let name = wire_name(alloc, number)?;
    let (wire, rest) = read_wire_value(alloc, table, name.bytes(), bytes)?;
    put_name(table, name, wire.width, bytes.len())?;
    Ok((wire, rest))
}

/// The registers. They are put at the table's end.
#[tactic(auto, using(crate::proofs::Steps::stopped), unfolding(crate::specs::inner::Lines::registers_at))]
pub fn read_registers<'a>(
    alloc: Global,
    table: &mut IndexMap<Name, u32>,
    bytes: &'a [u8],
) -> Result<(Vec<u32>, &'a [u8]), Stop>
    ensures { Gives (λ read. ((read.0.items, (keys table.new, values table.new)), read.1.now)) result
        (registers_at (length bytes.now) (keys table.old, values table.old) 0 bytes.now) }
{
    let mut widths = Vec::new(alloc);
    let mut rest = bytes;
    'registers: for number in 0..bytes.len() {
        let Some(start) = strip(rest, b"  reg ") else {
            return Ok((widths, rest));
        };
        let (width, after) = read_register(alloc, table, number, start)?;
        widths.push(width)?;
        rest = after;
    }
    Ok((widths, rest))
}

/// The wires. They are put at the table's end.
#[tactic(auto, using(crate::proofs::Steps::stopped), unfolding(crate::specs::inner::Lines::wires_at))]
pub fn read_wires<'a>(
    alloc: Global,
    table: &mut IndexMap<Name, u32>,
    bytes: &'a [u8],
) -> Result<(Vec<WireDecl>, &'a [u8]), Stop>
    ensures { Gives (λ read. ((map wire_of read.0.items, (keys table.new, values table.new)), read.1.now)) result
        (wires_at (length bytes.now) (keys table.old, values table.old) 0 bytes.now) }
{
    let mut wires = Vec::new(alloc);
    let mut rest = bytes;
    'wires: for number in 0..bytes.len() {
        let Some(start) = strip(rest, b"  wire ") else {
            return Ok((wires, rest));
        };
        let (wire, after) = read_wire(alloc, table, number, start)?;
        wires.push(wire)?;
        rest = after;
    }
    Ok((wires, rest))
}
