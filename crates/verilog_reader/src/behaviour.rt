//! The lines that drive the output and the registers.

ghost use Rattle.std.specs.Prelude.{◌≡◌, ◌^◌, map, nat_lt};
ghost use Rattle.indexmap.specs.IndexMap.{keys, values};
ghost use Rattle.psl_model.specs.View.{expr_of};
ghost use Rattle.verilog_text.specs.Text.{register_name, end_line};
ghost use Rattle.verilog_text.specs.View.{register_of};
ghost use Rattle.verilog_reader.specs.inner.Pieces.{after_text};
ghost use Rattle.verilog_reader.specs.inner.Answers.{Gives};
ghost use Rattle.verilog_reader.specs.inner.Lines.{fail_at, initial_at, update_head_at, next_at, update_at, updates_at};
ghost use Rattle.verilog_reader.specs.inner.Lines.{behaviour_at};

use crate::bytes::{expect, read_number};
use crate::declarations::{PARENTHESES, register_name};
use crate::errors::Stop;
use crate::expressions::read_expression;
use indexmap::IndexMap;
use itoa::Buffer;
use psl_model::{Expr, Name};
use std::alloc::Global;
use verilog_text::RegDecl;

/// What drives the output.
#[tactic(auto, using(crate::proofs::Steps::stopped), unfolding(crate::specs::inner::Lines::fail_at))]
fn read_fail<'a>(
    alloc: Global,
    table: &IndexMap<Name, u32>,
    bytes: &'a [u8],
) -> Result<(Expr, &'a [u8]), Stop>
    ensures { Gives (λ read. (expr_of read.0, read.1.now)) result
        (fail_at (keys table.now, values table.now) bytes.now) }
{
    let start = expect(bytes, b"  assign mbac_fail = ")?;
    let value = read_expression(alloc, table, PARENTHESES, start)?;
    let rest = expect(value.rest, b";\n")?;
    Ok((value.expr, rest))
}

/// Whether the value has at most so many bits.
#[tactic(auto, using(crate::proofs::Steps::fits_wide))]
fn fits(value: u64, width: u32) -> bool
    ensures { result ≡ nat_lt value (2 ^ width) }
{
    if 64 <= width {
        return true;
    }
    u128::from(value) < 1u128 << width
}

/// A register's value after reset, with its width before it.
#[tactic(auto, using(crate::proofs::Steps::stopped), unfolding(crate::specs::inner::Lines::initial_at))]
fn read_initial(width: u32, bytes: &[u8]) -> Result<(u64, &[u8]), Stop>
    ensures { Gives (λ read. (read.0, read.1.now)) result (initial_at width bytes.now) }
{
    let mut buffer = Buffer::new();
    let digits = expect(bytes, buffer.format(width).as_bytes())?;
    let sized = expect(digits, b"'d")?;
    let (initial, rest) = read_number(sized)?;
    if fits(initial, width) {
        Ok((initial, rest))
    } else {
        Err(Stop::Wrong { left: bytes.len() })
    }
}

/// What follows a register's name.
fn expect_register(alloc: Global, number: usize, bytes: &[u8]) -> Result<&[u8], Stop>
    ensures { Gives (λ rest. rest.now) result (after_text (register_name number) bytes.now) }
{
    let name = register_name(alloc, number)?;
    expect(bytes, name.bytes())
}

/// The start of a register's line.
#[tactic(auto, using(crate::proofs::Steps::stopped), unfolding(crate::specs::inner::Lines::update_head_at))]
fn read_update_head(alloc: Global, number: usize, bytes: &[u8]) -> Result<&[u8], Stop>
    ensures { Gives (λ rest. rest.now) result (update_head_at number bytes.now) }
{
    let start = expect(bytes, b"  always @(posedge mbac_clk) ")?;
    let named = expect_register(alloc, number, start)?;
    expect(named, b" <= (mbac_rst ? ")
}

/// What a register takes without reset.
#[tactic(auto, using(crate::proofs::Steps::stopped), unfolding(crate::specs::inner::Lines::next_at))]
fn read_next<'a>(
    alloc: Global,
    table: &IndexMap<Name, u32>,
    bytes: &'a [u8],
) -> Result<(Expr, &'a [u8]), Stop>
    ensures { Gives (λ read. (expr_of read.0, read.1.now)) result
        (next_at (keys table.now, values table.now) bytes.now) }
{
    let start = expect(bytes, b" : ")?;
    let value = read_expression(alloc, table, PARENTHESES, start)?;
    let rest = expect(value.rest, b");\n")?;
    Ok((value.expr, rest))
}

/// A register's line.
#[tactic(auto, using(crate::proofs::Steps::stopped), unfolding(crate::specs::inner::Lines::update_at))]
fn read_update<'a>(
    alloc: Global,
    table: &IndexMap<Name, u32>,
    number: usize,
    width: u32,
    bytes: &'a [u8],
) -> Result<(RegDecl, &'a [u8]), Stop>
    ensures { Gives (λ read. (register_of read.0, read.1.now)) result
        (update_at (keys table.now, values table.now) number width bytes.now) }
{
    let reset = read_update_head(alloc, number, bytes)?;
    let (initial, after) = read_initial(width, reset)?;
    let (next, rest) = read_next(alloc, table, after)?;
    let init = u128::from(initial);
    Ok((RegDecl { width, init, next }, rest))
}

/// The registers' lines, in their order.
pub fn read_updates<'a>(
    alloc: Global,
    table: &IndexMap<Name, u32>,
    widths: &[u32],
    bytes: &'a [u8],
) -> Result<(Vec<RegDecl>, &'a [u8]), Stop>
    ensures { Gives (λ read. (map register_of read.0.items, read.1.now)) result
        (updates_at (keys table.now, values table.now) 0 widths.now bytes.now) }
{
    let mut registers = Vec::new(alloc);
    let mut rest = bytes;
    'updates: for number in 0..widths.len() {
        let (register, after) = read_update(alloc, table, number, widths[number], rest)?;
        registers.push(register)?;
        rest = after;
    }
    Ok((registers, rest))
}

/// What follows a module's last line.
#[tactic(auto, unfolding(verilog_text::specs::Text::end_line))]
fn expect_end(bytes: &[u8]) -> Result<&[u8], Stop>
    ensures { Gives (λ rest. rest.now) result (after_text end_line bytes.now) }
{
    expect(bytes, b"endmodule\n")
}

/// What a module does, with its end.
#[tactic(auto, using(crate::proofs::Steps::stopped), unfolding(crate::specs::inner::Lines::behaviour_at))]
pub fn read_behaviour<'a>(
    alloc: Global,
    table: &IndexMap<Name, u32>,
    widths: &[u32],
    bytes: &'a [u8],
) -> Result<(Expr, Vec<RegDecl>, &'a [u8]), Stop>
    ensures { Gives (λ read. ((expr_of read.0, map register_of read.1.items), read.2.now)) result
        (behaviour_at (keys table.now, values table.now) widths.now bytes.now) }
{
    let (fail, after) = read_fail(alloc, table, bytes)?;
    let (registers, end) = read_updates(alloc, table, widths, after)?;
    let rest = expect_end(end)?;
    Ok((fail, registers, rest))
}
