//! The first lines of a module.

ghost use Rattle.std.specs.Prelude.{◌≡◌, ◌≤◌, length, take, drop};
ghost use Rattle.std.specs.List.{prefix_len};
ghost use Rattle.psl_model.specs.Names.{is_report_byte};
ghost use Rattle.verilog_reader.specs.inner.Answers.{Gives};
ghost use Rattle.verilog_reader.specs.inner.Lines.{port_name_at, port_names_at, header_at, report_fits, report_text_at};
ghost use Rattle.verilog_reader.specs.inner.Lines.{report_at};

use crate::bytes::{expect, split_run, strip};
use crate::errors::Stop;
use crate::names::{is_module_name, is_port_name};
use psl_model::{Name, Signal};
use std::alloc::Global;

/// A port's name in the header, with its comma.
#[tactic(auto, using(crate::proofs::Steps::stopped), unfolding(crate::specs::inner::Lines::port_name_at))]
fn read_port_name(bytes: &[u8]) -> Result<(&[u8], &[u8]), Stop>
    ensures { Gives (λ read. (read.0.now, read.1.now)) result (port_name_at bytes.now) }
{
    let (name, after) = split_run(bytes);
    let rest = expect(after, b", ")?;
    if is_port_name(name) {
        Ok((name, rest))
    } else {
        Err(Stop::Wrong { left: bytes.len() })
    }
}

/// The ports' names, with the header's end. Their widths stand elsewhere.
fn read_port_names<'a>(alloc: Global, bytes: &'a [u8]) -> Result<(Vec<Signal>, &'a [u8]), Stop>
    ensures { Gives (λ read. (read.0.items, read.1.now)) result (port_names_at (length bytes.now) bytes.now) }
{
    let mut ports = Vec::new(alloc);
    let mut rest = bytes;
    'names: for most in 0..bytes.len() {
        if let Some(after) = strip(rest, b"mbac_fail);\n") {
            return Ok((ports, after));
        }
        let (name, after) = read_port_name(rest)?;
        let port = Name::new(alloc, name)?;
        ports.push(Signal {
            name: port,
            width: 1,
        })?;
        rest = after;
    }
    Err(Stop::Wrong { left: rest.len() })
}

/// The header: the module's name and its ports' names.
#[tactic(auto, using(crate::proofs::Steps::stopped), unfolding(crate::specs::inner::Lines::header_at))]
pub fn read_header<'a>(
    alloc: Global,
    bytes: &'a [u8],
) -> Result<(Name, Vec<Signal>, &'a [u8]), Stop>
    ensures { Gives (λ read. ((read.0, read.1.items), read.2.now)) result (header_at bytes.now) }
{
    let start = expect(bytes, b"module ")?;
    let (name, after) = split_run(start);
    let inputs = expect(after, b" (mbac_clk, mbac_rst, mbac_eot, ")?;
    let (ports, rest) = read_port_names(alloc, inputs)?;
    if !is_module_name(name) {
        return Err(Stop::Wrong { left: bytes.len() });
    }
    let name = Name::new(alloc, name)?;
    Ok((name, ports, rest))
}

fn is_report_byte(byte: u8) -> bool
    ensures { result ≡ is_report_byte byte }
{
    (b' '..=b'!').contains(&byte) || (b'#'..=b'[').contains(&byte) || (b']'..=b'~').contains(&byte)
}

/// How many bytes of a report stand at the front.
fn count_report(bytes: &[u8]) -> usize
    ensures value { result ≡ prefix_len is_report_byte bytes.now }
    ensures bound { result ≤ length bytes.now }
{
    let mut count = 0;
    for byte in bytes {
        if !is_report_byte(*byte) {
            return count;
        }
        count += 1;
    }
    count
}

#[tactic(auto, unfolding(crate::specs::inner::Lines::report_fits))]
fn is_report(text: &[u8]) -> bool
    ensures { result ≡ report_fits text.now }
{
    1 <= text.len() && text.len() <= 255
}

/// The text of a report, behind its slashes.
#[tactic(auto, using(crate::proofs::Steps::stopped), unfolding(crate::specs::inner::Lines::report_text_at))]
fn read_report_text<'a>(alloc: Global, bytes: &'a [u8]) -> Result<(Option<Name>, &'a [u8]), Stop>
    ensures { Gives (λ read. (read.0, read.1.now)) result (report_text_at bytes.now) }
{
    let (text, after) = bytes.split_at(count_report(bytes));
    let rest = expect(after, b"\n")?;
    if !is_report(text) {
        return Err(Stop::Wrong { left: bytes.len() });
    }
    let report = Name::new(alloc, text)?;
    Ok((Some(report), rest))
}

/// The report, if there is one.
#[tactic(auto, unfolding(crate::specs::inner::Lines::report_at))]
pub fn read_report<'a>(alloc: Global, bytes: &'a [u8]) -> Result<(Option<Name>, &'a [u8]), Stop>
    ensures { Gives (λ read. (read.0, read.1.now)) result (report_at bytes.now) }
{
    match strip(bytes, b"  // ") {
        Some(start) => read_report_text(alloc, start),
        None => Ok((None, bytes)),
    }
}
