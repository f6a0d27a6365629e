//! A checker, line by line, and what is read of a text.

use std::alloc::{AllocError, Global};
use verilog_reader::{TextError, read_modules};
use verilog_text::{Module, print};

pub(crate) static LINES: [&[u8]; 12] = [
    b"module mbac_u_1 (mbac_clk, mbac_rst, mbac_eot, a, mbac_fail);\n",
    b"  input mbac_clk;\n",
    b"  input mbac_rst;\n",
    b"  input mbac_eot;\n",
    b"  input a;\n",
    b"  output mbac_fail;\n",
    b"  reg mbac_r0;\n",
    b"  wire mbac_n0 = (|a);\n",
    b"  wire mbac_n1 = (!mbac_n0);\n",
    b"  assign mbac_fail = mbac_n1;\n",
    b"  always @(posedge mbac_clk) mbac_r0 <= (mbac_rst ? 1'd1 : 1'd0);\n",
    b"endmodule\n",
];

/// The line, counted from 1.
pub(crate) fn line(number: usize) -> &'static [u8] {
    match LINES.get(number.wrapping_sub(1)) {
        Some(line) => *line,
        None => b"",
    }
}

/// The checker with other bytes in place of this line.
pub(crate) fn changed(alloc: Global, number: usize, bytes: &[u8]) -> Result<Vec<u8>, AllocError> {
    let mut text = Vec::new(alloc);
    for place in 1..13 {
        if place == number {
            text.extend_from_slice(bytes)?;
        } else {
            text.extend_from_slice(line(place))?;
        }
    }
    Ok(text)
}

/// The line at which the text is refused, 0 where it is a checker text, and nothing without memory.
pub(crate) fn refused_at(alloc: Global, text: &[u8]) -> Option<u64> {
    match read_modules(alloc, text) {
        Ok(_) => Some(0),
        Err(TextError::NotChecker { line }) => Some(line),
        Err(TextError::OutOfMemory) => None,
    }
}

fn spells(alloc: Global, modules: &[Module], text: &[u8]) -> bool {
    let mut out = Vec::new(alloc);
    for checker in modules {
        if print(checker, &mut out).is_err() {
            return false;
        }
    }
    out.as_slice() == text
}

/// The text is read as so many modules, and these are printed as the text.
pub(crate) fn is_read_back(alloc: Global, text: &[u8], count: usize) -> bool {
    match read_modules(alloc, text) {
        Ok(modules) => modules.len() == count && spells(alloc, modules.as_slice(), text),
        Err(_) => false,
    }
}
