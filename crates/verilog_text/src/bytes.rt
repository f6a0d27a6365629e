//! Bytes and numbers at the end of a text.

ghost use Rattle.std.specs.Prelude.{◌≡◌, ◌++◌, OnOk};
ghost use Rattle.verilog_text.specs.Growth.{Extends};

use itoa::{Buffer, Integer};
use std::alloc::AllocError;

pub fn put(text: &[u8], out: &mut Vec<u8>) -> Result<(), AllocError>
    ensures text { OnOk result (out.new.items ≡ out.old.items ++ text.now) }
    ensures kept { Extends out.old.items out.new.items }
{
    out.extend_from_slice(text)
}

/// In decimal digits.
pub fn put_number<I: Integer>(number: I, out: &mut Vec<u8>) -> Result<(), AllocError>
    ensures text { OnOk result (out.new.items ≡ out.old.items ++ I.text number) }
    ensures kept { Extends out.old.items out.new.items }
{
    put(Buffer::new().format(number).as_bytes(), out)
}
