ghost use Rattle.std.specs.Prelude.{◌≡◌, ◌≤◌, length, [], OnOk, OnErr};
ghost use Rattle.mbac_io.specs.Device.{Rose, Appends, AppendsPart};

use crate::device::{Failed, Sink};

/// Writes all the bytes, in as many writes as it takes.
pub fn write_all<O: Sink>(sink: &mut O, bytes: &[u8]) -> Result<(), Failed>
    ensures written { OnOk result (Appends (O.taken sink.old) (O.taken sink.new) bytes.now) }
    ensures failed_part { OnErr result (AppendsPart (O.taken sink.old) (O.taken sink.new) bytes.now) }
    ensures failed_rose { OnErr result (Rose (O.faults sink.old) (O.faults sink.new)) }
    ensures never_falls { O.faults sink.old ≤ O.faults sink.new }
    ensures nothing_to_write { length bytes.now ≡ 0 → sink.new ≡ sink.old }
{
    let mut written = 0;
    while written < bytes.len() {
        written += sink.write(&bytes[written..])?;
    }
    Ok(())
}
