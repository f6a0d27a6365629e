//! The names of a module's table.

ghost use Rattle.std.specs.Prelude.{◌≡◌, ◌++◌, OnOk};
ghost use Rattle.verilog_text.specs.Module.{port_names, register_names, wire_names, names_of};
ghost use Rattle.verilog_text.specs.Text.{name_at, register_name, wire_name};
ghost use Rattle.verilog_text.specs.View.{module_of};
ghost use Rattle.verilog_text.specs.Growth.{Extends};

use crate::bytes::{put, put_number};
use crate::module::Module;
use std::alloc::AllocError;

/// The name at a place of the module's table, and nothing for a place that it doesn't have.
#[tactic(auto, using(crate::proofs::Places::reset_at, crate::proofs::Places::end_at, crate::proofs::Places::other_at))]
pub fn put_name(checker: &Module, place: usize, out: &mut Vec<u8>) -> Result<(), AllocError>
    ensures text { OnOk result (out.new.items ≡ out.old.items ++ name_at (names_of (module_of checker.now)) place) }
    ensures kept { Extends out.old.items out.new.items }
{
    match place {
        0 => put(b"mbac_rst", out),
        1 => put(b"mbac_eot", out),
        _ => put_declared_name(checker, place - 2, out),
    }
}

#[tactic(auto, using(crate::proofs::Places::port_at, crate::proofs::Places::numbered_at))]
fn put_declared_name(checker: &Module, place: usize, out: &mut Vec<u8>) -> Result<(), AllocError>
    ensures text { OnOk result (out.new.items ≡ out.old.items
        ++ name_at
        (port_names (module_of checker.now) ++ register_names (module_of checker.now)
        ++ wire_names (module_of checker.now))
        place) }
    ensures kept { Extends out.old.items out.new.items }
{
    match checker.ports.get(place) {
        Some(port) => put(port.name.bytes(), out),
        None => put_numbered_name(checker, place - checker.ports.len(), out),
    }
}

#[tactic(auto, using(crate::proofs::Places::reg_at, crate::proofs::Places::wire_at, crate::proofs::Places::none_at))]
fn put_numbered_name(checker: &Module, place: usize, out: &mut Vec<u8>) -> Result<(), AllocError>
    ensures text { OnOk result (out.new.items ≡ out.old.items
        ++ name_at (register_names (module_of checker.now) ++ wire_names (module_of checker.now)) place) }
    ensures kept { Extends out.old.items out.new.items }
{
    let registers = checker.regs.len();
    if place < registers {
        put_register_name(place, out)
    } else if place - registers < checker.wires.len() {
        put_wire_name(place - registers, out)
    } else {
        Ok(())
    }
}

#[tactic(auto, using(crate::proofs::Growth::extends_twice), unfolding(crate::specs::Text::register_name))]
pub fn put_register_name(number: usize, out: &mut Vec<u8>) -> Result<(), AllocError>
    ensures text { OnOk result (out.new.items ≡ out.old.items ++ register_name number) }
    ensures kept { Extends out.old.items out.new.items }
{
    put(b"mbac_r", out)?;
    put_number(number, out)
}

#[tactic(auto, using(crate::proofs::Growth::extends_twice), unfolding(crate::specs::Text::wire_name))]
pub fn put_wire_name(number: usize, out: &mut Vec<u8>) -> Result<(), AllocError>
    ensures text { OnOk result (out.new.items ≡ out.old.items ++ wire_name number) }
    ensures kept { Extends out.old.items out.new.items }
{
    put(b"mbac_n", out)?;
    put_number(number, out)
}
