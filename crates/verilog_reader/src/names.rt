//! Which names a text may use.

ghost use Rattle.std.specs.Prelude.{◌≡◌, ◌++◌, [], ◌∷◌, None, OnOk, IfOk};
ghost use Rattle.indexmap.specs.IndexMap.{keys, values};
ghost use Rattle.verilog_reader.specs.inner.Answers.{Gives};
ghost use Rattle.verilog_reader.specs.inner.Phrases.{place_of};
ghost use Rattle.verilog_reader.specs.inner.Lines.{add, add_ports, first_state, begins_identifier, is_module_name};
ghost use Rattle.verilog_reader.specs.inner.Lines.{is_port_name};

use crate::errors::Stop;
use crate::words::is_word;
use indexmap::IndexMap;
use psl_model::{Name, Signal};
use std::alloc::{AllocError, Global};

/// Puts a name that the table doesn't have at its end.
fn push_new(table: &mut IndexMap<Name, u32>, name: Name, width: u32) -> Result<(), AllocError>
    requires absent { place_of (keys table.old) name ≡ None }
    ensures names { OnOk result (keys table.new ≡ keys table.old ++ name ∷ []) }
    ensures widths { OnOk result (values table.new ≡ values table.old ++ width ∷ []) }
{
    table.insert(name, width)?;
    Ok(())
}

/// Puts a name that must be new at the table's end. `left` is what a fault tells.
#[tactic(auto, unfolding(crate::specs::inner::Lines::add, crate::specs::inner::Phrases::place_of))]
pub fn put_name(
    table: &mut IndexMap<Name, u32>,
    name: Name,
    width: u32,
    left: usize,
) -> Result<(), Stop>
    ensures { Gives (λ _. (keys table.new, values table.new)) result
        (add (keys table.old, values table.old) name width) }
{
    if table.get_index_of(&name).is_some() {
        return Err(Stop::Wrong { left });
    }
    push_new(table, name, width)?;
    Ok(())
}

/// Puts the ports, whose names must be new and differ, at the table's end.
pub fn put_ports(
    alloc: Global,
    table: &mut IndexMap<Name, u32>,
    ports: &[Signal],
    left: usize,
) -> Result<(), Stop>
    ensures { Gives (λ _. (keys table.new, values table.new)) result
        (add_ports (keys table.old, values table.old) ports.now) }
{
    for port in ports {
        let name = port.name.copy(alloc)?;
        put_name(table, name, port.width, left)?;
    }
    Ok(())
}

/// The table of `mbac_rst` and `mbac_eot`.
#[tactic(auto, unfolding(crate::specs::inner::Phrases::place_of))]
fn first_table(alloc: Global) -> Result<IndexMap<Name, u32>, AllocError>
    ensures names { IfOk result (λ table. keys table ≡ first_state.0) }
    ensures widths { IfOk result (λ table. values table ≡ first_state.1) }
{
    let mut table = IndexMap::new(alloc);
    let reset = Name::new(alloc, b"mbac_rst")?;
    push_new(&mut table, reset, 1)?;
    let end = Name::new(alloc, b"mbac_eot")?;
    push_new(&mut table, end, 1)?;
    Ok(table)
}

/// The table of `mbac_rst`, `mbac_eot` and the ports.
pub fn port_table(alloc: Global, ports: &[Signal], left: usize) -> Result<IndexMap<Name, u32>, Stop>
    ensures { Gives (λ table. (keys table, values table)) result (add_ports first_state ports.now) }
{
    let mut table = first_table(alloc)?;
    put_ports(alloc, &mut table, ports, left)?;
    Ok(table)
}

pub fn begins_identifier(name: &[u8]) -> bool
    ensures { result ≡ begins_identifier name.now }
{
    match name.first() {
        Some(byte) => byte.is_ascii_alphabetic() || *byte == b'_',
        None => false,
    }
}

#[tactic(auto, unfolding(crate::specs::inner::Lines::is_module_name))]
pub fn is_module_name(name: &[u8]) -> bool
    ensures { result ≡ is_module_name name.now }
{
    begins_identifier(name) && name.starts_with(b"mbac_")
}

/// A name that a port may have.
#[tactic(auto, unfolding(crate::specs::inner::Lines::is_port_name))]
pub fn is_port_name(name: &[u8]) -> bool
    ensures { result ≡ is_port_name name.now }
{
    begins_identifier(name) && name.len() <= 255 && !name.starts_with(b"mbac_") && !is_word(name)
}
