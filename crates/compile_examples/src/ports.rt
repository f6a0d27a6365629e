//! What the modules of these tests are called and watch.

ghost use Rattle.std.specs.Prelude.{◌≡◌, IfOk, None};
ghost use Rattle.verilog_text.specs.Interface.{IsInterface};
ghost use Rattle.compile_examples.specs.Ports.{module_name, counter};

use psl_model::{Name, Signal};
use std::alloc::{AllocError, Global};

/// A module of that name may watch the counter.
pub(crate) fn the_counter_is_a_port()
    ensures { IsInterface module_name None counter }
{}

pub(crate) fn called(alloc: Global) -> Result<Name, AllocError>
    ensures { IfOk result (λ name. name ≡ module_name) }
{
    Name::new(alloc, b"mbac_u_1")
}

pub(crate) fn ports(alloc: Global) -> Result<Vec<Signal>, AllocError>
    ensures { IfOk result (λ ports. ports.items ≡ counter) }
{
    let name = Name::new(alloc, b"cnt")?;
    let mut ports = Vec::new(alloc);
    ports.push(Signal { name, width: 4 })?;
    Ok(ports)
}
