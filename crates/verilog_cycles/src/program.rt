//! The nodes of a whole module.

ghost use Rattle.std.specs.Prelude.{◌≡◌, ℕ, ◌++◌, ◌∷◌, [], ◌<◌, ◌≤◌, All, IfOk, length, map};
ghost use Rattle.psl_model.specs.declared.names.Signal.{Signal};
ghost use Rattle.verilog_text.specs.Module.{IsLawful, state_widths, widths_of};
ghost use Rattle.verilog_text.specs.View.{module_of};
ghost use Rattle.verilog_text.specs.declared.module.RegDecl.{RegDecl};
ghost use Rattle.verilog_cycles.specs.inner.Nodes.{IsTape};
ghost use Rattle.verilog_cycles.specs.inner.Ready.{AreFront, AreWires, AreNexts};
ghost use Rattle.verilog_cycles.specs.inner.Program.{IsProgram};

use crate::loading::line;
use crate::nodes::Node;
use psl_model::Signal;
use psl_model::laws::{a_value_fits_its_context, an_expression_reads_its_own_signals};
use std::alloc::{AllocError, Global};
use verilog_text::{Module, RegDecl};

/// The nodes of a module, behind those that stand for its names but the wires.
#[derive(Debug, Drop)]
pub(crate) struct Program {
    /// The first place that is evaluated.
    pub(crate) first: usize,
    pub(crate) nodes: Vec<Node>,
    /// The places of what the registers take.
    pub(crate) nexts: Vec<usize>,
    /// The place of the output.
    pub(crate) fail: usize,
}

/// Adds a name whose value is put into its place.
fn put_name(
    width: u32,
    widths: &mut Vec<u32>,
    places: &mut Vec<usize>,
    nodes: &mut Vec<Node>,
) -> Result<(), AllocError>
    requires { AreFront widths.old.items places.old.items nodes.old.items }
    ensures front { IfOk result (λ _. AreFront widths.new.items places.new.items nodes.new.items) }
    ensures width { IfOk result (λ _. widths.new.items ≡ widths.old.items ++ width ∷ []) }
{
    places.push(nodes.len())?;
    nodes.push(Node::Number(0))?;
    widths.push(width)?;
    Ok(())
}

fn put_ports(
    ports: &[Signal],
    widths: &mut Vec<u32>,
    places: &mut Vec<usize>,
    nodes: &mut Vec<Node>,
) -> Result<(), AllocError>
    requires { AreFront widths.old.items places.old.items nodes.old.items }
    ensures front { IfOk result (λ _. AreFront widths.new.items places.new.items nodes.new.items) }
    ensures widths { IfOk result (λ _. widths.new.items ≡
        widths.old.items ++ map (λ (p : Signal). p.width) ports.now) }
{
    for port in ports {
        put_name(port.width, widths, places, nodes)?;
    }
    Ok(())
}

fn put_registers(
    regs: &[RegDecl],
    widths: &mut Vec<u32>,
    places: &mut Vec<usize>,
    nodes: &mut Vec<Node>,
) -> Result<(), AllocError>
    requires { AreFront widths.old.items places.old.items nodes.old.items }
    ensures front { IfOk result (λ _. AreFront widths.new.items places.new.items nodes.new.items) }
    ensures widths { IfOk result (λ _. widths.new.items ≡
        widths.old.items ++ map (λ (r : RegDecl). r.width) regs.now) }
{
    for reg in regs {
        put_name(reg.width, widths, places, nodes)?;
    }
    Ok(())
}

/// Adds the names of a module but the wires.
fn put_front(
    checker: &Module,
    widths: &mut Vec<u32>,
    places: &mut Vec<usize>,
    nodes: &mut Vec<Node>,
) -> Result<(), AllocError>
    requires widths { widths.old.items ≡ [] }
    requires places { places.old.items ≡ [] }
    requires nodes { nodes.old.items ≡ [] }
    ensures front { IfOk result (λ _. AreFront widths.new.items places.new.items nodes.new.items) }
    ensures widths { IfOk result (λ _. widths.new.items ≡ state_widths (module_of checker.now)) }
{
    put_name(1, widths, places, nodes)?;
    put_name(1, widths, places, nodes)?;
    put_ports(checker.ports.as_slice(), widths, places, nodes)?;
    put_registers(checker.regs.as_slice(), widths, places, nodes)
}

/// Adds the wires of a module.
fn put_wires(
    checker: &Module,
    widths: &mut Vec<u32>,
    places: &mut Vec<usize>,
    nodes: &mut Vec<Node>,
) -> Result<(), AllocError>
    requires lawful { IsLawful (module_of checker.now) }
    requires widths { widths.old.items ≡ state_widths (module_of checker.now) }
    requires front { AreFront widths.old.items places.old.items nodes.old.items }
    ensures { IfOk result (λ _. AreWires (length nodes.old.items) widths.old.items places.old.items
        (module_of checker.now).wires widths.new.items places.new.items nodes.new.items) }
{
    a_value_fits_its_context();
    an_expression_reads_its_own_signals();
    let wires = checker.wires.as_slice();
    for at in 0..wires.len() {
        let wire = &wires[at];
        let place = line(widths, places, wire.width, &wire.value, nodes)?;
        widths.push(wire.width)?;
        places.push(place)?;
    }
    Ok(())
}

/// Adds what the registers of a module take, and gives the places.
fn put_nexts(
    checker: &Module,
    widths: &[u32],
    places: &[usize],
    nodes: &mut Vec<Node>,
    nexts: &mut Vec<usize>,
) -> Result<(), AllocError>
    requires lawful { IsLawful (module_of checker.now) }
    requires widths { widths.now ≡ widths_of (module_of checker.now) }
    requires count { length places.now ≡ length widths.now }
    requires within { All (λ p. p < length nodes.old.items) places.now }
    requires tape { IsTape nodes.old.items }
    requires none { nexts.old.items ≡ [] }
    ensures { IfOk result (λ _. (first : ℕ) → first ≤ length nodes.old.items →
        AreNexts first widths.now places.now (module_of checker.now).registers nexts.new.items
        nodes.old.items nodes.new.items) }
{
    let regs = checker.regs.as_slice();
    for at in 0..regs.len() {
        let reg = &regs[at];
        let place = line(widths, places, reg.width, &reg.next, nodes)?;
        nexts.push(place)?;
    }
    Ok(())
}

impl Program {
    /// The nodes of a lawful module.
    pub(crate) fn new(alloc: Global, checker: &Module) -> Result<Program, AllocError>
        requires { IsLawful (module_of checker.now) }
        ensures { IfOk result (λ program. IsProgram (module_of checker.now)
            program.first program.nodes.items program.nexts.items program.fail) }
    {
        let mut widths = Vec::new(alloc);
        let mut places = Vec::new(alloc);
        let mut nodes = Vec::new(alloc);
        put_front(checker, &mut widths, &mut places, &mut nodes)?;
        let first = nodes.len();
        put_wires(checker, &mut widths, &mut places, &mut nodes)?;
        let mut nexts = Vec::new(alloc);
        put_nexts(checker, &widths, &places, &mut nodes, &mut nexts)?;
        let fail = line(&widths, &places, 1, &checker.fail, &mut nodes)?;
        Ok(Program {
            first,
            nodes,
            nexts,
            fail,
        })
    }
}
