//! The module of a netlist.

ghost use Rattle.std.specs.Prelude.{◌≡◌, ◌+◌, ◌<◌, ◌≤◌, ◌^◌, ℕ, All, IfOk, IsSomeAnd, length, map};
ghost use Rattle.psl_model.specs.Expr as tree;
ghost use Rattle.psl_model.specs.View.{expr_of};
ghost use Rattle.psl_model.specs.Moved as moving;
ghost use Rattle.circuit_core.specs.Netlist as plain;
ghost use Rattle.circuit_core.specs.View as net;
ghost use Rattle.circuit_core.specs.WellMade.{IsFinished};
ghost use Rattle.verilog_text.specs.Interface.{IsInterface, port_widths};
ghost use Rattle.verilog_text.specs.Module.{IsLawful};
ghost use Rattle.verilog_text.specs.Stream.{HasRegistersOf, KeepsStream};
ghost use Rattle.verilog_text.specs.View.{module_of, register_of, wire_of};
ghost use Rattle.verilog_text.specs.inner.Translation as made;
ghost use Rattle.verilog_text.specs.inner.Translation.{Fits, SignalsFit, NodeFits, first_register, first_wire};

use crate::module::{Module, RegDecl, WireDecl};
use circuit_core::{Net, NetReg, Netlist, Node, Op, Reg};
use psl_model::laws::a_moved_expression_is_the_same;
use psl_model::{BinOp, Expr, Name, Signal, Subexpr, UnOp};
use sqlite_items::Items;
use std::alloc::{AllocError, Global};

/// The place of `mbac_eot` in a module's table of names.
const END: usize = 1;

/// The place of a module's first port.
const FIRST_PORT: usize = 2;

/// The places of a module's first register and of its first wire.
#[derive(Clone, Copy)]
struct Places {
    registers: usize,
    wires: usize,
}

impl Places {
    fn new(netlist: &Netlist, ports: &[Signal]) -> Places
        ensures registers { result.registers ≡ first_register ports.now }
        ensures wires { result.wires ≡ first_wire netlist.now ports.now }
        // so each name has a place that can be counted
        ensures room { result.wires + length netlist.now.nodes ≤ 2 ^ 64 }
        ensures ports { 2 + length ports.now ≤ 2 ^ 64 }
    {
        // The nodes are a slice in memory, and so are few enough.
        let _nodes = netlist.nodes();
        let registers = FIRST_PORT + ports.len();
        Places {
            registers,
            wires: registers + netlist.regs().len(),
        }
    }

    fn register(self, reg: Reg) -> Expr
        requires { Fits (self.registers + reg.0) }
        ensures { expr_of result ≡ made.wire_name self.registers reg.0 }
    {
        Expr::Whole(self.registers + reg.0)
    }

    fn wire(self, net: Net) -> Expr
        requires { Fits (self.wires + net.0) }
        ensures { expr_of result ≡ made.wire_name self.wires net.0 }
    {
        Expr::Whole(self.wires + net.0)
    }
}

/// An expression over the ports, as the module's table names them.
fn moved(alloc: Global, expr: &Expr) -> Result<Expr, AllocError>
    requires { SignalsFit (expr_of expr.now) }
    ensures { IfOk result (λ e. expr_of e ≡ moving.moved 2 (expr_of expr.now)) }
{
    match expr {
        Expr::Whole(signal) => Ok(Expr::Whole(FIRST_PORT + *signal)),
        Expr::Bit(signal, place) => Ok(Expr::Bit(FIRST_PORT + *signal, *place)),
        Expr::Part(signal, high, low) => Ok(Expr::Part(FIRST_PORT + *signal, *high, *low)),
        Expr::Plain(number) => Ok(Expr::Plain(*number)),
        Expr::Sized(width, value) => Ok(Expr::Sized(*width, *value)),
        Expr::Unary(op, operand) => {
            let operand = moved(alloc, operand.get())?;
            unary(alloc, *op, operand)
        }
        Expr::Binary(op, left, right) => {
            let left = moved(alloc, left.get())?;
            let right = moved(alloc, right.get())?;
            binary(alloc, *op, left, right)
        }
        Expr::Choice(test, first, second) => {
            let test = moved(alloc, test.get())?;
            let first = moved(alloc, first.get())?;
            let second = moved(alloc, second.get())?;
            Ok(Expr::Choice(
                Subexpr::new(alloc, test)?,
                Subexpr::new(alloc, first)?,
                Subexpr::new(alloc, second)?,
            ))
        }
    }
}

fn unary(alloc: Global, op: UnOp, operand: Expr) -> Result<Expr, AllocError>
    ensures { IfOk result (λ e. expr_of e ≡ tree.unary op (expr_of operand)) }
{
    Ok(Expr::Unary(op, Subexpr::new(alloc, operand)?))
}

fn binary(alloc: Global, op: BinOp, left: Expr, right: Expr) -> Result<Expr, AllocError>
    ensures { IfOk result (λ e. expr_of e ≡ tree.binary op (expr_of left) (expr_of right)) }
{
    let left = Subexpr::new(alloc, left)?;
    let right = Subexpr::new(alloc, right)?;
    Ok(Expr::Binary(op, left, right))
}

/// The right side of a node's wire.
fn node_value(alloc: Global, places: Places, op: &Op) -> Result<Expr, AllocError>
    requires { NodeFits places.registers places.wires (net.op_of op.now) }
    ensures { IfOk result (λ e. expr_of e ≡ made.node_value places.registers places.wires (net.op_of op.now)) }
{
    match op {
        Op::Bit(value) => Ok(Expr::Sized(1, u128::from(*value))),
        Op::Eot => Ok(Expr::Whole(END)),
        Op::Guard(expr) => {
            let expr = moved(alloc, expr)?;
            unary(alloc, UnOp::AnyOne, expr)
        }
        Op::Not(a) => unary(alloc, UnOp::Not, places.wire(*a)),
        Op::And(a, b) => binary(alloc, BinOp::And, places.wire(*a), places.wire(*b)),
        Op::Or(a, b) => binary(alloc, BinOp::Or, places.wire(*a), places.wire(*b)),
        Op::Register(reg) => Ok(places.register(*reg)),
    }
}

/// A wire for each node.
fn wires(alloc: Global, places: Places, nodes: &[Node]) -> Result<Items<WireDecl>, AllocError>
    requires { All (λ (node : plain.Node). NodeFits places.registers places.wires node.op) (map net.node_of nodes.now) }
    ensures { IfOk result (λ wires. map wire_of wires
        ≡ map (made.wire_of places.registers places.wires) (map net.node_of nodes.now)) }
{
    let mut wires = Items::new(alloc);
    for node in nodes {
        let value = node_value(alloc, places, &node.op)?;
        wires.push(WireDecl {
            width: node.width,
            value,
        })?;
    }
    Ok(wires)
}

/// The declaration of a register whose next is set.
fn register(places: Places, reg: &NetReg) -> RegDecl
    requires { IsSomeAnd (net.register_of reg.now).next (λ next. Fits (places.wires + next)) }
    ensures { register_of result ≡ made.register_of places.wires (net.register_of reg.now) }
{
    RegDecl {
        width: reg.width,
        init: reg.init,
        next: places.wire(reg.next.unwrap()),
    }
}

fn registers(alloc: Global, places: Places, regs: &[NetReg]) -> Result<Items<RegDecl>, AllocError>
    requires { All (λ (x : plain.Register). IsSomeAnd x.next (λ next. Fits (places.wires + next)))
        (map net.register_of regs.now) }
    ensures { IfOk result (λ regs'. map register_of regs'
        ≡ map (made.register_of places.wires) (map net.register_of regs.now)) }
{
    let mut decls = Items::new(alloc);
    for reg in regs {
        let decl = register(places, reg);
        decls.push(decl)?;
    }
    Ok(decls)
}

/// The module of a finished netlist, over ports with the widths of its signals. Its output is the net that `finish` was
/// given.
pub fn to_module(
    alloc: Global,
    netlist: &Netlist,
    name: Name,
    report: Option<Name>,
    ports: Vec<Signal>,
) -> Result<Module, AllocError>
    requires finished { IsFinished netlist.now }
    requires interface { IsInterface name report ports.items }
    requires widths { port_widths ports.items ≡ netlist.now.widths }
    ensures lawful { IfOk result (λ m. IsLawful (module_of m)) }
    ensures name { IfOk result (λ m. m.name ≡ name) }
    ensures report { IfOk result (λ m. m.report ≡ report) }
    ensures ports { IfOk result (λ m. m.ports ≡ ports.items) }
    ensures registers { IfOk result (λ m. HasRegistersOf netlist.now (module_of m)) }
    ensures wires { IfOk result (λ m. length (module_of m).wires ≡ length netlist.now.nodes) }
    ensures stream { IfOk result (λ m. KeepsStream netlist.now (module_of m)) }
{
    a_moved_expression_is_the_same();
    let made = module_of_netlist(alloc, netlist, name, report, Items::from_vec(ports))?;
    Ok(made)
}

/// The same, part by part.
fn module_of_netlist(
    alloc: Global,
    netlist: &Netlist,
    name: Name,
    report: Option<Name>,
    ports: Items<Signal>,
) -> Result<Module, AllocError>
    requires finished { IsFinished netlist.now }
    requires widths { port_widths ports ≡ netlist.now.widths }
    ensures { IfOk result (λ m. module_of m
        ≡ made.module_for netlist.now (record { name = name; report = report; ports = ports })) }
{
    let places = Places::new(netlist, ports.as_slice());
    let wires = wires(alloc, places, netlist.nodes())?;
    let regs = registers(alloc, places, netlist.regs())?;
    let fail = places.wire(netlist.output().unwrap());
    Ok(Module {
        name,
        report,
        ports,
        regs,
        wires,
        fail,
    })
}
