//! Texts of the modules of netlists, worked out by hand from the format. Each netlist is over a port `a` of four bits
//! and a port `b` of one.

ghost use Rattle.std.specs.Prelude.{◌≡◌, ◌↔◌, [], ◌∷◌, IfOk, IfSome, IsSome, IsTrue, All};
ghost use Rattle.psl_model.specs.Names.{IsReport};
ghost use Rattle.psl_model.specs.View.{expr_of};
ghost use Rattle.circuit_core.specs.declared.nodes.NetReg as code;
ghost use Rattle.circuit_core.specs.WellMade.{IsFinished, IsGuard};
ghost use Rattle.worked_checks.specs.Ports.{a_and_b};

use circuit_core::laws::{a_netlist_is_well_made, a_netlist_with_all_set_is_finished};
use circuit_core::{NetReg, Netlist};
use psl_model::{BinOp, Expr, Name, Signal, Subexpr};
use std::alloc::{AllocError, Global};
use std::test::Fail;
use verilog_text::{print, to_module};

fn ports(alloc: Global) -> Result<Vec<Signal>, AllocError>
    ensures { IfOk result (λ ports. ports.items ≡ a_and_b) }
{
    let a = Name::new(alloc, b"a")?;
    let b = Name::new(alloc, b"b")?;
    let mut ports = Vec::new(alloc);
    ports.push(Signal { name: a, width: 4 })?;
    ports.push(Signal { name: b, width: 1 })?;
    Ok(ports)
}

fn empty_netlist(alloc: Global) -> Result<Netlist, AllocError>
    ensures { IfOk result (λ m. m.widths ≡ 4 ∷ 1 ∷ []) }
{
    let mut widths = Vec::new(alloc);
    widths.push(4)?;
    widths.push(1)?;
    Netlist::new(alloc, widths)
}

fn are_set(regs: &[NetReg]) -> bool
    ensures { IsTrue result ↔ All (λ (reg : code.NetReg). IsSome reg.next) regs.now }
{
    regs.iter().all(|reg| reg.next.is_some())
}

fn is_finished(netlist: &Netlist) -> bool
    ensures { IsTrue result → IsFinished netlist.now }
{
    a_netlist_is_well_made(netlist);
    a_netlist_with_all_set_is_finished();
    match netlist.output() {
        Some(_) => are_set(netlist.regs()),
        None => false,
    }
}

fn is_over_a_and_b(netlist: &Netlist) -> bool
    ensures { IsTrue result → netlist.now.widths ≡ 4 ∷ 1 ∷ [] }
{
    netlist.widths() == [4, 1].as_slice()
}

fn text(alloc: Global, netlist: &Netlist, report: Option<Name>) -> Result<Vec<u8>, AllocError>
    requires finished { IsFinished netlist.now }
    requires widths { netlist.now.widths ≡ 4 ∷ 1 ∷ [] }
    requires report { IfSome report IsReport }
{
    let name = Name::new(alloc, b"mbac_u_1")?;
    let made = to_module(alloc, netlist, name, report, ports(alloc)?)?;
    let mut text = Vec::new(alloc);
    print(&made, &mut text)?;
    Ok(text)
}

// a[3] ? a[1:0] == 2'd3 : b
fn mixed(alloc: Global) -> Result<Expr, AllocError>
    ensures { IfOk result (λ e. IsGuard (4 ∷ 1 ∷ []) (expr_of e)) }
{
    let low = Subexpr::new(alloc, Expr::Part(0, 1, 0))?;
    let three = Subexpr::new(alloc, Expr::Sized(2, 3))?;
    let test = Subexpr::new(alloc, Expr::Bit(0, 3))?;
    let first = Subexpr::new(alloc, Expr::Binary(BinOp::Eq, low, three))?;
    let second = Subexpr::new(alloc, Expr::Whole(1))?;
    Ok(Expr::Choice(test, first, second))
}

fn each_kind(alloc: Global) -> Result<Netlist, AllocError> {
    let mixed = mixed(alloc)?;
    let mut net = empty_netlist(alloc)?;
    let mixed = net.guard(&mixed)?;
    let end = net.eot()?;
    let (held, held_net) = net.reg(1, 1)?;
    net.set_next(held, mixed);
    let (last, last_net) = net.reg(1, 0)?;
    net.set_next(last, end);
    let one = net.bit(true)?;
    let none = net.bit(false)?;
    let other = net.not(held_net)?;
    let both = net.and(one, other)?;
    let either = net.or(both, none)?;
    let fail = net.or(either, last_net)?;
    net.finish(fail);
    Ok(net)
}

#[test]
fn each_kind_of_node_has_its_wire(rt: HostRuntime) -> Result<(), Fail> {
    let net = each_kind(rt.alloc())?;
    assert!(rt; is_finished(&net));
    assert!(rt; is_over_a_and_b(&net));
    let report = Name::new(rt.alloc(), b"late ack")?;
    let text = text(rt.alloc(), &net, Some(report))?;
    let wanted = b"module mbac_u_1 (mbac_clk, mbac_rst, mbac_eot, a, b, mbac_fail);
  // late ack
  input mbac_clk;
  input mbac_rst;
  input mbac_eot;
  input [3:0] a;
  input b;
  output mbac_fail;
  reg mbac_r0;
  reg mbac_r1;
  wire mbac_n0 = (|(a[3] ? (a[1:0] == 2'd3) : b));
  wire mbac_n1 = mbac_eot;
  wire mbac_n2 = mbac_r0;
  wire mbac_n3 = mbac_r1;
  wire mbac_n4 = 1'd1;
  wire mbac_n5 = 1'd0;
  wire mbac_n6 = (!mbac_n2);
  wire mbac_n7 = (mbac_n4 && mbac_n6);
  wire mbac_n8 = (mbac_n7 || mbac_n5);
  wire mbac_n9 = (mbac_n8 || mbac_n3);
  assign mbac_fail = mbac_n9;
  always @(posedge mbac_clk) mbac_r0 <= (mbac_rst ? 1'd1 : mbac_n0);
  always @(posedge mbac_clk) mbac_r1 <= (mbac_rst ? 1'd0 : mbac_n1);
endmodule
";
    assert_eq!(rt; text.as_slice(), wanted.as_slice());
    Ok(())
}

fn exchange(alloc: Global) -> Result<Netlist, AllocError> {
    let mut net = empty_netlist(alloc)?;
    let (left, left_net) = net.reg(1, 1)?;
    let (right, right_net) = net.reg(1, 0)?;
    net.set_next(left, right_net);
    net.set_next(right, left_net);
    net.finish(left_net);
    Ok(net)
}

#[test]
fn two_registers_exchange_their_values(rt: HostRuntime) -> Result<(), Fail> {
    let net = exchange(rt.alloc())?;
    assert!(rt; is_finished(&net));
    assert!(rt; is_over_a_and_b(&net));
    let text = text(rt.alloc(), &net, None)?;
    let wanted = b"module mbac_u_1 (mbac_clk, mbac_rst, mbac_eot, a, b, mbac_fail);
  input mbac_clk;
  input mbac_rst;
  input mbac_eot;
  input [3:0] a;
  input b;
  output mbac_fail;
  reg mbac_r0;
  reg mbac_r1;
  wire mbac_n0 = mbac_r0;
  wire mbac_n1 = mbac_r1;
  assign mbac_fail = mbac_n0;
  always @(posedge mbac_clk) mbac_r0 <= (mbac_rst ? 1'd1 : mbac_n1);
  always @(posedge mbac_clk) mbac_r1 <= (mbac_rst ? 1'd0 : mbac_n0);
endmodule
";
    assert_eq!(rt; text.as_slice(), wanted.as_slice());
    Ok(())
}
