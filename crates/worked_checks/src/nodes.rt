//! A netlist with each kind of node, its module's text, and its module run cycle by cycle. Its output is on where one
//! register is 0 or the other is 1; the first takes `cnt[3] ? (cnt[1:0] == 2'd3) : cnt[2]`, the other `mbac_eot`. Text
//! and answers were worked out by hand.

ghost use Rattle.std.specs.Prelude.{◌≡◌, ◌↔◌, [], ◌∷◌, IfOk, IsSome, IsTrue, All};
ghost use Rattle.psl_model.specs.View.{expr_of};
ghost use Rattle.circuit_core.specs.declared.nodes.NetReg as code;
ghost use Rattle.circuit_core.specs.WellMade.{IsFinished, IsGuard};
ghost use Rattle.verilog_text.specs.Module.{IsLawful};
ghost use Rattle.verilog_text.specs.View.{module_of};
ghost use Rattle.worked_checks.specs.Ports.{counter};

use crate::ports::{called, ports, the_counter_is_a_port};
use circuit_core::laws::{a_netlist_is_well_made, a_netlist_with_all_set_is_finished};
use circuit_core::{NetReg, Netlist};
use psl_model::{BinOp, Expr, Subexpr};
use std::alloc::{AllocError, Global};
use std::test::Fail;
use verilog_cycles::Machine;
use verilog_text::{Module, print, to_module};

fn mixed(alloc: Global) -> Result<Expr, AllocError>
    ensures { IfOk result (λ e. IsGuard (4 ∷ []) (expr_of e)) }
{
    let low = Subexpr::new(alloc, Expr::Part(0, 1, 0))?;
    let three = Subexpr::new(alloc, Expr::Sized(2, 3))?;
    let test = Subexpr::new(alloc, Expr::Bit(0, 3))?;
    let first = Subexpr::new(alloc, Expr::Binary(BinOp::Eq, low, three))?;
    let second = Subexpr::new(alloc, Expr::Bit(0, 2))?;
    Ok(Expr::Choice(test, first, second))
}

fn over_the_counter(alloc: Global) -> Result<Netlist, AllocError>
    ensures { IfOk result (λ m. m.widths ≡ 4 ∷ []) }
{
    let widths = [4].to_vec(alloc)?;
    Netlist::new(alloc, widths)
}

fn each_kind(alloc: Global) -> Result<Netlist, AllocError> {
    let mixed = mixed(alloc)?;
    let mut net = over_the_counter(alloc)?;
    let mixed = net.guard(&mixed)?;
    let end = net.eot()?;
    let (held, held_net) = net.reg(1, 1)?;
    net.set_next(held, mixed);
    let (last, last_net) = net.reg(1, 0)?;
    net.set_next(last, end);
    let one = net.bit(true)?;
    let none = net.bit(false)?;
    let other = net.not(held_net)?;
    let both = net.and(one, other)?;
    let either = net.or(both, none)?;
    let fail = net.or(either, last_net)?;
    net.finish(fail);
    Ok(net)
}

fn are_set(regs: &[NetReg]) -> bool
    ensures { IsTrue result ↔ All (λ (reg : code.NetReg). IsSome reg.next) regs.now }
{
    regs.iter().all(|reg| reg.next.is_some())
}

fn is_finished(netlist: &Netlist) -> bool
    ensures { IsTrue result → IsFinished netlist.now }
{
    a_netlist_is_well_made(netlist);
    a_netlist_with_all_set_is_finished();
    match netlist.output() {
        Some(_) => are_set(netlist.regs()),
        None => false,
    }
}

fn is_over_the_counter(netlist: &Netlist) -> bool
    ensures { IsTrue result → netlist.now.widths ≡ 4 ∷ [] }
{
    netlist.widths() == [4].as_slice()
}

fn made(alloc: Global, netlist: &Netlist) -> Result<Module, AllocError>
    requires finished { IsFinished netlist.now }
    requires widths { netlist.now.widths ≡ 4 ∷ [] }
    ensures lawful { IfOk result (λ m. IsLawful (module_of m)) }
    ensures ports { IfOk result (λ m. m.ports ≡ counter) }
{
    the_counter_is_a_port();
    let name = called(alloc)?;
    to_module(alloc, netlist, name, None, ports(alloc)?)
}

fn text(alloc: Global, checker: &Module) -> Result<Vec<u8>, AllocError> {
    let mut text = Vec::new(alloc);
    print(checker, &mut text)?;
    Ok(text)
}

// The answers of five cycles after reset; the third is the last before a new start.
fn answers(alloc: Global, checker: Module) -> Result<[bool; 5], AllocError>
    requires lawful { IsLawful (module_of checker) }
    requires ports { checker.ports ≡ counter }
{
    let mut machine = Machine::load(alloc, checker)?;
    machine.reset();
    let first = machine.step(&[11], false);
    let second = machine.step(&[8], false);
    let third = machine.step(&[4], true);
    let fourth = machine.step(&[4], false);
    let fifth = machine.step(&[0], false);
    Ok([first, second, third, fourth, fifth])
}

// The text of the netlist's module, and whether it answers as it must; None where something is missing.
fn seen(alloc: Global) -> Option<(Vec<u8>, bool)> {
    let Ok(net) = each_kind(alloc) else {
        return None;
    };
    if !is_finished(&net) || !is_over_the_counter(&net) {
        return None;
    }
    let Ok(checker) = made(alloc, &net) else {
        return None;
    };
    let Ok(text) = text(alloc, &checker) else {
        return None;
    };
    match answers(alloc, checker) {
        Err(_) => None,
        Ok(answers) => Some((text, answers == [false, false, true, true, false])),
    }
}

const TEXT: &[u8] = b"module mbac_u_1 (mbac_clk, mbac_rst, mbac_eot, cnt, mbac_fail);
  input mbac_clk;
  input mbac_rst;
  input mbac_eot;
  input [3:0] cnt;
  output mbac_fail;
  reg mbac_r0;
  reg mbac_r1;
  wire mbac_n0 = (|(cnt[3] ? (cnt[1:0] == 2'd3) : cnt[2]));
  wire mbac_n1 = mbac_eot;
  wire mbac_n2 = mbac_r0;
  wire mbac_n3 = mbac_r1;
  wire mbac_n4 = 1'd1;
  wire mbac_n5 = 1'd0;
  wire mbac_n6 = (!mbac_n2);
  wire mbac_n7 = (mbac_n4 && mbac_n6);
  wire mbac_n8 = (mbac_n7 || mbac_n5);
  wire mbac_n9 = (mbac_n8 || mbac_n3);
  assign mbac_fail = mbac_n9;
  always @(posedge mbac_clk) mbac_r0 <= (mbac_rst ? 1'd1 : mbac_n0);
  always @(posedge mbac_clk) mbac_r1 <= (mbac_rst ? 1'd0 : mbac_n1);
endmodule
";

#[test]
fn each_kind_of_node_runs_in_its_module(rt: HostRuntime) -> Result<(), Fail> {
    match seen(rt.alloc()) {
        None => assert!(rt; false),
        Some((text, answers_so)) => {
            assert_eq!(rt; text.as_slice(), TEXT);
            assert!(rt; answers_so);
        }
    }
    Ok(())
}
