//! A checker on sampled traces. Its output is 1 in each cycle in which `a` is 0.

ghost use Rattle.std.specs.Prelude.{◌≡◌, IfOk};
ghost use Rattle.psl_model.specs.Expr as tree;
ghost use Rattle.psl_model.specs.View.{expr_of};
ghost use Rattle.verilog_text.specs.Examples.{small_checker};
ghost use Rattle.verilog_text.specs.View.{module_of};

use psl_model::{Expr, Name, Signal, Subexpr, UnOp};
use sqlite_items::Items;
use std::alloc::{AllocError, Global};
use std::test::Fail;
use vcd_reader::Vcd;
use vcd_replay::{first_fail, sample, sampled_rows_fit};
use verilog_cycles::Machine;
use verilog_text::examples::small_checker_is_lawful;
use verilog_text::{Module, RegDecl, WireDecl};

fn unary(alloc: Global, op: UnOp, operand: Expr) -> Result<Expr, AllocError>
    ensures { IfOk result (λ e. expr_of e ≡ tree.unary op (expr_of operand)) }
{
    Ok(Expr::Unary(op, Subexpr::new(alloc, operand)?))
}

fn checker(alloc: Global) -> Result<Module, AllocError>
    ensures { IfOk result (λ m. module_of m ≡ small_checker) }
{
    let any = unary(alloc, UnOp::AnyOne, Expr::Whole(2))?;
    let none = unary(alloc, UnOp::Not, Expr::Whole(4))?;
    let next = Expr::Sized(1, 0);
    let regs = vec![in alloc;
        RegDecl {
            width: 1,
            init: 1,
            next
        },
    ]?;
    let first = WireDecl {
        width: 1,
        value: any,
    };
    let second = WireDecl {
        width: 1,
        value: none,
    };
    let wires = vec![in alloc; first, second]?;
    let port = Signal {
        name: Name::new(alloc, b"a")?,
        width: 1,
    };
    Ok(Module {
        name: Name::new(alloc, b"mbac_u_1")?,
        report: None,
        ports: Items::from_vec(vec![in alloc; port]?),
        regs: Items::from_vec(regs),
        wires: Items::from_vec(wires),
        fail: Expr::Whole(5),
    })
}

// The first cycle in which the checker fails on a text; None where there was no trace.
fn verdict(alloc: Global, text: &[u8], skip: u32, end: bool) -> Option<Option<u64>> {
    small_checker_is_lawful();
    sampled_rows_fit();
    let Ok(vcd) = Vcd::read(alloc, text) else {
        return None;
    };
    let Ok(name) = Name::new(alloc, b"a") else {
        return None;
    };
    let wanted = [Signal { name, width: 1 }];
    let Ok(trace) = sample(alloc, &vcd, b"top", b"clk", &wanted, skip) else {
        return None;
    };
    let Ok(module) = checker(alloc) else {
        return None;
    };
    let Ok(mut machine) = Machine::load(alloc, module) else {
        return None;
    };
    Some(first_fail(&mut machine, &trace, 0, end))
}

const HEAD: &str =
    "$scope module top $end $var wire 1 ! clk $end $var wire 1 % a $end $upscope $end \
    $enddefinitions $end #0 0! x% #5 1! 1% #10 0! #15 1! 0% #20 0! #25 1! #30 0! ";

#[test]
fn the_first_cycle_with_the_signal_at_0_fails(rt: HostRuntime) -> Result<(), Fail> {
    for (tail, skip, wanted) in [
        ("", 1u32, Some(Some(1u64))),
        ("", 2, Some(Some(0))),
        ("", 0, None),
        ("1% #35 1!", 3, Some(None)),
        ("#35 1!", 2, Some(Some(0))),
    ] {
        let text = format!(in rt.alloc(); "{HEAD}{tail}")?;
        assert_eq!(rt; verdict(rt.alloc(), text.as_bytes(), skip, false), wanted);
        assert_eq!(rt; verdict(rt.alloc(), text.as_bytes(), skip, true), wanted);
    }
    Ok(())
}
