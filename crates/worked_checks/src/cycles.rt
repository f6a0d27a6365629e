//! Modules built by hand, run cycle by cycle. Expected values were worked out by hand.

ghost use Rattle.std.specs.Prelude.{◌≡◌, ℕ, ◌<◌, ◌^◌, [], IfOk};
ghost use Rattle.psl_model.specs.Expr as tree;
ghost use Rattle.psl_model.specs.View.{expr_of};
ghost use Rattle.psl_model.specs.declared.operators.BinOp.{BinOp};
ghost use Rattle.verilog_text.specs.Examples.{small_checker};
ghost use Rattle.verilog_text.specs.Module.{IsLawful};
ghost use Rattle.verilog_text.specs.View.{module_of};
ghost use Rattle.worked_checks.specs.Modules.{exchange, comparison, counter};

use psl_model::{BinOp, Expr, Name, Signal, Subexpr, UnOp};
use sqlite_items::Items;
use std::alloc::{AllocError, Global};
use std::test::Fail;
use verilog_cycles::Machine;
use verilog_text::examples::small_checker_is_lawful;
use verilog_text::{Module, RegDecl, WireDecl};

fn binary(alloc: Global, op: BinOp, left: Expr, right: Expr) -> Result<Expr, AllocError>
    ensures { IfOk result (λ e. expr_of e ≡ tree.binary op (expr_of left) (expr_of right)) }
{
    let left = Subexpr::new(alloc, left)?;
    let right = Subexpr::new(alloc, right)?;
    Ok(Expr::Binary(op, left, right))
}

fn unary(alloc: Global, op: UnOp, operand: Expr) -> Result<Expr, AllocError>
    ensures { IfOk result (λ e. expr_of e ≡ tree.unary op (expr_of operand)) }
{
    Ok(Expr::Unary(op, Subexpr::new(alloc, operand)?))
}

fn small(alloc: Global) -> Result<Module, AllocError>
    ensures { IfOk result (λ m. module_of m ≡ small_checker) }
{
    let any = unary(alloc, UnOp::AnyOne, Expr::Whole(2))?;
    let none = unary(alloc, UnOp::Not, Expr::Whole(4))?;
    let next = Expr::Sized(1, 0);
    let regs = vec![in alloc;
        RegDecl {
            width: 1,
            init: 1,
            next
        },
    ]?;
    let first = WireDecl {
        width: 1,
        value: any,
    };
    let second = WireDecl {
        width: 1,
        value: none,
    };
    let wires = vec![in alloc; first, second]?;
    let port = Signal {
        name: Name::new(alloc, b"a")?,
        width: 1,
    };
    Ok(Module {
        name: Name::new(alloc, b"mbac_u_1")?,
        report: None,
        ports: Items::from_vec(vec![in alloc; port]?),
        regs: Items::from_vec(regs),
        wires: Items::from_vec(wires),
        fail: Expr::Whole(5),
    })
}

fn exchanging(alloc: Global) -> Result<Module, AllocError>
    ensures { IfOk result (λ m. module_of m ≡ exchange) }
{
    let first = RegDecl {
        width: 4,
        init: 5,
        next: Expr::Whole(3),
    };
    let second = RegDecl {
        width: 4,
        init: 9,
        next: Expr::Whole(2),
    };
    let regs = vec![in alloc; first, second]?;
    let fail = binary(alloc, BinOp::Eq, Expr::Whole(2), Expr::Sized(4, 9))?;
    Ok(Module {
        name: Name::new(alloc, b"mbac_exchange")?,
        report: None,
        ports: Items::new(alloc),
        regs: Items::from_vec(regs),
        wires: Items::new(alloc),
        fail,
    })
}

fn comparing(alloc: Global, op: BinOp, x: u64, y: u64, z: u64) -> Result<Module, AllocError>
    ensures { IfOk result (λ m. module_of m ≡ comparison op x y z) }
{
    let first = RegDecl {
        width: 64,
        init: u128::from(x),
        next: Expr::Whole(2),
    };
    let second = RegDecl {
        width: 64,
        init: u128::from(y),
        next: Expr::Whole(3),
    };
    let third = RegDecl {
        width: 64,
        init: u128::from(z),
        next: Expr::Whole(4),
    };
    let regs = vec![in alloc; first, second, third]?;
    let value = binary(alloc, op, Expr::Whole(2), Expr::Whole(3))?;
    let wires = vec![in alloc; WireDecl { width: 64, value }]?;
    let fail = binary(alloc, BinOp::Eq, Expr::Whole(5), Expr::Whole(4))?;
    Ok(Module {
        name: Name::new(alloc, b"mbac_comparison")?,
        report: None,
        ports: Items::new(alloc),
        regs: Items::from_vec(regs),
        wires: Items::from_vec(wires),
        fail,
    })
}

fn counting(alloc: Global) -> Result<Module, AllocError>
    ensures { IfOk result (λ m. module_of m ≡ counter) }
{
    let next = binary(alloc, BinOp::Add, Expr::Whole(2), Expr::Plain(1))?;
    let regs = vec![in alloc;
        RegDecl {
            width: 4,
            init: 15,
            next
        },
    ]?;
    let wide = binary(alloc, BinOp::Add, Expr::Whole(2), Expr::Plain(1))?;
    let wide = binary(alloc, BinOp::Eq, wide, Expr::Plain(0))?;
    let narrow = binary(alloc, BinOp::Add, Expr::Whole(2), Expr::Sized(4, 1))?;
    let narrow = binary(alloc, BinOp::Eq, narrow, Expr::Sized(4, 0))?;
    let first = WireDecl {
        width: 1,
        value: wide,
    };
    let second = WireDecl {
        width: 1,
        value: narrow,
    };
    let wires = vec![in alloc; first, second]?;
    let test = Subexpr::new(alloc, Expr::Whole(1))?;
    let at_end = Subexpr::new(alloc, Expr::Whole(4))?;
    let before = Subexpr::new(alloc, Expr::Whole(3))?;
    Ok(Module {
        name: Name::new(alloc, b"mbac_counter")?,
        report: None,
        ports: Items::new(alloc),
        regs: Items::from_vec(regs),
        wires: Items::from_vec(wires),
        fail: Expr::Choice(test, at_end, before),
    })
}

/// The answer of a comparison in its first cycle.
fn compared(alloc: Global, op: BinOp, x: u64, y: u64, z: u64) -> Result<bool, AllocError> {
    they_are_lawful();
    let mut machine = Machine::load(alloc, comparing(alloc, op, x, y, z)?)?;
    machine.reset();
    Ok(machine.step(&[], false))
}

/// The modules of these tests are lawful.
fn they_are_lawful()
    ensures exchange { IsLawful exchange }
    ensures comparison { (op : BinOp) (x y z : ℕ) → x < 2 ^ 64 → y < 2 ^ 64 → z < 2 ^ 64 →
        IsLawful (comparison op x y z) }
    ensures counter { IsLawful counter }
{}

#[test]
fn the_small_checker_runs_again_from_each_reset(rt: HostRuntime) -> Result<(), Fail> {
    small_checker_is_lawful();
    let mut machine = Machine::load(rt.alloc(), small(rt.alloc())?)?;
    assert_eq!(rt; machine.module().wires.len(), 2);
    machine.reset();
    assert!(rt; !machine.step(&[1], false));
    assert!(rt; machine.step(&[0], true));
    machine.reset();
    assert!(rt; machine.step(&[0], false));
    Ok(())
}

#[test]
fn two_registers_exchange_their_values(rt: HostRuntime) -> Result<(), Fail> {
    they_are_lawful();
    let mut machine = Machine::load(rt.alloc(), exchanging(rt.alloc())?)?;
    assert!(rt; !machine.step(&[], false));
    machine.reset();
    assert!(rt; !machine.step(&[], false));
    assert!(rt; machine.step(&[], false));
    assert!(rt; !machine.step(&[], false));
    Ok(())
}

// The larger width of `cnt + 1` is that of the number.
#[test]
fn a_counter_wraps_at_the_larger_width(rt: HostRuntime) -> Result<(), Fail> {
    they_are_lawful();
    let mut machine = Machine::load(rt.alloc(), counting(rt.alloc())?)?;
    machine.reset();
    assert!(rt; !machine.step(&[], false));
    machine.reset();
    assert!(rt; machine.step(&[], true));
    assert!(rt; !machine.step(&[], true));
    Ok(())
}

#[test]
fn numbers_of_64_bits_wrap_and_compare(rt: HostRuntime) -> Result<(), Fail> {
    let top = 1 << 63;
    let most = u64::MAX;
    let cases = [
        (BinOp::Add, most, 2, 1),
        (BinOp::Add, top, top, 0),
        (BinOp::Sub, 0, 1, most),
        (BinOp::Sub, 5, most, 6),
        (BinOp::Shl, 3, 63, top),
        (BinOp::Shl, most, 64, 0),
        (BinOp::Shl, most, most, 0),
        (BinOp::Shr, most, 63, 1),
        (BinOp::Shr, most, 64, 0),
        (BinOp::Shr, most, top, 0),
        (BinOp::Lt, 1, most, 1),
        (BinOp::Le, most, 1, 0),
        (BinOp::Gt, top, 1, 1),
        (BinOp::Ge, most, most, 1),
        (BinOp::Eq, top, 0, 0),
        (BinOp::Ne, top, 0, 1),
        (BinOp::BitAnd, most, 10, 10),
        (BinOp::BitXor, most, 1, most - 1),
        (BinOp::BitOr, top, 1, top + 1),
        (BinOp::And, top, 1, 1),
        (BinOp::Or, 0, 0, 0),
    ];
    for (op, x, y, z) in cases {
        assert!(rt; compared(rt.alloc(), op, x, y, z)?, "{op:?} {x} {y}");
        assert!(rt; !compared(rt.alloc(), op, x, y, z ^ 2)?, "{op:?} {x} {y}");
    }
    Ok(())
}
