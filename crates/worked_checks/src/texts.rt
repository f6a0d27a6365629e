//! Whole texts, written by hand from the format.

use psl_model::{BinOp, Expr, Name, Signal, Subexpr, UnOp};
use sqlite_items::Items;
use std::alloc::{AllocError, Global};
use std::test::Fail;
use verilog_text::{Module, RegDecl, WireDecl, print};

fn signal(alloc: Global, name: &[u8], width: u32) -> Result<Signal, AllocError> {
    let name = Name::new(alloc, name)?;
    Ok(Signal { name, width })
}

fn unary(alloc: Global, op: UnOp, operand: Expr) -> Result<Expr, AllocError> {
    Ok(Expr::Unary(op, Subexpr::new(alloc, operand)?))
}

fn binary(alloc: Global, op: BinOp, left: Expr, right: Expr) -> Result<Expr, AllocError> {
    let left = Subexpr::new(alloc, left)?;
    let right = Subexpr::new(alloc, right)?;
    Ok(Expr::Binary(op, left, right))
}

fn choice(alloc: Global, test: Expr, first: Expr, second: Expr) -> Result<Expr, AllocError> {
    let test = Subexpr::new(alloc, test)?;
    let first = Subexpr::new(alloc, first)?;
    let second = Subexpr::new(alloc, second)?;
    Ok(Expr::Choice(test, first, second))
}

fn small_checker(alloc: Global) -> Result<Module, AllocError> {
    let any = unary(alloc, UnOp::AnyOne, Expr::Whole(2))?;
    let none = unary(alloc, UnOp::Not, Expr::Whole(4))?;
    let register = RegDecl {
        width: 1,
        init: 1,
        next: Expr::Sized(1, 0),
    };
    let wires = vec![in alloc;
        WireDecl {
            width: 1,
            value: any
        },
        WireDecl {
            width: 1,
            value: none
        },
    ]?;
    Ok(Module {
        name: Name::new(alloc, b"mbac_u_1")?,
        report: None,
        ports: Items::from_vec(vec![in alloc; signal(alloc, b"a", 1)?]?),
        regs: Items::from_vec(vec![in alloc; register]?),
        wires: Items::from_vec(wires),
        fail: Expr::Whole(5),
    })
}

fn wide_checker(alloc: Global) -> Result<Module, AllocError> {
    let next = binary(alloc, BinOp::Add, Expr::Whole(4), Expr::Plain(12))?;
    let low = binary(alloc, BinOp::Le, Expr::Part(2, 3, 1), Expr::Sized(3, 5))?;
    let fail = choice(alloc, Expr::Bit(2, 0), Expr::Whole(5), Expr::Whole(1))?;
    Ok(Module {
        name: Name::new(alloc, b"mbac_u_late")?,
        report: Some(Name::new(alloc, b"late ack")?),
        ports: Items::from_vec(vec![in alloc;
            signal(alloc, b"addr", 4)?,
            signal(alloc, b"go", 1)?,
        ]?),
        regs: Items::from_vec(vec![in alloc;
            RegDecl {
                width: 64,
                init: 18_446_744_073_709_551_615,
                next
            },
        ]?),
        wires: Items::from_vec(vec![in alloc;
            WireDecl {
                width: 2,
                value: low
            },
        ]?),
        fail,
    })
}

#[test]
fn modules_are_spelled(rt: HostRuntime) -> Result<(), Fail> {
    let mut out = Vec::from_slice(rt.alloc(), b"before\n")?;
    print(&small_checker(rt.alloc())?, &mut out)?;
    print(&wide_checker(rt.alloc())?, &mut out)?;
    let text = b"before
module mbac_u_1 (mbac_clk, mbac_rst, mbac_eot, a, mbac_fail);
  input mbac_clk;
  input mbac_rst;
  input mbac_eot;
  input a;
  output mbac_fail;
  reg mbac_r0;
  wire mbac_n0 = (|a);
  wire mbac_n1 = (!mbac_n0);
  assign mbac_fail = mbac_n1;
  always @(posedge mbac_clk) mbac_r0 <= (mbac_rst ? 1'd1 : 1'd0);
endmodule
module mbac_u_late (mbac_clk, mbac_rst, mbac_eot, addr, go, mbac_fail);
  // late ack
  input mbac_clk;
  input mbac_rst;
  input mbac_eot;
  input [3:0] addr;
  input go;
  output mbac_fail;
  reg [63:0] mbac_r0;
  wire [1:0] mbac_n0 = (addr[3:1] <= 3'd5);
  assign mbac_fail = (addr[0] ? mbac_n0 : mbac_eot);
  always @(posedge mbac_clk) mbac_r0 <= (mbac_rst ? 64'd18446744073709551615 : (mbac_r0 + 12));
endmodule
";
    assert_eq!(rt; out.as_slice(), text.as_slice());
    Ok(())
}
