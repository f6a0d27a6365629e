//! A counter plus 1, compared with 0: `always !(cnt + 1 == 0)`, with numbers without a size, which have 32 bits, and
//! with numbers of four bits. Texts and answers were worked out by hand.

ghost use Rattle.std.specs.Prelude.{◌≡◌, [], ◌∷◌, IfOk};
ghost use Rattle.psl_model.specs.Expr as tree;
ghost use Rattle.psl_model.specs.View.{expr_of};
ghost use Rattle.psl_model.specs.declared.operators.BinOp.{BinOp};
ghost use Rattle.psl_model.specs.declared.operators.UnOp.TheVariants as unary_op;
ghost use Rattle.circuit_core.specs.WellMade.{IsGuard};
ghost use Rattle.property_circuits.specs.Conditions.{IsBuilt, HasGuards};

use crate::formulas::always_holds;
use crate::seen::{fails_so, has_text};
use psl_model::{BinOp, Expr, Subexpr, UnOp};
use psl_rewrite::Subbase;
use std::alloc::{AllocError, Global};
use std::test::Fail;

fn binary(alloc: Global, op: BinOp, left: Expr, right: Expr) -> Result<Expr, AllocError>
    ensures { IfOk result (λ e. expr_of e ≡ tree.binary op (expr_of left) (expr_of right)) }
{
    let left = Subexpr::new(alloc, left)?;
    let right = Subexpr::new(alloc, right)?;
    Ok(Expr::Binary(op, left, right))
}

fn not(alloc: Global, operand: Expr) -> Result<Expr, AllocError>
    ensures { IfOk result (λ e. expr_of e ≡ tree.unary unary_op.Not (expr_of operand)) }
{
    Ok(Expr::Unary(UnOp::Not, Subexpr::new(alloc, operand)?))
}

// !(cnt + 1 == 0)
fn plain_test(alloc: Global) -> Result<Expr, AllocError>
    ensures { IfOk result (λ e. IsGuard (4 ∷ []) (expr_of e)) }
{
    let sum = binary(alloc, BinOp::Add, Expr::Whole(0), Expr::Plain(1))?;
    let same = binary(alloc, BinOp::Eq, sum, Expr::Plain(0))?;
    not(alloc, same)
}

// !(cnt + 4'd1 == 4'd0)
fn sized_test(alloc: Global) -> Result<Expr, AllocError>
    ensures { IfOk result (λ e. IsGuard (4 ∷ []) (expr_of e)) }
{
    let sum = binary(alloc, BinOp::Add, Expr::Whole(0), Expr::Sized(4, 1))?;
    let same = binary(alloc, BinOp::Eq, sum, Expr::Sized(4, 0))?;
    not(alloc, same)
}

fn plain(alloc: Global) -> Result<Subbase, AllocError>
    ensures built { IfOk result (λ f. IsBuilt f) }
    ensures guards { IfOk result (λ f. HasGuards (4 ∷ []) f) }
{
    let differs = plain_test(alloc)?;
    always_holds(alloc, differs)
}

fn sized(alloc: Global) -> Result<Subbase, AllocError>
    ensures built { IfOk result (λ f. IsBuilt f) }
    ensures guards { IfOk result (λ f. HasGuards (4 ∷ []) f) }
{
    let differs = sized_test(alloc)?;
    always_holds(alloc, differs)
}

const PLAIN: &[u8] = b"module mbac_u_1 (mbac_clk, mbac_rst, mbac_eot, cnt, mbac_fail);
  input mbac_clk;
  input mbac_rst;
  input mbac_eot;
  input [3:0] cnt;
  output mbac_fail;
  reg mbac_r0;
  reg mbac_r1;
  wire mbac_n0 = mbac_r0;
  wire mbac_n1 = 1'd0;
  wire mbac_n2 = mbac_r1;
  wire mbac_n3 = (mbac_n0 || mbac_n2);
  wire mbac_n4 = (!mbac_n1);
  wire mbac_n5 = (mbac_n3 && mbac_n4);
  wire mbac_n6 = (|(!((cnt + 1) == 0)));
  wire mbac_n7 = (!mbac_n6);
  wire mbac_n8 = (!mbac_n1);
  wire mbac_n9 = (mbac_n5 && mbac_n8);
  wire mbac_n10 = (mbac_n9 && mbac_n7);
  wire mbac_n11 = 1'd0;
  wire mbac_n12 = mbac_eot;
  wire mbac_n13 = (mbac_n12 && mbac_n11);
  wire mbac_n14 = (mbac_n10 || mbac_n13);
  assign mbac_fail = mbac_n14;
  always @(posedge mbac_clk) mbac_r0 <= (mbac_rst ? 1'd1 : mbac_n1);
  always @(posedge mbac_clk) mbac_r1 <= (mbac_rst ? 1'd0 : mbac_n5);
endmodule
";

const SIZED: &[u8] = b"module mbac_u_1 (mbac_clk, mbac_rst, mbac_eot, cnt, mbac_fail);
  input mbac_clk;
  input mbac_rst;
  input mbac_eot;
  input [3:0] cnt;
  output mbac_fail;
  reg mbac_r0;
  reg mbac_r1;
  wire mbac_n0 = mbac_r0;
  wire mbac_n1 = 1'd0;
  wire mbac_n2 = mbac_r1;
  wire mbac_n3 = (mbac_n0 || mbac_n2);
  wire mbac_n4 = (!mbac_n1);
  wire mbac_n5 = (mbac_n3 && mbac_n4);
  wire mbac_n6 = (|(!((cnt + 4'd1) == 4'd0)));
  wire mbac_n7 = (!mbac_n6);
  wire mbac_n8 = (!mbac_n1);
  wire mbac_n9 = (mbac_n5 && mbac_n8);
  wire mbac_n10 = (mbac_n9 && mbac_n7);
  wire mbac_n11 = 1'd0;
  wire mbac_n12 = mbac_eot;
  wire mbac_n13 = (mbac_n12 && mbac_n11);
  wire mbac_n14 = (mbac_n10 || mbac_n13);
  assign mbac_fail = mbac_n14;
  always @(posedge mbac_clk) mbac_r0 <= (mbac_rst ? 1'd1 : mbac_n1);
  always @(posedge mbac_clk) mbac_r1 <= (mbac_rst ? 1'd0 : mbac_n5);
endmodule
";

// The counter is at 15 twice, and one more than 15 is 16 in 32 bits.
static NEVER: [(u8, bool); 5] = [
    (15, false),
    (14, false),
    (0, false),
    (15, false),
    (7, false),
];

// In four bits one more than 15 is 0.
static TWICE: [(u8, bool); 5] = [(15, true), (14, false), (0, false), (15, true), (7, false)];

#[test]
fn a_number_without_a_size_is_written_so(rt: HostRuntime) -> Result<(), Fail> {
    let formula = plain(rt.alloc())?;
    assert!(rt; has_text(rt.alloc(), &formula, PLAIN));
    Ok(())
}

#[test]
fn a_number_without_a_size_widens_the_sum(rt: HostRuntime) -> Result<(), Fail> {
    let formula = plain(rt.alloc())?;
    assert!(rt; fails_so(rt.alloc(), &formula, &NEVER));
    Ok(())
}

#[test]
fn a_number_of_four_bits_is_written_so(rt: HostRuntime) -> Result<(), Fail> {
    let formula = sized(rt.alloc())?;
    assert!(rt; has_text(rt.alloc(), &formula, SIZED));
    Ok(())
}

#[test]
fn a_sum_of_four_bits_wraps_to_zero(rt: HostRuntime) -> Result<(), Fail> {
    let formula = sized(rt.alloc())?;
    assert!(rt; fails_so(rt.alloc(), &formula, &TWICE));
    Ok(())
}
