//! `always (cnt[0] -> always !cnt[1])`. Text and answers were worked out by hand.

ghost use Rattle.std.specs.Prelude.{[], ◌∷◌, IfOk};
ghost use Rattle.psl_model.specs.View.{expr_of};
ghost use Rattle.circuit_core.specs.WellMade.{IsGuard};
ghost use Rattle.property_circuits.specs.Conditions.{IsBuilt, HasGuards};

use crate::formulas::{always, always_holds, bit, implies};
use crate::seen::{fails_so, has_text};
use psl_model::{Expr, Subexpr, UnOp};
use psl_rewrite::Subbase;
use std::alloc::{AllocError, Global};
use std::test::Fail;

// !cnt[1]
fn is_clear(alloc: Global) -> Result<Expr, AllocError>
    ensures { IfOk result (λ e. IsGuard (4 ∷ []) (expr_of e)) }
{
    let bit = Subexpr::new(alloc, Expr::Bit(0, 1))?;
    Ok(Expr::Unary(UnOp::Not, bit))
}

// always !cnt[1]
fn inner(alloc: Global) -> Result<Subbase, AllocError>
    ensures built { IfOk result (λ f. IsBuilt f) }
    ensures guards { IfOk result (λ f. HasGuards (4 ∷ []) f) }
{
    let is_clear = is_clear(alloc)?;
    always_holds(alloc, is_clear)
}

fn nested(alloc: Global) -> Result<Subbase, AllocError>
    ensures built { IfOk result (λ f. IsBuilt f) }
    ensures guards { IfOk result (λ f. HasGuards (4 ∷ []) f) }
{
    let inner = inner(alloc)?;
    let implied = implies(alloc, bit(0), inner)?;
    always(alloc, implied)
}

const TEXT: &[u8] = b"module mbac_u_1 (mbac_clk, mbac_rst, mbac_eot, cnt, mbac_fail);
  input mbac_clk;
  input mbac_rst;
  input mbac_eot;
  input [3:0] cnt;
  output mbac_fail;
  reg mbac_r0;
  reg mbac_r1;
  reg mbac_r2;
  wire mbac_n0 = mbac_r0;
  wire mbac_n1 = 1'd0;
  wire mbac_n2 = mbac_r1;
  wire mbac_n3 = (mbac_n0 || mbac_n2);
  wire mbac_n4 = (!mbac_n1);
  wire mbac_n5 = (mbac_n3 && mbac_n4);
  wire mbac_n6 = (|cnt[0]);
  wire mbac_n7 = (mbac_n5 && mbac_n6);
  wire mbac_n8 = mbac_r2;
  wire mbac_n9 = (mbac_n7 || mbac_n8);
  wire mbac_n10 = (!mbac_n1);
  wire mbac_n11 = (mbac_n9 && mbac_n10);
  wire mbac_n12 = (|(!cnt[1]));
  wire mbac_n13 = (!mbac_n12);
  wire mbac_n14 = (!mbac_n1);
  wire mbac_n15 = (mbac_n11 && mbac_n14);
  wire mbac_n16 = (mbac_n15 && mbac_n13);
  wire mbac_n17 = 1'd0;
  wire mbac_n18 = mbac_eot;
  wire mbac_n19 = (mbac_n18 && mbac_n17);
  wire mbac_n20 = (mbac_n16 || mbac_n19);
  assign mbac_fail = mbac_n20;
  always @(posedge mbac_clk) mbac_r0 <= (mbac_rst ? 1'd1 : mbac_n1);
  always @(posedge mbac_clk) mbac_r1 <= (mbac_rst ? 1'd0 : mbac_n5);
  always @(posedge mbac_clk) mbac_r2 <= (mbac_rst ? 1'd0 : mbac_n11);
endmodule
";

// The bit 1 counts from the first cycle with the bit 0 on, which is cycle 1.
static CYCLES: [(u8, bool); 5] = [(2, false), (1, false), (4, false), (2, true), (8, false)];

#[test]
fn each_operator_has_its_wires(rt: HostRuntime) -> Result<(), Fail> {
    let formula = nested(rt.alloc())?;
    assert!(rt; has_text(rt.alloc(), &formula, TEXT));
    Ok(())
}

#[test]
fn the_inner_always_is_open_from_its_test_on(rt: HostRuntime) -> Result<(), Fail> {
    let formula = nested(rt.alloc())?;
    assert!(rt; fails_so(rt.alloc(), &formula, &CYCLES));
    Ok(())
}
