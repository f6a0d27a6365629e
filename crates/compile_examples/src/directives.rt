//! The checker of a unit's directive, `late: assert always (cnt[3] -> cnt[0]) report "no odd count";`. The text was
//! worked out by hand.

ghost use Rattle.std.specs.Prelude.{◌≡◌, [], ◌∷◌, map, IfOk};
ghost use Rattle.psl_model.specs.UnitView.{unit_of, directive_of};
ghost use Rattle.psl_model.specs.View.{formula_of};
ghost use Rattle.mbac_compile.specs.Units.{IsWellNamed, IsWellWorded, IsWellFormed};
ghost use Rattle.compile_examples.specs.Units as units;

use crate::seen::prints_so;
use mbac_compile::{Checker, checker_of_directive};
use psl_model::{Directive, Expr, Formula, Name, PslUnit, Signal, Subformula};
use sqlite_items::Items;
use std::alloc::{AllocError, Global};

/// A unit of the language might be this one.
fn the_unit_is_well_made()
    ensures names { IsWellNamed units.whole_unit }
    ensures words { IsWellWorded units.directive }
    ensures expressions { IsWellFormed units.whole_unit units.directive }
{}

fn formula(alloc: Global) -> Result<Formula, AllocError>
    ensures { IfOk result (λ f. formula_of f ≡ units.odd_from_eight) }
{
    let test = Subformula::new(alloc, Formula::Bool(Expr::Bit(1, 3)))?;
    let body = Subformula::new(alloc, Formula::Bool(Expr::Bit(1, 0)))?;
    let implied = Subformula::new(alloc, Formula::Implies(test, body))?;
    Ok(Formula::Always(implied))
}

fn directive(alloc: Global) -> Result<Directive, AllocError>
    ensures { IfOk result (λ d. directive_of d ≡ units.directive) }
{
    let label = Some(Name::new(alloc, b"late")?);
    let report = Some(Name::new(alloc, b"no odd count")?);
    match formula(alloc) {
        Ok(formula) => Ok(Directive {
            label,
            report,
            formula,
        }),
        Err(error) => Err(error),
    }
}

fn listed(alloc: Global, directive: Directive) -> Result<Items<Directive>, AllocError>
    ensures { IfOk result (λ list. list ≡ directive ∷ []) }
{
    let mut list = Items::new(alloc);
    match list.push(directive) {
        Ok(()) => Ok(list),
        Err(error) => Err(error),
    }
}

fn directives(alloc: Global) -> Result<Items<Directive>, AllocError>
    ensures { IfOk result (λ list. map directive_of list ≡ units.directive ∷ []) }
{
    match directive(alloc) {
        Ok(directive) => listed(alloc, directive),
        Err(error) => Err(error),
    }
}

fn signals(alloc: Global) -> Result<Items<Signal>, AllocError>
    ensures { IfOk result (λ signals. signals ≡ units.signals) }
{
    let go = Name::new(alloc, b"go")?;
    let count = Name::new(alloc, b"cnt")?;
    let mut signals = Items::new(alloc);
    signals.push(Signal { name: go, width: 1 })?;
    signals.push(Signal {
        name: count,
        width: 4,
    })?;
    Ok(signals)
}

fn unit(alloc: Global) -> Result<PslUnit, AllocError>
    ensures { IfOk result (λ u. unit_of u ≡ units.whole_unit) }
{
    let name = Name::new(alloc, b"u")?;
    let signals = signals(alloc)?;
    match directives(alloc) {
        Ok(directives) => Ok(PslUnit {
            name,
            signals,
            directives,
        }),
        Err(error) => Err(error),
    }
}

const TEXT: &[u8] = b"module mbac_u_late (mbac_clk, mbac_rst, mbac_eot, cnt, mbac_fail);
  // no odd count
  input mbac_clk;
  input mbac_rst;
  input mbac_eot;
  input [3:0] cnt;
  output mbac_fail;
  reg mbac_r0;
  reg mbac_r1;
  wire mbac_n0 = mbac_r0;
  wire mbac_n1 = 1'd0;
  wire mbac_n2 = mbac_r1;
  wire mbac_n3 = (mbac_n0 || mbac_n2);
  wire mbac_n4 = (!mbac_n1);
  wire mbac_n5 = (mbac_n3 && mbac_n4);
  wire mbac_n6 = (|cnt[3]);
  wire mbac_n7 = (mbac_n5 && mbac_n6);
  wire mbac_n8 = (|cnt[0]);
  wire mbac_n9 = (!mbac_n8);
  wire mbac_n10 = (!mbac_n1);
  wire mbac_n11 = (mbac_n7 && mbac_n10);
  wire mbac_n12 = (mbac_n11 && mbac_n9);
  wire mbac_n13 = 1'd0;
  wire mbac_n14 = mbac_eot;
  wire mbac_n15 = (mbac_n14 && mbac_n13);
  wire mbac_n16 = (mbac_n12 || mbac_n15);
  assign mbac_fail = mbac_n16;
  always @(posedge mbac_clk) mbac_r0 <= (mbac_rst ? 1'd1 : mbac_n1);
  always @(posedge mbac_clk) mbac_r1 <= (mbac_rst ? 1'd0 : mbac_n5);
endmodule
";

fn is_right(alloc: Global, made: &Checker) -> bool {
    made.steps == 0 && prints_so(alloc, &made.checker, TEXT)
}

fn is_compiled(alloc: Global, unit: &PslUnit, directive: &Directive) -> bool
    requires unit { unit_of unit.now ≡ units.whole_unit }
    requires directive { directive_of directive.now ≡ units.directive }
{
    the_unit_is_well_made();
    match checker_of_directive(alloc, unit, 1, directive, 1_000_000) {
        Ok(made) => is_right(alloc, &made),
        Err(_) => false,
    }
}

fn has_a_checker(alloc: Global, unit: &PslUnit) -> bool
    requires { unit_of unit.now ≡ units.whole_unit }
{
    match directive(alloc) {
        Ok(directive) => is_compiled(alloc, unit, &directive),
        Err(_) => false,
    }
}

fn compiles(alloc: Global) -> bool {
    match unit(alloc) {
        Ok(unit) => has_a_checker(alloc, &unit),
        Err(_) => false,
    }
}

#[test]
fn a_checker_has_the_label_the_report_and_the_used_signals(rt: HostRuntime) {
    assert!(rt; compiles(rt.alloc()));
}
