//! The checkers of a unit.

ghost use Rattle.std.specs.Prelude.{◌≡◌, ◌<◌, ◌≤◌, ◌+◌, ◌-◌, ◌^◌, ◌++◌, ◌∷◌, [], ℕ, All};
ghost use Rattle.std.specs.Prelude.{IfOk, IfErr, OnOk, length, map, slice_index_or};
ghost use Rattle.psl_model.specs.declared.units.Directive.{Directive};
ghost use Rattle.psl_model.specs.UnitView.{unit_of, directive_of};
ghost use Rattle.verilog_text.specs.View.{module_of};
ghost use Rattle.mbac_compile.specs.Units.{IsWellNamed, IsWellWorded, IsWellFormed};
ghost use Rattle.formula_limits.specs.Steps.{step_limit};
ghost use Rattle.unit_compile.specs.Directives.{IsTakenAt, AreTaken};
ghost use Rattle.unit_compile.specs.Made.{IsMade, AreMade};
ghost use Rattle.unit_compile.specs.inner.Unmade.{HasOneMore, IsUnmade, AreUnmade, IsUncompiled};

use crate::refusals::check_refusal;
use mbac_compile::{Checker, checker_of_directive};
use psl_model::{Directive, PslUnit, Refusal};
use std::alloc::Global;
use verilog_text::Module;

/// The most steps that the tables of a unit's sequences may have.
const STEP_LIMIT: u64 = 1_000_000;

/// The checker of a directive, by its place in the unit, or what stands against it. The directives before it have so
/// many steps.
fn module_at(
    alloc: Global,
    unit: &PslUnit,
    place: usize,
    directive: &Directive,
    before: u64,
) -> Result<Checker, Refusal>
    requires names { IsWellNamed (unit_of unit.now) }
    requires words { IsWellWorded (directive_of directive.now) }
    requires expressions { IsWellFormed (unit_of unit.now) (directive_of directive.now) }
    requires few { place + 1 < 2 ^ 32 }
    requires before { before ≤ step_limit }
    ensures made { IfOk result (λ x.
        IsMade (unit_of unit.now) (place + 1) (directive_of directive.now) (module_of x.checker)) }
    ensures taken { IfOk result (λ x. IsTakenAt before (directive_of directive.now) (before + x.steps)) }
    ensures refused { IfErr result (IsUnmade (place + 1) before (directive_of directive.now)) }
{
    match checker_of_directive(alloc, unit, place + 1, directive, STEP_LIMIT - before) {
        Ok(made) => Ok(made),
        Err(error) => Err(check_refusal(place as u32 + 1, before, error)),
    }
}

/// Puts the checker of the directive at a place behind others, and tells the steps of the directives up to it.
fn put_module(
    alloc: Global,
    unit: &PslUnit,
    place: usize,
    directive: &Directive,
    before: u64,
    modules: &mut Vec<Module>,
) -> Result<u64, Refusal>
    requires names { IsWellNamed (unit_of unit.now) }
    requires words { IsWellWorded (directive_of directive.now) }
    requires expressions { IsWellFormed (unit_of unit.now) (directive_of directive.now) }
    requires few { place + 1 < 2 ^ 32 }
    requires before { before ≤ step_limit }
    ensures made { OnOk result (HasOneMore (unit_of unit.now) (place + 1) (directive_of directive.now)
        (map module_of modules.old.items) (map module_of modules.new.items)) }
    ensures taken { IfOk result (IsTakenAt before (directive_of directive.now)) }
    ensures refused { IfErr result (IsUnmade (place + 1) before (directive_of directive.now)) }
{
    let Checker { checker, steps } = module_at(alloc, unit, place, directive, before)?;
    match modules.push(checker) {
        Ok(()) => Ok(before + steps),
        Err(_) => Err(Refusal::OutOfMemory),
    }
}

/// The checkers of directives of a unit, which are numbered from 1. Each directive is judged when its turn comes, so
/// what is told is the first refusal.
fn directive_modules(
    alloc: Global,
    unit: &PslUnit,
    directives: &[Directive],
) -> Result<Vec<Module>, Refusal>
    requires names { IsWellNamed (unit_of unit.now) }
    requires words { All (λ (d : Directive). IsWellWorded (directive_of d)) directives.now }
    requires expressions { All (λ (d : Directive). IsWellFormed (unit_of unit.now) (directive_of d)) directives.now }
    requires few { length directives.now + 1 < 2 ^ 32 }
    ensures made { IfOk result (λ modules. AreMade (unit_of unit.now) 1 (map directive_of directives.now)
        (map module_of modules.items)) }
    ensures taken { OnOk result (AreTaken 0 (map directive_of directives.now)) }
    ensures refused { IfErr result (AreUnmade (map directive_of directives.now)) }
{
    let mut modules = Vec::new(alloc);
    let mut steps = 0;
    for place in 0..directives.len() {
        steps = put_module(alloc, unit, place, &directives[place], steps, &mut modules)?;
    }
    Ok(modules)
}

/// The checkers of a unit, one for each directive, in their order, or the first refusal of a directive.
pub(crate) fn modules_of(alloc: Global, unit: &PslUnit) -> Result<Vec<Module>, Refusal>
    requires names { IsWellNamed (unit_of unit.now) }
    requires words { All (λ (d : Directive). IsWellWorded (directive_of d)) unit.now.directives }
    requires expressions { All (λ (d : Directive). IsWellFormed (unit_of unit.now) (directive_of d))
        unit.now.directives }
    requires few { length unit.now.directives + 1 < 2 ^ 32 }
    ensures made { IfOk result (λ modules. AreMade (unit_of unit.now) 1 (unit_of unit.now).directives
        (map module_of modules.items)) }
    ensures taken { OnOk result (AreTaken 0 (unit_of unit.now).directives) }
    ensures refused { IfErr result (IsUncompiled (unit_of unit.now)) }
{
    let directives = unit.directives.as_slice();
    directive_modules(alloc, unit, directives)
}
