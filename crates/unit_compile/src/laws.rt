//! What compiling a text rests on. The functions do nothing: each contract is a law.

ghost use Rattle.std.specs.Prelude.{◌≡◌, ◌≢◌, ◌≤◌, ◌<◌, ◌^◌, ◌+◌, ℕ, List, All, AllPairs, map, length, flat_map};
ghost use Rattle.psl_model.specs.Limits.{unit_text_limit};
ghost use Rattle.psl_model.specs.declared.refusals.Refusal.{Refusal};
ghost use Rattle.psl_model.specs.Unit.{PslUnit};
ghost use Rattle.verilog_text.specs.Module.{Module};
ghost use Rattle.verilog_text.specs.Text.{spelling};
ghost use Rattle.checker_meaning.specs.Headline.{IsCompiled};
ghost use Rattle.psl_units.specs.StandsForUnit.{StandsForUnit};
ghost use Rattle.mbac_compile.specs.Units.{IsWellNamed, IsWellWorded, IsWellFormed};
ghost use Rattle.unit_compile.specs.Made.{IsAccepted, AreMade, AreModulesOf};
ghost use Rattle.unit_compile.specs.Refused.{IsRefused, ComesFor};

use formula_limits::laws::{a_formula_has_one_number_of_steps, the_first_large_sequence_is_one};
use psl_lexer::laws::a_text_has_one_reading;
use unit_conditions::laws::{
    directives_are_few, directives_are_well_worded, expressions_are_valid_and_shallow,
    labels_are_different, units_are_well_named,
};
use unit_reader::laws::tokens_are_one_unit;
use unit_texts::laws::bytes_stand_for_one_unit;

/// A unit for which a text stands is one that the compiler takes.
pub fn a_unit_meets_its_conditions()
    ensures names { (text : List ℕ) (unit : PslUnit) → StandsForUnit text unit → IsWellNamed unit }
    ensures words { (text : List ℕ) (unit : PslUnit) → StandsForUnit text unit → All IsWellWorded unit.directives }
    ensures expressions { (text : List ℕ) (unit : PslUnit) → StandsForUnit text unit
        → All (IsWellFormed unit) unit.directives }
    ensures few { (text : List ℕ) (unit : PslUnit) → StandsForUnit text unit → length text ≤ unit_text_limit
        → length unit.directives + 1 < 2 ^ 32 }
{
    units_are_well_named();
    directives_are_well_worded();
    expressions_are_valid_and_shallow();
    directives_are_few();
}

/// A text is refused for one reason at most, and none of which checkers are made is refused. Which fault of the grammar
/// is told isn't fixed.
pub fn a_text_has_one_answer()
    ensures one { (text : List ℕ) (due r : Refusal) → IsRefused text due → IsRefused text r → ComesFor text due r }
    ensures not_both { (text : List ℕ) (r : Refusal) → IsRefused text r → IsAccepted text → ⊥ }
{
    a_text_has_one_reading();
    tokens_are_one_unit();
    bytes_stand_for_one_unit();
    a_formula_has_one_number_of_steps();
    the_first_large_sequence_is_one();
}

/// The checkers of a unit have different names.
pub fn checkers_have_different_names()
    ensures { (text : List ℕ) (unit : PslUnit) (modules : List Module) → StandsForUnit text unit
        → length text ≤ unit_text_limit → AreMade unit 1 unit.directives modules
        → AllPairs (λ m n. m ≢ n) (map (λ (m : Module). m.name) modules) }
{
    directives_are_few();
    directives_are_well_worded();
    labels_are_different();
}

/// The text of the modules checks each unit for which the bytes stand.
pub fn modules_of_a_text_check_its_unit()
    ensures { (text checkers : List ℕ) (modules : List Module) → AreModulesOf text modules
        → checkers ≡ flat_map spelling modules → IsCompiled StandsForUnit text checkers }
{
    bytes_stand_for_one_unit();
}
