//! What follows from the definition of a unit. The functions do nothing: each contract is the law.

ghost use Rattle.std.specs.Prelude.{◌≡◌, ℕ, List, None, Some, slice_get};
ghost use Rattle.psl_grammar.specs.RawUnit.{RawUnit};
ghost use Rattle.psl_grammar.specs.Units.{IsUnit};
ghost use Rattle.psl_lexer.specs.declared.kinds.Token.{Token};
ghost use Rattle.unit_rules.specs.declared.errors.UnitError.{UnitError};
ghost use Rattle.unit_rules.specs.Faults.{unit_faults};
ghost use Rattle.unit_rules.specs.Order.{AreInOrder, ComesBeforeAll};
ghost use Rattle.unit_rules.specs.Sites.{unit_sites};
ghost use Rattle.unit_rules.specs.Source.{Source, source};
ghost use Rattle.unit_rules.specs.Limits.{refusal};
ghost use Rattle.unit_rules.specs.Placed.{no_bodies};
ghost use Rattle.psl_units.specs.Before.{AreNew};
ghost use Rattle.psl_units.specs.Unit.{unit_for};
ghost use Rattle.psl_units.specs.Having.{HasValidExprs};

use psl_grammar::laws::a_unit_names_its_tokens_in_order;
use unit_rules::laws::the_first_broken_rule_comes_before_all;

/// The tokens at which a unit may break a rule ascend in the order of reading.
pub fn places_of_a_unit_are_in_order()
    ensures { (text : List ℕ) (tokens : List Token) (raw : RawUnit) → IsUnit text tokens raw
        → AreInOrder (unit_sites raw) }
{
    a_unit_names_its_tokens_in_order();
}

/// So the first broken rule of a unit is the least by token, and at one token by the list of the answers.
pub fn a_units_first_broken_rule_comes_before_all()
    ensures { (text : List ℕ) (tokens : List Token) (raw : RawUnit) (fault : UnitError) → IsUnit text tokens raw
        → slice_get (unit_faults (source text tokens) raw) 0 ≡ Some fault
        → ComesBeforeAll fault (unit_faults (source text tokens) raw) }
{
    places_of_a_unit_are_in_order();
    the_first_broken_rule_comes_before_all();
}

/// Where nothing refuses a unit, each of its expressions is valid for its signals.
pub fn expressions_of_a_unit_are_valid()
    ensures { (s : Source) (raw : RawUnit) → refusal s raw ≡ None → HasValidExprs (unit_for s raw) }
{}

/// A unit that isn't refused declares no name of a sequence or property twice.
#[tactic(auto, using(crate::proofs::NewNames::unit_new))]
pub fn a_lawful_unit_declares_no_name_twice()
    ensures { (s : Source) (raw : RawUnit) → refusal s raw ≡ None → AreNew s no_bodies raw.items }
{}
