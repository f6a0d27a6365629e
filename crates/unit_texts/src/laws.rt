//! What follows from the definition of a unit's text. The function does nothing: its contract is the law.

ghost use Rattle.std.specs.Prelude.{◌≡◌, ℕ, List};
ghost use Rattle.psl_model.specs.Unit.{PslUnit};
ghost use Rattle.psl_units.specs.StandsForUnit.{StandsForUnit};

use psl_lexer::laws::a_text_has_one_reading;
use unit_reader::laws::tokens_are_one_unit;

/// Bytes stand for one unit at most.
pub fn bytes_stand_for_one_unit()
    ensures { (bytes : List ℕ) (unit other : PslUnit) → StandsForUnit bytes unit → StandsForUnit bytes other
        → unit ≡ other }
{
    a_text_has_one_reading();
    tokens_are_one_unit();
}
