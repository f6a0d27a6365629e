//! Laws of counts. The functions do nothing: each contract is the law.

ghost use Rattle.std.specs.Prelude.{◌≡◌, ℕ};
ghost use Rattle.psl_rewrite.specs.Base.{Base};
ghost use Rattle.formula_limits.specs.Places.{AreSmall, HasTooManyPlaces};
ghost use Rattle.formula_limits.specs.Steps.{HasSteps};

use sequence_tables::laws::a_sequence_has_one_number_of_steps;

/// A formula has one number of steps.
pub fn a_formula_has_one_number_of_steps()
    ensures { (f : Base) (k l : ℕ) → HasSteps f k → HasSteps f l → k ≡ l }
{
    a_sequence_has_one_number_of_steps();
}

/// A formula has one first sequence with too many places, and has none where each sequence is small.
pub fn the_first_large_sequence_is_one()
    ensures one { (f : Base) (m n p q : ℕ) →
        HasTooManyPlaces f m p → HasTooManyPlaces f n q → (m ≡ n) × (p ≡ q) }
    ensures none { (f : Base) (n p : ℕ) → AreSmall f → ¬ HasTooManyPlaces f n p }
{}
