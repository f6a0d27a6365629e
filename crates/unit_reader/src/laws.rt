//! What follows from the definition of units alone.

ghost use Rattle.std.specs.Prelude.{◌≡◌, ℕ, List};
ghost use Rattle.psl_grammar.specs.RawUnit.{RawUnit};
ghost use Rattle.psl_lexer.specs.declared.kinds.Token.{Token};
ghost use Rattle.psl_grammar.specs.Units.{IsUnit};

/// The tokens of a text are at most one unit.
#[tactic(auto, using(crate::proofs::UnitReads::one_unit))]
pub fn tokens_are_one_unit()
    ensures { (text : List ℕ) (tokens : List Token) (unit other : RawUnit)
        → IsUnit text tokens unit → IsUnit text tokens other → unit ≡ other }
{}
