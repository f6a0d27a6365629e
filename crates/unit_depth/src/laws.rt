//! What follows from the definitions of a unit and of depth alone.

ghost use Rattle.std.specs.Prelude.{ℕ, List, ◌↔◌, length};
ghost use Rattle.psl_grammar.specs.RawUnit.{RawUnit};
ghost use Rattle.psl_grammar.specs.Units.{IsUnit};
ghost use Rattle.psl_lexer.specs.declared.kinds.Token.{Token};
ghost use Rattle.psl_parser.specs.Depth.{NoneTooDeep};
ghost use Rattle.psl_parser.specs.Seen.{seen};
ghost use Rattle.unit_depth.specs.Spelled.{Spell};

/// The tokens of a text are a unit exactly if they spell its tree, with any number of open phrases and items of any
/// length, and no token is too deep, as the tokens alone tell it.
#[tactic(auto, using(crate::proofs::BothWays::unit_is))]
pub fn a_unit_is_spelled_and_not_too_deep()
    ensures { (text : List ℕ) (tokens : List Token) (unit : RawUnit)
        → IsUnit text tokens unit ↔ (Spell text tokens unit × NoneTooDeep (seen text tokens) (length tokens)) }
{}
