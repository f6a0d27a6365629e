//! What follows from the definition of units alone.

ghost use Rattle.std.specs.Prelude.{◌<◌, ◌≤◌, ℕ, List, All, [], length};
ghost use Rattle.psl_grammar.specs.RawUnit.{RawUnit};
ghost use Rattle.psl_grammar.specs.TokenOrder.{unit_tokens, AscendFrom};
ghost use Rattle.psl_lexer.specs.declared.kinds.Token.{Token};
ghost use Rattle.psl_grammar.specs.DeclaredNames.{NamesDeclared};
ghost use Rattle.psl_grammar.specs.Units.{IsUnit};

/// The tokens that a unit's tree names are tokens of the text, each behind those that stand before it in the tree. No
/// unit has more items than tokens.
#[tactic(auto, using(crate::proofs::TokenOrder::unit_in_order))]
pub fn a_unit_names_its_tokens_in_order()
    ensures ascend { (text : List ℕ) (tokens : List Token) (unit : RawUnit)
        → IsUnit text tokens unit → AscendFrom 0 (unit_tokens unit) }
    ensures below { (text : List ℕ) (tokens : List Token) (unit : RawUnit)
        → IsUnit text tokens unit → All (λ n. n < length tokens) (unit_tokens unit) }
    ensures few { (text : List ℕ) (tokens : List Token) (unit : RawUnit)
        → IsUnit text tokens unit → length unit.items ≤ length tokens }
{}

/// A name stands as a sequence or as a property where the latest item before that declares it is such a one, and as a
/// signal where no item before declares it.
#[tactic(auto, using(crate::proofs::Names::unit_declared))]
pub fn names_stand_for_what_was_declared()
    ensures { (text : List ℕ) (tokens : List Token) (unit : RawUnit)
        → IsUnit text tokens unit → NamesDeclared text tokens [] unit.items }
{}
