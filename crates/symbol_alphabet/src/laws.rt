//! Laws of symbols, of labels and of letters. The functions do nothing: each contract is the law.

ghost use Rattle.std.specs.Prelude.{◌≡◌, ◌≢◌, ◌↔◌, ◌<◌, ◌++◌, ℕ, List, [], ◌∷◌, All, Some, IsTrue, true, false};
ghost use Rattle.std.specs.Prelude.{length, slice_get};
ghost use Rattle.auto_core.specs.Machine.{Passes};
ghost use Rattle.auto_core.specs.declared.labels.Literal.{Literal};
ghost use Rattle.psl_meaning.specs.Sequence.{Holds};
ghost use Rattle.psl_meaning.specs.Word.{Letter, bottom};
ghost use Rattle.psl_model.specs.Expr.{Expr};
ghost use Rattle.symbol_alphabet.specs.Symbols.{same, stripped, is_positive, needs_none, label_in, HasSymbol};
ghost use Rattle.symbol_alphabet.specs.Symbols.{with_symbol, AreDifferent, seen_by};

/// The test by which symbols are found is equality.
pub fn the_same_expressions_are_equal()
    ensures { (a b : Expr) → IsTrue (same a b) ↔ (a ≡ b) }
{}

/// What the symbols are after an expression was seen: those that were there, and at most one more, which is what was
/// missing. None comes twice.
pub fn an_expression_is_numbered_once()
    ensures numbered { (symbols : List Expr) (e : Expr) → HasSymbol (with_symbol symbols e) e }
    ensures known { (symbols : List Expr) (e : Expr) → HasSymbol symbols e → with_symbol symbols e ≡ symbols }
    ensures new { (symbols : List Expr) (e : Expr) →
        ¬ HasSymbol symbols e → with_symbol symbols e ≡ symbols ++ stripped e ∷ [] }
    ensures grows { (symbols : List Expr) (e : Expr) →
        (more : List Expr) × (with_symbol symbols e ≡ symbols ++ more) }
    ensures different { (symbols : List Expr) (e : Expr) →
        AreDifferent symbols → AreDifferent (with_symbol symbols e) }
{}

/// A label has no literal, or one: its symbol is what is left of the expression without the leading `!`.
pub fn a_label_is_one_literal()
    ensures none { (symbols : List Expr) (e : Expr) → needs_none e ≡ true → label_in symbols e ≡ [] }
    ensures one { (symbols : List Expr) (e : Expr) → HasSymbol symbols e → needs_none e ≡ false →
        (n : ℕ) × (slice_get symbols n ≡ Some (stripped e)) ×
        (label_in symbols e ≡ record { symbol = n; positive = is_positive e } ∷ []) }
    ensures within { (symbols : List Expr) (e : Expr) →
        HasSymbol symbols e → All (λ l. l.symbol < length symbols) (label_in symbols e) }
{}

/// A letter that is a valuation or a top, seen through the symbols, passes the label of an expression exactly if it
/// satisfies the expression: a top passes each label.
pub fn a_label_holds_as_its_expression()
    ensures { (widths : List ℕ) (symbols : List Expr) (e : Expr) (a : Letter) →
        HasSymbol symbols e → a ≢ bottom → Passes (label_in symbols e) (seen_by widths symbols a) ↔ Holds widths e a }
{}

/// Symbols that come later change no label that was made before, nor what passes a label over the earlier ones.
pub fn later_symbols_change_no_label()
    ensures numbered { (symbols more : List Expr) (e : Expr) → HasSymbol symbols e → HasSymbol (symbols ++ more) e }
    ensures label { (symbols more : List Expr) (e : Expr) →
        HasSymbol symbols e → label_in (symbols ++ more) e ≡ label_in symbols e }
    ensures passes { (widths : List ℕ) (symbols more : List Expr) (label : List Literal) (a : Letter) →
        All (λ l. l.symbol < length symbols) label →
        Passes label (seen_by widths (symbols ++ more) a) ↔ Passes label (seen_by widths symbols a) }
{}
