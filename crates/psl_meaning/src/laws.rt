//! Laws of words and formulas. The functions do nothing: each contract is the law.

ghost use Rattle.std.specs.Prelude.{◌≡◌, ◌≢◌, ◌↔◌, ◌<◌, ◌≤◌, ◌++◌, ◌⊎◌, ℕ, List, [], Some, None, Any, drop, length};
ghost use Rattle.std.specs.Prelude.{◌+◌, map, option_map, slice_get};
ghost use Rattle.psl_model.specs.Expr.{Expr};
ghost use Rattle.psl_model.specs.Formula.{Formula, bool, always};
ghost use Rattle.psl_model.specs.Value.{own_value};
ghost use Rattle.psl_meaning.specs.Word.{Valuation, Letter, Word, bar, finite, with_tops, from, letter_at, Reaches};
ghost use Rattle.psl_meaning.specs.Word.{valuation, top, bar_letter, first};
ghost use Rattle.psl_meaning.specs.Sequence.{CoreSere, star, Copies, Tight};
ghost use Rattle.psl_meaning.specs.SequenceSugar.{repeated};
ghost use Rattle.psl_meaning.specs.Formula.{CoreFormula, Satisfies};
ghost use Rattle.psl_meaning.specs.FormulaSugar.{everywhere};
ghost use Rattle.psl_meaning.specs.Violation.{WeaklyViolates, Violates};

/// To exchange tops and bottoms twice gives the word.
pub fn bar_of_bar_is_the_word()
    ensures { (w : Word) → bar (bar w) ≡ w }
{}

/// The bar of a word has its letters exchanged, each in its place. The suffix from place k on has the letters from k
/// on, and the first n letters are those below n, whether the word lists them or goes on with them.
pub fn letters_keep_their_places()
    ensures bar { (w : Word) (k : ℕ) → letter_at (bar w) k ≡ option_map bar_letter (letter_at w k) }
    ensures suffix { (w : Word) (k j : ℕ) → letter_at (from k w) j ≡ letter_at w (k + j) }
    ensures prefix { (w : Word) (n k : ℕ) → k < n → slice_get (first n w) k ≡ letter_at w k }
    ensures prefix_ends { (w : Word) (n k : ℕ) → n ≤ k → slice_get (first n w) k ≡ None }
{}

/// A word of letters and then tops never ends. At a place of a list of valuations its letter is the valuation, and from
/// the list's end on it is top.
pub fn tops_follow_the_trace()
    ensures never_ends { (letters : List Letter) (k : ℕ) → Reaches (with_tops letters) k }
    ensures in_the_list { (trace : List Valuation) (k : ℕ) (values : Valuation) →
        slice_get trace k ≡ Some values → letter_at (with_tops (map valuation trace)) k ≡ Some (valuation values) }
    ensures after_the_list { (trace : List Valuation) (k : ℕ) →
        length trace ≤ k → letter_at (with_tops (map valuation trace)) k ≡ Some top }
{}

/// A word that ends after a list of valuations has a place for each of them, with it as the letter, and no other.
pub fn an_ended_word_is_the_trace()
    ensures places { (trace : List Valuation) (k : ℕ) → Reaches (finite (map valuation trace)) k ↔ k < length trace }
    ensures letters { (trace : List Valuation) (k : ℕ) (values : Valuation) →
        slice_get trace k ≡ Some values → letter_at (finite (map valuation trace)) k ≡ Some (valuation values) }
{}

/// `r[*]` is empty, or a non-empty list of `r` and then one of `r[*]`. `r[*low:high]` is so many copies of `r`, at
/// least `low` and at most `high`, one after the other; `r[*low:inf]` at least `low`.
pub fn a_repetition_is_a_number_of_copies()
    ensures unfolds { (widths : List ℕ) (r : CoreSere) (w : List Letter) →
        Tight widths (star r) w
        ↔ ((w ≡ []) ⊎ ((u v : List Letter) × (w ≡ u ++ v) × (u ≢ []) × Tight widths r u × Tight widths (star r) v)) }
    ensures between { (widths : List ℕ) (r : CoreSere) (low high : ℕ) (w : List Letter) →
        low ≤ high → Tight widths (repeated low (Some high) r) w ↔
        ((k : ℕ) × (low ≤ k) × (k ≤ high) × Copies (Tight widths r) k w) }
    ensures at_least { (widths : List ℕ) (r : CoreSere) (low : ℕ) (w : List Letter) →
        Tight widths (repeated low None r) w ↔ ((k : ℕ) × (low ≤ k) × Copies (Tight widths r) k w) }
{}

/// `G f` holds of a word exactly if `f` is refuted at none of its places, up to its first top.
pub fn everywhere_is_each_place()
    ensures { (widths : List ℕ) (f : CoreFormula) (w : Word) →
        Satisfies widths (everywhere f) w
        ↔ ((k : ℕ) → Reaches w k → ((j : ℕ) → j < k → letter_at w j ≢ Some top) → ¬ ¬ Satisfies widths f (from k w)) }
{}

/// Words with the same letters satisfy the same formulas: where a word keeps them, in its list or in how it goes on,
/// doesn't matter.
pub fn letters_alone_decide()
    ensures { (widths : List ℕ) (f : CoreFormula) (w v : Word) →
        ((k : ℕ) → letter_at w k ≡ letter_at v k) → Satisfies widths f w ↔ Satisfies widths f v }
{}

/// What a list of valuations violates already, each longer list that begins with it violates already.
pub fn weak_violation_persists()
    ensures { (widths : List ℕ) (f : Formula) (trace more : List Valuation) →
        WeaklyViolates widths f trace → WeaklyViolates widths f (trace ++ more) }
{}

/// A list of valuations leaves `always f` open exactly if what is left of the list leaves `f` open, from each of its
/// places and from its end on.
pub fn always_is_its_body_at_each_place_so_far()
    ensures { (widths : List ℕ) (f : Formula) (trace : List Valuation) →
        ¬ WeaklyViolates widths (always f) trace
        ↔ ((k : ℕ) → k ≤ length trace → ¬ WeaklyViolates widths f (drop k trace)) }
{}

/// As a word that ends, a list of valuations does not violate `always f` exactly if what is left of it does not violate
/// `f`, from each of its places on.
pub fn always_is_its_body_at_each_place()
    ensures { (widths : List ℕ) (f : Formula) (trace : List Valuation) →
        ¬ Violates widths (always f) trace ↔ ((k : ℕ) → k < length trace → ¬ Violates widths f (drop k trace)) }
{}

/// A list of valuations violates `always b` already exactly if one of them gives `b` the value 0.
pub fn always_is_weakly_violated()
    ensures { (widths : List ℕ) (e : Expr) (trace : List Valuation) →
        WeaklyViolates widths (always (bool e)) trace ↔ Any (λ values. own_value widths values e ≡ 0) trace }
{}

/// A list of valuations violates `always b` as a word that ends exactly if one of them gives `b` the value 0.
/// The empty list violates it neither way.
pub fn always_is_violated()
    ensures { (widths : List ℕ) (e : Expr) (trace : List Valuation) →
        Violates widths (always (bool e)) trace ↔ Any (λ values. own_value widths values e ≡ 0) trace }
{}
