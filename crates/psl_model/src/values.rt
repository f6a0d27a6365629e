//! Examples of the value of an expression, and laws of it. The functions do nothing: each contract is the example or
//! the law.

ghost use Rattle.std.specs.Prelude.{◌≡◌, ◌≤◌, ◌<◌, ◌^◌, ℕ, List, [], ◌∷◌};
ghost use Rattle.psl_model.specs.declared.operators.UnOp.TheVariants.{Flip, AllOnes, AnyOne, Parity, Not};
ghost use Rattle.psl_model.specs.declared.operators.BinOp.TheVariants.{Add, Sub, Shl, Shr, Eq};
ghost use Rattle.psl_model.specs.Expr.{Expr, whole, plain, sized, unary, binary, choice};
ghost use Rattle.psl_model.specs.Value.{value_of, own_value};

/// With `cnt` of 4 bits at 15: `cnt + 1 == 0` is false, since a plain number has 32 bits and the sum is taken there;
/// `cnt + 4'd1 == 4'd0` is true; `cnt + 4'd1 == 5'd16` is true, since a comparison takes both sides at the larger
/// width.
pub fn a_sum_is_taken_at_the_width_of_its_comparison()
    ensures plain { own_value (4 ∷ []) (15 ∷ []) (binary Eq (binary Add (whole 0) (plain 1)) (plain 0)) ≡ 0 }
    ensures same_width { own_value (4 ∷ []) (15 ∷ []) (binary Eq (binary Add (whole 0) (sized 4 1)) (sized 4 0)) ≡ 1 }
    ensures wider { own_value (4 ∷ []) (15 ∷ []) (binary Eq (binary Add (whole 0) (sized 4 1)) (sized 5 16)) ≡ 1 }
{}

/// `4'd0 - 4'd1` by itself is 15, and beside a number of 6 bits it is 63.
pub fn a_difference_wraps_at_its_context()
    ensures by_itself { own_value [] [] (binary Sub (sized 4 0) (sized 4 1)) ≡ 15 }
    ensures in_six_bits { own_value [] [] (binary Sub (binary Sub (sized 4 0) (sized 4 1)) (sized 6 0)) ≡ 63 }
{}

/// A shift by at least the width gives 0. The left operand of `>>` is to fit the width, as each value does.
pub fn a_shift_by_the_width_is_zero()
    ensures left { (widths values : List ℕ) (width : ℕ) (a b : Expr) →
        width ≤ own_value widths values b → value_of widths values width (binary Shl a b) ≡ 0 }
    ensures right { (widths values : List ℕ) (width : ℕ) (a b : Expr) →
        value_of widths values width a < 2 ^ width
        → width ≤ own_value widths values b → value_of widths values width (binary Shr a b) ≡ 0 }
    ensures example { own_value (4 ∷ []) (9 ∷ []) (binary Shl (whole 0) (sized 3 4)) ≡ 0 }
    ensures in_a_wider_context { value_of (4 ∷ []) (9 ∷ []) 8 (binary Shl (whole 0) (sized 3 4)) ≡ 144 }
{}

/// `~1'd1` by itself is 0, and in 4 bits it is 14.
pub fn a_complement_takes_its_context()
    ensures by_itself { own_value [] [] (unary Flip (sized 1 1)) ≡ 0 }
    ensures in_four_bits { value_of [] [] 4 (unary Flip (sized 1 1)) ≡ 14 }
    ensures beside_four_bits { own_value [] [] (binary Add (unary Flip (sized 1 1)) (sized 4 0)) ≡ 14 }
{}

/// A reduction takes its operand at its own width, whatever stands beside it: with `a` of 2 bits at 3, each of
/// `(&a) + 4'd15` and `(|a) + 4'd15` is 0, `(^a) + 4'd15` is 15, and `(!a) + 4'd15` is 15.
pub fn a_reduction_stands_by_itself()
    ensures all_ones { own_value (2 ∷ []) (3 ∷ []) (binary Add (unary AllOnes (whole 0)) (sized 4 15)) ≡ 0 }
    ensures any_one { own_value (2 ∷ []) (3 ∷ []) (binary Add (unary AnyOne (whole 0)) (sized 4 15)) ≡ 0 }
    ensures parity { own_value (2 ∷ []) (3 ∷ []) (binary Add (unary Parity (whole 0)) (sized 4 15)) ≡ 15 }
    ensures negation { own_value (2 ∷ []) (3 ∷ []) (binary Add (unary Not (whole 0)) (sized 4 15)) ≡ 15 }
{}

/// The branches of `?:` have the larger width of the two, and its condition stands by itself: with `a` of 4 bits at 15,
/// `(a + 4'd1) ? 5'd1 : a + 4'd1` takes its condition at 4 bits, where it is 0, and its second branch at 5, where it
/// is 16.
pub fn a_choice_widens_its_branches_alone()
    ensures { own_value (4 ∷ []) (15 ∷ [])
        (choice (binary Add (whole 0) (sized 4 1)) (sized 5 1) (binary Add (whole 0) (sized 4 1))) ≡ 16 }
{}
