//! The first sequence of a base formula that has too many places.

ghost use Rattle.std.specs.Prelude.{[], ◌∷◌, MatchOption};
ghost use Rattle.psl_model.specs.View.{sere_of};
ghost use Rattle.psl_rewrite.specs.View.{base_of};
ghost use Rattle.psl_rewrite.specs.Conditions.{base_sequences};
ghost use Rattle.formula_limits.specs.Places.{AreSmall, HasTooManyPlaces};
ghost use Rattle.formula_limits.specs.inner.Counted.{Tells};

use psl_model::Sere;
use psl_rewrite::Base;
use sequence_cores::places;

/// The most places of a sequence of which a checker is made.
const PLACE_LIMIT: u64 = 4096;

/// A sequence that has too many places: its number, and how many it has, as both are told.
#[derive(Clone, Copy, Debug, PartialEq, Eq)]
pub struct LargeSequence {
    pub sequence: u32,
    pub places: u64,
}

// How many sequences there are with this one, unless it is too large.
fn with_sequence(sere: &Sere, before: u32) -> Result<u32, LargeSequence>
    ensures { Tells (sere_of sere.now ∷ []) before result }
{
    let sequence = before.saturating_add(1);
    let places = places(sere);
    if places > PLACE_LIMIT {
        Err(LargeSequence { sequence, places })
    } else {
        Ok(sequence)
    }
}

// How many sequences there are with those of the formula, unless one of these is too large.
#[tactic(auto, using(crate::proofs::Behind::large_in_first, crate::proofs::Behind::large_in_head))]
fn with_formula(base: &Base, before: u32) -> Result<u32, LargeSequence>
    ensures { Tells (base_sequences (base_of base.now)) before result }
{
    match base {
        Base::Bool(_) | Base::NextSome { .. } | Base::EventSome { .. } => Ok(before),
        Base::And(left, right) => {
            let between = with_formula(left.get(), before)?;
            with_formula(right.get(), between)
        }
        Base::OrBool(_, body)
        | Base::Implies(_, body)
        | Base::Always(body)
        | Base::Abort(body, _)
        | Base::Next { body, .. }
        | Base::NextAll { body, .. }
        | Base::Until { body, .. }
        | Base::Event { body, .. } => with_formula(body.get(), before),
        Base::Seq { sere, .. } | Base::Eventually(sere) => with_sequence(sere, before),
        Base::Suffix(sere, body) => {
            let between = with_sequence(sere, before)?;
            with_formula(body.get(), between)
        }
    }
}

/// The first sequence that has more than 4,096 places, if there is one. It takes no memory, and recurs as deep as the
/// formula is high.
#[tactic(auto, using(crate::proofs::Behind::too_many))]
pub fn large_sequence(base: &Base) -> Option<LargeSequence>
    ensures { MatchOption result (AreSmall (base_of base.now))
        (λ x. HasTooManyPlaces (base_of base.now) x.sequence x.places) }
{
    match with_formula(base, 0) {
        Ok(_) => None,
        Err(large) => Some(large),
    }
}
