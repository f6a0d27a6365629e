//! The states of an automaton that is joined from two, and the edges of one part's state and after them another's.

ghost use Rattle.std.specs.Prelude.{◌<◌, length, Contains, OnOk};
ghost use Rattle.auto_core.specs.declared.labels.Literal.{Literal};
ghost use Rattle.auto_core.specs.Edges.{LeadsTo, PutsEdge, PassesEdge};
ghost use Rattle.automata_product.specs.Sides.{OfSides, either_edges};

use auto_core::{Auto, Label};
use std::alloc::AllocError;

/// A state of the left part or of the right part.
#[derive(Debug, Clone, Copy, PartialEq, Eq, Hash)]
pub enum Side<L, R> {
    Left(L),
    Right(R),
}

/// Where the edge at this place leads, among the edges of a state of one automaton and after them those of a state of
/// another.
pub fn either_target<A: Auto, B: Auto>(
    left: &A,
    p: A::State,
    right: &B,
    q: B::State,
    place: usize,
) -> Side<A::State, B::State>
    requires left_fits { A.fits left.now }
    requires left_owned { A.own left.now p }
    requires right_fits { B.fits right.now }
    requires right_owned { B.own right.now q }
    requires there { place < length (either_edges (A.machine left.now) (B.machine right.now) p q) }
    ensures edge { LeadsTo (either_edges (A.machine left.now) (B.machine right.now) p q) place result }
    ensures owned { OfSides (A.own left.now) (B.own right.now) result }
{
    let count = left.edge_count(p);
    if place < count {
        Side::Left(left.target(p, place))
    } else {
        Side::Right(right.target(q, place - count))
    }
}

/// Puts the literals of the edge at this place into `onto`, among the edges of a state of one automaton and after
/// them those of a state of another. After want of memory some of them may be there, beside all that were.
pub fn either_label<A: Auto, B: Auto>(
    left: &A,
    p: A::State,
    right: &B,
    q: B::State,
    place: usize,
    onto: &mut Label,
) -> Result<(), AllocError>
    requires left_fits { A.fits left.now }
    requires left_owned { A.own left.now p }
    requires right_fits { B.fits right.now }
    requires right_owned { B.own right.now q }
    requires there { place < length (either_edges (A.machine left.now) (B.machine right.now) p q) }
    ensures edge { OnOk result
        (PutsEdge (either_edges (A.machine left.now) (B.machine right.now) p q) place onto.old onto.new) }
    ensures passes { OnOk result
        (PassesEdge (either_edges (A.machine left.now) (B.machine right.now) p q) place onto.old onto.new) }
    ensures kept { (l : Literal) → Contains onto.old l → Contains onto.new l }
{
    let count = left.edge_count(p);
    if place < count {
        left.label(p, place, onto)
    } else {
        right.label(q, place - count, onto)
    }
}
