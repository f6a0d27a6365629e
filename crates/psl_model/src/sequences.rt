//! Sequences: sequential extended regular expressions.

ghost use Rattle.std.specs.Prelude.{◌≡◌, IfOk, fold};
ghost use Rattle.std.specs.Cmp.{on_equiv, partial_equiv_from_equiv};
ghost use Rattle.psl_model.specs.View.{sere_of};
ghost use Rattle.psl_model.specs.inner.SameCode.{same_code-equiv, fed_code, fed_code-alike};
ghost use Rattle.psl_model.specs.inner.SereCode.{counts_code};
ghost use Rattle.psl_model.specs.inner.ViewCode.{code_of_sere, same_sere};

use crate::expressions::Expr;
use std::alloc::{AllocError, Global};
use std::hash::{Hash, Hasher};
use std::marker::Model;

/// A sequence of IEEE 1850-2010, 6.1. A missing upper count is `inf`.
#[cycle(sere)]
#[derive(Debug, Drop)]
pub enum Sere {
    Bool(Expr),
    /// `;`
    Then(Subsere, Subsere),
    /// `:`
    Fuse(Subsere, Subsere),
    /// `|`
    Or(Subsere, Subsere),
    /// `&&`
    Both(Subsere, Subsere),
    /// `&`
    Meet(Subsere, Subsere),
    Within(Subsere, Subsere),
    /// `[*`
    Repeat(Subsere, u32, Option<u32>),
    /// `[->`
    Goto(Expr, u32, Option<u32>),
    /// `[=`
    Equal(Expr, u32, Option<u32>),
}

impl PartialEq for Sere {
    ghost eq = { same_sere };

    ghost laws = { partial_equiv_from_equiv (on_equiv code_of_sere same_code-equiv) };

    fn eq(&self, other: &Sere) -> bool {
        match (self, other) {
            (Sere::Bool(a), Sere::Bool(b)) => a == b,
            (Sere::Then(a, c), Sere::Then(b, d)) => a.get().eq(b.get()) && c.get().eq(d.get()),
            (Sere::Fuse(a, c), Sere::Fuse(b, d)) => a.get().eq(b.get()) && c.get().eq(d.get()),
            (Sere::Or(a, c), Sere::Or(b, d)) => a.get().eq(b.get()) && c.get().eq(d.get()),
            (Sere::Both(a, c), Sere::Both(b, d)) => a.get().eq(b.get()) && c.get().eq(d.get()),
            (Sere::Meet(a, c), Sere::Meet(b, d)) => a.get().eq(b.get()) && c.get().eq(d.get()),
            (Sere::Within(a, c), Sere::Within(b, d)) => a.get().eq(b.get()) && c.get().eq(d.get()),
            (Sere::Repeat(a, m, k), Sere::Repeat(b, n, l)) => {
                a.get().eq(b.get()) && m == n && k == l
            }
            (Sere::Goto(a, m, k), Sere::Goto(b, n, l)) => a == b && m == n && k == l,
            (Sere::Equal(a, m, k), Sere::Equal(b, n, l)) => a == b && m == n && k == l,
            _ => false,
        }
    }
}

impl Eq for Sere {
    ghost laws = { on_equiv code_of_sere same_code-equiv };
}

impl Hash for Sere {
    ghost hash_input = { λ a. fed_code (code_of_sere a) };

    ghost respects_eq = { λ a b same. fed_code-alike (code_of_sere a) (code_of_sere b) same };

    fn hash<H: Hasher>(&self, state: &mut H) {
        match self {
            Sere::Bool(expr) => {
                state.write_u128(0);
                expr.hash(state);
            }
            Sere::Then(left, right) => {
                state.write_u128(1);
                left.get().hash(state);
                right.get().hash(state);
            }
            Sere::Fuse(left, right) => {
                state.write_u128(2);
                left.get().hash(state);
                right.get().hash(state);
            }
            Sere::Or(left, right) => {
                state.write_u128(3);
                left.get().hash(state);
                right.get().hash(state);
            }
            Sere::Both(left, right) => {
                state.write_u128(4);
                left.get().hash(state);
                right.get().hash(state);
            }
            Sere::Meet(left, right) => {
                state.write_u128(5);
                left.get().hash(state);
                right.get().hash(state);
            }
            Sere::Within(left, right) => {
                state.write_u128(6);
                left.get().hash(state);
                right.get().hash(state);
            }
            Sere::Repeat(body, low, high) => {
                state.write_u128(7);
                body.get().hash(state);
                hash_counts(*low, *high, state);
            }
            Sere::Goto(expr, low, high) => {
                state.write_u128(8);
                expr.hash(state);
                hash_counts(*low, *high, state);
            }
            Sere::Equal(expr, low, high) => {
                state.write_u128(9);
                expr.hash(state);
                hash_counts(*low, *high, state);
            }
        }
    }
}

fn hash_counts<H: Hasher>(low: u32, high: Option<u32>, state: &mut H)
    ensures { state.new ≡ fold H.write state.old (fed_code (counts_code low high)) }
{
    state.write_u128(u128::from(low));
    match high {
        None => state.write_u128(0),
        Some(high) => {
            state.write_u128(1);
            state.write_u128(u128::from(high));
        }
    }
}

impl Sere {
    /// An equal sequence.
    #[cycle(copy_sere)]
    pub fn copy(&self, alloc: Global) -> Result<Sere, AllocError>
        ensures equal { IfOk result (λ copy. sere_of copy ≡ sere_of self.now) }
    {
        Ok(match self {
            Sere::Bool(expr) => Sere::Bool(expr.copy(alloc)?),
            Sere::Then(left, right) => Sere::Then(left.copy(alloc)?, right.copy(alloc)?),
            Sere::Fuse(left, right) => Sere::Fuse(left.copy(alloc)?, right.copy(alloc)?),
            Sere::Or(left, right) => Sere::Or(left.copy(alloc)?, right.copy(alloc)?),
            Sere::Both(left, right) => Sere::Both(left.copy(alloc)?, right.copy(alloc)?),
            Sere::Meet(left, right) => Sere::Meet(left.copy(alloc)?, right.copy(alloc)?),
            Sere::Within(left, right) => Sere::Within(left.copy(alloc)?, right.copy(alloc)?),
            Sere::Repeat(body, low, high) => Sere::Repeat(body.copy(alloc)?, *low, *high),
            Sere::Goto(expr, low, high) => Sere::Goto(expr.copy(alloc)?, *low, *high),
            Sere::Equal(expr, low, high) => Sere::Equal(expr.copy(alloc)?, *low, *high),
        })
    }
}

/// A part of a sequence, on the heap.
#[cycle(sere)]
#[derive(Debug, Drop)]
pub struct Subsere {
    node: Box<Sere>,
}

impl Model for Subsere {
    ghost use Rattle.psl_model.specs.Sere as tree;
    ghost use Rattle.psl_model.specs.inner.Codes.{coded_sere};

    ghost Value = { tree.Sere };

    ghost coded = { coded_sere };

    ghost use Rattle.psl_model.specs.View.{sere_of};

    ghost view = { λ s. sere_of s.node.value };

    ghost size = { tree.sere_size };
}

impl Subsere {
    pub fn new(alloc: Global, sere: Sere) -> Result<Subsere, AllocError>
        ensures whole_tree { IfOk result (λ part. part ≡ sere_of sere) }
    {
        Ok(Subsere {
            node: Box::new(alloc, sere)?,
        })
    }

    pub fn get(&self) -> &Sere
        ensures whole_tree { sere_of result.now ≡ self.now }
    {
        &self.node
    }

    pub fn into_inner(self) -> Sere
        ensures whole_tree { sere_of result ≡ self }
    {
        let Subsere { node } = self;
        Box::into_inner(node)
    }

    #[cycle(copy_sere)]
    pub fn copy(&self, alloc: Global) -> Result<Subsere, AllocError>
        ensures equal { IfOk result (λ part. part ≡ self.now) }
    {
        Subsere::new(alloc, self.get().copy(alloc)?)
    }
}
