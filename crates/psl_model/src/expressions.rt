//! Expressions over the signals of a unit or a module.

ghost use Rattle.std.specs.Prelude.{◌≡◌, ◌++◌, IfOk, fold};
ghost use Rattle.std.specs.Hash as fed;
ghost use Rattle.std.specs.Cmp.{on_equiv, partial_equiv_from_equiv};
ghost use Rattle.psl_model.specs.View.{expr_of};
ghost use Rattle.psl_model.specs.inner.SameCode.{same_code-equiv, fed_code, fed_code-alike};
ghost use Rattle.psl_model.specs.inner.ViewCode.{code_of_expr, same_expr};

use crate::operators::{BinOp, UnOp};
use std::alloc::{AllocError, Global};
use std::hash::{Hash, Hasher};
use std::marker::Model;

/// An expression of IEEE 1364-2005, clause 5. The first number of `Whole`, `Bit` and `Part` is a
/// place in a table of signals.
#[cycle(expr)]
#[derive(Debug, Drop)]
pub enum Expr {
    Whole(usize),
    /// A signal's bit at this number.
    Bit(usize, u32),
    /// A signal's bits from the high end, which stands first, down to the low end.
    Part(usize, u32, u32),
    /// A number without a width of its own.
    Plain(u32),
    /// A number of this width, and its value.
    Sized(u32, u128),
    Unary(UnOp, Subexpr),
    Binary(BinOp, Subexpr, Subexpr),
    /// A test, the value where it isn't 0, and the value where it is.
    Choice(Subexpr, Subexpr, Subexpr),
}

impl PartialEq for Expr {
    ghost eq = { same_expr };

    ghost laws = { partial_equiv_from_equiv (on_equiv code_of_expr same_code-equiv) };

    fn eq(&self, other: &Expr) -> bool {
        match (self, other) {
            (Expr::Whole(a), Expr::Whole(b)) => a == b,
            (Expr::Bit(a, i), Expr::Bit(b, j)) => a == b && i == j,
            (Expr::Part(a, i, m), Expr::Part(b, j, n)) => a == b && i == j && m == n,
            (Expr::Plain(a), Expr::Plain(b)) => a == b,
            (Expr::Sized(a, i), Expr::Sized(b, j)) => a == b && i == j,
            (Expr::Unary(o, a), Expr::Unary(p, b)) => o == p && a.get().eq(b.get()),
            (Expr::Binary(o, a, c), Expr::Binary(p, b, d)) => {
                o == p && a.get().eq(b.get()) && c.get().eq(d.get())
            }
            (Expr::Choice(t, a, c), Expr::Choice(u, b, d)) => {
                t.get().eq(u.get()) && a.get().eq(b.get()) && c.get().eq(d.get())
            }
            _ => false,
        }
    }
}

impl Eq for Expr {
    ghost laws = { on_equiv code_of_expr same_code-equiv };
}

impl Hash for Expr {
    ghost hash_input = { λ a. fed_code (code_of_expr a) };

    ghost respects_eq = { λ a b same. fed_code-alike (code_of_expr a) (code_of_expr b) same };

    fn hash<H: Hasher>(&self, state: &mut H) {
        match self {
            Expr::Whole(signal) => hash_pair(0, *signal as u128, state),
            Expr::Bit(signal, place) => {
                state.write_u128(1);
                hash_pair(*signal as u128, u128::from(*place), state);
            }
            Expr::Part(signal, high, low) => {
                hash_pair(2, *signal as u128, state);
                hash_pair(u128::from(*high), u128::from(*low), state);
            }
            Expr::Plain(number) => hash_pair(3, u128::from(*number), state),
            Expr::Sized(width, value) => {
                state.write_u128(4);
                hash_pair(u128::from(*width), *value, state);
            }
            Expr::Unary(op, operand) => {
                state.write_u128(5);
                state.write_u128(*op as u128);
                operand.get().hash(state);
            }
            Expr::Binary(op, left, right) => {
                state.write_u128(6);
                state.write_u128(*op as u128);
                left.get().hash(state);
                right.get().hash(state);
            }
            Expr::Choice(test, yes, no) => {
                state.write_u128(7);
                test.get().hash(state);
                yes.get().hash(state);
                no.get().hash(state);
            }
        }
    }
}

fn hash_pair<H: Hasher>(first: u128, second: u128, state: &mut H)
    ensures { state.new ≡ fold H.write state.old (fed.u128 first ++ fed.u128 second) }
{
    state.write_u128(first);
    state.write_u128(second);
}

impl Expr {
    /// An equal expression.
    #[cycle(copy_expr)]
    pub fn copy(&self, alloc: Global) -> Result<Expr, AllocError>
        ensures equal { IfOk result (λ copy. expr_of copy ≡ expr_of self.now) }
    {
        Ok(match self {
            Expr::Whole(signal) => Expr::Whole(*signal),
            Expr::Bit(signal, place) => Expr::Bit(*signal, *place),
            Expr::Part(signal, high, low) => Expr::Part(*signal, *high, *low),
            Expr::Plain(number) => Expr::Plain(*number),
            Expr::Sized(width, value) => Expr::Sized(*width, *value),
            Expr::Unary(op, operand) => Expr::Unary(*op, operand.copy(alloc)?),
            Expr::Binary(op, left, right) => {
                Expr::Binary(*op, left.copy(alloc)?, right.copy(alloc)?)
            }
            Expr::Choice(test, yes, no) => {
                Expr::Choice(test.copy(alloc)?, yes.copy(alloc)?, no.copy(alloc)?)
            }
        })
    }
}

/// An operand, on the heap.
#[cycle(expr)]
#[derive(Debug, Drop)]
pub struct Subexpr {
    node: Box<Expr>,
}

impl Model for Subexpr {
    ghost use Rattle.psl_model.specs.Expr as tree;
    ghost use Rattle.psl_model.specs.inner.Codes.{coded_expr};

    ghost Value = { tree.Expr };

    ghost coded = { coded_expr };

    ghost use Rattle.psl_model.specs.View.{expr_of};

    ghost view = { λ s. expr_of s.node.value };

    ghost size = { tree.expr_size };
}

impl Subexpr {
    pub fn new(alloc: Global, expr: Expr) -> Result<Subexpr, AllocError>
        ensures whole_tree { IfOk result (λ operand. operand ≡ expr_of expr) }
    {
        Ok(Subexpr {
            node: Box::new(alloc, expr)?,
        })
    }

    pub fn get(&self) -> &Expr
        ensures whole_tree { expr_of result.now ≡ self.now }
    {
        &self.node
    }

    pub fn into_inner(self) -> Expr
        ensures whole_tree { expr_of result ≡ self }
    {
        let Subexpr { node } = self;
        Box::into_inner(node)
    }

    #[cycle(copy_expr)]
    pub fn copy(&self, alloc: Global) -> Result<Subexpr, AllocError>
        ensures equal { IfOk result (λ operand. operand ≡ self.now) }
    {
        Subexpr::new(alloc, self.get().copy(alloc)?)
    }
}
