//! Numbers of expressions.

ghost use Rattle.std.specs.Prelude.{◌≡◌, ◌≢◌, ◌↔◌, ◌<◌, ◌≤◌, ◌++◌, ℕ, List, [], ◌∷◌, All, Contains, Some, length};
ghost use Rattle.std.specs.Prelude.{IfOk, OnOk, OnErr, MatchOption, position, slice_get};
ghost use Rattle.auto_core.specs.Machine.{Passes};
ghost use Rattle.auto_core.specs.declared.labels.Literal.{Literal};
ghost use Rattle.psl_meaning.specs.Sequence.{Holds};
ghost use Rattle.psl_meaning.specs.Word.{Letter, bottom};
ghost use Rattle.psl_model.specs.Expr as tree;
ghost use Rattle.psl_model.specs.View.{expr_of};
ghost use Rattle.symbol_alphabet.specs.Symbols.{same, stripped, is_positive, is_one, needs_none, place_in, label_in};
ghost use Rattle.symbol_alphabet.specs.Symbols.{HasSymbol, numbered, with_symbol, AreDifferent, seen_by};

use auto_core::{Label, Literal};
use indexmap::IndexSet;
use psl_model::{Expr, UnOp};
use std::alloc::{AllocError, Global};
use std::marker::Model;

/// Expressions, numbered as first seen. Contracts see them as their list, which has none twice.
#[derive(Drop)]
pub struct Symbols {
    numbered: IndexSet<Expr>,
}

impl Model for Symbols {
    ghost use Rattle.std.specs.Prelude.{List, map};
    ghost use Rattle.std.specs.Coded.{coded_list};
    ghost use Rattle.psl_model.specs.Expr as tree;
    ghost use Rattle.psl_model.specs.View.{expr_of};
    ghost use Rattle.psl_model.specs.inner.Codes.{coded_expr};
    ghost use Rattle.symbol_alphabet.specs.Symbols.{AreDifferent};

    ghost Value = { List tree.Expr };

    ghost coded = { coded_list coded_expr };

    ghost view = { λ s. map expr_of s.numbered.keys };

    ghost invariant = { λ s. AreDifferent (map expr_of s.numbered.keys) };
}

// The expression without its leading `!`.
fn stripped(expr: &Expr) -> &Expr
    ensures { expr_of result.now ≡ stripped (expr_of expr.now) }
{
    match expr {
        Expr::Unary(UnOp::Not, operand) => stripped(operand.get()),
        _ => expr,
    }
}

// Whether its leading `!` are even in number.
fn is_positive(expr: &Expr) -> bool
    ensures { result ≡ is_positive (expr_of expr.now) }
{
    match expr {
        Expr::Unary(UnOp::Not, operand) => !is_positive(operand.get()),
        _ => true,
    }
}

// Whether the expression is `1'd1`.
fn is_one(expr: &Expr) -> bool
    ensures { result ≡ is_one (expr_of expr.now) }
{
    matches!(expr, Expr::Sized(1, 1))
}

// Whether the expression is `1'd1` but for an even number of leading `!`.
fn needs_none(expr: &Expr) -> bool
    ensures { result ≡ needs_none (expr_of expr.now) }
{
    is_positive(expr) && is_one(stripped(expr))
}

fn one_literal(alloc: Global, literal: Literal) -> Result<Label, AllocError>
    ensures { IfOk result (λ label. label ≡ literal ∷ []) }
{
    let mut label = Label::new(alloc);
    label.put(literal)?;
    Ok(label)
}

impl Symbols {
    /// No symbols yet. It takes no memory.
    pub fn new(alloc: Global) -> Symbols
        ensures { result ≡ [] }
    {
        Symbols {
            numbered: IndexSet::new(alloc),
        }
    }

    /// How many symbols are numbered.
    pub fn count(&self) -> usize
        ensures count { result ≡ length self.now }
        ensures different { AreDifferent self.now }
    {
        self.numbered.len()
    }

    /// The expression with this number.
    pub fn get(&self, symbol: usize) -> Option<&Expr>
        ensures { MatchOption result (length self.now ≤ symbol)
            (λ expr. slice_get self.now symbol ≡ Some (expr_of expr.now)) }
    {
        self.numbered.get_index(symbol)
    }

    // The number of an expression that was seen.
    fn number(&self, expr: &Expr) -> Option<usize>
        ensures { result ≡ position (same (expr_of expr.now)) self.now }
    {
        self.numbered.get_index_of(expr)
    }

    // Gives an expression that wasn't seen the next number.
    fn add(&mut self, expr: Expr) -> Result<(), AllocError>
        requires { ¬ Contains self.old (expr_of expr) }
        ensures ok { OnOk result (self.new ≡ self.old ++ expr_of expr ∷ []) }
        ensures err { OnErr result (self.new ≡ self.old) }
    {
        match self.numbered.insert(expr) {
            Ok(_) => Ok(()),
            Err(_) => Err(AllocError),
        }
    }

    // The label of an expression that wasn't seen, which gets the next number.
    fn new_literal(
        &mut self,
        alloc: Global,
        expr: &Expr,
        positive: bool,
    ) -> Result<Label, AllocError>
        requires { ¬ Contains self.old (expr_of expr.now) }
        ensures symbols { OnOk result (self.new ≡ self.old ++ expr_of expr.now ∷ []) }
        ensures label { IfOk result (λ label. label ≡ record { symbol = length self.old; positive = positive } ∷ []) }
        ensures unchanged { OnErr result (self.new ≡ self.old) }
    {
        let symbol = self.count();
        let label = one_literal(alloc, Literal { symbol, positive })?;
        let copy = expr.copy(alloc)?;
        self.add(copy)?;
        Ok(label)
    }

    // The label that has the expression as its symbol.
    fn literal(&mut self, alloc: Global, expr: &Expr, positive: bool) -> Result<Label, AllocError>
        ensures symbols { OnOk result (self.new ≡ numbered self.old (expr_of expr.now)) }
        ensures label { IfOk result (λ label.
            label ≡ record { symbol = place_in self.new (expr_of expr.now); positive = positive } ∷ []) }
        ensures unchanged { OnErr result (self.new ≡ self.old) }
    {
        match self.number(expr) {
            Some(symbol) => one_literal(alloc, Literal { symbol, positive }),
            None => self.new_literal(alloc, expr, positive),
        }
    }

    /// The label that holds exactly where the expression does. Without its leading `!` the expression is numbered, if
    /// it wasn't seen before; each `!` turns the sign. `1'd1` with a positive sign has the empty label and no number.
    /// After want of memory the symbols are those that were there.
    pub fn label(&mut self, alloc: Global, expr: &Expr) -> Result<Label, AllocError>
        ensures symbols { OnOk result (self.new ≡ with_symbol self.old (expr_of expr.now)) }
        ensures grows { (more : List tree.Expr) × (self.new ≡ self.old ++ more) }
        ensures label { IfOk result (λ label. label ≡ label_in self.new (expr_of expr.now)) }
        ensures numbered { OnOk result (HasSymbol self.new (expr_of expr.now)) }
        ensures within { IfOk result (λ label. All (λ l. l.symbol < length self.new) label) }
        ensures holds { IfOk result (λ label. (widths : List ℕ) (a : Letter) →
            a ≢ bottom → Passes label (seen_by widths self.new a) ↔ Holds widths (expr_of expr.now) a) }
        ensures unchanged { OnErr result (self.new ≡ self.old) }
    {
        if needs_none(expr) {
            return Ok(Label::new(alloc));
        }
        self.literal(alloc, stripped(expr), is_positive(expr))
    }
}
