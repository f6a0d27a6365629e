//! The expressions that raw ones stand for.

ghost use Rattle.std.specs.Prelude.{◌≡◌, ◌<◌, ◌≤◌, ◌^◌, true, IfOk, length, position};
ghost use Rattle.std.specs.List.{position_or_len};
ghost use Rattle.std.specs.Map.{keys_of};
ghost use Rattle.unit_rules.specs.Known.{same_name};
ghost use Rattle.psl_model.specs.Expr as tree;
ghost use Rattle.psl_model.specs.View.{expr_of};
ghost use Rattle.unit_rules.specs.Source.{source, kind_at, is_number};
ghost use Rattle.unit_rules.specs.Numbers.{number_at};
ghost use Rattle.psl_units.specs.Trees.{signal_at, named_expr, literal_expr, expr_for};
ghost use Rattle.unit_rules.specs.Fitting.{IsSmall, IsSmallSelect, IsSmallLiteral, ExprFits};
ghost use Rattle.psl_grammar.specs.View.{expr_of as raw_expr_of};

use indexmap::IndexMap;
use psl_grammar::RawExpr;
use psl_lexer::Token;
use psl_model::{BinOp, Expr, Name, Subexpr, UnOp};
use std::alloc::{AllocError, Global};
use unit_rules::numbers::{number_at, sized_value, sized_width};
use unit_rules::operators::{bin_op_of, un_op_of};
use unit_rules::source::{bytes_at, is_number, is_sized, is_true_word, kind_at};

fn find_signal(signals: &IndexMap<Name, u32>, name: &Name) -> Option<usize>
    ensures { result ≡ position (same_name name.now) (keys_of signals.now.entries) }
{
    signals.get_index_of(name)
}

// The number of a signal, or how many there are where it is none.
fn signal_number(signals: &IndexMap<Name, u32>, name: &Name) -> usize
    ensures { result ≡ position_or_len (same_name name.now) (keys_of signals.now.entries) }
{
    match find_signal(signals, name) {
        Some(number) => number,
        None => signals.len(),
    }
}

fn signal_at(
    alloc: Global,
    text: &[u8],
    tokens: &[Token],
    signals: &IndexMap<Name, u32>,
    token: u32,
) -> Result<usize, AllocError>
    ensures { IfOk result (λ n. n ≡ signal_at (source text.now tokens.now) signals.now.entries token) }
{
    let name = Name::new(alloc, bytes_at(text, tokens, token))?;
    Ok(signal_number(signals, &name))
}

/// A number of at most 32 bits.
pub fn small_number(text: &[u8], tokens: &[Token], token: u32) -> u32
    requires { IsSmall (source text.now tokens.now) token }
    ensures { result ≡ number_at (source text.now tokens.now) token }
{
    number_at(text, tokens, token) as u32
}

fn named_expr(
    text: &[u8],
    tokens: &[Token],
    signal: usize,
    select: Option<(u32, Option<u32>)>,
) -> Expr
    requires { IsSmallSelect (source text.now tokens.now) select }
    ensures { expr_of result ≡ named_expr (source text.now tokens.now) signal select }
{
    match select {
        None => Expr::Whole(signal),
        Some((high, None)) => Expr::Bit(signal, small_number(text, tokens, high)),
        Some((high, Some(low))) => {
            let high = small_number(text, tokens, high);
            Expr::Part(signal, high, small_number(text, tokens, low))
        }
    }
}

fn literal_expr(text: &[u8], tokens: &[Token], token: u32) -> Expr
    requires { IsSmallLiteral (source text.now tokens.now) token }
    ensures { expr_of result ≡ literal_expr (source text.now tokens.now) token }
{
    let kind = kind_at(tokens, token);
    if is_number(kind) {
        return Expr::Plain(small_number(text, tokens, token));
    }
    if is_sized(kind) {
        let bytes = bytes_at(text, tokens, token);
        return Expr::Sized(sized_width(bytes) as u32, sized_value(bytes));
    }
    if is_true_word(kind) {
        return Expr::Sized(1, 1);
    }
    Expr::Sized(1, 0)
}

fn unary(alloc: Global, op: UnOp, operand: Expr) -> Result<Expr, AllocError>
    ensures { IfOk result (λ e. expr_of e ≡ tree.unary op (expr_of operand)) }
{
    Ok(Expr::Unary(op, Subexpr::new(alloc, operand)?))
}

fn binary(alloc: Global, op: BinOp, left: Expr, right: Expr) -> Result<Expr, AllocError>
    ensures { IfOk result (λ e. expr_of e ≡ tree.binary op (expr_of left) (expr_of right)) }
{
    let left = Subexpr::new(alloc, left)?;
    let right = Subexpr::new(alloc, right)?;
    Ok(Expr::Binary(op, left, right))
}

fn choice(alloc: Global, test: Expr, yes: Expr, no: Expr) -> Result<Expr, AllocError>
    ensures { IfOk result (λ e. expr_of e ≡ tree.choice (expr_of test) (expr_of yes) (expr_of no)) }
{
    let test = Subexpr::new(alloc, test)?;
    let yes = Subexpr::new(alloc, yes)?;
    let no = Subexpr::new(alloc, no)?;
    Ok(Expr::Choice(test, yes, no))
}

/// The expression that a raw one stands for, its names numbered as the signals are.
pub fn build_expr(
    alloc: Global,
    text: &[u8],
    tokens: &[Token],
    signals: &IndexMap<Name, u32>,
    expr: &RawExpr,
) -> Result<Expr, AllocError>
    requires { ExprFits (source text.now tokens.now) (raw_expr_of expr.now) }
    ensures { IfOk result (λ e. expr_of e
        ≡ expr_for (source text.now tokens.now) signals.now.entries (raw_expr_of expr.now)) }
{
    match expr {
        RawExpr::Name { name, select } => {
            let signal = signal_at(alloc, text, tokens, signals, *name)?;
            Ok(named_expr(text, tokens, signal, *select))
        }
        RawExpr::Literal(token) => Ok(literal_expr(text, tokens, *token)),
        RawExpr::Unary(mark, operand) => {
            let operand = build_expr(alloc, text, tokens, signals, operand.get())?;
            unary(alloc, un_op_of(kind_at(tokens, *mark)), operand)
        }
        RawExpr::Binary { mark, left, right } => {
            let left = build_expr(alloc, text, tokens, signals, left.get())?;
            let right = build_expr(alloc, text, tokens, signals, right.get())?;
            binary(alloc, bin_op_of(kind_at(tokens, *mark)), left, right)
        }
        RawExpr::Choice { test, yes, no, .. } => {
            let test = build_expr(alloc, text, tokens, signals, test.get())?;
            let yes = build_expr(alloc, text, tokens, signals, yes.get())?;
            let no = build_expr(alloc, text, tokens, signals, no.get())?;
            choice(alloc, test, yes, no)
        }
    }
}
