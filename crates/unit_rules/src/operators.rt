//! What the words and marks of a raw tree stand for.

ghost use Rattle.std.specs.Prelude.{◌≡◌};
ghost use Rattle.psl_model.specs.Valid.{bare_by_both, bare_by_left, choose_bare, is_flip, wants_width};
ghost use Rattle.unit_rules.specs.Operators.{un_op_of, bin_op_of, refuses_zero, reach_of, is_strong_next};
ghost use Rattle.unit_rules.specs.Source.{source};
ghost use Rattle.unit_rules.specs.Faults.{is_bare};
ghost use Rattle.psl_grammar.specs.View.{expr_of};

use crate::source::{is_number, kind_at};
use psl_grammar::RawExpr;
use psl_lexer::{Key, Kind, Mark, Token};
use psl_model::{BinOp, Reach, UnOp};

pub fn un_op_of(kind: Kind) -> UnOp
    ensures { result ≡ un_op_of kind }
{
    match kind {
        Kind::Mark(Mark::Exclamation) => UnOp::Not,
        Kind::Mark(Mark::Tilde) => UnOp::Flip,
        Kind::Mark(Mark::And) => UnOp::AllOnes,
        Kind::Mark(Mark::Or) => UnOp::AnyOne,
        _ => UnOp::Parity,
    }
}

pub fn bin_op_of(kind: Kind) -> BinOp
    ensures { result ≡ bin_op_of kind }
{
    match kind {
        Kind::Mark(Mark::Plus) => BinOp::Add,
        Kind::Mark(Mark::Minus) => BinOp::Sub,
        Kind::Mark(Mark::ShiftLeft) => BinOp::Shl,
        Kind::Mark(Mark::ShiftRight) => BinOp::Shr,
        Kind::Mark(Mark::Less) => BinOp::Lt,
        Kind::Mark(Mark::LessEqual) => BinOp::Le,
        Kind::Mark(Mark::Greater) => BinOp::Gt,
        Kind::Mark(Mark::GreaterEqual) => BinOp::Ge,
        Kind::Mark(Mark::EqualEqual) => BinOp::Eq,
        Kind::Mark(Mark::NotEqual) => BinOp::Ne,
        Kind::Mark(Mark::And) => BinOp::BitAnd,
        Kind::Mark(Mark::Caret) => BinOp::BitXor,
        Kind::Mark(Mark::Or) => BinOp::BitOr,
        Kind::Mark(Mark::AndAnd) => BinOp::And,
        _ => BinOp::Or,
    }
}

/// Whether a count of 0 is refused after this mark or word.
pub fn refuses_zero(kind: Kind) -> bool
    ensures { result ≡ refuses_zero kind }
{
    match kind {
        Kind::Mark(Mark::GotoOpen) => true,
        Kind::Word(Key::NextEvent) => true,
        Kind::Word(Key::NextEventStrong) => true,
        Kind::Word(Key::NextEventA) => true,
        Kind::Word(Key::NextEventAStrong) => true,
        Kind::Word(Key::NextEventE) => true,
        Kind::Word(Key::NextEventEStrong) => true,
        _ => false,
    }
}

/// How much of its range a word of `next` or `next_event` speaks of.
pub fn reach_of(kind: Kind) -> Reach
    ensures { result ≡ reach_of kind }
{
    match kind {
        Kind::Word(Key::NextA) => Reach::All,
        Kind::Word(Key::NextAStrong) => Reach::All,
        Kind::Word(Key::NextEventA) => Reach::All,
        Kind::Word(Key::NextEventAStrong) => Reach::All,
        Kind::Word(Key::NextE) => Reach::Some,
        Kind::Word(Key::NextEStrong) => Reach::Some,
        Kind::Word(Key::NextEventE) => Reach::Some,
        Kind::Word(Key::NextEventEStrong) => Reach::Some,
        _ => Reach::One,
    }
}

/// Whether a word of `next` or `next_event` is the strong one.
pub fn is_strong_next(kind: Kind) -> bool
    ensures { result ≡ is_strong_next kind }
{
    match kind {
        Kind::Word(Key::NextStrong) => true,
        Kind::Word(Key::NextAStrong) => true,
        Kind::Word(Key::NextEStrong) => true,
        Kind::Word(Key::NextEventStrong) => true,
        Kind::Word(Key::NextEventAStrong) => true,
        Kind::Word(Key::NextEventEStrong) => true,
        _ => false,
    }
}

pub fn is_flip(op: UnOp) -> bool
    ensures { result ≡ is_flip op }
{
    matches!(op, UnOp::Flip)
}

fn bare_by_both(op: BinOp) -> bool
    ensures { result ≡ bare_by_both op }
{
    match op {
        BinOp::Add => true,
        BinOp::Sub => true,
        BinOp::BitAnd => true,
        BinOp::BitXor => true,
        BinOp::BitOr => true,
        _ => false,
    }
}

fn bare_by_left(op: BinOp) -> bool
    ensures { result ≡ bare_by_left op }
{
    match op {
        BinOp::Shl => true,
        BinOp::Shr => true,
        _ => false,
    }
}

/// Whether the operator is refused between two operands without a width of their own.
pub fn wants_width(op: BinOp) -> bool
    ensures { result ≡ wants_width op }
{
    match op {
        BinOp::Add => true,
        BinOp::Sub => true,
        BinOp::Lt => true,
        BinOp::Le => true,
        BinOp::Gt => true,
        BinOp::Ge => true,
        _ => false,
    }
}

fn choose_bare(by_both: bool, by_left: bool, left: bool, right: bool) -> bool
    ensures { result ≡ choose_bare by_both by_left left right }
{
    if by_both {
        return left && right;
    }
    by_left && left
}

/// Whether an operator between such operands is bare.
pub fn is_bare_by(op: BinOp, left: bool, right: bool) -> bool
    ensures { result ≡ choose_bare (bare_by_both op) (bare_by_left op) left right }
{
    choose_bare(bare_by_both(op), bare_by_left(op), left, right)
}

/// Whether an expression takes its width from unsized decimals alone.
pub fn is_bare(text: &[u8], tokens: &[Token], expr: &RawExpr) -> bool
    ensures { result ≡ is_bare (source text.now tokens.now) (expr_of expr.now) }
{
    match expr {
        RawExpr::Name { .. } => false,
        RawExpr::Literal(token) => is_number(kind_at(tokens, *token)),
        RawExpr::Unary(mark, operand) => {
            let flip = is_flip(un_op_of(kind_at(tokens, *mark)));
            flip && is_bare(text, tokens, operand.get())
        }
        RawExpr::Binary { mark, left, right } => {
            let left_bare = is_bare(text, tokens, left.get());
            let right_bare = is_bare(text, tokens, right.get());
            is_bare_by(bin_op_of(kind_at(tokens, *mark)), left_bare, right_bare)
        }
        RawExpr::Choice { yes, no, .. } => {
            is_bare(text, tokens, yes.get()) && is_bare(text, tokens, no.get())
        }
    }
}
