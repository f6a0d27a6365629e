//! Expressions, read by descent.

ghost use Rattle.std.specs.Prelude.{◌≡◌, ◌≤◌, ◌<◌};
ghost use Rattle.indexmap.specs.IndexMap.{keys, values};
ghost use Rattle.psl_model.specs.View.{expr_of};
ghost use Rattle.verilog_reader.specs.inner.Answers.{Gives};
ghost use Rattle.verilog_reader.specs.inner.PhraseView.{read_of};
ghost use Rattle.verilog_reader.specs.inner.Phrases.{expression_at, group_at, joined_at, choice_with, binary_with};
ghost use Rattle.verilog_reader.specs.inner.Phrases.{binary_end, unary_with};

use crate::atoms::read_atom;
use crate::bareness::{hands_on, joins_bare, wants_width};
use crate::bytes::{expect, strip};
use crate::errors::Stop;
use crate::phrases::Phrase;
use crate::symbols::{read_infix, read_prefix};
use indexmap::IndexMap;
use psl_model::{BinOp, Expr, Name, Subexpr, UnOp};
use std::alloc::Global;

/// The expression at the front, in which at most `room` parentheses are open at any place.
#[cycle(expression)]
#[tactic(auto, using(crate::proofs::Steps::stopped))]
pub fn read_expression<'a>(
    alloc: Global,
    table: &IndexMap<Name, u32>,
    room: u32,
    bytes: &'a [u8],
) -> Result<Phrase<'a>, Stop>
    ensures { Gives read_of result (expression_at (keys table.now) (values table.now) room bytes.now) }
{
    if room == 0 {
        return read_atom(alloc, table, bytes);
    }
    match strip(bytes, b"(") {
        Some(inner) => read_group(alloc, table, room - 1, inner),
        None => read_atom(alloc, table, bytes),
    }
}

/// What stands behind an opening parenthesis, with the closing one.
#[cycle(expression)]
#[tactic(auto, using(crate::proofs::Steps::stopped), unfolding(crate::specs::inner::Phrases::group_at))]
fn read_group<'a>(
    alloc: Global,
    table: &IndexMap<Name, u32>,
    room: u32,
    bytes: &'a [u8],
) -> Result<Phrase<'a>, Stop>
    ensures { Gives read_of result (group_at (expression_at (keys table.now) (values table.now) room) bytes.now) }
{
    match read_prefix(bytes) {
        Some((op, start)) => {
            let operand = read_expression(alloc, table, room, start)?;
            close_unary(alloc, op, operand)
        }
        None => read_joined(alloc, table, room, bytes),
    }
}

/// The rest of a choice or of a binary operator, from its first operand on.
#[cycle(expression)]
#[tactic(auto, using(crate::proofs::Steps::stopped), unfolding(crate::specs::inner::Phrases::joined_at))]
fn read_joined<'a>(
    alloc: Global,
    table: &IndexMap<Name, u32>,
    room: u32,
    bytes: &'a [u8],
) -> Result<Phrase<'a>, Stop>
    ensures { Gives read_of result (joined_at (expression_at (keys table.now) (values table.now) room) bytes.now) }
{
    let Phrase { expr, bare, rest } = read_expression(alloc, table, room, bytes)?;
    match strip(rest, b" ? ") {
        Some(more) => read_choice(alloc, table, room, expr, more),
        None => read_binary(alloc, table, room, expr, bare, rest),
    }
}

/// The branches of a choice.
#[cycle(expression)]
#[tactic(auto, using(crate::proofs::Steps::stopped), unfolding(crate::specs::inner::Phrases::choice_with))]
fn read_choice<'a>(
    alloc: Global,
    table: &IndexMap<Name, u32>,
    room: u32,
    test: Expr,
    bytes: &'a [u8],
) -> Result<Phrase<'a>, Stop>
    ensures { Gives read_of result
        (choice_with (expression_at (keys table.now) (values table.now) room) (expr_of test) bytes.now) }
{
    let first = read_expression(alloc, table, room, bytes)?;
    let middle = expect(first.rest, b" : ")?;
    let second = read_expression(alloc, table, room, middle)?;
    let rest = expect(second.rest, b")")?;
    let bare = first.bare && second.bare;
    let test = Subexpr::new(alloc, test)?;
    let yes = Subexpr::new(alloc, first.expr)?;
    let no = Subexpr::new(alloc, second.expr)?;
    Ok(Phrase {
        expr: Expr::Choice(test, yes, no),
        bare,
        rest,
    })
}

/// A binary operator and its right operand.
#[cycle(expression)]
#[tactic(auto, using(crate::proofs::Steps::stopped), unfolding(crate::specs::inner::Phrases::binary_with))]
fn read_binary<'a>(
    alloc: Global,
    table: &IndexMap<Name, u32>,
    room: u32,
    left: Expr,
    bare: bool,
    bytes: &'a [u8],
) -> Result<Phrase<'a>, Stop>
    ensures { Gives read_of result
        (binary_with (expression_at (keys table.now) (values table.now) room) (expr_of left) bare bytes.now) }
{
    let (op, start) = read_infix(bytes)?;
    let right = read_expression(alloc, table, room, start)?;
    close_binary(alloc, op, left, bare, right)
}

/// The closing parenthesis behind the operand of a prefix operator.
#[tactic(auto, using(crate::proofs::Steps::stopped), unfolding(crate::specs::inner::Phrases::unary_with))]
fn close_unary(alloc: Global, op: UnOp, operand: Phrase<'_>) -> Result<Phrase<'_>, Stop>
    ensures { Gives read_of result (unary_with op (read_of operand.entry)) }
{
    let rest = expect(operand.rest, b")")?;
    let bare = hands_on(op) && operand.bare;
    let inner = Subexpr::new(alloc, operand.expr)?;
    Ok(Phrase {
        expr: Expr::Unary(op, inner),
        bare,
        rest,
    })
}

/// The closing parenthesis behind the right operand of a binary operator.
#[tactic(auto, using(crate::proofs::Steps::stopped), unfolding(crate::specs::inner::Phrases::binary_end))]
fn close_binary(
    alloc: Global,
    op: BinOp,
    left: Expr,
    bare: bool,
    right: Phrase<'_>,
) -> Result<Phrase<'_>, Stop>
    ensures { Gives read_of result (binary_end op (expr_of left) bare (read_of right.entry)) }
{
    let rest = expect(right.rest, b")")?;
    if wants_width(op) && bare && right.bare {
        return Err(Stop::Wrong {
            left: right.rest.len(),
        });
    }
    let bare = joins_bare(op, bare, right.bare);
    let left = Subexpr::new(alloc, left)?;
    let right = Subexpr::new(alloc, right.expr)?;
    Ok(Phrase {
        expr: Expr::Binary(op, left, right),
        bare,
        rest,
    })
}
