//! Making the lines of a module ready.

ghost use Rattle.std.specs.Prelude.{◌≡◌, ℕ, ◌++◌, ◌∷◌, [], ◌<◌, ◌≤◌, All, IfOk, length};
ghost use Rattle.psl_model.specs.Limits.{vector_limit};
ghost use Rattle.psl_model.specs.Valid.{IsValid};
ghost use Rattle.psl_model.specs.Value.{width_of, unary_context, left_context, right_context};
ghost use Rattle.psl_model.specs.View.{expr_of};
ghost use Rattle.verilog_cycles.specs.inner.Nodes.{IsTape};
ghost use Rattle.verilog_cycles.specs.inner.Ready.{IsReady, IsLine};

use crate::nodes::Node;
use psl_model::laws::a_value_fits_its_context;
use psl_model::{BinOp, Expr, UnOp};
use std::alloc::AllocError;

/// Adds a node and gives its place.
fn put(nodes: &mut Vec<Node>, node: Node) -> Result<usize, AllocError>
    ensures gained { IfOk result (λ _. nodes.new.items ≡ nodes.old.items ++ node ∷ []) }
    ensures place { IfOk result (λ place. place ≡ length nodes.old.items) }
{
    let place = nodes.len();
    nodes.push(node)?;
    Ok(place)
}

/// The width of an expression over vectors, which is that of a vector at most.
fn own_width(expr: &Expr, widths: &[u32]) -> u32
    requires valid { IsValid widths.now (expr_of expr.now) }
    requires narrow { All (λ w. w ≤ vector_limit) widths.now }
    ensures width { result ≡ width_of widths.now (expr_of expr.now) }
    ensures narrow { result ≤ vector_limit }
{
    a_value_fits_its_context();
    expr.width(widths)
}

/// At how many bits the operand of a prefix operator is taken.
fn operand_context(op: UnOp, context: u32, own: u32) -> u32
    requires context { context ≤ vector_limit }
    requires own { own ≤ vector_limit }
    ensures context { result ≡ unary_context op context own }
    ensures limit { result ≤ vector_limit }
{
    match op {
        UnOp::Flip => context,
        UnOp::Not | UnOp::AllOnes | UnOp::AnyOne | UnOp::Parity => own,
    }
}

/// At how many bits the left operand is taken.
fn left_of(op: BinOp, context: u32, left: u32, right: u32) -> u32
    requires context { context ≤ vector_limit }
    requires own { (left ≤ vector_limit) × (right ≤ vector_limit) }
    ensures context { result ≡ left_context op context left right }
    ensures limit { result ≤ vector_limit }
{
    match op {
        BinOp::Add | BinOp::Sub | BinOp::BitAnd | BinOp::BitXor | BinOp::BitOr => context,
        BinOp::Shl | BinOp::Shr => context,
        BinOp::Lt | BinOp::Le | BinOp::Gt | BinOp::Ge | BinOp::Eq | BinOp::Ne => left.max(right),
        BinOp::And | BinOp::Or => left,
    }
}

/// At how many bits the right operand is taken.
fn right_of(op: BinOp, context: u32, left: u32, right: u32) -> u32
    requires context { context ≤ vector_limit }
    requires own { (left ≤ vector_limit) × (right ≤ vector_limit) }
    ensures context { result ≡ right_context op context left right }
    ensures limit { result ≤ vector_limit }
{
    match op {
        BinOp::Add | BinOp::Sub | BinOp::BitAnd | BinOp::BitXor | BinOp::BitOr => context,
        BinOp::Lt | BinOp::Le | BinOp::Gt | BinOp::Ge | BinOp::Eq | BinOp::Ne => left.max(right),
        BinOp::Shl | BinOp::Shr | BinOp::And | BinOp::Or => right,
    }
}

/// Adds the nodes of an expression that is taken at so many bits, and gives the place of its value. The names that it
/// speaks of have these widths and stand at these places.
pub(crate) fn ready(
    widths: &[u32],
    places: &[usize],
    context: u32,
    expr: &Expr,
    nodes: &mut Vec<Node>,
) -> Result<usize, AllocError>
    requires valid { IsValid widths.now (expr_of expr.now) }
    requires narrow { All (λ w. w ≤ vector_limit) widths.now }
    requires context { context ≤ vector_limit }
    requires count { length places.now ≡ length widths.now }
    requires within { All (λ p. p < length nodes.old.items) places.now }
    requires tape { IsTape nodes.old.items }
    ensures { IfOk result (λ place. (first : ℕ) → first ≤ length nodes.old.items →
        IsReady first widths.now places.now nodes.old.items nodes.new.items context (expr_of expr.now) place) }
{
    match expr {
        Expr::Whole(name) => Ok(places[*name]),
        Expr::Bit(name, number) => {
            let _width = widths[*name];
            put(nodes, Node::Part(places[*name], *number, 1))
        }
        Expr::Part(name, high, low) => {
            let _width = widths[*name];
            put(nodes, Node::Part(places[*name], *low, *high - *low + 1))
        }
        Expr::Plain(number) => put(nodes, Node::Number(u64::from(*number))),
        Expr::Sized(_, value) => put(nodes, Node::Number(*value as u64)),
        Expr::Unary(op, operand) => {
            let taken = operand_context(*op, context, own_width(operand.get(), widths));
            let place = ready(widths, places, taken, operand.get(), nodes)?;
            put(nodes, Node::Unary(*op, taken, place))
        }
        Expr::Binary(op, left, right) => {
            let left_width = own_width(left.get(), widths);
            let right_width = own_width(right.get(), widths);
            let at_left = left_of(*op, context, left_width, right_width);
            let at_right = right_of(*op, context, left_width, right_width);
            let first = ready(widths, places, at_left, left.get(), nodes)?;
            let second = ready(widths, places, at_right, right.get(), nodes)?;
            put(nodes, Node::Binary(*op, context, first, second))
        }
        Expr::Choice(test, yes, no) => {
            let own = own_width(test.get(), widths);
            let test = ready(widths, places, own, test.get(), nodes)?;
            let first = ready(widths, places, context, yes.get(), nodes)?;
            let second = ready(widths, places, context, no.get(), nodes)?;
            put(nodes, Node::Choice(test, first, second))
        }
    }
}

/// Adds the nodes of what a target of this width takes: an expression at the larger of both widths, cut to the
/// target's.
pub(crate) fn line(
    widths: &[u32],
    places: &[usize],
    target: u32,
    expr: &Expr,
    nodes: &mut Vec<Node>,
) -> Result<usize, AllocError>
    requires valid { IsValid widths.now (expr_of expr.now) }
    requires narrow { All (λ w. w ≤ vector_limit) widths.now }
    requires target { target ≤ vector_limit }
    requires count { length places.now ≡ length widths.now }
    requires within { All (λ p. p < length nodes.old.items) places.now }
    requires tape { IsTape nodes.old.items }
    ensures { IfOk result (λ place. (first : ℕ) → first ≤ length nodes.old.items →
        IsLine first widths.now places.now nodes.old.items nodes.new.items target (expr_of expr.now) place) }
{
    a_value_fits_its_context();
    let own = own_width(expr, widths);
    let place = ready(widths, places, target.max(own), expr, nodes)?;
    if own <= target {
        Ok(place)
    } else {
        put(nodes, Node::Part(place, 0, target))
    }
}
