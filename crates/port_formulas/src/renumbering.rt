//! The formula that names signals by their positions among some places.

ghost use Rattle.std.specs.Prelude.{◌≡◌, ◌<◌, ℕ, IfOk, length, slice_index_or};
ghost use Rattle.psl_model.specs.Formula.{abort};
ghost use Rattle.psl_model.specs.View.{expr_of, sere_of, formula_of};
ghost use Rattle.port_formulas.specs.Chosen.{position_in};
ghost use Rattle.port_formulas.specs.Over.{expr_named, sere_named, formula_named, over};
ghost use Rattle.port_formulas.specs.inner.Table.{told};

use psl_model::{Expr, Formula, Sere, Subexpr, Subformula, Subsere};
use std::alloc::{AllocError, Global};

/// The formula with each signal named by its position among the places. The table of positions is made once, with an
/// entry for each number up to the greatest place.
pub fn over_places(
    alloc: Global,
    places: &[usize],
    formula: &Formula,
) -> Result<Formula, AllocError>
    ensures { IfOk result (λ named. formula_of named ≡ over places.now (formula_of formula.now)) }
{
    let positions = Positions::of(alloc, places)?;
    named_formula(alloc, formula, &positions)
}

/// Where each signal first stands among some places.
#[derive(Drop)]
struct Positions {
    table: Vec<usize>,
    /// What is told of a signal that the table is too short for.
    absent: usize,
}

impl Positions {
    #[tactic(auto, using(crate::proofs::Positions::turns))]
    fn of(alloc: Global, places: &[usize]) -> Result<Positions, AllocError>
        ensures { IfOk result (λ positions. (signal : ℕ) → told positions signal ≡ position_in places.now signal) }
    {
        let mut positions = Positions {
            table: Vec::new(alloc),
            absent: places.len(),
        };
        for position in (0..places.len()).rev() {
            positions.put(places[position], position)?;
        }
        Ok(positions)
    }

    fn put(&mut self, signal: usize, position: usize) -> Result<(), AllocError>
        ensures there { IfOk result (λ _. told self.new signal ≡ position) }
        ensures others { IfOk result (λ _. (other : ℕ) →
            (other ≡ signal → ⊥) → told self.new other ≡ told self.old other) }
        ensures absent { self.new.absent ≡ self.old.absent }
    {
        self.reach(signal)?;
        self.table[signal] = position;
        Ok(())
    }

    /// Makes the table long enough for a signal.
    #[tactic(auto, using(crate::proofs::Positions::get_or_pushed))]
    fn reach(&mut self, signal: usize) -> Result<(), AllocError>
        ensures long { IfOk result (λ _. signal < length self.new.table.items) }
        ensures kept { IfOk result (λ _. (other : ℕ) → told self.new other ≡ told self.old other) }
        ensures absent { self.new.absent ≡ self.old.absent }
    {
        while self.table.len() <= signal {
            self.table.push(self.absent)?;
        }
        Ok(())
    }

    fn at(&self, signal: usize) -> usize
        ensures { result ≡ told self.now signal }
    {
        match self.table.get(signal) {
            Some(position) => *position,
            None => self.absent,
        }
    }
}

#[cycle(named_expr)]
fn named_expr(alloc: Global, expr: &Expr, positions: &Positions) -> Result<Expr, AllocError>
    ensures { IfOk result (λ named. expr_of named ≡ expr_named (told positions.now) (expr_of expr.now)) }
{
    Ok(match expr {
        Expr::Whole(signal) => Expr::Whole(positions.at(*signal)),
        Expr::Bit(signal, place) => Expr::Bit(positions.at(*signal), *place),
        Expr::Part(signal, high, low) => Expr::Part(positions.at(*signal), *high, *low),
        Expr::Plain(number) => Expr::Plain(*number),
        Expr::Sized(width, value) => Expr::Sized(*width, *value),
        Expr::Unary(op, operand) => Expr::Unary(*op, named_operand(alloc, operand, positions)?),
        Expr::Binary(op, left, right) => {
            let left = named_operand(alloc, left, positions)?;
            Expr::Binary(*op, left, named_operand(alloc, right, positions)?)
        }
        Expr::Choice(test, yes, no) => {
            let test = named_operand(alloc, test, positions)?;
            let yes = named_operand(alloc, yes, positions)?;
            Expr::Choice(test, yes, named_operand(alloc, no, positions)?)
        }
    })
}

#[cycle(named_expr)]
fn named_operand(
    alloc: Global,
    operand: &Subexpr,
    positions: &Positions,
) -> Result<Subexpr, AllocError>
    ensures { IfOk result (λ named. named ≡ expr_named (told positions.now) operand.now) }
{
    Subexpr::new(alloc, named_expr(alloc, operand.get(), positions)?)
}

#[cycle(named_sere)]
fn named_sere(alloc: Global, sere: &Sere, positions: &Positions) -> Result<Sere, AllocError>
    ensures { IfOk result (λ named. sere_of named ≡ sere_named (told positions.now) (sere_of sere.now)) }
{
    Ok(match sere {
        Sere::Bool(expr) => Sere::Bool(named_expr(alloc, expr, positions)?),
        Sere::Then(left, right) => {
            let left = named_part(alloc, left, positions)?;
            Sere::Then(left, named_part(alloc, right, positions)?)
        }
        Sere::Fuse(left, right) => {
            let left = named_part(alloc, left, positions)?;
            Sere::Fuse(left, named_part(alloc, right, positions)?)
        }
        Sere::Or(left, right) => {
            let left = named_part(alloc, left, positions)?;
            Sere::Or(left, named_part(alloc, right, positions)?)
        }
        Sere::Both(left, right) => {
            let left = named_part(alloc, left, positions)?;
            Sere::Both(left, named_part(alloc, right, positions)?)
        }
        Sere::Meet(left, right) => {
            let left = named_part(alloc, left, positions)?;
            Sere::Meet(left, named_part(alloc, right, positions)?)
        }
        Sere::Within(left, right) => {
            let left = named_part(alloc, left, positions)?;
            Sere::Within(left, named_part(alloc, right, positions)?)
        }
        Sere::Repeat(body, low, high) => {
            Sere::Repeat(named_part(alloc, body, positions)?, *low, *high)
        }
        Sere::Goto(expr, low, high) => Sere::Goto(named_expr(alloc, expr, positions)?, *low, *high),
        Sere::Equal(expr, low, high) => {
            Sere::Equal(named_expr(alloc, expr, positions)?, *low, *high)
        }
    })
}

#[cycle(named_sere)]
fn named_part(alloc: Global, part: &Subsere, positions: &Positions) -> Result<Subsere, AllocError>
    ensures { IfOk result (λ named. named ≡ sere_named (told positions.now) part.now) }
{
    Subsere::new(alloc, named_sere(alloc, part.get(), positions)?)
}

#[cycle(named_formula)]
fn named_formula(
    alloc: Global,
    formula: &Formula,
    positions: &Positions,
) -> Result<Formula, AllocError>
    ensures { IfOk result (λ named. formula_of named ≡ formula_named (told positions.now) (formula_of formula.now)) }
{
    Ok(match formula {
        Formula::Bool(expr) => Formula::Bool(named_expr(alloc, expr, positions)?),
        Formula::Not(body) => Formula::Not(named_body(alloc, body, positions)?),
        Formula::And(left, right) => {
            let left = named_body(alloc, left, positions)?;
            Formula::And(left, named_body(alloc, right, positions)?)
        }
        Formula::Or(left, right) => {
            let left = named_body(alloc, left, positions)?;
            Formula::Or(left, named_body(alloc, right, positions)?)
        }
        Formula::Implies(left, right) => {
            let left = named_body(alloc, left, positions)?;
            Formula::Implies(left, named_body(alloc, right, positions)?)
        }
        Formula::Iff(left, right) => {
            let left = named_body(alloc, left, positions)?;
            Formula::Iff(left, named_body(alloc, right, positions)?)
        }
        Formula::Seq { sere, strong } => Formula::Seq {
            sere: named_sere(alloc, sere, positions)?,
            strong: *strong,
        },
        Formula::Suffix { sere, later, body } => Formula::Suffix {
            sere: named_sere(alloc, sere, positions)?,
            later: *later,
            body: named_body(alloc, body, positions)?,
        },
        Formula::Always(body) => Formula::Always(named_body(alloc, body, positions)?),
        Formula::Never(body) => Formula::Never(named_body(alloc, body, positions)?),
        Formula::Eventually(body) => Formula::Eventually(named_body(alloc, body, positions)?),
        Formula::Next {
            strong,
            reach,
            low,
            high,
            body,
        } => Formula::Next {
            strong: *strong,
            reach: *reach,
            low: *low,
            high: *high,
            body: named_body(alloc, body, positions)?,
        },
        Formula::Event {
            on,
            strong,
            reach,
            low,
            high,
            body,
        } => Formula::Event {
            on: named_expr(alloc, on, positions)?,
            strong: *strong,
            reach: *reach,
            low: *low,
            high: *high,
            body: named_body(alloc, body, positions)?,
        },
        Formula::Until {
            strong,
            overlap,
            left,
            right,
        } => Formula::Until {
            strong: *strong,
            overlap: *overlap,
            left: named_body(alloc, left, positions)?,
            right: named_body(alloc, right, positions)?,
        },
        Formula::Before {
            strong,
            overlap,
            left,
            right,
        } => Formula::Before {
            strong: *strong,
            overlap: *overlap,
            left: named_body(alloc, left, positions)?,
            right: named_body(alloc, right, positions)?,
        },
        Formula::Abort(body, on) => {
            let body = named_body(alloc, body, positions)?;
            aborted(alloc, body, on, positions)?
        }
    })
}

#[cycle(named_formula)]
fn named_body(
    alloc: Global,
    body: &Subformula,
    positions: &Positions,
) -> Result<Subformula, AllocError>
    ensures { IfOk result (λ named. named ≡ formula_named (told positions.now) body.now) }
{
    Subformula::new(alloc, named_formula(alloc, body.get(), positions)?)
}

/// An `abort` whose body has its names already.
fn aborted(
    alloc: Global,
    body: Subformula,
    on: &Expr,
    positions: &Positions,
) -> Result<Formula, AllocError>
    ensures { IfOk result (λ named.
        formula_of named ≡ abort body (expr_named (told positions.now) (expr_of on.now))) }
{
    Ok(Formula::Abort(body, named_expr(alloc, on, positions)?))
}
