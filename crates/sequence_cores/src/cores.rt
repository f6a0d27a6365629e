//! From a sequence to the core sequence as which it is counted.

ghost use Rattle.std.specs.Prelude.{◌≡◌, ◌↔◌, ◌<◌, ◌≤◌, ℕ, List, IfOk, OnOk, IsErrOf, length};
ghost use Rattle.psl_model.specs.View.{expr_of, sere_of};
ghost use Rattle.psl_meaning.specs.Word.{Letter};
ghost use Rattle.psl_meaning.specs.Sequence.{Tight};
ghost use Rattle.psl_meaning.specs.SequenceSugar as sugar;
ghost use Rattle.psl_rewrite.specs.CoreSere as tree;
ghost use Rattle.psl_rewrite.specs.Meaning.{meant_core};
ghost use Rattle.psl_rewrite.specs.View.{core_of};
ghost use Rattle.sequence_cores.specs.Places.{place_limit, places_of, told};
ghost use Rattle.sequence_cores.specs.Counted.{anything, copied, counted_repeat, without, next_with, counted_as};
ghost use Rattle.sequence_cores.specs.PlaceGraph.{places_in};

use crate::counting::places;
use crate::laws::{a_counted_sequence_has_as_many_places, a_counted_sequence_has_the_same_words};
use psl_model::{Expr, Sere, Subexpr, Subsere, UnOp};
use psl_rewrite::{CoreSere, Subcore};
use std::alloc::{AllocError, Global};

/// The most places of a sequence of which a checker is made.
const PLACE_LIMIT: u64 = 4096;

/// Why a sequence gets no core sequence.
#[derive(Debug, Drop)]
pub enum CoreError {
    /// There are more than 4,096 places: this many, or 2^63 where there are at least that many.
    TooManyPlaces { places: u64 },
    OutOfMemory,
}

impl From<AllocError> for CoreError {
    ghost use Rattle.sequence_cores.specs.declared.cores.CoreError.TheVariants.{OutOfMemory};

    ghost from_gives = { λ _ e. e ≡ OutOfMemory };

    fn from(_error: AllocError) -> CoreError {
        CoreError::OutOfMemory
    }
}

/// The core sequence as which a sequence is counted. Nothing is built of one that has too many places. Each part is
/// built as often as it stands in the result, and the recursion goes as deep as the sequence is high.
pub fn core(alloc: Global, sere: &Sere) -> Result<CoreSere, CoreError>
    ensures counted { IfOk result (λ core. core_of core ≡ counted_as (sere_of sere.now)) }
    ensures words { IfOk result (λ core. (widths : List ℕ) (w : List Letter) →
        Tight widths (meant_core (core_of core)) w ↔ Tight widths (sugar.core_of (sere_of sere.now)) w) }
    ensures places { IfOk result (λ core.
        length (places_in (meant_core (core_of core))) ≡ places_of (sere_of sere.now)) }
    ensures within { OnOk result (places_of (sere_of sere.now) ≤ place_limit) }
    ensures too_many { (n : ℕ) → IsErrOf result (CoreError.TooManyPlaces n)
        ↔ ((place_limit < places_of (sere_of sere.now)) × (n ≡ told (places_of (sere_of sere.now)))) }
{
    let places = places(sere);
    if places > PLACE_LIMIT {
        return Err(CoreError::TooManyPlaces { places });
    }
    a_counted_sequence_has_the_same_words();
    a_counted_sequence_has_as_many_places();
    let core = counted(alloc, sere)?;
    Ok(core)
}

#[cycle(counted)]
fn counted(alloc: Global, sere: &Sere) -> Result<CoreSere, AllocError>
    ensures { IfOk result (λ core. core_of core ≡ counted_as (sere_of sere.now)) }
{
    match sere {
        Sere::Bool(expr) => Ok(CoreSere::Bool(expr.copy(alloc)?)),
        Sere::Then(left, right) => { Ok(CoreSere::Then(part(alloc, left)?, part(alloc, right)?)) }
        Sere::Fuse(left, right) => { Ok(CoreSere::Fuse(part(alloc, left)?, part(alloc, right)?)) }
        Sere::Or(left, right) => Ok(CoreSere::Or(part(alloc, left)?, part(alloc, right)?)),
        Sere::Both(left, right) => { Ok(CoreSere::Both(part(alloc, left)?, part(alloc, right)?)) }
        Sere::Meet(left, right) => {
            let left_longer = left_longer(alloc, part(alloc, left)?, part(alloc, right)?)?;
            let right_longer = right_longer(alloc, part(alloc, left)?, part(alloc, right)?)?;
            Ok(CoreSere::Or(left_longer, right_longer))
        }
        Sere::Within(left, right) => { within(alloc, part(alloc, left)?, part(alloc, right)?) }
        Sere::Repeat(body, low, high) => repeat(alloc, body, *low, *high),
        Sere::Goto(expr, low, high) => goto(alloc, expr, *low, *high),
        Sere::Equal(expr, low, high) => {
            let found = goto(alloc, expr, *low, *high)?;
            let rest = without(alloc, expr)?;
            then(alloc, found, rest)
        }
    }
}

// The core sequence of a part, on the heap.
#[cycle(counted)]
fn part(alloc: Global, sere: &Subsere) -> Result<Subcore, AllocError>
    ensures { IfOk result (λ part. part ≡ counted_as sere.now) }
{
    Subcore::new(alloc, counted(alloc, sere.get())?)
}

#[cycle(counted)]
fn repeat(
    alloc: Global,
    body: &Subsere,
    low: u32,
    high: Option<u32>,
) -> Result<CoreSere, AllocError>
    ensures { IfOk result (λ made. core_of made ≡ counted_repeat low high (counted_as body.now)) }
{
    match high {
        Some(high) if low < high => {
            let front = copies(alloc, body, low)?;
            let more = optional(alloc, part(alloc, body)?, high - low)?;
            then(alloc, front, more)
        }
        Some(_) => copies(alloc, body, low),
        None if low == 0 => Ok(CoreSere::Star(part(alloc, body)?)),
        None => {
            let front = copies(alloc, body, low)?;
            let more = CoreSere::Star(part(alloc, body)?);
            then(alloc, front, more)
        }
    }
}

// So many copies of a part.
#[cycle(counted)]
fn copies(alloc: Global, body: &Subsere, count: u32) -> Result<CoreSere, AllocError>
    ensures { IfOk result (λ made. core_of made ≡ copied count (counted_as body.now)) }
{
    if count == 0 {
        Ok(CoreSere::Empty)
    } else {
        let body = counted(alloc, body.get())?;
        copied(alloc, body, count)
    }
}

// `left && {right;[*]}`
fn left_longer(alloc: Global, left: Subcore, right: Subcore) -> Result<Subcore, AllocError>
    ensures { IfOk result (λ made. made ≡ tree.both left (tree.concat right anything)) }
{
    let padded = padded(alloc, right)?;
    Subcore::new(alloc, CoreSere::Both(left, padded))
}

// `{left;[*]} && right`
fn right_longer(alloc: Global, left: Subcore, right: Subcore) -> Result<Subcore, AllocError>
    ensures { IfOk result (λ made. made ≡ tree.both (tree.concat left anything) right) }
{
    let padded = padded(alloc, left)?;
    Subcore::new(alloc, CoreSere::Both(padded, right))
}

// `{[*];left;[*]} && right`
fn within(alloc: Global, left: Subcore, right: Subcore) -> Result<CoreSere, AllocError>
    ensures { IfOk result (λ made. core_of made ≡
        tree.both (tree.concat (tree.concat anything left) anything) right) }
{
    let before = Subcore::new(alloc, anything(alloc)?)?;
    let late = Subcore::new(alloc, CoreSere::Then(before, left))?;
    let padded = padded(alloc, late)?;
    Ok(CoreSere::Both(padded, right))
}

fn goto(alloc: Global, expr: &Expr, low: u32, high: Option<u32>) -> Result<CoreSere, AllocError>
    ensures { IfOk result (λ made. core_of made ≡ counted_repeat low high (next_with (expr_of expr.now))) }
{
    match high {
        Some(high) if low < high => {
            let front = goto_copies(alloc, expr, low)?;
            let body = Subcore::new(alloc, next_with(alloc, expr)?)?;
            let more = optional(alloc, body, high - low)?;
            then(alloc, front, more)
        }
        Some(_) => goto_copies(alloc, expr, low),
        None if low == 0 => star(alloc, next_with(alloc, expr)?),
        None => {
            let front = goto_copies(alloc, expr, low)?;
            let more = star(alloc, next_with(alloc, expr)?)?;
            then(alloc, front, more)
        }
    }
}

// So many copies of `b[->]`.
fn goto_copies(alloc: Global, expr: &Expr, count: u32) -> Result<CoreSere, AllocError>
    ensures { IfOk result (λ made. core_of made ≡ copied count (next_with (expr_of expr.now))) }
{
    if count == 0 {
        Ok(CoreSere::Empty)
    } else {
        let body = next_with(alloc, expr)?;
        copied(alloc, body, count)
    }
}

// `{!b}[*];b`
fn next_with(alloc: Global, expr: &Expr) -> Result<CoreSere, AllocError>
    ensures { IfOk result (λ made. core_of made ≡ next_with (expr_of expr.now)) }
{
    let before = without(alloc, expr)?;
    let found = CoreSere::Bool(expr.copy(alloc)?);
    then(alloc, before, found)
}

// `{!b}[*]`
fn without(alloc: Global, expr: &Expr) -> Result<CoreSere, AllocError>
    ensures { IfOk result (λ made. core_of made ≡ without (expr_of expr.now)) }
{
    let operand = Subexpr::new(alloc, expr.copy(alloc)?)?;
    star(alloc, CoreSere::Bool(Expr::Unary(UnOp::Not, operand)))
}

// So many copies, not none, of what may be left out.
fn optional(alloc: Global, body: Subcore, count: u32) -> Result<CoreSere, AllocError>
    ensures { IfOk result (λ made. core_of made ≡ copied count (tree.or tree.empty body)) }
{
    let none = Subcore::new(alloc, CoreSere::Empty)?;
    copied(alloc, CoreSere::Or(none, body), count)
}

// So many copies.
fn copied(alloc: Global, body: CoreSere, count: u32) -> Result<CoreSere, AllocError>
    ensures { IfOk result (λ made. core_of made ≡ copied count (core_of body)) }
{
    match count {
        0 => Ok(CoreSere::Empty),
        1 => Ok(body),
        _ => Ok(CoreSere::Power(Subcore::new(alloc, body)?, count)),
    }
}

fn then(alloc: Global, left: CoreSere, right: CoreSere) -> Result<CoreSere, AllocError>
    ensures { IfOk result (λ made. core_of made ≡ tree.concat (core_of left) (core_of right)) }
{
    Ok(CoreSere::Then(Subcore::new(alloc, left)?, Subcore::new(alloc, right)?))
}

fn star(alloc: Global, body: CoreSere) -> Result<CoreSere, AllocError>
    ensures { IfOk result (λ made. core_of made ≡ tree.star (core_of body)) }
{
    Ok(CoreSere::Star(Subcore::new(alloc, body)?))
}

// `[*]`
fn anything(alloc: Global) -> Result<CoreSere, AllocError>
    ensures { IfOk result (λ made. core_of made ≡ anything) }
{
    star(alloc, CoreSere::Bool(Expr::Sized(1, 1)))
}

// `body;[*]`
fn padded(alloc: Global, body: Subcore) -> Result<Subcore, AllocError>
    ensures { IfOk result (λ made. made ≡ tree.concat body anything) }
{
    let after = Subcore::new(alloc, anything(alloc)?)?;
    Subcore::new(alloc, CoreSere::Then(body, after))
}
