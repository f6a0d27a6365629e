//! Where each of the values of a set's leaving symbols leads.

ghost use Rattle.std.specs.Prelude.{◌≡◌, ◌<◌, ◌≤◌, ◌^◌, ◌↔◌, ℕ, Bool, List, [], ◌∷◌, ◌++◌, length, All};
ghost use Rattle.std.specs.Prelude.{IsTrue, IfOk, OnOk, IsErrOf};
ghost use Rattle.auto_core.specs.Graph.{graph_machine};
ghost use Rattle.weak_determinise.specs.Nodes.{number_of};
ghost use Rattle.weak_determinise.specs.inner.Among.{Among};
ghost use Rattle.weak_determinise.specs.inner.Stepping.{IsFor, all_steps};
ghost use Rattle.weak_determinise.specs.inner.Moving.{Tells, Grows, FindsFull, AreMoves, IsFull};
ghost use Rattle.weak_determinise.specs.declared.sets.DetError.TheVariants.{TooLarge};

use crate::bits::bits_of;
use crate::marking::{Steps, targets};
use crate::numbering::number;
use crate::places::Places;
use crate::sets::{DetError, Move};
use auto_core::{Auto, Table};
use indexmap::IndexSet;
use sqlite_items::Items;
use std::alloc::Global;

fn has_accepting(table: &Table, states: &[u32]) -> bool
    requires { All (λ s. s < length table.now.accepting) states.now }
    ensures { IsTrue result ↔ ((t : ℕ) × Among states.now t × IsTrue ((graph_machine table.now).accepts t)) }
{
    for state in states {
        if table.accepts(*state) {
            return true;
        }
    }
    false
}

// Where the bits lead from a set with these steps.
fn move_to(
    alloc: Global,
    table: &Table,
    steps: &Steps,
    bits: &[bool],
    limit: u32,
    seen: &mut IndexSet<Places>,
) -> Result<Move, DetError>
    requires { IsFor (length bits.now) (length table.now.accepting) steps.now }
    ensures tells { IfOk result (λ way.
        Tells (graph_machine table.now) (all_steps steps.now) bits.now seen.new.keys way) }
    ensures grows { OnOk result
        (Grows (graph_machine table.now) (all_steps steps.now) bits.now limit seen.old.keys seen.new.keys) }
    ensures full { IsErrOf result TooLarge →
        FindsFull (graph_machine table.now) (all_steps steps.now) bits.now limit seen.old.keys }
{
    match targets(alloc, table.states(), steps, bits) {
        Err(_) => Err(DetError::OutOfMemory),
        Ok(next) => {
            if next.is_empty() {
                Ok(Move::Empty)
            } else if has_accepting(table, next.as_slice()) {
                Ok(Move::Accepting)
            } else {
                match number(seen, next, limit) {
                    Ok(number) => Ok(Move::Set(number)),
                    Err(error) => Err(error),
                }
            }
        }
    }
}

fn power(count: usize) -> u32
    requires { count ≤ 16 }
    ensures { result ≡ 2 ^ count }
{
    2_u32.pow(count as u32)
}

// The move whose number has these digits.
fn move_at(
    alloc: Global,
    table: &Table,
    steps: &Steps,
    count: usize,
    value: u32,
    limit: u32,
    seen: &mut IndexSet<Places>,
) -> Result<Move, DetError>
    requires value { value < 2 ^ count }
    requires steps { IsFor count (length table.now.accepting) steps.now }
    ensures tells { IfOk result (λ way.
        (bits : List Bool) × (length bits ≡ count) × (number_of bits ≡ value)
        × Tells (graph_machine table.now) (all_steps steps.now) bits seen.new.keys way
        × Grows (graph_machine table.now) (all_steps steps.now) bits limit seen.old.keys seen.new.keys) }
    ensures full { IsErrOf result TooLarge → (bits : List Bool) × (length bits ≡ count)
        × FindsFull (graph_machine table.now) (all_steps steps.now) bits limit seen.old.keys }
{
    match bits_of(alloc, value, count) {
        Err(_) => Err(DetError::OutOfMemory),
        Ok(bits) => move_to(alloc, table, steps, bits.as_slice(), limit, seen),
    }
}

fn push_move(moves: &mut Items<Move>, way: Move) -> Result<(), DetError>
    ensures pushed { OnOk result (moves.new ≡ moves.old ++ way ∷ []) }
    ensures memory { ¬ IsErrOf result TooLarge }
{
    match moves.push(way) {
        Ok(()) => Ok(()),
        Err(_) => Err(DetError::OutOfMemory),
    }
}

// The moves of all values of this many symbols.
pub(crate) fn moves_of(
    alloc: Global,
    table: &Table,
    steps: &Steps,
    count: usize,
    limit: u32,
    seen: &mut IndexSet<Places>,
) -> Result<Items<Move>, DetError>
    requires few { count ≤ 16 }
    requires steps { IsFor count (length table.now.accepting) steps.now }
    ensures moves { IfOk result (AreMoves (graph_machine table.now) (all_steps steps.now) count limit (2 ^ count)
        seen.old.keys seen.new.keys) }
    ensures full { IsErrOf result TooLarge →
        IsFull (graph_machine table.now) (all_steps steps.now) count limit seen.old.keys }
{
    let mut moves = Items::new(alloc);
    for value in 0..power(count) {
        let way = move_at(alloc, table, steps, count, value, limit, seen)?;
        push_move(&mut moves, way)?;
    }
    Ok(moves)
}
