//! How many places a sequence counts.

ghost use Rattle.std.specs.Prelude.{◌≡◌, ◌+◌, ◌*◌, ℕ};
ghost use Rattle.psl_model.specs.View.{sere_of};
ghost use Rattle.sequence_cores.specs.Places.{copied_places, repeated_places, places_of, told};

use psl_model::{Sere, Subsere};

/// Stands for all numbers from here on.
const MOST_PLACES: u64 = 0x8000_0000_0000_0000;

/// The places of `[*]`, and of `{!b}[*]`.
const STAR_PLACES: u64 = 3;

/// The places of `b[->]`.
const GOTO_PLACES: u64 = 5;

/// How many places a sequence counts, or 2^63 where there are at least that many. It takes no memory, and the
/// recursion goes as deep as the sequence is high.
#[cycle(places)]
pub fn places(sere: &Sere) -> u64
    ensures { result ≡ told (places_of (sere_of sere.now)) }
{
    match sere {
        Sere::Bool(_) => 2,
        Sere::Then(left, right) => sum(part_places(left), part_places(right)),
        Sere::Fuse(left, right) => sum(part_places(left), part_places(right)),
        Sere::Or(left, right) => sum(sum(part_places(left), part_places(right)), 1),
        Sere::Both(left, right) => product(part_places(left), part_places(right)),
        Sere::Meet(left, right) => meet_places(part_places(left), part_places(right)),
        Sere::Within(left, right) => {
            product(sum(part_places(left), 2 * STAR_PLACES), part_places(right))
        }
        Sere::Repeat(body, low, high) => repeated_places(*low, *high, part_places(body)),
        Sere::Goto(_, low, high) => repeated_places(*low, *high, GOTO_PLACES),
        Sere::Equal(_, low, high) => { sum(repeated_places(*low, *high, GOTO_PLACES), STAR_PLACES) }
    }
}

#[cycle(places)]
fn part_places(part: &Subsere) -> u64
    ensures { result ≡ told (places_of part.now) }
{
    places(part.get())
}

// The sum of two numbers, as it is told.
fn sum(left: u64, right: u64) -> u64
    ensures { (a b : ℕ) → left ≡ told a → right ≡ told b → result ≡ told (a + b) }
{
    left.saturating_add(right).min(MOST_PLACES)
}

// The product of two numbers, as it is told.
fn product(left: u64, right: u64) -> u64
    ensures { (a b : ℕ) → left ≡ told a → right ≡ told b → result ≡ told (a * b) }
{
    left.saturating_mul(right).min(MOST_PLACES)
}

// The places of `&`, whose parts have so many.
fn meet_places(left: u64, right: u64) -> u64
    ensures { (a b : ℕ) → left ≡ told a → right ≡ told b → result ≡ told (a * (b + 3) + (a + 3) * b + 1) }
{
    let right_padded = sum(right, STAR_PLACES);
    let left_longer = product(left, right_padded);
    let left_padded = sum(left, STAR_PLACES);
    let right_longer = product(left_padded, right);
    let either = sum(left_longer, right_longer);
    sum(either, 1)
}

// The places of so many copies of a part.
fn copied_places(count: u32, places: u64) -> u64
    ensures { (p : ℕ) → places ≡ told p → result ≡ told (copied_places count p) }
{
    if count == 0 {
        return 1;
    }
    product(u64::from(count), places)
}

// The places of a repetition of a part.
fn repeated_places(low: u32, high: Option<u32>, places: u64) -> u64
    ensures { (p : ℕ) → places ≡ told p → result ≡ told (repeated_places low high p) }
{
    match high {
        Some(high) => range_places(low, high, places),
        None => unbounded_places(low, places),
    }
}

fn range_places(low: u32, high: u32, places: u64) -> u64
    ensures { (p : ℕ) → places ≡ told p → result ≡ told (repeated_places low (Some high) p) }
{
    let more = high.saturating_sub(low);
    let front = copied_places(low, places);
    let optional = sum(places, 2);
    let rest = product(u64::from(more), optional);
    sum(front, rest)
}

fn unbounded_places(low: u32, places: u64) -> u64
    ensures { (p : ℕ) → places ≡ told p → result ≡ told (repeated_places low None p) }
{
    let rest = sum(places, 1);
    if low == 0 {
        return rest;
    }
    let front = copied_places(low, places);
    sum(front, rest)
}
