//! Names with their selects, and numbers.

ghost use Rattle.std.specs.Prelude.{◌≡◌, ◌≤◌, ◌<◌, ◌^◌, true, slice_index, Some, None};
ghost use Rattle.indexmap.specs.IndexMap.{keys, values};
ghost use Rattle.verilog_reader.specs.inner.Answers.{Gives};
ghost use Rattle.verilog_reader.specs.inner.PhraseView.{read_of};
ghost use Rattle.verilog_reader.specs.inner.Phrases.{plain_fits, sized_fits, bit_fits, part_fits, literal_at, sized_at};
ghost use Rattle.verilog_reader.specs.inner.Phrases.{part_at, select_at, name_at_front, atom_at};

use crate::bytes::{begins_with_digit, expect, read_number, split_run, strip};
use crate::errors::Stop;
use crate::phrases::Phrase;
use crate::tables::find;
use indexmap::IndexMap;
use psl_model::{Expr, Name};
use std::alloc::Global;

#[tactic(auto, unfolding(crate::specs::inner::Phrases::plain_fits))]
fn is_plain(number: u64) -> bool
    ensures value { result ≡ plain_fits number }
    ensures small { result ≡ true → number < 2 ^ 32 }
{
    number <= u64::from(u32::MAX)
}

#[tactic(auto, unfolding(crate::specs::inner::Phrases::sized_fits))]
fn is_sized(width: u64, value: u64) -> bool
    ensures value { result ≡ sized_fits width value }
    ensures small { result ≡ true → width < 2 ^ 32 }
{
    1 <= width && width <= 64 && u128::from(value) < 1u128 << width
}

#[tactic(auto, unfolding(crate::specs::inner::Phrases::bit_fits))]
fn has_bit(width: u32, place: u64) -> bool
    ensures value { result ≡ bit_fits width place }
    ensures small { result ≡ true → place < 2 ^ 32 }
{
    1 < width && place < u64::from(width)
}

#[tactic(auto, unfolding(crate::specs::inner::Phrases::part_fits))]
fn has_part(width: u32, high: u64, low: u64) -> bool
    ensures value { result ≡ part_fits width high low }
    ensures small { result ≡ true → (high < 2 ^ 32) × (low < 2 ^ 32) }
{
    has_bit(width, high) && low <= high
}

/// A number, or a literal with its size.
#[tactic(auto, using(crate::proofs::Steps::stopped), unfolding(crate::specs::inner::Phrases::literal_at))]
fn read_literal(bytes: &[u8]) -> Result<Phrase<'_>, Stop>
    ensures { Gives read_of result (literal_at bytes.now) }
{
    let (number, rest) = read_number(bytes)?;
    match strip(rest, b"'d") {
        Some(more) => read_sized(number, more),
        None => {
            if is_plain(number) {
                Ok(Phrase {
                    expr: Expr::Plain(number as u32),
                    bare: true,
                    rest,
                })
            } else {
                Err(Stop::Wrong { left: bytes.len() })
            }
        }
    }
}

/// The value of a literal of this width.
#[tactic(auto, using(crate::proofs::Steps::stopped), unfolding(crate::specs::inner::Phrases::sized_at))]
fn read_sized(width: u64, bytes: &[u8]) -> Result<Phrase<'_>, Stop>
    ensures { Gives read_of result (sized_at width bytes.now) }
{
    let (value, rest) = read_number(bytes)?;
    if is_sized(width, value) {
        Ok(Phrase {
            expr: Expr::Sized(width as u32, u128::from(value)),
            bare: false,
            rest,
        })
    } else {
        Err(Stop::Wrong { left: bytes.len() })
    }
}

/// A name with its select.
#[tactic(auto, using(crate::proofs::Steps::stopped), unfolding(crate::specs::inner::Phrases::name_at_front))]
fn read_name<'a>(
    alloc: Global,
    table: &IndexMap<Name, u32>,
    bytes: &'a [u8],
) -> Result<Phrase<'a>, Stop>
    ensures { Gives read_of result (name_at_front (keys table.now) (values table.now) bytes.now) }
{
    let (name, rest) = split_run(bytes);
    let Some((place, width)) = find(alloc, table, name)? else {
        return Err(Stop::Wrong { left: bytes.len() });
    };
    match strip(rest, b"[") {
        Some(start) => read_select(width, place, start),
        None => Ok(Phrase {
            expr: Expr::Whole(place),
            bare: false,
            rest,
        }),
    }
}

/// What stands behind the opening bracket.
#[tactic(auto, using(crate::proofs::Steps::stopped), unfolding(crate::specs::inner::Phrases::select_at))]
fn read_select(width: u32, signal: usize, bytes: &[u8]) -> Result<Phrase<'_>, Stop>
    ensures { Gives read_of result (select_at width signal bytes.now) }
{
    let (high, more) = read_number(bytes)?;
    match strip(more, b"]") {
        Some(rest) => {
            if has_bit(width, high) {
                Ok(Phrase {
                    expr: Expr::Bit(signal, high as u32),
                    bare: false,
                    rest,
                })
            } else {
                Err(Stop::Wrong { left: bytes.len() })
            }
        }
        None => read_part(width, signal, high, more),
    }
}

/// The low end of a part, from its colon on.
#[tactic(auto, using(crate::proofs::Steps::stopped), unfolding(crate::specs::inner::Phrases::part_at))]
fn read_part(width: u32, signal: usize, high: u64, bytes: &[u8]) -> Result<Phrase<'_>, Stop>
    ensures { Gives read_of result (part_at width signal high bytes.now) }
{
    let start = expect(bytes, b":")?;
    let (low, more) = read_number(start)?;
    let rest = expect(more, b"]")?;
    if has_part(width, high, low) {
        Ok(Phrase {
            expr: Expr::Part(signal, high as u32, low as u32),
            bare: false,
            rest,
        })
    } else {
        Err(Stop::Wrong { left: bytes.len() })
    }
}

/// A name with its select, or a number.
#[tactic(auto, unfolding(crate::specs::inner::Phrases::atom_at))]
pub fn read_atom<'a>(
    alloc: Global,
    table: &IndexMap<Name, u32>,
    bytes: &'a [u8],
) -> Result<Phrase<'a>, Stop>
    ensures { Gives read_of result (atom_at (keys table.now) (values table.now) bytes.now) }
{
    if begins_with_digit(bytes) {
        read_literal(bytes)
    } else {
        read_name(alloc, table, bytes)
    }
}
