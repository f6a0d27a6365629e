//! The names of a unit: its own, those of its signals, its labels and its reports.

ghost use Rattle.std.specs.Prelude.{◌≡◌, ◌-◌, IfOk, length, map, option_map, slice_range};
ghost use Rattle.unit_rules.specs.Source.{source, bytes_at};
ghost use Rattle.psl_units.specs.Unit.{report_at, signal_for};

use indexmap::IndexMap;
use psl_lexer::Token;
use psl_model::{Name, Signal};
use sqlite_items::Items;
use std::alloc::{AllocError, Global};
use unit_rules::source::bytes_at;

/// The bytes of a token, as a name.
pub fn name_at(alloc: Global, text: &[u8], tokens: &[Token], token: u32) -> Result<Name, AllocError>
    ensures { IfOk result (λ name. name ≡ bytes_at (source text.now tokens.now) token) }
{
    Name::new(alloc, bytes_at(text, tokens, token))
}

/// The label of a directive.
pub fn label_at(
    alloc: Global,
    text: &[u8],
    tokens: &[Token],
    label: Option<u32>,
) -> Result<Option<Name>, AllocError>
    ensures { IfOk result (λ name. name ≡ option_map (bytes_at (source text.now tokens.now)) label) }
{
    match label {
        None => Ok(None),
        Some(token) => Ok(Some(name_at(alloc, text, tokens, token)?)),
    }
}

// What stands between quotes.
fn unquoted(bytes: &[u8]) -> &[u8]
    ensures { result.now ≡ slice_range bytes.now 1 (length bytes.now - 1) }
{
    if bytes.len() < 2 {
        return &bytes[..0];
    }
    &bytes[1..bytes.len() - 1]
}

/// The report of a directive, without its quotes.
pub fn report_at(
    alloc: Global,
    text: &[u8],
    tokens: &[Token],
    report: Option<u32>,
) -> Result<Option<Name>, AllocError>
    ensures { IfOk result (λ name. name ≡ option_map (report_at (source text.now tokens.now)) report) }
{
    match report {
        None => Ok(None),
        Some(token) => {
            let name = Name::new(alloc, unquoted(bytes_at(text, tokens, token)))?;
            Ok(Some(name))
        }
    }
}

/// The signals of a unit in the order of their numbers.
pub fn build_signals(
    alloc: Global,
    signals: IndexMap<Name, u32>,
) -> Result<Items<Signal>, AllocError>
    ensures { IfOk result (λ built. built ≡ map signal_for signals.entries) }
{
    let mut built = Vec::new(alloc);
    for (name, width) in signals {
        built.push(Signal { name, width })?;
    }
    Ok(Items::from_vec(built))
}
