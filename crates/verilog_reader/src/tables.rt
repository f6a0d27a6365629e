//! The names that an expression may use.

ghost use Rattle.std.specs.Prelude.{◌≡◌, option_map, IfOk, IfSome, slice_index};
ghost use Rattle.indexmap.specs.IndexMap.{keys, values};
ghost use Rattle.verilog_reader.specs.inner.Phrases.{place_of};

use indexmap::IndexMap;
use psl_model::Name;
use std::alloc::{AllocError, Global};

/// The place of a name, and its width.
#[tactic(auto, unfolding(crate::specs::inner::Phrases::place_of))]
pub fn find(
    alloc: Global,
    table: &IndexMap<Name, u32>,
    name: &[u8],
) -> Result<Option<(usize, u32)>, AllocError>
    ensures place { IfOk result (λ found. option_map (λ f. f.0) found ≡ place_of (keys table.now) name.now) }
    ensures width { IfOk result (λ found. IfSome found (λ f. f.1 ≡ slice_index (values table.now) f.0)) }
{
    let key = Name::new(alloc, name)?;
    match table.get_full(&key) {
        Some((place, _, width)) => Ok(Some((place, *width))),
        None => Ok(None),
    }
}
