//! The sets that were seen, each at the place that is its number.

ghost use Rattle.std.specs.Prelude.{◌≡◌, ◌<◌, ◌≤◌, nat_eq, List, IfOk, OnOk, IsErrOf};
ghost use Rattle.std.specs.List.{position_or_len};
ghost use Rattle.std.specs.Cmp.Lexicographic.{pointwise};
ghost use Rattle.indexmap.specs.IndexSet.{insert_key};
ghost use Rattle.weak_determinise.specs.declared.sets.DetError.TheVariants.{TooLarge};

use crate::places::Places;
use crate::sets::DetError;
use indexmap::IndexSet;

// The number of a set, which is a new one where the set was not seen before.
pub(crate) fn number(
    seen: &mut IndexSet<Places>,
    places: Vec<u32>,
    limit: u32,
) -> Result<u32, DetError>
    ensures numbered { IfOk result (λ n. n ≡ position_or_len (pointwise nat_eq places.items) seen.old.keys) }
    ensures room { OnOk result (position_or_len (pointwise nat_eq places.items) seen.old.keys < limit) }
    ensures named { OnOk result (seen.new.keys ≡ insert_key (pointwise nat_eq) seen.old.keys places.items) }
    ensures full { IsErrOf result TooLarge →
        limit ≤ position_or_len (pointwise nat_eq places.items) seen.old.keys }
{
    match seen.insert_full(Places::new(places)) {
        Ok((index, _)) => {
            if index < limit as usize {
                Ok(index as u32)
            } else {
                Err(DetError::TooLarge)
            }
        }
        Err(_) => Err(DetError::OutOfMemory),
    }
}
