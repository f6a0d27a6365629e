//! Units and refusals, worked out by hand. `@` stands before the token at which a text is refused.

mod limits;
mod names;
mod numbers;
mod orders;
mod sizes;
mod units;

use crate::asking::{Answer, Rule};
use crate::making::{answer_to_items, breaks};
use std::alloc::Global;

/// Items that are refused, and some like them that aren't.
type Row = (&'static [u8], &'static [u8]);

// The place of the first row whose left part isn't refused by the rule at its `@`, or whose right part is.
fn first_wrong(alloc: Global, rule: Rule, rows: &[Row]) -> Option<usize> {
    for (place, row) in rows.iter().enumerate() {
        if !breaks(alloc, rule, row.0) || answer_to_items(alloc, row.1) != Answer::Unit {
            return Some(place);
        }
    }
    None
}
