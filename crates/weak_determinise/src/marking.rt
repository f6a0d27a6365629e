//! The states that truth values lead to, by marks.

ghost use Rattle.std.specs.Prelude.{◌≡◌, ◌<◌, ◌⊎◌, ◌↔◌, ℕ, length, All, Some, IfOk, false, replicate, slice_index_or};
ghost use Rattle.auto_core.specs.Machine.{Passes, value_in};
ghost use Rattle.weak_determinise.specs.inner.Among.{Among};
ghost use Rattle.weak_determinise.specs.inner.Stepping.{steps_in, IsMarked, AddsMarks, AreMarked, AreTargets};

use crate::places::Places;
use auto_core::Label;
use std::alloc::{AllocError, Global};

/// Steps by their labels: for each label, at its place, the states that steps with it lead to.
#[derive(Drop)]
pub(crate) struct Steps {
    pub(crate) labels: Vec<Label>,
    pub(crate) rows: Vec<Places>,
}

fn unmarked(alloc: Global, count: u32) -> Result<Vec<bool>, AllocError>
    ensures { IfOk result (λ marks. marks.items ≡ replicate count false) }
{
    Ok(vec![in alloc; false; count as usize]?)
}

fn mark_all(marks: &mut Vec<bool>, states: &[u32])
    requires { All (λ s. s < length marks.old.items) states.now }
    ensures { AddsMarks (Among states.now) marks.old.items marks.new.items }
{
    for state in states {
        marks[*state as usize] = true;
    }
}

// Marks the states of a label's row, if the label holds.
fn mark_row(marks: &mut Vec<bool>, label: &Label, row: &Places, bits: &[bool])
    requires known { All (λ l. l.symbol < length bits.now) label.now }
    requires owned { All (λ s. s < length marks.old.items) row.now }
    ensures { AddsMarks (λ t. Passes label.now (Some (value_in bits.now)) × Among row.now t) marks.old.items
        marks.new.items }
{
    if label.holds(bits) {
        mark_all(marks, row.as_slice());
    }
}

fn is_marked(marks: &[bool], state: u32) -> bool
    requires { state < length marks.now }
    ensures { result ≡ slice_index_or marks.now state false }
{
    marks[state as usize]
}

// The marked states.
fn marked(alloc: Global, count: u32, marks: &[bool]) -> Result<Vec<u32>, AllocError>
    requires { length marks.now ≡ count }
    ensures { IfOk result (λ next. AreMarked marks.now count next.items) }
{
    let mut next = Vec::new(alloc);
    for state in 0..count {
        if is_marked(marks, state) {
            next.push(state)?;
        }
    }
    Ok(next)
}

// The states that steps with a holding label lead to.
pub(crate) fn targets(
    alloc: Global,
    count: u32,
    steps: &Steps,
    bits: &[bool],
) -> Result<Vec<u32>, AllocError>
    requires even { length steps.now.labels.items ≡ length steps.now.rows.items }
    requires known { All (λ label. All (λ l. l.symbol < length bits.now) label) steps.now.labels.items }
    requires owned { All (λ row. All (λ s. s < count) row) steps.now.rows.items }
    ensures { IfOk result (λ next.
        AreTargets (steps_in steps.now.labels.items steps.now.rows.items) bits.now next.items) }
{
    let mut marks = unmarked(alloc, count)?;
    for place in 0..steps.labels.len() {
        mark_row(&mut marks, &steps.labels[place], &steps.rows[place], bits);
    }
    marked(alloc, count, marks.as_slice())
}
