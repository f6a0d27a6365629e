//! Which lists of letters a table accepts, by its paths.

ghost use Rattle.std.specs.Prelude.{◌<◌, length};

use auto_core::{Auto, Label, Table};

/// What three symbols are in a cycle; none is a top.
pub(crate) type Shown = Option<[bool; 3]>;

pub(crate) const A: Shown = Some([true, false, false]);

pub(crate) const B: Shown = Some([false, true, false]);

pub(crate) const C: Shown = Some([false, false, true]);

pub(crate) const TOP: Shown = None;

fn passes(label: &Label, shown: Shown) -> bool {
    match shown {
        None => true,
        Some(values) => label.literals().iter().all(|literal| values.get(literal.symbol)
            == Some(&literal.positive)),
    }
}

// Whether a path from the state to an accepting state reads the letters.
fn accepts_from(table: &Table, state: u32, letters: &[Shown]) -> bool
    requires { state < length table.now.accepting }
{
    match letters {
        [] => table.accepts(state),
        [first, rest @ ..] => {
            for edge in table.edges() {
                if edge.from == state
                    && passes(&edge.label, *first)
                    && accepts_from(table, edge.to, rest)
                {
                    return true;
                }
            }
            false
        }
    }
}

/// Whether the table accepts each of some lists, and none of others.
pub(crate) fn accepts_these(table: &Table, accepted: &[&[Shown]], refused: &[&[Shown]]) -> bool {
    let start = table.start();
    for letters in accepted {
        if !accepts_from(table, start, letters) {
            return false;
        }
    }
    for letters in refused {
        if accepts_from(table, start, letters) {
            return false;
        }
    }
    true
}
