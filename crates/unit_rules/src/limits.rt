//! The limits on the depth and the nodes of directives.

ghost use Rattle.std.specs.Prelude.{◌≡◌, ◌<◌, ◌^◌, ◌+◌, ◌⊎◌, None, Some, MatchResult, length, map};
ghost use Rattle.unit_rules.specs.inner.MeasureLimits.{tall_among, large_among};
ghost use Rattle.unit_rules.specs.Limits.{or_else, limit_fault};
ghost use Rattle.unit_rules.specs.Source.{source};
ghost use Rattle.unit_rules.specs.declared.errors.UnitError.TheVariants.{OutOfMemory};
ghost use Rattle.psl_grammar.specs.UnitView.{item_of};

use crate::errors::UnitError;
use crate::measures::{Measure, measure_directives};
use psl_grammar::RawItem;
use psl_lexer::Token;
use std::alloc::Global;

/// The most levels of a directive.
const DEPTH_LIMIT: u64 = 512;

/// The most nodes of all directives together.
const NODE_LIMIT: u64 = 65536;

/// From this number on the numbers of a measure are not told apart.
const MOST: u64 = 1 << 63;

/// Refuses the first directive that nests too deep.
pub fn check_depths(measures: &[Measure]) -> Result<(), UnitError>
    requires { length measures.now + 1 < 2 ^ 32 }
    ensures { MatchResult result (λ _. tall_among 1 measures.now ≡ None)
        (λ fault. tall_among 1 measures.now ≡ Some fault) }
{
    let mut directive: u32 = 1;
    for measure in measures {
        if measure.depth > DEPTH_LIMIT {
            return Err(UnitError::TooTall {
                directive,
                depth: measure.depth,
            });
        }
        directive += 1;
    }
    Ok(())
}

/// Refuses the first directive up to which there are too many nodes.
pub fn check_nodes(measures: &[Measure]) -> Result<(), UnitError>
    requires { length measures.now + 1 < 2 ^ 32 }
    ensures { MatchResult result (λ _. large_among 1 0 measures.now ≡ None)
        (λ fault. large_among 1 0 measures.now ≡ Some fault) }
{
    let mut directive: u32 = 1;
    let mut nodes: u64 = 0;
    for measure in measures {
        let more = nodes.saturating_add(measure.nodes).min(MOST);
        if more > NODE_LIMIT {
            return Err(UnitError::TooLarge {
                directive,
                nodes: more,
            });
        }
        nodes = more;
        directive += 1;
    }
    Ok(())
}

fn check_measures(measures: &[Measure]) -> Result<(), UnitError>
    requires { length measures.now + 1 < 2 ^ 32 }
    ensures { MatchResult result (λ _. or_else (tall_among 1 measures.now) (large_among 1 0 measures.now) ≡ None)
        (λ fault. or_else (tall_among 1 measures.now) (large_among 1 0 measures.now) ≡ Some fault) }
{
    check_depths(measures)?;
    check_nodes(measures)
}

/// Refuses the first directive of some items that nests too deep, and then the first up to which there are too many
/// nodes.
pub fn check_limits(
    alloc: Global,
    text: &[u8],
    tokens: &[Token],
    items: &[RawItem],
) -> Result<(), UnitError>
    requires { length items.now + 1 < 2 ^ 32 }
    ensures { MatchResult result (λ _. limit_fault (source text.now tokens.now) (map item_of items.now) ≡ None)
        (λ fault. (fault ≡ OutOfMemory) ⊎ (limit_fault (source text.now tokens.now) (map item_of items.now)
        ≡ Some fault)) }
{
    match measure_directives(alloc, text, tokens, items) {
        Ok(measures) => check_measures(measures.as_slice()),
        Err(_) => Err(UnitError::OutOfMemory),
    }
}
