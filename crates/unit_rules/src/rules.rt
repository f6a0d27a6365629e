//! The rules over a unit.

ghost use Rattle.std.specs.Prelude.{◌≡◌, ◌⊎◌, ◌+◌, ◌<◌, ◌^◌, [], None, Some, All, OnOk, IfOk, IfErr, MatchResult};
ghost use Rattle.std.specs.Prelude.{length};
ghost use Rattle.unit_rules.specs.Source.{source};
ghost use Rattle.unit_rules.specs.Sites.{unit_sites};
ghost use Rattle.unit_rules.specs.Known.{nothing, known_after, unit_signals};
ghost use Rattle.unit_rules.specs.Faults.{unit_faults};
ghost use Rattle.unit_rules.specs.Limits.{refusal};
ghost use Rattle.unit_rules.specs.declared.errors.UnitError.TheVariants.{OutOfMemory};
ghost use Rattle.unit_rules.specs.inner.Judging.{IsFirst, going, stopped};
ghost use Rattle.unit_rules.specs.inner.TablesView.{known_of};
ghost use Rattle.unit_rules.specs.inner.WalkView.{state_of};
ghost use Rattle.unit_rules.specs.Fitting.{ItemFits};
ghost use Rattle.psl_grammar.specs.UnitView.{item_of, unit_of};

use crate::errors::UnitError;
use crate::limits::check_limits;
use crate::tables::Tables;
use crate::walk::Walk;
use crate::walking::walk_items;
use indexmap::IndexMap;
use psl_grammar::RawUnit;
use psl_lexer::Token;
use psl_model::Name;
use std::alloc::Global;

/// The names of a unit that breaks no rule, or the first broken rule.
fn check_rules(
    alloc: Global,
    text: &[u8],
    tokens: &[Token],
    raw: &RawUnit,
) -> Result<Tables, UnitError>
    ensures { MatchResult result (λ tables. (unit_faults (source text.now tokens.now) (unit_of raw.now) ≡ [])
        × (known_of tables ≡ known_after (source text.now tokens.now) nothing (unit_sites (unit_of raw.now))))
        (λ fault. IsFirst fault (unit_faults (source text.now tokens.now) (unit_of raw.now))) }
{
    let mut walk = Walk::new(alloc);
    match walk_items(alloc, text, tokens, &mut walk, raw.items.as_slice()) {
        Ok(()) => walk.finish(),
        Err(_) => Err(UnitError::OutOfMemory),
    }
}

/// The signals of a unit that breaks no rule, each with its width, by the numbers that they have in it. Else its first
/// broken rule: the first in the order of reading, and at one token the first in the order of the errors; and where
/// none is broken the first directive that nests too deep, and then the first up to which there are too many nodes.
/// `OutOfMemory` where memory was refused: then nothing is said of the unit.
pub fn check_unit(
    alloc: Global,
    text: &[u8],
    tokens: &[Token],
    raw: &RawUnit,
) -> Result<IndexMap<Name, u32>, UnitError>
    requires few { length raw.now.items.items + 1 < 2 ^ 32 }
    ensures lawful { IfOk result (λ _. refusal (source text.now tokens.now) (unit_of raw.now) ≡ None) }
    ensures numbers { OnOk result (All (λ item. ItemFits (source text.now tokens.now) (item_of item))
        raw.now.items.items) }
    ensures signals { IfOk result (λ signals. signals.entries
        ≡ unit_signals (source text.now tokens.now) (unit_of raw.now)) }
    ensures refused { IfErr result (λ fault. (fault ≡ OutOfMemory)
        ⊎ (refusal (source text.now tokens.now) (unit_of raw.now) ≡ Some fault)) }
{
    let tables = check_rules(alloc, text, tokens, raw)?;
    check_limits(alloc, text, tokens, raw.items.as_slice())?;
    Ok(tables.into_signals())
}
