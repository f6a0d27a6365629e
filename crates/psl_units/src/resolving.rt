//! The call that makes a unit of its raw tree.

ghost use Rattle.std.specs.Prelude.{◌≡◌, ◌⊎◌, ◌+◌, ◌<◌, ◌^◌, ◌++◌, ◌∷◌, [], None, Some, All, IfOk, IfErr, OnOk, map};
ghost use Rattle.std.specs.Prelude.{length};
ghost use Rattle.psl_model.specs.UnitView.{directive_of, unit_of};
ghost use Rattle.psl_grammar.specs.View.{prop_of};
ghost use Rattle.psl_grammar.specs.UnitView.{item_of, unit_of as raw_unit_of};
ghost use Rattle.unit_rules.specs.Source.{source};
ghost use Rattle.unit_rules.specs.Known.{unit_signals};
ghost use Rattle.unit_rules.specs.Fitting.{ItemFits, PropFits};
ghost use Rattle.unit_rules.specs.Limits.{refusal};
ghost use Rattle.unit_rules.specs.Placed.{no_bodies, placed_prop, placed_item, placed_items};
ghost use Rattle.unit_rules.specs.declared.errors.UnitError.TheVariants.{OutOfMemory};
ghost use Rattle.psl_units.specs.Trees.{formula_for};
ghost use Rattle.psl_units.specs.Unit.{directive_for, unit_for};
ghost use Rattle.psl_units.specs.inner.Directives.{IsDirective};
ghost use Rattle.psl_units.specs.inner.Places.{plain_names};
ghost use Rattle.psl_units.specs.inner.Scopes.{AreNames, IsScope, bodies_of};

use crate::formulas::build_formula;
use crate::laws::a_lawful_unit_declares_no_name_twice;
use crate::names::{Names, Scope, names_of};
use crate::naming::{build_signals, label_at, name_at, report_at};
use indexmap::IndexMap;
use psl_grammar::{RawItem, RawProp, RawUnit};
use psl_lexer::Token;
use psl_model::{Directive, Name, PslUnit};
use sqlite_items::Items;
use std::alloc::{AllocError, Global};
use unit_rules::{UnitError, check_unit};

// The directive of an `assert`.
fn build_directive(
    alloc: Global,
    text: &[u8],
    tokens: &[Token],
    signals: &IndexMap<Name, u32>,
    scope: &Scope,
    label: Option<u32>,
    body: &RawProp,
    report: Option<u32>,
) -> Result<Directive, AllocError>
    requires scoped { IsScope (source text.now tokens.now) scope.now }
    requires fits { PropFits (source text.now tokens.now) (prop_of body.now) }
    ensures { IfOk result (λ d. IsDirective (source text.now tokens.now) label report
        (formula_for (source text.now tokens.now) signals.now.entries
        (placed_prop (source text.now tokens.now) (bodies_of (source text.now tokens.now) scope.now)
        (prop_of body.now))) (directive_of d)) }
{
    let label = label_at(alloc, text, tokens, label)?;
    let report = report_at(alloc, text, tokens, report)?;
    let formula = build_formula(alloc, text, tokens, signals, scope, body)?;
    Ok(Directive {
        label,
        report,
        formula,
    })
}

// Puts a directive behind others.
fn put_last(directives: &mut Vec<Directive>, directive: Directive) -> Result<(), AllocError>
    ensures { OnOk result (map directive_of directives.new.items
        ≡ map directive_of directives.old.items ++ directive_of directive ∷ []) }
{
    directives.push(directive)?;
    Ok(())
}

// Puts the directive of an item that is an `assert` behind others.
#[tactic(auto, using(crate::proofs::Directives::put_one))]
fn put_directive(
    alloc: Global,
    text: &[u8],
    tokens: &[Token],
    signals: &IndexMap<Name, u32>,
    scope: &Scope,
    item: &RawItem,
    directives: &mut Vec<Directive>,
) -> Result<(), AllocError>
    requires scoped { IsScope (source text.now tokens.now) scope.now }
    requires fits { ItemFits (source text.now tokens.now) (item_of item.now) }
    ensures { OnOk result (map directive_of directives.new.items ≡ map directive_of directives.old.items
        ++ map (directive_for (source text.now tokens.now) signals.now.entries)
        (placed_item (source text.now tokens.now) (bodies_of (source text.now tokens.now) scope.now)
        (item_of item.now))) }
{
    match item {
        RawItem::Assert {
            label,
            body,
            report,
            ..
        } => {
            let directive = build_directive(
                alloc, text, tokens, signals, scope, *label, body, *report,
            )?;
            put_last(directives, directive)
        }
        _ => Ok(()),
    }
}

// The directives of some items, in their order.
#[tactic(auto, using(crate::proofs::Directives::told_more, crate::proofs::Directives::told_whole))]
fn build_directives(
    alloc: Global,
    text: &[u8],
    tokens: &[Token],
    signals: &IndexMap<Name, u32>,
    items: &[RawItem],
    names: &Names,
) -> Result<Vec<Directive>, AllocError>
    requires fit { All (λ item. ItemFits (source text.now tokens.now) (item_of item)) items.now }
    requires named { AreNames (source text.now tokens.now) items.now (length items.now) (plain_names names.now) }
    ensures { IfOk result (λ built. map directive_of built.items
        ≡ map (directive_for (source text.now tokens.now) signals.now.entries)
        (placed_items (source text.now tokens.now) no_bodies (map item_of items.now))) }
{
    let mut directives = Vec::new(alloc);
    for upto in 0..items.len() {
        let scope = Scope { items, names, upto };
        let item = &items[upto];
        put_directive(alloc, text, tokens, signals, &scope, item, &mut directives)?;
    }
    Ok(directives)
}

// The unit of a raw tree that nothing refuses.
fn build_unit(
    alloc: Global,
    text: &[u8],
    tokens: &[Token],
    raw: &RawUnit,
    signals: IndexMap<Name, u32>,
) -> Result<PslUnit, AllocError>
    requires lawful { refusal (source text.now tokens.now) (raw_unit_of raw.now) ≡ None }
    requires fit { All (λ item. ItemFits (source text.now tokens.now) (item_of item)) raw.now.items.items }
    requires signals { signals.entries ≡ unit_signals (source text.now tokens.now) (raw_unit_of raw.now) }
    ensures { IfOk result (λ unit. unit_of unit ≡ unit_for (source text.now tokens.now) (raw_unit_of raw.now)) }
{
    a_lawful_unit_declares_no_name_twice();
    let items = raw.items.as_slice();
    let names = names_of(alloc, text, tokens, items)?;
    let directives = build_directives(alloc, text, tokens, &signals, items, &names)?;
    let name = name_at(alloc, text, tokens, raw.name)?;
    let signals = build_signals(alloc, signals)?;
    Ok(PslUnit {
        name,
        signals,
        directives: Items::from_vec(directives),
    })
}

/// The unit that a raw tree of a text's tokens stands for, exactly where nothing refuses it. Else why it is refused:
/// the first broken rule, and where none is broken the first directive that nests too deep, and then the first up to
/// which there are too many nodes. `OutOfMemory` where memory was refused: then nothing is said of the unit.
pub fn resolve(
    alloc: Global,
    text: &[u8],
    tokens: &[Token],
    raw: &RawUnit,
) -> Result<PslUnit, UnitError>
    requires few { length raw.now.items.items + 1 < 2 ^ 32 }
    ensures lawful { IfOk result (λ _. refusal (source text.now tokens.now) (raw_unit_of raw.now) ≡ None) }
    ensures unit { IfOk result (λ unit.
        unit_of unit ≡ unit_for (source text.now tokens.now) (raw_unit_of raw.now)) }
    ensures refused { IfErr result (λ fault. (fault ≡ OutOfMemory)
        ⊎ (refusal (source text.now tokens.now) (raw_unit_of raw.now) ≡ Some fault)) }
{
    let signals = check_unit(alloc, text, tokens, raw)?;
    match build_unit(alloc, text, tokens, raw, signals) {
        Ok(unit) => Ok(unit),
        Err(_) => Err(UnitError::OutOfMemory),
    }
}
