//! Depth and nodes of phrases, reckoned without putting names in place.

ghost use Rattle.std.specs.Prelude.{◌≡◌, ◌++◌, IfOk, OnOk, option_map, unwrap_or, map};
ghost use Rattle.unit_rules.specs.Source.{source, bytes_at};
ghost use Rattle.unit_rules.specs.Known.{same_name};
ghost use Rattle.unit_rules.specs.inner.Reckoned.{leaf, reckoned_expr, reckoned_on, reckoned_sere, reckoned_items};
ghost use Rattle.unit_rules.specs.inner.Reckoned.{no_numbers};
ghost use Rattle.std.specs.Map.{lookup};
ghost use Rattle.indexmap.specs.IndexMap.{insert_entry};
ghost use Rattle.psl_grammar.specs.View.{expr_of, sere_of, prop_of};
ghost use Rattle.psl_grammar.specs.UnitView.{item_of};

use crate::source::bytes_at;
use indexmap::IndexMap;
use psl_grammar::{RawExpr, RawItem, RawProp, RawSere};
use psl_lexer::Token;
use psl_model::Name;
use std::alloc::{AllocError, Global};

/// How deep a phrase nests, and how many operators and leaves it has, with the names of sequences and properties put in
/// place. Each is 2^63 where it is at least that.
#[derive(Clone, Copy, Debug, Drop)]
pub struct Measure {
    pub depth: u64,
    pub nodes: u64,
}

/// From this number on the numbers of a measure are not told apart.
const MOST: u64 = 1 << 63;

const LEAF: Measure = Measure { depth: 1, nodes: 1 };

const NO_OPERAND: Measure = Measure { depth: 0, nodes: 0 };

impl Measure {
    ghost use Rattle.unit_rules.specs.inner.Reckoned.{beside, above};

    // Two operands of an operator.
    fn beside(self, other: Measure) -> Measure
        ensures { result ≡ beside self other }
    {
        Measure {
            depth: self.depth.max(other.depth),
            nodes: self.nodes.saturating_add(other.nodes).min(MOST),
        }
    }

    // An operator above its operands.
    fn above(self) -> Measure
        ensures { result ≡ above self }
    {
        Measure {
            depth: self.depth.saturating_add(1).min(MOST),
            nodes: self.nodes.saturating_add(1).min(MOST),
        }
    }
}

/// The measures of the sequences and properties that some items declare, by name.
#[derive(Drop)]
pub struct Measured {
    sequences: IndexMap<Name, Measure>,
    properties: IndexMap<Name, Measure>,
}

fn measure_expr(expr: &RawExpr) -> Measure
    ensures { result ≡ reckoned_expr (expr_of expr.now) }
{
    match expr {
        RawExpr::Name { .. } => LEAF,
        RawExpr::Literal(_) => LEAF,
        RawExpr::Unary(_, operand) => measure_expr(operand.get()).above(),
        RawExpr::Binary { left, right, .. } => {
            measure_expr(left.get())
                .beside(measure_expr(right.get()))
                .above()
        }
        RawExpr::Choice { test, yes, no, .. } => {
            let branches = measure_expr(yes.get()).beside(measure_expr(no.get()));
            measure_expr(test.get()).beside(branches).above()
        }
    }
}

fn measure_on(on: &Option<RawExpr>) -> Measure
    ensures { result ≡ reckoned_on (option_map expr_of on.now) }
{
    match on {
        Some(expr) => measure_expr(expr),
        None => NO_OPERAND,
    }
}

fn measure_named(
    alloc: Global,
    text: &[u8],
    tokens: &[Token],
    named: &IndexMap<Name, Measure>,
    token: u32,
) -> Result<Measure, AllocError>
    ensures { IfOk result (λ m. m ≡ unwrap_or
        (lookup (same_name (bytes_at (source text.now tokens.now) token)) named.now.entries) leaf) }
{
    let name = Name::new(alloc, bytes_at(text, tokens, token))?;
    Ok(named.get(&name).copied().unwrap_or(LEAF))
}

fn measure_sere(
    alloc: Global,
    text: &[u8],
    tokens: &[Token],
    named: &IndexMap<Name, Measure>,
    sere: &RawSere,
) -> Result<Measure, AllocError>
    ensures { IfOk result (λ m. m ≡ reckoned_sere (source text.now tokens.now) named.now.entries (sere_of sere.now)) }
{
    match sere {
        RawSere::Bool(expr) => Ok(measure_expr(expr)),
        RawSere::Name(token) => measure_named(alloc, text, tokens, named, *token),
        RawSere::Lone(_) => Ok(LEAF),
        RawSere::Repeat(body, _) => {
            Ok(measure_sere(alloc, text, tokens, named, body.get())?.above())
        }
        RawSere::Join { left, right, .. } => {
            let left = measure_sere(alloc, text, tokens, named, left.get())?;
            let right = measure_sere(alloc, text, tokens, named, right.get())?;
            Ok(left.beside(right).above())
        }
    }
}

impl Measured {
    ghost use Rattle.unit_rules.specs.inner.MeasuredView.{numbers_of};
    ghost use Rattle.unit_rules.specs.inner.Reckoned.{no_numbers, reckoned_prop, numbers_after, reckoned_item};

    pub fn new(alloc: Global) -> Measured
        ensures { numbers_of result ≡ no_numbers }
    {
        Measured {
            sequences: IndexMap::new(alloc),
            properties: IndexMap::new(alloc),
        }
    }

    fn measure_prop(
        &self,
        alloc: Global,
        text: &[u8],
        tokens: &[Token],
        prop: &RawProp,
    ) -> Result<Measure, AllocError>
        ensures { IfOk result (λ m. m ≡ reckoned_prop (source text.now tokens.now) (numbers_of self.now)
            (prop_of prop.now)) }
    {
        match prop {
            RawProp::Bool(expr) => Ok(measure_expr(expr)),
            RawProp::Name(token) => measure_named(alloc, text, tokens, &self.properties, *token),
            RawProp::Seq { body, .. } => measure_sere(alloc, text, tokens, &self.sequences, body),
            RawProp::Prefix { body, .. } => {
                Ok(self.measure_prop(alloc, text, tokens, body.get())?.above())
            }
            RawProp::Next { on, body, .. } => {
                let inner = self.measure_prop(alloc, text, tokens, body.get())?;
                Ok(measure_on(on).beside(inner).above())
            }
            RawProp::Binary { left, right, .. } => {
                let left = self.measure_prop(alloc, text, tokens, left.get())?;
                let right = self.measure_prop(alloc, text, tokens, right.get())?;
                Ok(left.beside(right).above())
            }
            RawProp::Suffix { left, body, .. } => {
                let left = measure_sere(alloc, text, tokens, &self.sequences, left)?;
                let body = self.measure_prop(alloc, text, tokens, body.get())?;
                Ok(left.beside(body).above())
            }
            RawProp::Abort { body, on } => {
                let body = self.measure_prop(alloc, text, tokens, body.get())?;
                Ok(body.beside(measure_expr(on)).above())
            }
        }
    }

    /// Takes in a sequence or a property that an item declares.
    pub fn take_in(
        &mut self,
        alloc: Global,
        text: &[u8],
        tokens: &[Token],
        item: &RawItem,
    ) -> Result<(), AllocError>
        ensures { OnOk result (numbers_of self.new
            ≡ numbers_after (source text.now tokens.now) (numbers_of self.old) (item_of item.now)) }
    {
        match item {
            RawItem::Sequence { name, body } => {
                let measure = measure_sere(alloc, text, tokens, &self.sequences, body)?;
                let name = Name::new(alloc, bytes_at(text, tokens, *name))?;
                put_measure(&mut self.sequences, name, measure)
            }
            RawItem::Property { name, body } => {
                let measure = self.measure_prop(alloc, text, tokens, body)?;
                let name = Name::new(alloc, bytes_at(text, tokens, *name))?;
                put_measure(&mut self.properties, name, measure)
            }
            _ => Ok(()),
        }
    }

    /// The measure of the directive that an item is, put behind others.
    pub fn put_directive(
        &self,
        alloc: Global,
        text: &[u8],
        tokens: &[Token],
        item: &RawItem,
        directives: &mut Vec<Measure>,
    ) -> Result<(), AllocError>
        ensures { OnOk result (directives.new.items ≡ directives.old.items
            ++ reckoned_item (source text.now tokens.now) (numbers_of self.now) (item_of item.now)) }
    {
        match item {
            RawItem::Assert { body, .. } => {
                let measure = self.measure_prop(alloc, text, tokens, body)?;
                directives.push(measure)?;
                Ok(())
            }
            _ => Ok(()),
        }
    }
}

fn put_measure(
    named: &mut IndexMap<Name, Measure>,
    name: Name,
    measure: Measure,
) -> Result<(), AllocError>
    ensures { OnOk result (named.new.entries ≡ insert_entry same_name named.old.entries name measure) }
{
    match named.insert(name, measure) {
        Ok(_) => Ok(()),
        Err(_) => Err(AllocError),
    }
}

/// The measures of the directives of items, in their order.
pub fn measure_directives(
    alloc: Global,
    text: &[u8],
    tokens: &[Token],
    items: &[RawItem],
) -> Result<Vec<Measure>, AllocError>
    ensures { IfOk result (λ ms. ms.items
        ≡ reckoned_items (source text.now tokens.now) no_numbers (map item_of items.now)) }
{
    let mut measured = Measured::new(alloc);
    let mut directives = Vec::new(alloc);
    for item in items {
        measured.put_directive(alloc, text, tokens, item, &mut directives)?;
        measured.take_in(alloc, text, tokens, item)?;
    }
    Ok(directives)
}
