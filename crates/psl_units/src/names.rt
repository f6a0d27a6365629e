//! The names of sequences and properties, and the bodies that they stand for.

ghost use Rattle.std.specs.Prelude.{◌≡◌, ◌≤◌, IfOk, OnOk, MatchOption, length, map};
ghost use Rattle.std.specs.Map.{lookup};
ghost use Rattle.indexmap.specs.IndexMap.{insert_entry};
ghost use Rattle.psl_grammar.specs.View.{sere_of, prop_of};
ghost use Rattle.psl_grammar.specs.UnitView.{item_of};
ghost use Rattle.unit_rules.specs.Source.{source, bytes_at};
ghost use Rattle.unit_rules.specs.Known.{same_name};
ghost use Rattle.unit_rules.specs.Placed.{no_bodies};
ghost use Rattle.psl_units.specs.Before.{AreNew};
ghost use Rattle.psl_units.specs.inner.Places.{body_place, plain_names, sequence_place, property_place};
ghost use Rattle.psl_units.specs.inner.Scopes.{AreNames, IsScope, bodies_of, IsFoundSequence, IsFoundProperty};

use indexmap::IndexMap;
use psl_grammar::{RawItem, RawProp, RawSere};
use psl_lexer::Token;
use psl_model::Name;
use std::alloc::{AllocError, Global};
use unit_rules::source::bytes_at;

/// Where a name is declared.
#[derive(Clone, Copy, Debug, Drop)]
pub struct Place {
    /// The item that declares the name.
    pub item: usize,
    /// The item whose body the name stands for. It is another where the declared body is itself just a name.
    pub body: usize,
}

/// The names of the sequences and properties that items declare, each with its place.
#[derive(Drop)]
pub struct Names {
    sequences: IndexMap<Name, Place>,
    properties: IndexMap<Name, Place>,
}

/// The items of a unit up to one of them, by whose names bodies are found.
#[derive(Clone, Copy)]
pub struct Scope<'a> {
    pub items: &'a [RawItem],
    pub names: &'a Names,
    pub upto: usize,
}

// The item whose body a name stands for behind the first items.
fn find_place(
    alloc: Global,
    places: &IndexMap<Name, Place>,
    upto: usize,
    name: &[u8],
) -> Result<Option<usize>, AllocError>
    ensures { IfOk result (λ found. found ≡ body_place (lookup (same_name name.now) places.now.entries) upto) }
{
    let name = Name::new(alloc, name)?;
    match places.get(&name) {
        Some(place) => Ok(body_place(*place, upto)),
        None => Ok(None),
    }
}

fn body_place(place: Place, upto: usize) -> Option<usize>
    ensures { result ≡ body_place (Some place) upto }
{
    if place.item < upto {
        return Some(place.body);
    }
    None
}

fn put_place(
    alloc: Global,
    places: &mut IndexMap<Name, Place>,
    name: &[u8],
    item: usize,
    body: usize,
) -> Result<(), AllocError>
    ensures { OnOk result (places.new.entries
        ≡ insert_entry same_name places.old.entries name.now (record { item = item; body = body })) }
{
    let name = Name::new(alloc, name)?;
    match places.insert(name, Place { item, body }) {
        Ok(_) => Ok(()),
        Err(_) => Err(AllocError),
    }
}

// The item whose body a declared sequence is: where its body is just a name, that of the name.
fn sequence_place(
    alloc: Global,
    text: &[u8],
    tokens: &[Token],
    places: &IndexMap<Name, Place>,
    item: usize,
    body: &RawSere,
) -> Result<usize, AllocError>
    ensures { IfOk result (λ place. place ≡ sequence_place (source text.now tokens.now) places.now.entries item
        (sere_of body.now)) }
{
    match body {
        RawSere::Name(token) => {
            let found = find_place(alloc, places, item, bytes_at(text, tokens, *token))?;
            Ok(found.unwrap_or(item))
        }
        _ => Ok(item),
    }
}

// The item whose body a declared property is: where its body is just a name, that of the name.
fn property_place(
    alloc: Global,
    text: &[u8],
    tokens: &[Token],
    places: &IndexMap<Name, Place>,
    item: usize,
    body: &RawProp,
) -> Result<usize, AllocError>
    ensures { IfOk result (λ place. place ≡ property_place (source text.now tokens.now) places.now.entries item
        (prop_of body.now)) }
{
    match body {
        RawProp::Name(token) => {
            let found = find_place(alloc, places, item, bytes_at(text, tokens, *token))?;
            Ok(found.unwrap_or(item))
        }
        _ => Ok(item),
    }
}

impl Names {
    ghost use Rattle.psl_units.specs.inner.Places.{no_names, names_after};

    fn new(alloc: Global) -> Names
        ensures { plain_names result ≡ no_names }
    {
        Names {
            sequences: IndexMap::new(alloc),
            properties: IndexMap::new(alloc),
        }
    }

    // Takes in the name that an item declares.
    fn take_in(
        &mut self,
        alloc: Global,
        text: &[u8],
        tokens: &[Token],
        place: usize,
        item: &RawItem,
    ) -> Result<(), AllocError>
        ensures { OnOk result (plain_names self.new
            ≡ names_after (source text.now tokens.now) (plain_names self.old) place (item_of item.now)) }
    {
        match item {
            RawItem::Sequence { name, body } => {
                let root = sequence_place(alloc, text, tokens, &self.sequences, place, body)?;
                let name = bytes_at(text, tokens, *name);
                put_place(alloc, &mut self.sequences, name, place, root)
            }
            RawItem::Property { name, body } => {
                let root = property_place(alloc, text, tokens, &self.properties, place, body)?;
                let name = bytes_at(text, tokens, *name);
                put_place(alloc, &mut self.properties, name, place, root)
            }
            _ => Ok(()),
        }
    }
}

/// The names that items declare, none of them twice.
pub fn names_of(
    alloc: Global,
    text: &[u8],
    tokens: &[Token],
    items: &[RawItem],
) -> Result<Names, AllocError>
    requires { AreNew (source text.now tokens.now) no_bodies (map item_of items.now) }
    ensures { IfOk result (λ names. AreNames (source text.now tokens.now) items.now (length items.now)
        (plain_names names)) }
{
    let mut names = Names::new(alloc);
    for place in 0..items.len() {
        names.take_in(alloc, text, tokens, place, &items[place])?;
    }
    Ok(names)
}

impl<'a> Scope<'a> {
    /// The sequence of a name, with the scope in which its own names are read.
    pub fn find_sequence(
        &self,
        alloc: Global,
        text: &[u8],
        tokens: &[Token],
        token: u32,
    ) -> Result<Option<(Scope<'a>, &'a RawSere)>, AllocError>
        requires { IsScope (source text.now tokens.now) self.now }
        ensures { IfOk result (λ found. MatchOption found
            (lookup (same_name (bytes_at (source text.now tokens.now) token))
            (bodies_of (source text.now tokens.now) self.now).sequences ≡ None)
            (λ body. IsFoundSequence (source text.now tokens.now) self.now
            (bytes_at (source text.now tokens.now) token) body.0 (sere_of body.1.now))) }
    {
        let name = bytes_at(text, tokens, token);
        let Some(place) = find_place(alloc, &self.names.sequences, self.upto, name)? else {
            return Ok(None);
        };
        match &self.items[place] {
            RawItem::Sequence { body, .. } => Ok(Some((self.before(place), body))),
            _ => Ok(None),
        }
    }

    /// The property of a name, with the scope in which its own names are read.
    pub fn find_property(
        &self,
        alloc: Global,
        text: &[u8],
        tokens: &[Token],
        token: u32,
    ) -> Result<Option<(Scope<'a>, &'a RawProp)>, AllocError>
        requires { IsScope (source text.now tokens.now) self.now }
        ensures { IfOk result (λ found. MatchOption found
            (lookup (same_name (bytes_at (source text.now tokens.now) token))
            (bodies_of (source text.now tokens.now) self.now).properties ≡ None)
            (λ body. IsFoundProperty (source text.now tokens.now) self.now
            (bytes_at (source text.now tokens.now) token) body.0 (prop_of body.1.now))) }
    {
        let name = bytes_at(text, tokens, token);
        let Some(place) = find_place(alloc, &self.names.properties, self.upto, name)? else {
            return Ok(None);
        };
        match &self.items[place] {
            RawItem::Property { body, .. } => Ok(Some((self.before(place), body))),
            _ => Ok(None),
        }
    }

    // The scope behind fewer items.
    fn before(&self, upto: usize) -> Scope<'a>
        ensures items { result.items.now ≡ self.now.items.now }
        ensures names { result.names.now ≡ self.now.names.now }
        ensures upto { result.upto ≡ upto }
    {
        Scope {
            items: self.items,
            names: self.names,
            upto,
        }
    }
}
