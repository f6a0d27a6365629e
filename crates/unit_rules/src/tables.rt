//! What is known of a unit's names and directives.

ghost use Rattle.std.specs.Prelude.{◌≡◌, ◌<◌, ◌^◌, ◌&&◌, not, ◌||◌, ◌++◌, ◌∷◌, [], true, false, length, nat_le};
ghost use Rattle.std.specs.Prelude.{is_some, OnOk, IfOk, IfErr};
ghost use Rattle.std.specs.Map.{lookup};
ghost use Rattle.unit_rules.specs.declared.errors.UnitError.TheVariants.{OutOfMemory, TooManySignals};
ghost use Rattle.unit_rules.specs.Known.{same_name, has_meaning, is_phrase, is_signal, is_among, width_of_signal};
ghost use Rattle.unit_rules.specs.Known.{declared_width, with_signal, with_phrase, nothing};
ghost use Rattle.unit_rules.specs.inner.Judging.{Judges, VisitsSite};
ghost use Rattle.unit_rules.specs.Source.{source, bytes_at};
ghost use Rattle.unit_rules.specs.Sites.{declared, used, phrase, label, directive};
ghost use Rattle.unit_rules.specs.Faults.{where_broken, signal_limit};

use crate::errors::UnitError;
use crate::judging::{judge_select, refuse};
use crate::source::bytes_at;
use indexmap::{IndexMap, IndexSet};
use psl_lexer::Token;
use psl_model::Name;
use std::alloc::{AllocError, Global};

/// What is known of a unit's names and directives after some of its sites.
#[derive(Drop)]
pub struct Tables {
    signals: IndexMap<Name, u32>,
    phrases: IndexSet<Name>,
    labels: IndexSet<Name>,
    directives: u32,
}

impl Tables {
    ghost use Rattle.unit_rules.specs.inner.TablesView.{known_of};

    pub fn new(alloc: Global) -> Tables
        ensures { known_of result ≡ nothing }
    {
        Tables {
            signals: IndexMap::new(alloc),
            phrases: IndexSet::new(alloc),
            labels: IndexSet::new(alloc),
            directives: 0,
        }
    }

    /// The signals in the order of their numbers, each with its width.
    pub fn into_signals(self) -> IndexMap<Name, u32>
        ensures { result.entries ≡ (known_of self).signals }
    {
        let Tables {
            signals,
            phrases: _,
            labels: _,
            directives: _,
        } = self;
        signals
    }

    pub fn is_phrase(&self, name: &Name) -> bool
        ensures { result ≡ is_phrase (known_of self.now) name.now }
    {
        self.phrases.contains(name)
    }

    pub fn has_meaning(&self, name: &Name) -> bool
        ensures { result ≡ has_meaning (known_of self.now) name.now }
    {
        self.signals.contains_key(name) || self.phrases.contains(name)
    }

    pub fn has_label(&self, name: &Name) -> bool
        ensures { result ≡ is_among name.now (known_of self.now).labels }
    {
        self.labels.contains(name)
    }

    /// The bits of a signal, and 1 where it isn't declared yet.
    pub fn width_of(&self, name: &Name) -> u32
        ensures { result ≡ width_of_signal (known_of self.now) name.now }
    {
        self.signals.get(name).copied().unwrap_or(1)
    }
}

/// The most signals of a unit, and the most directives.
const SIGNAL_LIMIT: usize = 1024;

const DIRECTIVE_LIMIT: u32 = 256;

#[tactic(auto, using(crate::proofs::NewNames::put_new))]
fn put_signal(signals: &mut IndexMap<Name, u32>, name: Name, width: u32) -> Result<(), UnitError>
    requires { is_some (lookup (same_name name) signals.old.entries) ≡ false }
    ensures added { OnOk result (signals.new.entries ≡ signals.old.entries ++ (name, width) ∷ []) }
    ensures memory { IfErr result (λ e. e ≡ OutOfMemory) }
{
    match signals.insert(name, width) {
        Ok(_) => Ok(()),
        Err(_) => Err(UnitError::OutOfMemory),
    }
}

#[tactic(auto, using(crate::proofs::NewNames::put_new_key))]
fn put_name(names: &mut IndexSet<Name>, name: Name) -> Result<(), UnitError>
    requires { is_among name names.old.keys ≡ false }
    ensures added { OnOk result (names.new.keys ≡ names.old.keys ++ name ∷ []) }
    ensures memory { IfErr result (λ e. e ≡ OutOfMemory) }
{
    match names.insert(name) {
        Ok(_) => Ok(()),
        Err(_) => Err(UnitError::OutOfMemory),
    }
}

fn named(alloc: Global, text: &[u8], tokens: &[Token], token: u32) -> Result<Name, UnitError>
    ensures named { IfOk result (λ name. name ≡ bytes_at (source text.now tokens.now) token) }
    ensures memory { IfErr result (λ e. e ≡ OutOfMemory) }
{
    match Name::new(alloc, bytes_at(text, tokens, token)) {
        Ok(name) => Ok(name),
        Err(_) => Err(UnitError::OutOfMemory),
    }
}

impl Tables {
    ghost use Rattle.unit_rules.specs.inner.TablesView.{known_of};

    // A signal that has no number yet gets the next one.
    fn add_signal(&mut self, token: u32, name: Name, width: u32) -> Result<(), UnitError>
        ensures judged { Judges result (where_broken
            (not (has_meaning (known_of self.old) name) && nat_le signal_limit (length (known_of self.old).signals))
            (TooManySignals token)) }
        ensures added { OnOk result (known_of self.new ≡ with_signal (known_of self.old) name width) }
    {
        if self.has_meaning(&name) {
            return Ok(());
        }
        if self.signals.len() >= SIGNAL_LIMIT {
            return Err(UnitError::TooManySignals { token });
        }
        put_signal(&mut self.signals, name, width)
    }

    /// Visits a name that a `wire` declares.
    pub fn visit_declared(
        &mut self,
        alloc: Global,
        text: &[u8],
        tokens: &[Token],
        token: u32,
        range: Option<(u32, u32)>,
        width: u32,
    ) -> Result<(), UnitError>
        requires { width ≡ declared_width (source text.now tokens.now) range }
        ensures { VisitsSite (source text.now tokens.now) (known_of self.old) (declared token range) result
            (known_of self.new) }
    {
        let name = named(alloc, text, tokens, token)?;
        refuse(self.has_meaning(&name), UnitError::DuplicateName { token })?;
        self.add_signal(token, name, width)
    }

    /// Visits a signal's place in an expression.
    pub fn visit_used(
        &mut self,
        alloc: Global,
        text: &[u8],
        tokens: &[Token],
        token: u32,
        select: Option<(u32, Option<u32>)>,
    ) -> Result<(), UnitError>
        ensures { VisitsSite (source text.now tokens.now) (known_of self.old) (used token select) result
            (known_of self.new) }
    {
        let name = named(alloc, text, tokens, token)?;
        let width = self.width_of(&name);
        refuse(self.is_phrase(&name), UnitError::DuplicateName { token })?;
        self.add_signal(token, name, 1)?;
        judge_select(text, tokens, width, select)
    }

    /// Visits the name that a `sequence` or `property` item declares.
    pub fn visit_phrase(
        &mut self,
        alloc: Global,
        text: &[u8],
        tokens: &[Token],
        token: u32,
    ) -> Result<(), UnitError>
        ensures { VisitsSite (source text.now tokens.now) (known_of self.old) (phrase token) result
            (known_of self.new) }
    {
        let name = named(alloc, text, tokens, token)?;
        refuse(self.has_meaning(&name), UnitError::DuplicateName { token })?;
        put_name(&mut self.phrases, name)
    }

    /// Visits a label.
    pub fn visit_label(
        &mut self,
        alloc: Global,
        text: &[u8],
        tokens: &[Token],
        token: u32,
    ) -> Result<(), UnitError>
        ensures { VisitsSite (source text.now tokens.now) (known_of self.old) (label token) result (known_of self.new) }
    {
        let name = named(alloc, text, tokens, token)?;
        refuse(self.has_label(&name), UnitError::DuplicateName { token })?;
        put_name(&mut self.labels, name)
    }

    /// Visits the word `assert` of a directive.
    pub fn visit_directive(
        &mut self,
        text: &[u8],
        tokens: &[Token],
        word: u32,
    ) -> Result<(), UnitError>
        ensures { VisitsSite (source text.now tokens.now) (known_of self.old) (directive word) result
            (known_of self.new) }
    {
        let directives = self.directives;
        refuse(
            directives >= DIRECTIVE_LIMIT,
            UnitError::TooManyDirectives { token: word },
        )?;
        self.directives = directives + 1;
        Ok(())
    }
}
