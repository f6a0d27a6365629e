//! A walk over sites, which keeps the first fault.

ghost use Rattle.std.specs.Prelude.{◌≡◌, ◌≢◌, MatchResult, OnOk, is_some};
ghost use Rattle.unit_rules.specs.declared.errors.UnitError.TheVariants.{OutOfMemory, ConstantArithmetic};
ghost use Rattle.unit_rules.specs.Source.{source};
ghost use Rattle.unit_rules.specs.Known.{nothing, declared_width};
ghost use Rattle.unit_rules.specs.Sites.{span, declared, used, phrase, label, directive, literal_at, counts};
ghost use Rattle.unit_rules.specs.inner.Judging.{going, stopped, visit, visit_rule};

use crate::errors::UnitError;
use crate::judging::{judge_counts, judge_literal, judge_span, refuse};
use crate::tables::Tables;
use psl_lexer::Token;
use std::alloc::{AllocError, Global};

/// What is known after some sites, and the first fault among them. After a fault nothing more is looked at.
#[derive(Drop)]
pub struct Walk {
    tables: Tables,
    fault: Option<UnitError>,
}

impl Walk {
    ghost use Rattle.unit_rules.specs.inner.WalkView.{state_of};
    ghost use Rattle.unit_rules.specs.inner.TablesView.{known_of};

    pub fn new(alloc: Global) -> Walk
        ensures { state_of result ≡ going nothing }
    {
        Walk {
            tables: Tables::new(alloc),
            fault: None,
        }
    }

    // Keeps a fault, and hands on want of memory.
    fn settle(&mut self, answer: Result<(), UnitError>) -> Result<(), AllocError>
        ensures settled { OnOk result (MatchResult answer (λ _. self.new ≡ self.old)
            (λ fault. (state_of self.new ≡ stopped fault) × (fault ≢ OutOfMemory))) }
    {
        match answer {
            Ok(()) => Ok(()),
            Err(UnitError::OutOfMemory) => Err(AllocError),
            Err(fault) => {
                self.fault = Some(fault);
                Ok(())
            }
        }
    }

    fn has_stopped(&self) -> bool
        ensures { result ≡ is_some self.now.fault }
    {
        self.fault.is_some()
    }

    /// Visits the range of a `wire`.
    pub fn span(
        &mut self,
        text: &[u8],
        tokens: &[Token],
        high: u32,
        low: u32,
    ) -> Result<(), AllocError>
        ensures { OnOk result (state_of self.new
            ≡ visit (source text.now tokens.now) (state_of self.old) (span high low)) }
    {
        if self.has_stopped() {
            return Ok(());
        }
        let answer = judge_span(text, tokens, high, low);
        self.settle(answer)
    }

    /// Visits a signal's place in an expression.
    pub fn used(
        &mut self,
        alloc: Global,
        text: &[u8],
        tokens: &[Token],
        token: u32,
        select: Option<(u32, Option<u32>)>,
    ) -> Result<(), AllocError>
        ensures { OnOk result (state_of self.new
            ≡ visit (source text.now tokens.now) (state_of self.old) (used token select)) }
    {
        if self.has_stopped() {
            return Ok(());
        }
        let answer = self.tables.visit_used(alloc, text, tokens, token, select);
        self.settle(answer)
    }

    /// Visits a name that a `wire` of this range and width declares.
    pub fn declared(
        &mut self,
        alloc: Global,
        text: &[u8],
        tokens: &[Token],
        token: u32,
        range: Option<(u32, u32)>,
        width: u32,
    ) -> Result<(), AllocError>
        requires { width ≡ declared_width (source text.now tokens.now) range }
        ensures { OnOk result (state_of self.new
            ≡ visit (source text.now tokens.now) (state_of self.old) (declared token range)) }
    {
        if self.has_stopped() {
            return Ok(());
        }
        let answer = self
            .tables
            .visit_declared(alloc, text, tokens, token, range, width);
        self.settle(answer)
    }

    /// Visits the name that a `sequence` or `property` item declares.
    pub fn phrase(
        &mut self,
        alloc: Global,
        text: &[u8],
        tokens: &[Token],
        token: u32,
    ) -> Result<(), AllocError>
        ensures { OnOk result (state_of self.new
            ≡ visit (source text.now tokens.now) (state_of self.old) (phrase token)) }
    {
        if self.has_stopped() {
            return Ok(());
        }
        let answer = self.tables.visit_phrase(alloc, text, tokens, token);
        self.settle(answer)
    }

    /// Visits a label.
    pub fn label(
        &mut self,
        alloc: Global,
        text: &[u8],
        tokens: &[Token],
        token: u32,
    ) -> Result<(), AllocError>
        ensures { OnOk result (state_of self.new ≡ visit (source text.now tokens.now) (state_of self.old)
            (label token)) }
    {
        if self.has_stopped() {
            return Ok(());
        }
        let answer = self.tables.visit_label(alloc, text, tokens, token);
        self.settle(answer)
    }

    /// Visits the word `assert` of a directive.
    pub fn directive(&mut self, text: &[u8], tokens: &[Token], word: u32) -> Result<(), AllocError>
        ensures { OnOk result (state_of self.new
            ≡ visit (source text.now tokens.now) (state_of self.old) (directive word)) }
    {
        if self.has_stopped() {
            return Ok(());
        }
        let answer = self.tables.visit_directive(text, tokens, word);
        self.settle(answer)
    }

    /// Visits a literal.
    pub fn literal(&mut self, text: &[u8], tokens: &[Token], token: u32) -> Result<(), AllocError>
        ensures { OnOk result (state_of self.new
            ≡ visit (source text.now tokens.now) (state_of self.old) (literal_at token)) }
    {
        if self.has_stopped() {
            return Ok(());
        }
        let answer = judge_literal(text, tokens, token);
        self.settle(answer)
    }

    /// Visits an operator, which is refused or not.
    pub fn operator(&mut self, mark: u32, broken: bool) -> Result<(), AllocError>
        ensures { OnOk result (state_of self.new ≡ visit_rule (state_of self.old) broken (ConstantArithmetic mark)) }
    {
        if self.has_stopped() {
            return Ok(());
        }
        let answer = refuse(broken, UnitError::ConstantArithmetic { token: mark });
        self.settle(answer)
    }

    /// Visits the counts after a mark or a word.
    pub fn counts(
        &mut self,
        text: &[u8],
        tokens: &[Token],
        mark: u32,
        low: u32,
        high: Option<u32>,
    ) -> Result<(), AllocError>
        ensures { OnOk result (state_of self.new
            ≡ visit (source text.now tokens.now) (state_of self.old) (counts mark low high)) }
    {
        if self.has_stopped() {
            return Ok(());
        }
        let answer = judge_counts(text, tokens, mark, low, high);
        self.settle(answer)
    }

    /// The tables after a walk without a fault, or its first fault.
    pub fn finish(self) -> Result<Tables, UnitError>
        ensures { MatchResult result (λ tables. state_of self ≡ going (known_of tables))
            (λ fault. state_of self ≡ stopped fault) }
    {
        let Walk { tables, fault } = self;
        match fault {
            Some(fault) => Err(fault),
            None => Ok(tables),
        }
    }
}
