//! An open phrase, and how it goes on behind one more token.

ghost use Rattle.std.specs.Prelude.{◌≡◌, ◌++◌, ◌∷◌, [], ◌≤◌, ◌<◌, ◌^◌, All, IfOk, count_by, nat_lt};
ghost use Rattle.psl_parser.specs.inner.Walk.{one, is_bare_phrase, is_beyond_phrase, ends_phrase, passed, keep, go_on};
ghost use Rattle.psl_parser.specs.inner.Walk.{is_event_phrase, closes_event_in, sight_by, IsSmall};

use crate::marks::{
    closes_bracket, is_close_parenthesis, is_colon, is_question, looseness, opens_bracket,
    symbol_at,
};
use psl_grammar::Symbol;
use std::alloc::{AllocError, Global};

/// A phrase that is open, and what was counted behind the token that opened it.
#[derive(Clone, Copy, Debug)]
pub struct Phrase {
    /// How loosely tokens may be joined in it.
    pub reach: u32,
    /// Whether it stands in the parentheses of a `next_event` form.
    pub event: bool,
    pub opened: u32,
    pub closed: u32,
    /// Those in no brackets that were opened in the phrase.
    pub questions: u32,
    pub colons: u32,
}

/// What a token is to the phrases that are open before it.
#[derive(Clone, Copy, Debug)]
pub struct Sight {
    pub symbol: Symbol,
    /// Whether it stands behind an operand.
    pub behind: bool,
    pub looseness: u32,
}

pub fn sight_at(symbols: &[Symbol], behind: bool, place: usize) -> Sight
    requires few { place < 2 ^ 32 }
    ensures { result ≡ sight_by symbols.now behind place }
{
    Sight {
        symbol: symbol_at(symbols, place),
        behind,
        looseness: looseness(symbols, place),
    }
}

fn one(counts: bool) -> u32
    ensures same { result ≡ one counts }
    ensures few { result ≤ 1 }
{
    if counts {
        return 1;
    }
    0
}

fn is_bare(phrase: Phrase) -> bool
    ensures { result ≡ is_bare_phrase phrase }
{
    phrase.opened == phrase.closed
}

fn is_beyond(phrase: Phrase, sight: Sight) -> bool
    ensures { result ≡ is_beyond_phrase sight phrase }
{
    if phrase.reach == 10 && is_colon(sight.symbol) {
        return phrase.questions < phrase.colons;
    }
    phrase.reach < sight.looseness
}

fn ends(phrase: Phrase, sight: Sight) -> bool
    ensures { result ≡ ends_phrase sight phrase }
{
    if !is_bare(phrase) {
        return false;
    }
    closes_bracket(sight.symbol) || (sight.behind && is_beyond(phrase, sight))
}

/// A phrase that a token doesn't end, behind it.
fn passed(phrase: Phrase, sight: Sight) -> Phrase
    requires small { IsSmall phrase }
    ensures { result ≡ passed sight phrase }
{
    let bare = is_bare(phrase);
    Phrase {
        reach: phrase.reach,
        event: phrase.event,
        opened: phrase.opened + one(opens_bracket(sight.symbol)),
        closed: phrase.closed + one(closes_bracket(sight.symbol)),
        questions: phrase.questions + one(bare && is_question(sight.symbol)),
        colons: phrase.colons + one(bare && is_colon(sight.symbol)),
    }
}

pub fn put(phrases: Vec<Phrase>, phrase: Phrase) -> Result<Vec<Phrase>, AllocError>
    ensures { IfOk result (λ all. all.items ≡ phrases.items ++ phrase ∷ []) }
{
    let mut all = phrases;
    match all.push(phrase) {
        Ok(()) => Ok(all),
        Err(_) => Err(AllocError),
    }
}

fn keep(kept: Vec<Phrase>, phrase: Phrase, sight: Sight) -> Result<Vec<Phrase>, AllocError>
    requires small { IsSmall phrase }
    ensures { IfOk result (λ all. all.items ≡ keep sight kept.items phrase) }
{
    if ends(phrase, sight) {
        return Ok(kept);
    }
    put(kept, passed(phrase, sight))
}

/// The phrases that a token doesn't end.
pub fn go_on(alloc: Global, phrases: &[Phrase], sight: Sight) -> Result<Vec<Phrase>, AllocError>
    requires small { All IsSmall phrases.now }
    ensures { IfOk result (λ kept. kept.items ≡ go_on sight phrases.now) }
{
    let mut kept = Vec::new(alloc);
    'phrases: for phrase in phrases {
        match keep(kept, *phrase, sight) {
            Ok(more) => {
                kept = more;
            }
            Err(error) => return Err(error),
        }
    }
    Ok(kept)
}

fn is_event_phrase(phrase: Phrase) -> bool
    ensures { result ≡ is_event_phrase phrase }
{
    phrase.event && is_bare(phrase)
}

fn event_phrases(phrases: &[Phrase]) -> usize
    ensures { result ≡ count_by is_event_phrase phrases.now }
{
    phrases
        .iter()
        .filter(|phrase| is_event_phrase(**phrase))
        .count()
}

/// Whether a token closes the parentheses of a `next_event` form.
pub fn closes_event(phrases: &[Phrase], symbol: Symbol) -> bool
    ensures { result ≡ closes_event_in phrases.now symbol }
{
    is_close_parenthesis(symbol) && event_phrases(phrases) > 0
}
