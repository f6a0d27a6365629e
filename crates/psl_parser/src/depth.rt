//! The first token that is too deep.

ghost use Rattle.std.specs.Prelude.{◌≡◌, ◌++◌, ◌∷◌, [], ◌+◌, ◌^◌, ◌<◌, ◌≤◌, ◌↔◌, ◌||◌, IsTrue};
ghost use Rattle.std.specs.Prelude.{IfOk, IfSome, IfNone, length, true};
ghost use Rattle.psl_parser.specs.OpenPhrases.{open_phrases};
ghost use Rattle.psl_parser.specs.Depth.{IsOneTooMany, IsTooDeep};
ghost use Rattle.psl_parser.specs.inner.Walk.{IsAt, IsFirstOf, sight, go_on, phrases_at, begun, form_by};
ghost use Rattle.psl_parser.specs.inner.Walk.{closes_event_in};

use crate::forms::{behind_from, ends_form, opens_event, reach_from};
use crate::items::{behind, is_one_too_many};
use crate::marks::{is_open_brace, symbol_at};
use crate::phrases::{Phrase, closes_event, go_on, put, sight_at};
use psl_grammar::Symbol;
use std::alloc::{AllocError, Global};

/// In how many open phrases a token may stand.
const OPEN_PHRASES: usize = 64;

/// What is carried along up to a token.
#[derive(Drop)]
pub struct Walk {
    pub phrases: Vec<Phrase>,
    /// Of each token before, whether it is the `)` of a `next_event` form.
    pub closers: Vec<bool>,
    /// Whether the token stands behind an operand.
    pub behind: bool,
    /// Whether there is a `{` before it.
    pub braced: bool,
    /// How many braces are open.
    pub braces: usize,
    /// How many tokens of the item stand before it.
    pub own: usize,
}

/// A token that is too deep.
#[derive(Clone, Copy, Debug)]
pub struct Deep {
    pub token: u32,
    /// Whether it is one too many of its item.
    pub item: bool,
}

fn start(alloc: Global, symbols: &[Symbol]) -> Walk
    ensures { IsAt symbols.now 0 result }
{
    Walk {
        phrases: Vec::new(alloc),
        closers: Vec::new(alloc),
        behind: false,
        braced: false,
        braces: 0,
        own: 0,
    }
}

fn put_answer(answers: Vec<bool>, answer: bool) -> Result<Vec<bool>, AllocError>
    ensures { IfOk result (λ all. all.items ≡ answers.items ++ answer ∷ []) }
{
    let mut all = answers;
    match all.push(answer) {
        Ok(()) => Ok(all),
        Err(_) => Err(AllocError),
    }
}

/// The phrases that are open before a token and behind it.
#[tactic(auto, using(crate::proofs::Walking::went_on, crate::proofs::Walking::open_is, crate::proofs::Walking::walk_small))]
fn still_open(
    alloc: Global,
    symbols: &[Symbol],
    walk: &Walk,
    place: usize,
) -> Result<Vec<Phrase>, AllocError>
    requires few { place < 1048576 }
    requires at { IsAt symbols.now place walk.now }
    ensures kept { IfOk result (λ kept. kept.items ≡ go_on (sight symbols.now place) (phrases_at symbols.now place)) }
    ensures open { IfOk result (λ kept. length kept.items ≡ open_phrases symbols.now place) }
{
    let sight = sight_at(symbols, walk.behind, place);
    go_on(alloc, &walk.phrases, sight)
}

/// The phrase that a token opens, put behind others.
fn with_begun(kept: Vec<Phrase>, event: bool, reach: Option<u32>) -> Result<Vec<Phrase>, AllocError>
    ensures { IfOk result (λ all. all.items ≡ kept.items ++ begun event reach) }
{
    match reach {
        None => Ok(kept),
        Some(reach) => put(
            kept,
            Phrase {
                reach,
                event,
                opened: 0,
                closed: 0,
                questions: 0,
                colons: 0,
            },
        ),
    }
}

/// Whether a token is the `)` of a `next_event` form.
fn closer_at(walk: &Walk, symbol: Symbol) -> bool
    ensures { result ≡ closes_event_in walk.now.phrases.items symbol }
{
    closes_event(&walk.phrases, symbol)
}

/// Notes whether a token is the `)` of a `next_event` form, and tells whether it ends a `next` form.
fn noted(
    symbols: &[Symbol],
    closers: Vec<bool>,
    closer: bool,
    place: usize,
) -> Result<(Vec<bool>, bool), AllocError>
    requires few { place < 2 ^ 31 }
    ensures closers { IfOk result (λ read. read.0.items ≡ closers.items ++ closer ∷ []) }
    ensures form { IfOk result (λ read. read.1 ≡ form_by symbols.now read.0.items place) }
{
    match put_answer(closers, closer) {
        Err(error) => Err(error),
        Ok(all) => {
            let form = ends_form(symbols, &all, place);
            Ok((all, form))
        }
    }
}

fn either(one: bool, other: bool) -> bool
    ensures { result ≡ (one || other) }
{
    one || other
}

/// What is carried on behind a token, where these phrases are still open.
fn moved(
    symbols: &[Symbol],
    walk: Walk,
    kept: Vec<Phrase>,
    place: usize,
) -> Result<Walk, AllocError>
    requires few { place < 1048576 }
    requires within { place < length symbols.now }
    requires at { IsAt symbols.now place walk }
    requires kept { kept.items ≡ go_on (sight symbols.now place) (phrases_at symbols.now place) }
    ensures { IfOk result (IsAt symbols.now (place + 1)) }
{
    let symbol = symbol_at(symbols, place);
    let closer = closer_at(&walk, symbol);
    let was_behind = walk.behind;
    let was_braced = walk.braced;
    let item = behind(walk.braces, walk.own, symbol);
    let (closers, form) = noted(symbols, walk.closers, closer, place)?;
    let reach = reach_from(symbol, was_braced, was_behind, form);
    let event = opens_event(symbols, place);
    let phrases = with_begun(kept, event, reach)?;
    let brace = is_open_brace(symbol);
    let braced = either(was_braced, brace);
    let stands_behind = behind_from(symbol, was_behind, form);
    Ok(Walk {
        phrases,
        closers,
        behind: stands_behind,
        braced,
        braces: item.0,
        own: item.1,
    })
}

/// Whether a token is one too many of its item.
fn is_over(symbols: &[Symbol], walk: &Walk, place: usize) -> bool
    requires at { IsAt symbols.now place walk.now }
    ensures { IsTrue result ↔ IsOneTooMany symbols.now place }
{
    is_one_too_many(symbols, walk.braces, walk.own, place)
}

/// Why a token is too deep that stands in so many open phrases, none where it isn't.
fn depth_at(symbols: &[Symbol], walk: &Walk, phrases: usize, place: usize) -> Option<Deep>
    requires few { place < 1048576 }
    requires within { place < length symbols.now }
    requires at { IsAt symbols.now place walk.now }
    requires phrases { phrases ≡ open_phrases symbols.now place }
    ensures none { IfNone result (¬ IsTooDeep symbols.now place) }
    ensures deep { IfSome result (λ deep. IsTooDeep symbols.now place) }
    ensures token { IfSome result (λ deep. deep.token ≡ place) }
    ensures item { IfSome result (λ deep. deep.item ≡ true → IsOneTooMany symbols.now place) }
{
    let item = is_over(symbols, walk, place);
    if item || phrases > OPEN_PHRASES {
        return Some(Deep {
            token: place as u32,
            item,
        });
    }
    None
}

/// The first token that is too deep, none where there is none.
#[tactic(auto, using(crate::proofs::Walking::one_more))]
pub fn first_deep(alloc: Global, symbols: &[Symbol]) -> Result<Option<Deep>, AllocError>
    requires few { length symbols.now ≤ 1048576 }
    ensures { IfOk result (IsFirstOf symbols.now) }
{
    let mut walk = start(alloc, symbols);
    let count = symbols.len();
    'tokens: for place in 0..count {
        match still_open(alloc, symbols, &walk, place) {
            Err(error) => return Err(error),
            Ok(kept) => {
                let deep = depth_at(symbols, &walk, kept.len(), place);
                if deep.is_some() {
                    return Ok(deep);
                }
                match moved(symbols, walk, kept, place) {
                    Err(error) => return Err(error),
                    Ok(next) => {
                        walk = next;
                    }
                }
            }
        }
    }
    Ok(None)
}
