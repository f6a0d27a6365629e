//! How many tokens of its item stand before a token.

ghost use Rattle.std.specs.Prelude.{◌≡◌, ◌+◌, ◌-◌, ◌^◌, ◌<◌, ◌≤◌, ◌↔◌, IsTrue, false};
ghost use Rattle.psl_grammar.specs.Symbols.{symbol_at};
ghost use Rattle.psl_parser.specs.Depth.{begins_item, braces_behind, behind, IsItemFull, is_wire};

use crate::marks::symbol_at;
use psl_grammar::Symbol;

/// How many tokens an item other than `wire` may have.
const ITEM_TOKENS: usize = 2048;

/// Whether an item begins behind a symbol.
fn begins_item(braces: usize, symbol: Symbol) -> bool
    ensures { result ≡ begins_item braces symbol }
{
    match symbol {
        Symbol::OpenBrace => braces == 0,
        Symbol::Semicolon => braces == 1,
        _ => false,
    }
}

fn braces_behind(braces: usize, symbol: Symbol) -> usize
    requires few { braces < 2 ^ 63 }
    ensures same { result ≡ braces_behind braces symbol }
    ensures few { result ≤ braces + 1 }
{
    match symbol {
        Symbol::OpenBrace => braces + 1,
        Symbol::CloseBrace => braces.saturating_sub(1),
        _ => braces,
    }
}

/// How many braces are open behind a symbol, and how many tokens of the item stand there.
pub fn behind(braces: usize, own: usize, symbol: Symbol) -> (usize, usize)
    requires few { braces < 2 ^ 63 }
    requires few_own { own < 2 ^ 63 }
    ensures same { result ≡ behind (braces, own) symbol }
    ensures few { result.0 ≤ braces + 1 }
    ensures few_own { result.1 ≤ own + 1 }
{
    let open = braces_behind(braces, symbol);
    if begins_item(braces, symbol) {
        return (open, 0);
    }
    (open, own + 1)
}

fn is_wire(symbol: Symbol) -> bool
    ensures { result ≡ is_wire symbol }
{
    matches!(symbol, Symbol::Wire)
}

/// Whether a token is one too many of its item, where so many braces are open before it and so many tokens of the item
/// stand there.
pub fn is_one_too_many(symbols: &[Symbol], braces: usize, own: usize, place: usize) -> bool
    ensures { IsTrue result ↔ (IsItemFull (braces, own) × (is_wire (symbol_at symbols.now (place - 2048)) ≡ false)) }
{
    if is_wire(symbol_at(symbols, place.saturating_sub(ITEM_TOKENS))) {
        return false;
    }
    braces > 0 && own == ITEM_TOKENS
}
