//! Operators and their spelling, which come from the one table.

ghost use Rattle.std.specs.Prelude.{◌≡◌, option_map};
ghost use Rattle.psl_model.specs.Operators.{unary_operators, binary_operators};
ghost use Rattle.verilog_text.specs.Text.{unary_symbol, infix_text};
ghost use Rattle.verilog_reader.specs.inner.Answers.{Gives};
ghost use Rattle.verilog_reader.specs.inner.Pieces.{first_of, prefix_at, infix_at};

use crate::bytes::strip;
use crate::errors::Stop;
use psl_model::{BinOp, UnOp};

macro_rules! prefix_list {
    (() $([$variant:ident $spelling:literal $hands_on:literal $value:tt])*) => {
        [$(UnOp::$variant),*]
    };
}

macro_rules! infix_list {
    (() $([$variant:ident $spelling:literal $level:literal $taken:ident $wants:literal $value:tt])*) => {
        [$(BinOp::$variant),*]
    };
}

macro_rules! infix_of {
    (($op:ident) $([$variant:ident $spelling:literal $level:literal $taken:ident $wants:literal $value:tt])*) => {
        match $op {
            $(BinOp::$variant => concat!(" ", $spelling, " "),)*
        }
    };
}

/// The prefix operator at the front, and what follows it.
#[tactic(auto, unfolding(crate::specs::inner::Pieces::prefix_at))]
pub fn read_prefix(bytes: &[u8]) -> Option<(UnOp, &[u8])>
    ensures { option_map (λ read. (read.0, read.1.now)) result ≡ prefix_at bytes.now }
{
    let operators = psl_model::unary_operators!(prefix_list!(), width, x);
    first_prefix(&operators, bytes)
}

fn first_prefix<'a>(operators: &[UnOp], bytes: &'a [u8]) -> Option<(UnOp, &'a [u8])>
    ensures { option_map (λ read. (read.0, read.1.now)) result ≡ first_of unary_symbol operators.now bytes.now }
{
    for op in operators {
        if let Some(rest) = strip(bytes, prefix(*op)) {
            return Some((*op, rest));
        }
    }
    None
}

/// The binary operator at the front, with a blank on each side, and what follows it.
#[tactic(auto, unfolding(crate::specs::inner::Pieces::infix_at))]
pub fn read_infix(bytes: &[u8]) -> Result<(BinOp, &[u8]), Stop>
    ensures { Gives (λ read. (read.0, read.1.now)) result (infix_at bytes.now) }
{
    let operators = psl_model::binary_operators!(infix_list!(), context, x, y);
    match first_infix(&operators, bytes) {
        Some(read) => Ok(read),
        None => Err(Stop::Wrong { left: bytes.len() }),
    }
}

fn first_infix<'a>(operators: &[BinOp], bytes: &'a [u8]) -> Option<(BinOp, &'a [u8])>
    ensures { option_map (λ read. (read.0, read.1.now)) result ≡ first_of infix_text operators.now bytes.now }
{
    for op in operators {
        if let Some(rest) = strip(bytes, infix(*op)) {
            return Some((*op, rest));
        }
    }
    None
}

fn prefix(op: UnOp) -> &'static [u8]
    ensures { result.now ≡ unary_symbol op }
{
    op.row().spelling.as_bytes()
}

#[tactic(auto, unfolding(verilog_text::specs::Text::infix_text))]
fn spaced(op: BinOp) -> &'static str
    ensures { result.now ≡ infix_text op }
{
    psl_model::binary_operators!(infix_of!(op), context, x, y)
}

fn infix(op: BinOp) -> &'static [u8]
    ensures { result.now ≡ infix_text op }
{
    spaced(op).as_bytes()
}
