//! Fixed words, runs of name bytes, and numbers.

ghost use Rattle.std.specs.Prelude.{◌≡◌, ◌≢◌, ◌≤◌, ◌<◌, ◌^◌, ℕ, length, decimal, option_copied, option_map, IfSome};
ghost use Rattle.std.specs.Prelude.{IfNone};
ghost use Rattle.std.specs.List.{prefix_len};
ghost use Rattle.psl_model.specs.Names.{begins_name, continues_name};
ghost use Rattle.verilog_reader.specs.inner.Answers.{Gives};
ghost use Rattle.verilog_reader.specs.inner.Pieces.{after_text, run_of, after_run, number_of, number_and_rest};
ghost use Rattle.verilog_reader.specs.inner.Pieces.{begins_with_digit};

use crate::errors::Stop;
use itoa::Buffer;

#[tactic(auto, unfolding(crate::specs::inner::Pieces::after_text))]
pub fn strip<'a>(bytes: &'a [u8], text: &[u8]) -> Option<&'a [u8]>
    ensures { option_copied result ≡ after_text text.now bytes.now }
{
    bytes.strip_prefix(text)
}

fn continues_name(byte: u8) -> bool
    ensures { result ≡ continues_name byte }
{
    byte.is_ascii_alphabetic() || byte == b'_' || byte.is_ascii_digit() || byte == b'$'
}

/// How many bytes of names stand at the front.
fn count_run(bytes: &[u8]) -> usize
    ensures value { result ≡ prefix_len continues_name bytes.now }
    ensures bound { result ≤ length bytes.now }
{
    let mut count = 0;
    for byte in bytes {
        if !continues_name(*byte) {
            return count;
        }
        count += 1;
    }
    count
}

/// The bytes of names at the front, and what follows them.
#[tactic(auto, unfolding(crate::specs::inner::Pieces::run_of, crate::specs::inner::Pieces::after_run))]
pub fn split_run(bytes: &[u8]) -> (&[u8], &[u8])
    ensures run { result.0.now ≡ run_of bytes.now }
    ensures rest { result.1.now ≡ after_run bytes.now }
{
    bytes.split_at(count_run(bytes))
}

pub fn begins_with_digit(bytes: &[u8]) -> bool
    ensures { result ≡ begins_with_digit bytes.now }
{
    match bytes.first() {
        Some(byte) => byte.is_ascii_digit(),
        None => false,
    }
}

/// The number below 2^64 that is written so.
fn parse_number(run: &[u8]) -> Option<u64>
    ensures found { IfSome result (λ n. (run.now ≡ decimal n) × (n < 2 ^ 64)) }
    ensures only { IfNone result ((n : ℕ) → n < 2 ^ 64 → run.now ≢ decimal n) }
{
    let Ok(text) = std::str::from_utf8(run) else {
        return None;
    };
    let Ok(number) = text.parse::<u64>() else {
        return None;
    };
    if Buffer::new().format(number).as_bytes() == run {
        Some(number)
    } else {
        None
    }
}

fn number_of(run: &[u8]) -> Option<u64>
    ensures { result ≡ number_of run.now }
{
    parse_number(run)
}

/// The number at the front, and what follows it.
#[tactic(auto, unfolding(crate::specs::inner::Pieces::number_and_rest))]
pub fn read_number(bytes: &[u8]) -> Result<(u64, &[u8]), Stop>
    ensures { Gives (λ read. (read.0, read.1.now)) result (number_and_rest bytes.now) }
{
    let (run, rest) = split_run(bytes);
    match number_of(run) {
        Some(number) => Ok((number, rest)),
        None => Err(Stop::Wrong { left: bytes.len() }),
    }
}

/// What follows a text that has to stand at the front.
pub fn expect<'a>(bytes: &'a [u8], text: &[u8]) -> Result<&'a [u8], Stop>
    ensures { Gives (λ rest. rest.now) result (after_text text.now bytes.now) }
{
    match strip(bytes, text) {
        Some(rest) => Ok(rest),
        None => Err(Stop::Wrong { left: bytes.len() }),
    }
}
