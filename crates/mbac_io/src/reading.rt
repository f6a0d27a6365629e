ghost use Rattle.std.specs.Prelude.{◌≡◌, ◌≢◌, ℕ, ◌<◌, ◌≤◌, ◌⊎◌, length, vec_len, IfOk};
ghost use Rattle.mbac_io.specs.Device.{Rose, WhereTold, Keeps, TakesSome, TakesAll};
ghost use Rattle.mbac_io.specs.Faults.{AreCountedApart};

use crate::device::{Failed, Inputs};
use std::alloc::{AllocError, Global};

/// Why a slot could not be read whole.
#[derive(Clone, Copy, Debug, PartialEq, Eq)]
pub enum ReadError {
    /// A read failed.
    Failed,
    /// The slot has more bytes than the limit.
    TooLong,
    /// There is no memory for the bytes.
    OutOfMemory,
}

impl From<Failed> for ReadError {
    ghost use Rattle.mbac_io.specs.declared.reading.ReadError.{ReadError};

    ghost from_gives = { λ _ error. error ≡ ReadError.Failed };

    fn from(_failed: Failed) -> ReadError {
        ReadError::Failed
    }
}

impl From<AllocError> for ReadError {
    ghost use Rattle.mbac_io.specs.declared.reading.ReadError.{ReadError};

    ghost from_gives = { λ _ error. error ≡ ReadError.OutOfMemory };

    fn from(_failed: AllocError) -> ReadError {
        ReadError::OutOfMemory
    }
}

// How many bytes are asked for in one read.
const PIECE: usize = 4096;

/// Reads what the slot has left, at most `limit` bytes.
///
/// It stops with `TooLong` at the first read that passes the limit. After an error some bytes are
/// taken from the slot and lost.
pub fn read_all<I: Inputs>(
    alloc: Global,
    inputs: &mut I,
    slot: u32,
    limit: usize,
) -> Result<Vec<u8>, ReadError>
    requires { 0 < limit }
    ensures whole { IfOk result (λ bytes.
        TakesAll (I.left inputs.old slot) (I.left inputs.new slot) bytes.items) }
    ensures within { IfOk result (λ bytes. vec_len bytes ≤ limit) }

    // More bytes than the limit end in `TooLong`, unless a read fails or memory runs out before.
    ensures too_long_only { result ≡ Err ReadError.TooLong →
        WhereTold (I.left inputs.old slot) (I.left inputs.new slot) (λ bytes. limit < length bytes) }
    ensures too_long_where { WhereTold (I.left inputs.old slot) (I.left inputs.new slot) (λ bytes.
        limit < length bytes →
        (result ≡ Err ReadError.TooLong) ⊎ (result ≡ Err ReadError.Failed) ⊎ (result ≡ Err ReadError.OutOfMemory)) }
    ensures failed_rose { result ≡ Err ReadError.Failed → Rose (I.faults inputs.old slot) (I.faults inputs.new slot) }

    ensures front_taken { TakesSome (I.left inputs.old slot) (I.left inputs.new slot) }
    ensures others_kept { (other : ℕ) → other ≢ slot → Keeps (I.left inputs.old other) (I.left inputs.new other) }
    ensures never_falls { (any : ℕ) → I.faults inputs.old any ≤ I.faults inputs.new any }
    ensures counted_apart { (other : ℕ) → AreCountedApart slot other →
        I.faults inputs.new other ≡ I.faults inputs.old other }
{
    let mut bytes = Vec::new(alloc);
    let mut piece = [0; PIECE];
    loop {
        let count = inputs.read(slot, &mut piece)?;
        if count == 0 {
            return Ok(bytes);
        }
        if limit - bytes.len() < count {
            return Err(ReadError::TooLong);
        }
        bytes.extend_from_slice(&piece[..count])?;
    }
}
