ghost use Rattle.std.specs.Prelude.{◌≡◌, ◌≢◌, ℕ, ◌<◌, ◌≤◌, ◌↔◌, ◌++◌, [], length, take, drop, min, IfOk};
ghost use Rattle.std.specs.Prelude.{OnOk, OnErr, IsErr, Contains};
ghost use Rattle.mbac_io.specs.Device.{Rose};
ghost use Rattle.mbac_io.specs.Faults.{next_count, faults_of, AreCountedApart};
ghost use Rattle.mbac_io.specs.MemoryDevices.{contents, file_at, left_of};

use crate::device::{Failed, Inputs};
use crate::slot_faults::SlotFaults;
use std::marker::Model;

/// Inputs in memory, for tests: they give so many bytes in a call, and fail at chosen calls.
#[derive(Drop)]
pub struct MemoryInputs {
    files: Vec<Vec<u8>>,
    most: usize,
    fail_at: Vec<u64>,
    call: u64,
    faults: SlotFaults,
}

impl Model for MemoryInputs {
    ghost use Rattle.std.specs.Prelude.{◌<◌};
    ghost use Rattle.mbac_io.specs.MemoryDevices.{FilesInMemory, contents};
    ghost use Rattle.mbac_io.specs.inner.SlotCounts.{counts_of};

    ghost Value = { FilesInMemory };

    ghost view = { λ inputs. record {
      files = contents inputs.files.items;
      most = inputs.most;
      fail_at = inputs.fail_at.items;
      call = inputs.call;
      faults = counts_of inputs.faults;
    } };

    ghost invariant = { λ inputs. 0 < inputs.most };
}

impl MemoryInputs {
    /// Inputs whose slot k reads file k, at most `most` bytes in a call. The calls are numbered from 0
    /// over all slots, and those fail whose number stands in `fail_at`; the number of the last call of
    /// a `u64` stays that of all later ones.
    pub fn new(files: Vec<Vec<u8>>, most: usize, fail_at: Vec<u64>) -> MemoryInputs
        requires { 0 < most }
        ensures files { result.files ≡ contents files.items }
        ensures most { result.most ≡ most }
        ensures fail_at { result.fail_at ≡ fail_at.items }
        ensures first_call { result.call ≡ 0 }
        ensures no_faults { (slot : ℕ) → faults_of result.faults slot ≡ 0 }
    {
        MemoryInputs {
            files,
            most,
            fail_at,
            call: 0,
            faults: SlotFaults::NONE,
        }
    }
}

impl Inputs for MemoryInputs {
    ghost use Rattle.std.specs.Prelude.{Some};
    ghost use Rattle.mbac_io.specs.Faults.{faults_of};
    ghost use Rattle.mbac_io.specs.MemoryDevices.{left_of};

    ghost left = { λ inputs slot. Some (left_of inputs slot) };

    ghost faults = { λ inputs slot. faults_of inputs.faults slot };

    fn read(&mut self, slot: u32, buffer: &mut [u8]) -> Result<usize, Failed>
        requires { 0 < length buffer.old }

        // What all inputs promise.
        ensures within { IfOk result (λ count. count ≤ length buffer.new) }
        ensures taken { IfOk result (λ count. left_of self.old slot ≡ take count buffer.new ++ left_of self.new slot) }
        ensures end { result ≡ Ok 0 → left_of self.new slot ≡ [] }
        ensures failed_takes_nothing { OnErr result (left_of self.new slot ≡ left_of self.old slot) }
        ensures failed_rose { OnErr result (Rose (faults_of self.old.faults slot) (faults_of self.new.faults slot)) }
        ensures others_kept { (other : ℕ) → other ≢ slot → left_of self.new other ≡ left_of self.old other }
        ensures never_falls { (any : ℕ) → faults_of self.old.faults any ≤ faults_of self.new.faults any }
        ensures counted_apart { (other : ℕ) → AreCountedApart slot other →
            faults_of self.new.faults other ≡ faults_of self.old.faults other }

        // What these inputs promise besides.
        ensures fails_exactly { IsErr result ↔ Contains self.old.fail_at self.old.call }
        ensures count { IfOk result (λ count.
            count ≡ min (length buffer.old) (min self.old.most (length (left_of self.old slot)))) }
        ensures next_call { self.new.call ≡ next_count self.old.call }
        ensures same_most { self.new.most ≡ self.old.most }
        ensures same_fail_at { self.new.fail_at ≡ self.old.fail_at }
        ensures counted { OnErr result (faults_of self.new.faults slot ≡ next_count (faults_of self.old.faults slot)) }
        ensures not_counted { OnOk result (self.new.faults ≡ self.old.faults) }
    {
        let call = self.call;
        self.call = call.saturating_add(1);
        if self.fail_at.contains(&call) {
            self.faults.raise(slot);
            return Err(Failed);
        }
        Ok(read_file(&mut self.files, slot, buffer, self.most))
    }
}

/// Moves bytes from the front of the slot's file to the front of the buffer, as many as `most` and
/// both allow: none where there is no such file.
fn read_file(files: &mut Vec<Vec<u8>>, slot: u32, buffer: &mut [u8], most: usize) -> usize
    ensures count { result ≡ min (length buffer.old) (min most (length (file_at (contents files.old.items) slot))) }
    ensures within { result ≤ length buffer.new }
    ensures taken { file_at (contents files.old.items) slot ≡
        take result buffer.new ++ file_at (contents files.new.items) slot }
    ensures others { (other : ℕ) → other ≢ slot →
        file_at (contents files.new.items) other ≡ file_at (contents files.old.items) other }
{
    let Some(file) = files.get_mut(slot as usize) else {
        return 0;
    };
    take_front(file, buffer, most)
}

/// Moves bytes from the front of the file to the front of the buffer, as many as `most` and both allow.
fn take_front(file: &mut Vec<u8>, buffer: &mut [u8], most: usize) -> usize
    ensures count { result ≡ min (length buffer.old) (min most (length file.old.items)) }
    ensures within { result ≤ length buffer.new }
    ensures taken { take result buffer.new ≡ take result file.old.items }
    ensures rest { file.new.items ≡ drop result file.old.items }
{
    let count = buffer.len().min(most).min(file.len());
    buffer[..count].copy_from_slice(&file[..count]);
    file.rotate_left(count);
    file.truncate(file.len() - count);
    count
}
