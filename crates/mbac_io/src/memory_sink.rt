ghost use Rattle.std.specs.Prelude.{◌≡◌, ◌≢◌, ℕ, ◌-◌, ◌<◌, ◌≤◌, ◌↔◌, ◌⊎◌, ◌++◌, [], length, take, min, IfOk};
ghost use Rattle.std.specs.Prelude.{OnOk, OnErr, IsErr, IsOk, Contains};
ghost use Rattle.mbac_io.specs.Device.{Rose};
ghost use Rattle.mbac_io.specs.Faults.{next_count};

use crate::device::{Failed, Sink};
use std::alloc::{AllocError, Global};
use std::marker::Model;

/// A sink in memory, for tests: it takes so many bytes in a call, has room for so many, and fails at
/// chosen calls. It takes its memory when it is made.
#[derive(Drop)]
pub struct MemorySink {
    taken: Vec<u8>,
    room: usize,
    most: usize,
    fail_at: Vec<u64>,
    call: u64,
    faults: u64,
}

impl Model for MemorySink {
    ghost use Rattle.std.specs.Prelude.{◌<◌, ◌≤◌, vec_len, vec_capacity};
    ghost use Rattle.mbac_io.specs.MemoryDevices.{BytesInMemory};

    ghost Value = { BytesInMemory };

    ghost view = { λ sink. record {
      taken = sink.taken.items;
      room = sink.room;
      most = sink.most;
      fail_at = sink.fail_at.items;
      call = sink.call;
      faults = sink.faults;
    } };

    ghost invariant = { λ s. (0 < s.most) × (vec_len s.taken ≤ s.room) × (s.room ≤ vec_capacity s.taken) };
}

impl MemorySink {
    /// An empty sink with room for `room` bytes, which takes at most `most` in a call. The calls are
    /// numbered from 0, and those fail whose number stands in `fail_at`; the number of the last call
    /// of a `u64` stays that of all later ones.
    pub fn new(
        alloc: Global,
        room: usize,
        most: usize,
        fail_at: Vec<u64>,
    ) -> Result<MemorySink, AllocError>
        requires { 0 < most }
        ensures empty { IfOk result (λ sink. sink.taken ≡ []) }
        ensures room { IfOk result (λ sink. sink.room ≡ room) }
        ensures most { IfOk result (λ sink. sink.most ≡ most) }
        ensures fail_at { IfOk result (λ sink. sink.fail_at ≡ fail_at.items) }
        ensures first_call { IfOk result (λ sink. sink.call ≡ 0) }
        ensures no_faults { IfOk result (λ sink. sink.faults ≡ 0) }
    {
        Ok(MemorySink {
            taken: Vec::with_capacity(alloc, room)?,
            room,
            most,
            fail_at,
            call: 0,
            faults: 0,
        })
    }

    /// The bytes taken so far.
    pub fn taken(&self) -> &[u8]
        ensures bytes { result.now ≡ self.now.taken }
        ensures within_room { length result.now ≤ self.now.room }
    {
        &self.taken
    }
}

impl Sink for MemorySink {
    ghost use Rattle.std.specs.Prelude.{Some};

    ghost taken = { λ sink. Some sink.taken };

    ghost faults = { λ sink. sink.faults };

    fn write(&mut self, bytes: &[u8]) -> Result<usize, Failed>
        requires { 0 < length bytes.now }

        // What all sinks promise.
        ensures at_least_one { IfOk result (λ count. 0 < count) }
        ensures within { IfOk result (λ count. count ≤ length bytes.now) }
        ensures appended { IfOk result (λ count. self.new.taken ≡ self.old.taken ++ take count bytes.now) }
        ensures failed_takes_nothing { OnErr result (self.new.taken ≡ self.old.taken) }
        ensures failed_rose { OnErr result (Rose self.old.faults self.new.faults) }
        ensures never_falls { self.old.faults ≤ self.new.faults }

        // What this sink promises besides.
        ensures fails_exactly { IsErr result ↔
            (Contains self.old.fail_at self.old.call ⊎ (length self.old.taken ≡ self.old.room)) }
        ensures count { IfOk result (λ count.
            count ≡ min (length bytes.now) (min self.old.most (self.old.room - length self.old.taken))) }
        ensures next_call { self.new.call ≡ next_count self.old.call }
        ensures same_room { self.new.room ≡ self.old.room }
        ensures same_most { self.new.most ≡ self.old.most }
        ensures same_fail_at { self.new.fail_at ≡ self.old.fail_at }
        ensures counted { OnErr result (self.new.faults ≡ next_count self.old.faults) }
        ensures not_counted { OnOk result (self.new.faults ≡ self.old.faults) }
    {
        let call = self.call;
        self.call = call.saturating_add(1);
        let room = self.room - self.taken.len();
        if room == 0 || self.fail_at.contains(&call) {
            self.faults = self.faults.saturating_add(1);
            return Err(Failed);
        }
        let count = bytes.len().min(self.most).min(room);
        match self.taken.extend_from_slice(&bytes[..count]) {
            Ok(()) => Ok(count),
            Err(AllocError) => unreachable!("the memory was taken when the sink was made"),
        }
    }
}
