ghost use Rattle.std.specs.Prelude.{◌≡◌, ◌≢◌, ℕ, ◌≤◌};
ghost use Rattle.mbac_io.specs.Device.{Rose};
ghost use Rattle.mbac_io.specs.Faults.{next_count, faults_of, AreCountedApart};
ghost use Rattle.mbac_io.specs.inner.SlotCounts.{counts_of};

/// How many faults each slot has met: slots 0 and 1 have a count of their own, all others share one.
#[derive(Clone, Copy, Debug, PartialEq, Eq)]
pub(crate) struct SlotFaults {
    pub(crate) first: u64,
    pub(crate) second: u64,
    pub(crate) others: u64,
}

impl SlotFaults {
    pub(crate) const NONE: SlotFaults = SlotFaults {
        first: 0,
        second: 0,
        others: 0,
    };

    /// Counts one more fault of the slot.
    pub(crate) fn raise(&mut self, slot: u32)
        ensures next { faults_of (counts_of self.new) slot ≡ next_count (faults_of (counts_of self.old) slot) }
        ensures rose { Rose (faults_of (counts_of self.old) slot) (faults_of (counts_of self.new) slot) }
        ensures never_falls { (any : ℕ) → faults_of (counts_of self.old) any ≤ faults_of (counts_of self.new) any }
        ensures counted_apart { (other : ℕ) → AreCountedApart slot other →
            faults_of (counts_of self.new) other ≡ faults_of (counts_of self.old) other }
    {
        match slot {
            0 => self.first = self.first.saturating_add(1),
            1 => self.second = self.second.saturating_add(1),
            _ => self.others = self.others.saturating_add(1),
        }
    }
}
