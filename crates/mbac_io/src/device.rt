ghost use Rattle.std.specs.Prelude.{◌≡◌, ◌≢◌, ℕ, ◌<◌, ◌≤◌, List, length, take, IfOk, OnErr, Option};
ghost use Rattle.mbac_io.specs.Device.{Rose, Keeps, Takes, IsAtEnd, Appends};
ghost use Rattle.mbac_io.specs.Faults.{AreCountedApart};

/// A device could not do what it was asked.
#[derive(Clone, Copy, Debug, PartialEq, Eq)]
pub struct Failed;

/// Inputs that are read in numbered slots, each from its front to its end.
///
/// A slot that stands for no input has nothing left.
pub trait Inputs {
    /// The bytes that a slot has left, where the object tells them.
    ghost left: { Self → ℕ → Option (List ℕ) };

    /// How many faults a slot has met. A count that would pass the end of its type, a `u64`, stands
    /// still there. Slots 0 and 1 each have a count of their own.
    ghost faults: { Self → ℕ → ℕ };

    /// Takes the slot's next bytes into the front of the buffer, and says how many: 0 says that
    /// nothing is left. What stands behind them in the buffer is unspecified, and so is the whole
    /// buffer after an error.
    fn read(&mut self, slot: u32, buffer: &mut [u8]) -> Result<usize, Failed>
        requires { 0 < length buffer.old }
        ensures within { IfOk result (λ count. count ≤ length buffer.new) }
        ensures taken { IfOk result (λ count.
            Takes (left self.old slot) (left self.new slot) (take count buffer.new)) }
        ensures end { result ≡ Ok 0 → IsAtEnd (left self.new slot) }
        ensures failed_takes_nothing { OnErr result (Keeps (left self.old slot) (left self.new slot)) }
        ensures failed_rose { OnErr result (Rose (faults self.old slot) (faults self.new slot)) }
        ensures others_kept { (other : ℕ) → other ≢ slot → Keeps (left self.old other) (left self.new other) }
        ensures never_falls { (any : ℕ) → faults self.old any ≤ faults self.new any }
        ensures counted_apart { (other : ℕ) → AreCountedApart slot other →
            faults self.new other ≡ faults self.old other };
}

/// A sink that takes bytes one after another.
pub trait Sink {
    /// The bytes taken so far, where the object tells them.
    ghost taken: { Self → Option (List ℕ) };

    /// How many faults the sink has met. A count that would pass the end of its type, a `u64`, stands
    /// still there.
    ghost faults: { Self → ℕ };

    /// Takes bytes from the front of those given, at least one, and says how many.
    fn write(&mut self, bytes: &[u8]) -> Result<usize, Failed>
        requires { 0 < length bytes.now }
        ensures at_least_one { IfOk result (λ count. 0 < count) }
        ensures within { IfOk result (λ count. count ≤ length bytes.now) }
        ensures appended { IfOk result (λ count. Appends (taken self.old) (taken self.new) (take count bytes.now)) }
        ensures failed_takes_nothing { OnErr result (Keeps (taken self.old) (taken self.new)) }
        ensures failed_rose { OnErr result (Rose (faults self.old) (faults self.new)) }
        ensures never_falls { faults self.old ≤ faults self.new };
}
