//! The numbers that digits write.

ghost use Rattle.std.specs.Prelude.{◌≡◌, ◌≤◌, ◌<◌, ◌^◌, length, MatchOption};
ghost use Rattle.vcd_replay.specs.Values.{AreKnown, bits_value};

/// The number that up to 64 digits write, if each is 0 or 1.
pub fn number(digits: &[u8]) -> Option<u128>
    requires short { length digits.now ≤ 64 }
    ensures cases { MatchOption result (¬ AreKnown digits.now)
        (λ value. AreKnown digits.now × (value ≡ bits_value digits.now)) }
{
    let mut value: u128 = 0;
    for digit in digits {
        if *digit != b'0' && *digit != b'1' {
            return None;
        }
        value = 2 * value + u128::from(*digit - b'0');
    }
    Some(value)
}
