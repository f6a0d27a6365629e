//! How many registers the circuit of a base formula may have.

ghost use Rattle.std.specs.Prelude.{◌≡◌, ◌≤◌, ◌+◌, ◌^◌, min};
ghost use Rattle.psl_rewrite.specs.View.{base_of};
ghost use Rattle.formula_limits.specs.Registers.{registers_of};
ghost use Rattle.sequence_cores.specs.Places.{told};

use psl_rewrite::Base;
use sequence_cores::places;

/// Stands for all counts from here on.
const COUNT_LIMIT: u64 = 0x8000_0000_0000_0000;

/// The sum as it is told: 2^63 stands for all from there on.
pub fn told_sum(left: u64, right: u64) -> u64
    requires left { left ≤ 2 ^ 63 }
    requires right { right ≤ 2 ^ 63 }
    ensures { result ≡ told (left + right) }
{
    left.saturating_add(right).min(COUNT_LIMIT)
}

/// How many bits the registers of a base formula's circuit may have, but for the one of the directive, as they are told.
/// Nothing is counted for a sequence that stands as a formula. It takes no memory, and recurs as deep as the formula is
/// high.
pub fn count_registers(base: &Base) -> u64
    ensures { result ≡ told (registers_of (base_of base.now)) }
{
    match base {
        Base::And(left, right) => {
            told_sum(count_registers(left.get()), count_registers(right.get()))
        }
        Base::OrBool(_, body) | Base::Implies(_, body) | Base::Abort(body, _) => {
            count_registers(body.get())
        }
        Base::Suffix(sere, body) => told_sum(places(sere), count_registers(body.get())),
        Base::Always(body) | Base::Until { body, .. } => {
            told_sum(1, count_registers(body.get()))
        }
        Base::Next { count, body, .. } => {
            told_sum(u64::from(*count), count_registers(body.get()))
        }
        Base::NextAll { high, body, .. } | Base::Event { high, body, .. } => {
            told_sum(u64::from(*high), count_registers(body.get()))
        }
        Base::NextSome { high, .. } => u64::from(*high) + 1,
        Base::EventSome { high, .. } => u64::from(*high),
        Base::Eventually(sere) => told_sum(places(sere), 1),
        Base::Bool(_) | Base::Seq { .. } => 0,
    }
}
