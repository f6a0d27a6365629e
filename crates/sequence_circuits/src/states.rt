//! States of runs: which of them runs are in, cycle by cycle.

ghost use Rattle.std.specs.Prelude.{◌≡◌, ◌↔◌, ◌⊎◌, ◌+◌, ◌<◌, ◌≤◌, ◌++◌, ℕ, [], ◌∷◌, Some, IfOk, OnOk, All, IsTrue};
ghost use Rattle.std.specs.Prelude.{length, slice_get};
ghost use Rattle.circuit_core.specs.Netlist.{IsNet, IsNetOf};
ghost use Rattle.circuit_core.specs.Run.{On, InEachCycle};
ghost use Rattle.circuit_core.specs.Growth.{Extends, opened};
ghost use Rattle.sequence_circuits.specs.Guards.{numbers};
ghost use Rattle.sequence_circuits.specs.inner.Nets.{IsLive, AreStates, AreSet};

use circuit_core::{Net, Netlist, Reg};
use std::alloc::{AllocError, Global};

/// A state of runs: a register that is on where a run came to the state in the cycle before, the register's net, and
/// the net that is on where a run is in the state.
#[derive(Clone, Copy, Debug)]
pub(crate) struct State {
    pub(crate) register: Reg,
    pub(crate) held: Net,
    pub(crate) live: Net,
}

// On where one of two nets is, of which the second counts only if it is wanted.
pub(crate) fn or_if(
    net: &mut Netlist,
    others: Net,
    wanted: bool,
    more: Net,
) -> Result<Net, AllocError>
    requires others { IsNet net.old others.0 }
    requires more { IsNet net.old more.0 }
    ensures kept { Extends net.old net.new }
    ensures registers { net.new.registers ≡ net.old.registers }
    ensures net { IfOk result (λ k. IsNet net.new k.0) }
    ensures stream { IfOk result (λ k. InEachCycle net.new (λ run n.
        On (run k.0) n ↔ (On (run others.0) n ⊎ (IsTrue wanted × On (run more.0) n)))) }
{
    if wanted {
        let joined = net.or(others, more)?;
        Ok(joined)
    } else {
        Ok(others)
    }
}

// On where a state is held, or is the first one and is started, and nothing is cleared.
fn live_net(
    net: &mut Netlist,
    held: Net,
    is_first: bool,
    start: Net,
    uncleared: Net,
) -> Result<Net, AllocError>
    requires held { IsNet net.old held.0 }
    requires start { IsNet net.old start.0 }
    requires uncleared { IsNet net.old uncleared.0 }
    ensures kept { Extends net.old net.new }
    ensures registers { net.new.registers ≡ net.old.registers }
    ensures net { IfOk result (λ k. IsNet net.new k.0) }
    ensures stream { IfOk result (λ k. InEachCycle net.new (λ run n.
        IsLive (IsTrue is_first) (run held.0) (run start.0) (run uncleared.0) (run k.0) n)) }
{
    let begun = or_if(net, held, is_first, start)?;
    let live = net.and(begun, uncleared)?;
    Ok(live)
}

// One state more. Its register has no next yet.
fn make_state(
    net: &mut Netlist,
    is_first: bool,
    start: Net,
    uncleared: Net,
) -> Result<State, AllocError>
    requires start { IsNet net.old start.0 }
    requires uncleared { IsNet net.old uncleared.0 }
    ensures kept { Extends net.old net.new }
    ensures registers { OnOk result (net.new.registers ≡ net.old.registers ++ opened 1 0 ∷ []) }
    ensures number { IfOk result (λ h. h.register.0 ≡ length net.old.registers) }
    ensures register { IfOk result (λ h. slice_get net.new.registers h.register.0 ≡ Some (opened 1 0)) }
    ensures net_of { IfOk result (λ h. IsNetOf net.new h.register.0 h.held.0) }
    ensures net { IfOk result (λ h. IsNet net.new h.live.0) }
    ensures stream { IfOk result (λ h. InEachCycle net.new (λ run n.
        IsLive (IsTrue is_first) (run h.held.0) (run start.0) (run uncleared.0) (run h.live.0) n)) }
{
    let (register, held) = net.reg(1, 0)?;
    let live = live_net(net, held, is_first, start, uncleared)?;
    Ok(State {
        register,
        held,
        live,
    })
}

// So many states, of which the first is the one that starts come to. Their registers have no nexts yet.
pub(crate) fn make_states(
    alloc: Global,
    net: &mut Netlist,
    count: usize,
    start: Net,
    uncleared: Net,
) -> Result<Vec<State>, AllocError>
    requires start { IsNet net.old start.0 }
    requires uncleared { IsNet net.old uncleared.0 }
    ensures kept { Extends net.old net.new }
    ensures registers { OnOk result (length net.new.registers ≡ length net.old.registers + count) }
    ensures size { IfOk result (λ states. length states.items ≡ count) }
    ensures states { IfOk result (λ states.
        AreStates net.new (length net.old.registers) start.0 uncleared.0 states.items) }
{
    let mut states = Vec::new(alloc);
    for place in 0..count {
        let state = make_state(net, place == 0, start, uncleared)?;
        states.push(state)?;
    }
    Ok(states)
}

// Sets the next of each state's register to the net at the same place.
pub(crate) fn set_nexts(net: &mut Netlist, states: &[State], nexts: &[Net])
    requires states { (base : ℕ) × (start : ℕ) × (uncleared : ℕ) × AreStates net.old base start uncleared states.now }
    requires nexts { All (λ k. IsNet net.old k.0) nexts.now }
    requires size { length states.now ≤ length nexts.now }
    ensures { (base start uncleared : ℕ) → AreStates net.old base start uncleared states.now →
        AreSet net.old base (length states.now) (numbers nexts.now) net.new }
{
    for place in 0..states.len() {
        net.set_next(states[place].register, nexts[place]);
    }
}
