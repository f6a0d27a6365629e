//! The nets that tell where the edges of a table lead.

ghost use Rattle.std.specs.Prelude.{◌≡◌, ◌↔◌, ◌⊎◌, ◌<◌, ◌++◌, ℕ, [], ◌∷◌, Some, true, false, IfOk, OnOk, All};
ghost use Rattle.std.specs.Prelude.{length, replicate, slice_get};
ghost use Rattle.indexmap.specs.IndexSet.{insert_key};
ghost use Rattle.auto_core.specs.Machine.{Letter, Passes};
ghost use Rattle.circuit_core.specs.Netlist.{IsNet};
ghost use Rattle.circuit_core.specs.Run.{On, InEachCycle};
ghost use Rattle.circuit_core.specs.Growth.{Extends};
ghost use Rattle.sequence_circuits.specs.Guards.{numbers, values_at};
ghost use Rattle.sequence_circuits.specs.Detection.{letter_at};
ghost use Rattle.sequence_circuits.specs.inner.Nets.{live_nets, stream_at};
ghost use Rattle.sequence_circuits.specs.inner.Edges.{way_of, same_way, IsWithin, Arrives, IsTaken, IsOneTaken};

use crate::states::State;
use auto_core::laws::a_union_has_the_literals_of_both;
use auto_core::{Edge, Label, Literal};
use circuit_core::{Net, Netlist};
use indexmap::IndexSet;
use std::alloc::{AllocError, Global};

/// What the edges have in common that lead to one state under one label.
#[derive(Debug, Drop, PartialEq, Eq, Hash)]
pub(crate) struct Way {
    label: Label,
    to: u32,
}

/// Ways, and for each of them a net that is on where a run is in a state that one of its edges leaves.
#[derive(Drop)]
pub(crate) struct Ways {
    ways: IndexSet<Way>,
    sources: Vec<Net>,
}

// On where the symbol of the literal has the literal's sign.
fn literal_net(net: &mut Netlist, guards: &[Net], literal: Literal) -> Result<Net, AllocError>
    requires guards { All (λ k. IsNet net.old k.0) guards.now }
    requires symbol { literal.symbol < length guards.now }
    ensures kept { Extends net.old net.new }
    ensures registers { net.new.registers ≡ net.old.registers }
    ensures net { IfOk result (λ k. IsNet net.new k.0) }
    ensures stream { IfOk result (λ k. InEachCycle net.new (λ run n.
        On (run k.0) n ↔ (values_at run (numbers guards.now) n literal.symbol ≡ literal.positive))) }
{
    let guard = guards[literal.symbol];
    if literal.positive {
        Ok(guard)
    } else {
        let negated = net.not(guard)?;
        Ok(negated)
    }
}

fn and_literal(
    net: &mut Netlist,
    guards: &[Net],
    literal: Literal,
    others: Net,
) -> Result<Net, AllocError>
    requires guards { All (λ k. IsNet net.old k.0) guards.now }
    requires symbol { literal.symbol < length guards.now }
    requires others { IsNet net.old others.0 }
    ensures kept { Extends net.old net.new }
    ensures registers { net.new.registers ≡ net.old.registers }
    ensures net { IfOk result (λ k. IsNet net.new k.0) }
    ensures stream { IfOk result (λ k. InEachCycle net.new (λ run n. On (run k.0) n ↔
        (On (run others.0) n × (values_at run (numbers guards.now) n literal.symbol ≡ literal.positive)))) }
{
    let here = literal_net(net, guards, literal)?;
    let both = net.and(others, here)?;
    Ok(both)
}

// On where `from` is and the label holds.
fn label_net(net: &mut Netlist, guards: &[Net], label: &Label, from: Net) -> Result<Net, AllocError>
    requires guards { All (λ k. IsNet net.old k.0) guards.now }
    requires symbols { All (λ l. l.symbol < length guards.now) label.now }
    requires from { IsNet net.old from.0 }
    ensures kept { Extends net.old net.new }
    ensures registers { net.new.registers ≡ net.old.registers }
    ensures net { IfOk result (λ k. IsNet net.new k.0) }
    ensures stream { IfOk result (λ k. InEachCycle net.new (λ run n. On (run k.0) n ↔
        (On (run from.0) n × Passes label.now (letter_at run (numbers guards.now) n)))) }
{
    let mut all = from;
    for literal in label.literals() {
        all = and_literal(net, guards, *literal, all)?;
    }
    Ok(all)
}

// The way that the edge takes.
fn make_way(alloc: Global, edge: &Edge) -> Result<Way, AllocError>
    ensures { IfOk result (λ way. way ≡ way_of edge.now) }
{
    a_union_has_the_literals_of_both();
    let _literals = edge.label.literals();
    let mut label = Label::new(alloc);
    label.put_all(&edge.label)?;
    Ok(Way { label, to: edge.to })
}

// The place of a way, and whether it is a new one.
fn place_for(ways: &mut IndexSet<Way>, way: Way) -> Result<(usize, bool), AllocError>
    ensures put { OnOk result (ways.new.keys ≡ insert_key same_way ways.old.keys way) }
    ensures new { IfOk result (λ r. r.1 ≡ true → ways.new.keys ≡ ways.old.keys ++ way ∷ []) }
    ensures known { IfOk result (λ r. r.1 ≡ false → ways.new.keys ≡ ways.old.keys
        × slice_get ways.old.keys r.0 ≡ Some way) }
    ensures within { IfOk result (λ r. r.1 ≡ false → r.0 < length ways.old.keys) }
{
    let (place, is_new) = ways.insert_full(way)?;
    Ok((place, is_new))
}

// Adds an edge of this way, which leaves a state whose net is `live`.
fn put_way(net: &mut Netlist, ways: &mut Ways, way: Way, live: Net) -> Result<(), AllocError>
    requires size { length ways.old.sources.items ≡ length ways.old.ways.keys }
    requires sources { All (λ k. IsNet net.old k.0) ways.old.sources.items }
    requires live { IsNet net.old live.0 }
    ensures kept { Extends net.old net.new }
    ensures registers { net.new.registers ≡ net.old.registers }
    ensures ways { OnOk result (ways.new.ways.keys ≡ insert_key same_way ways.old.ways.keys way) }
    ensures size { OnOk result (length ways.new.sources.items ≡ length ways.new.ways.keys) }
    ensures sources { OnOk result (All (λ k. IsNet net.new k.0) ways.new.sources.items) }
    ensures stream { OnOk result (InEachCycle net.new (λ run n. (a : Letter) (s : ℕ) →
        IsOneTaken (length ways.new.ways.keys) ways.new.ways.keys run (numbers ways.new.sources.items) a s n ↔
        (IsOneTaken (length ways.old.ways.keys) ways.old.ways.keys run (numbers ways.old.sources.items) a s n
        ⊎ IsTaken way (run live.0) a s n))) }
{
    let (place, is_new) = place_for(&mut ways.ways, way)?;
    if is_new {
        ways.sources.push(live)?;
        Ok(())
    } else {
        let joined = net.or(ways.sources[place], live)?;
        ways.sources[place] = joined;
        Ok(())
    }
}

fn no_ways(alloc: Global) -> Ways
    ensures ways { result.ways.keys ≡ [] }
    ensures sources { result.sources.items ≡ [] }
{
    Ways {
        ways: IndexSet::new(alloc),
        sources: Vec::new(alloc),
    }
}

// The ways that the edges take.
fn gather(
    alloc: Global,
    net: &mut Netlist,
    edges: &[Edge],
    states: &[State],
) -> Result<Ways, AllocError>
    requires states { All (λ h. IsNet net.old h.live.0) states.now }
    requires from { All (λ e. e.from < length states.now) edges.now }
    ensures kept { Extends net.old net.new }
    ensures registers { net.new.registers ≡ net.old.registers }
    ensures size { IfOk result (λ ways. length ways.sources.items ≡ length ways.ways.keys) }
    ensures sources { IfOk result (λ ways. All (λ k. IsNet net.new k.0) ways.sources.items) }
    ensures within { IfOk result (λ ways. (symbols targets : ℕ) →
        All (λ e. IsWithin symbols targets (way_of e)) edges.now → All (IsWithin symbols targets) ways.ways.keys) }
    ensures stream { IfOk result (λ ways. InEachCycle net.new (λ run n. (a : Letter) (s : ℕ) →
        IsOneTaken (length ways.ways.keys) ways.ways.keys run (numbers ways.sources.items) a s n ↔
        Arrives edges.now (stream_at run (live_nets states.now)) a s n)) }
{
    let mut ways = no_ways(alloc);
    for edge in edges {
        let way = make_way(alloc, edge)?;
        put_way(net, &mut ways, way, states[edge.from as usize].live)?;
    }
    Ok(ways)
}

// Adds the way to what arrives at its target.
fn take_way(
    net: &mut Netlist,
    way: &Way,
    source: Net,
    guards: &[Net],
    arrivals: &mut Vec<Net>,
) -> Result<(), AllocError>
    requires guards { All (λ k. IsNet net.old k.0) guards.now }
    requires source { IsNet net.old source.0 }
    requires arrivals { All (λ k. IsNet net.old k.0) arrivals.old.items }
    requires symbols { All (λ l. l.symbol < length guards.now) way.now.label }
    requires to { way.now.to < length arrivals.old.items }
    ensures kept { Extends net.old net.new }
    ensures registers { net.new.registers ≡ net.old.registers }
    ensures size { length arrivals.new.items ≡ length arrivals.old.items }
    ensures nets { OnOk result (All (λ k. IsNet net.new k.0) arrivals.new.items) }
    ensures stream { OnOk result (InEachCycle net.new (λ run n. (s : ℕ) →
        On (stream_at run (numbers arrivals.new.items) s) n ↔
        (On (stream_at run (numbers arrivals.old.items) s) n
        ⊎ IsTaken way.now (run source.0) (letter_at run (numbers guards.now) n) s n))) }
{
    let taken = label_net(net, guards, &way.label, source)?;
    let joined = net.or(arrivals[way.to as usize], taken)?;
    arrivals[way.to as usize] = joined;
    Ok(())
}

fn take_ways(
    net: &mut Netlist,
    ways: &[Way],
    sources: &[Net],
    guards: &[Net],
    arrivals: &mut Vec<Net>,
) -> Result<(), AllocError>
    requires guards { All (λ k. IsNet net.old k.0) guards.now }
    requires sources { All (λ k. IsNet net.old k.0) sources.now }
    requires each { length sources.now ≡ length ways.now }
    requires arrivals { All (λ k. IsNet net.old k.0) arrivals.old.items }
    requires within { All (IsWithin (length guards.now) (length arrivals.old.items)) ways.now }
    ensures kept { Extends net.old net.new }
    ensures registers { net.new.registers ≡ net.old.registers }
    ensures size { length arrivals.new.items ≡ length arrivals.old.items }
    ensures nets { OnOk result (All (λ k. IsNet net.new k.0) arrivals.new.items) }
    ensures stream { OnOk result (InEachCycle net.new (λ run n. (s : ℕ) →
        On (stream_at run (numbers arrivals.new.items) s) n ↔
        (On (stream_at run (numbers arrivals.old.items) s) n
        ⊎ IsOneTaken (length ways.now) ways.now run (numbers sources.now)
        (letter_at run (numbers guards.now) n) s n))) }
{
    for place in 0..ways.len() {
        take_way(net, &ways[place], sources[place], guards, arrivals)?;
    }
    Ok(())
}

// So many nets that are one.
pub(crate) fn repeated(alloc: Global, net: Net, count: usize) -> Result<Vec<Net>, AllocError>
    ensures { IfOk result (λ nets. nets.items ≡ replicate count net) }
{
    let mut nets = Vec::new(alloc);
    for _place in 0..count {
        nets.push(net)?;
    }
    Ok(nets)
}

// For each state what arrives there over the edges. Each label that leads to a state is one conjunction there.
pub(crate) fn arrival_nets(
    alloc: Global,
    net: &mut Netlist,
    edges: &[Edge],
    guards: &[Net],
    states: &[State],
) -> Result<Vec<Net>, AllocError>
    requires guards { All (λ k. IsNet net.old k.0) guards.now }
    requires symbols { All (λ e. All (λ l. l.symbol < length guards.now) e.label) edges.now }
    requires states { All (λ h. IsNet net.old h.live.0) states.now }
    requires between { All (λ e. e.from < length states.now × e.to < length states.now) edges.now }
    ensures kept { Extends net.old net.new }
    ensures registers { net.new.registers ≡ net.old.registers }
    ensures size { IfOk result (λ arrivals. length arrivals.items ≡ length states.now) }
    ensures nets { IfOk result (λ arrivals. All (λ k. IsNet net.new k.0) arrivals.items) }
    ensures stream { IfOk result (λ arrivals. InEachCycle net.new (λ run n. (s : ℕ) → s < length states.now →
        On (stream_at run (numbers arrivals.items) s) n ↔
        Arrives edges.now (stream_at run (live_nets states.now)) (letter_at run (numbers guards.now) n) s n)) }
{
    let gathered = gather(alloc, net, edges, states)?;
    let off = net.bit(false)?;
    let mut arrivals = repeated(alloc, off, states.len())?;
    take_ways(
        net,
        gathered.ways.as_slice(),
        gathered.sources.as_slice(),
        guards,
        &mut arrivals,
    )?;
    Ok(arrivals)
}
