//! What the checker module of a directive is called, tells people and watches.

ghost use Rattle.std.specs.Prelude.{◌≡◌, ◌++◌, [], codes, slice_get, IfOk, OnOk};
ghost use Rattle.std.specs.List.{filter_map, cons_option};
ghost use Rattle.verilog_text.specs.Interface.{port_widths};
ghost use Rattle.checker_meaning.specs.Headline.{call_name, shown_report};

use itoa::Buffer;
use psl_model::{Name, Signal};
use std::alloc::{AllocError, Global};

/// The name of the checker of the directive with this number. A label stands in place of the number.
pub(crate) fn module_name(
    alloc: Global,
    unit: &Name,
    number: usize,
    label: &Option<Name>,
) -> Result<Name, AllocError>
    ensures { IfOk result (λ name.
        name ≡ codes "mbac_" ++ unit.now ++ codes "_" ++ call_name number label.now) }
{
    let mut bytes = Vec::from_slice(alloc, b"mbac_")?;
    bytes.extend_from_slice(unit.bytes())?;
    bytes.extend_from_slice(b"_")?;
    match label {
        Some(label) => bytes.extend_from_slice(label.bytes())?,
        None => bytes.extend_from_slice(Buffer::new().format(number).as_bytes())?,
    }
    Name::new(alloc, &bytes)
}

/// The report text that a checker shows. It shows no empty one.
pub(crate) fn shown_report(alloc: Global, report: &Option<Name>) -> Result<Option<Name>, AllocError>
    ensures { IfOk result (λ shown. shown ≡ shown_report report.now) }
{
    match report {
        Some(text) if !text.bytes().is_empty() => Ok(Some(text.copy(alloc)?)),
        _ => Ok(None),
    }
}

/// The signals at these places. A place past the last signal gives none.
#[tactic(auto, using(crate::proofs::Ports::one_more, crate::proofs::Ports::all_taken))]
pub(crate) fn ports_at(
    alloc: Global,
    signals: &[Signal],
    places: &[usize],
) -> Result<Vec<Signal>, AllocError>
    ensures { IfOk result (λ ports. ports.items ≡ filter_map (slice_get signals.now) places.now) }
{
    let mut ports = Vec::new(alloc);
    for place in places {
        put_port(alloc, signals, *place, &mut ports)?;
    }
    Ok(ports)
}

fn put_port(
    alloc: Global,
    signals: &[Signal],
    place: usize,
    ports: &mut Vec<Signal>,
) -> Result<(), AllocError>
    ensures { OnOk result
        (ports.new.items ≡ ports.old.items ++ cons_option (slice_get signals.now place) []) }
{
    match signals.get(place) {
        Some(signal) => {
            let port = copy_of(alloc, signal)?;
            ports.push(port)?;
            Ok(())
        }
        None => Ok(()),
    }
}

fn copy_of(alloc: Global, signal: &Signal) -> Result<Signal, AllocError>
    ensures { IfOk result (λ copy. copy ≡ signal.now) }
{
    let name = signal.name.copy(alloc)?;
    let width = signal.width;
    Ok(Signal { name, width })
}

pub(crate) fn widths_of(alloc: Global, ports: &[Signal]) -> Result<Vec<u32>, AllocError>
    ensures { IfOk result (λ widths. widths.items ≡ port_widths ports.now) }
{
    ports.iter().map(|port| port.width).collect(alloc)
}
