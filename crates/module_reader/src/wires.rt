//! The line of the inner wires.
ghost use Rattle.std.specs.Prelude.{◌≡◌, ◌≤◌, IfOk, length, map};
ghost use Rattle.std.specs.Option.{option_map};
ghost use Rattle.module_reader.specs.Lists.{arc_mark, arc_marks_from, arc_marks};
ghost use Rattle.module_reader.specs.Lists as lists;
ghost use Rattle.module_reader.specs.Modules.{wires_in};
ghost use Rattle.module_reader.specs.Modules as modules;
ghost use Rattle.module_reader.specs.Values.{declared_value};

use crate::lists::items_of;
use crate::ports::Ports;
use crate::printed::conditions_text;
use cpog_base::{Memory, Names};
use line_rows::behind;
use std::alloc::Global;

/// How many gates are declared, and for each two operations whether an arc wire is.
#[derive(Drop)]
pub struct Declared {
    pub gates: u32,
    pub arcs: Vec<Vec<bool>>,
}

/// A comma or a semicolon comes next.
fn ends_item(text: &[u8]) -> bool
    ensures { result ≡ lists.ends_item text.now }
{
    match text {
        [] => false,
        [first, ..] => *first == b',' || *first == b';',
    }
}

/// Whether the arc wire stands at the front, and what is behind it.
fn arc_of(alloc: Global, text: &[u8], u: u8, v: u8) -> Result<(bool, &[u8]), Memory>
    ensures { IfOk result (λ x. (x.0, x.1.now) ≡ arc_mark u v text.now) }
{
    if u == v {
        return Ok((false, text));
    }
    let item = format!(in alloc; ", e{u}_{v}")?;
    let Some(rest) = behind(text, item.as_bytes()) else {
        return Ok((false, text));
    };
    if ends_item(rest) {
        Ok((true, rest))
    } else {
        Ok((false, text))
    }
}

/// The arc wires from one operation that stand at the front, and what is behind them.
fn arcs_from(alloc: Global, text: &[u8], count: u8, u: u8) -> Result<(Vec<bool>, &[u8]), Memory>
    ensures { IfOk result (λ x. (x.0.items, x.1.now) ≡ arc_marks_from count u text.now) }
{
    let mut marks = Vec::new(alloc);
    let mut rest = text;
    for v in 0..count {
        let (mark, more) = arc_of(alloc, rest, u, v)?;
        marks.push(mark)?;
        rest = more;
    }
    Ok((marks, rest))
}

/// The arc wires that stand at the front, and what is behind them.
fn arcs_of(alloc: Global, text: &[u8], count: u8) -> Result<(Vec<Vec<bool>>, &[u8]), Memory>
    ensures { IfOk result (λ x. (map (λ row. row.items) x.0.items, x.1.now) ≡ arc_marks count text.now) }
{
    let mut rows = Vec::new(alloc);
    let mut rest = text;
    for u in 0..count {
        let (row, more) = arcs_from(alloc, rest, count, u)?;
        rows.push(row)?;
        rest = more;
    }
    Ok((rows, rest))
}

/// How many gates there may be: none with one input.
fn gate_room(inputs: u8) -> u32
    ensures { result ≡ modules.gate_room inputs }
{
    if inputs == 1 { 0 } else { 262_143 }
}

/// What was declared, where the line ends here and declares a wire.
fn wires_from(gates: u32, count: u8, arcs: Vec<Vec<bool>>, rest: &[u8]) -> Option<Declared>
    ensures { option_map declared_value result ≡ modules.wires_from gates count (map (λ row. row.items) arcs.items, rest.now) }
{
    if gates == 0 && count == 0 {
        return None;
    }
    if rest != b";".as_slice() {
        return None;
    }
    Some(Declared { gates, arcs })
}

/// What is declared, where so many gates were read.
fn wires_behind(
    alloc: Global,
    names: &Names,
    gates: u32,
    rest: &[u8],
) -> Result<Option<Declared>, Memory>
    requires { length names.now ≤ 128 }
    ensures { IfOk result (λ o. option_map declared_value o ≡ modules.wires_behind names.now (gates, rest.now)) }
{
    let text = conditions_text(alloc, gates == 0, names)?;
    let Some(rest) = behind(rest, text.as_bytes()) else {
        return Ok(None);
    };
    let count = names.len() as u8;
    let (arcs, rest) = arcs_of(alloc, rest, count)?;
    Ok(wires_from(gates, count, arcs, rest))
}

/// What the line declares.
#[tactic(auto, unfolding(crate::specs::Modules::wires_in))]
pub(crate) fn wires_of(
    alloc: Global,
    line: &[u8],
    ports: &Ports,
) -> Result<Option<Declared>, Memory>
    requires { length ports.now.names ≤ 128 }
    ensures { IfOk result (λ o. option_map declared_value o ≡ wires_in ports.now.inputs ports.now.names line.now) }
{
    let Some(rest) = behind(line, b"  wire ") else {
        return Ok(None);
    };
    let (gates, rest) = items_of(alloc, "g", gate_room(ports.inputs), rest)?;
    wires_behind(alloc, &ports.names, gates, rest)
}
