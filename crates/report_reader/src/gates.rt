//! The gates of a report and the conditions over them, up to the bound.
ghost use Rattle.std.specs.Prelude.{◌≡◌, true, ◌<◌, ◌≤◌, ◌+◌, ◌^◌, length, IfSome, IfOk};
ghost use Rattle.netlist_verilog.specs.Module.{AreNames};
ghost use Rattle.netlist_verilog.specs.Wires.{name_of};
ghost use Rattle.line_rows.specs.Reading.{Gives, row};
ghost use Rattle.report_reader.specs.Operations.{is_from};
ghost use Rattle.report_reader.specs.Gates.{gate_from, gate_in, gate_list_at, op_in, ops_at, entry_from, entry_in, is_zero, is_arc, bound_from, bound_in, arcs_at};

use crate::codes::word_of;
use crate::operations::{Least, may_come, operation_of};
use crate::references::{condition_of, signal_of};
use cpog_base::Names;
use cpog_defs::types::{Gate, Ref};
use gate_core::GateList;
use line_rows::{Cursor, ReadError, behind, number_of, word_at};
use report_text::Bound;
use std::alloc::Global;

/// The condition of an arc on its line.
#[derive(Clone, Copy, Debug)]
pub struct ArcLine {
    pub first: u8,
    pub second: u8,
    pub condition: Ref,
}

/// Gate g on its line.
#[tactic(auto, unfolding(crate::specs::Gates::gate_in))]
fn gate_of(line: &[u8], inputs: u8, g: u32) -> Option<Gate>
    requires { inputs + g < 2 ^ 31 }
    ensures { result ≡ gate_in inputs g line.now }
{
    let rest = behind(line, b"g")?;
    let (word, rest) = word_at(rest)?;
    let number = number_of(word, u64::from(g) + 1)?;
    let (word, rest) = word_at(rest)?;
    let j = signal_of(word, inputs, g)?;
    let (word, rest) = word_at(rest)?;
    let k = signal_of(word, inputs, g)?;
    let table = word_of(rest, 4)?;
    if number == u64::from(g) && j < k {
        Some(Gate { j, k, table })
    } else {
        None
    }
}

fn gate_row(cursor: &mut Cursor<'_>, inputs: u8, g: u32) -> Result<Gate, ReadError>
    requires { inputs + g < 2 ^ 31 }
    ensures { Gives (λ gate. (gate, cursor.new)) result (row (gate_in inputs g) cursor.old) }
{
    let line = cursor.line()?;
    let Some(gate) = gate_of(line, inputs, g) else {
        return Err(cursor.bad());
    };
    Ok(gate)
}

/// The condition on the line of an operation with this name.
#[tactic(auto, unfolding(crate::specs::Gates::op_in))]
fn op_of(line: &[u8], inputs: u8, gates: u32, name: &[u8]) -> Option<Ref>
    requires { inputs + gates < 2 ^ 32 }
    ensures { result ≡ op_in inputs gates name.now line.now }
{
    let rest = behind(line, b"op ")?;
    let rest = behind(rest, name)?;
    let word = behind(rest, b" ")?;
    condition_of(word, inputs, gates)
}

/// What is known of the least number of gates, on its line.
#[tactic(auto, unfolding(crate::specs::Gates::bound_in))]
pub fn bound_of(line: &[u8]) -> Option<Bound>
    ensures { result ≡ bound_in line.now }
{
    if let Some(word) = behind(line, b"minimum ") {
        let count = number_of(word, 65536)?;
        return Some(Bound::Minimum(count as u32));
    }
    let words = behind(line, b"between ")?;
    let (first, second) = word_at(words)?;
    let lo = number_of(first, 65536)?;
    let hi = number_of(second, 65536)?;
    Some(Bound::Between(lo as u32, hi as u32))
}

/// Whether the line is one of an arc.
fn is_arc(line: &[u8]) -> bool
    ensures { result ≡ is_arc line.now }
{
    behind(line, b"arc ").is_some()
}

fn is_zero(condition: Ref) -> bool
    ensures { result ≡ is_zero condition }
{
    matches!(condition, Ref::Const(false))
}

/// The gates of a report, a line for each.
pub fn gates_of(
    alloc: Global,
    cursor: &mut Cursor<'_>,
    inputs: u8,
    count: u32,
) -> Result<GateList, ReadError>
    requires some { 1 ≤ inputs }
    requires few { inputs ≤ 8 }
    requires small { count < 2 ^ 30 }
    ensures { Gives (λ list. (list, cursor.new)) result (gate_list_at inputs count cursor.old) }
{
    let mut gates = GateList::new(alloc, inputs);
    for index in 0..count {
        let gate = gate_row(cursor, inputs, index)?;
        let Ok(_) = gates.push(gate) else {
            return Err(ReadError::Memory);
        };
    }
    Ok(gates)
}

fn op_row(
    cursor: &mut Cursor<'_>,
    inputs: u8,
    gates: u32,
    names: &Names,
    v: u32,
) -> Result<Ref, ReadError>
    requires small { gates < 2 ^ 30 }
    requires named { v < length names.now }
    ensures { Gives (λ r. (r, cursor.new)) result (row (op_in inputs gates (name_of names.now v)) cursor.old) }
{
    let line = cursor.line()?;
    let Some(condition) = op_of(line, inputs, gates, names.get(v).as_bytes()) else {
        return Err(cursor.bad());
    };
    Ok(condition)
}

/// The conditions of the operations, a line for each.
pub fn ops_of(
    alloc: Global,
    cursor: &mut Cursor<'_>,
    inputs: u8,
    gates: u32,
    names: &Names,
) -> Result<Vec<Ref>, ReadError>
    requires { gates < 2 ^ 30 }
    ensures { Gives (λ refs. (refs.items, cursor.new)) result (ops_at inputs gates names.now cursor.old) }
{
    let mut conditions = Vec::new(alloc);
    let count = names.len();
    for index in 0..count {
        let condition = op_row(cursor, inputs, gates, names, index)?;
        conditions.push(condition)?;
    }
    Ok(conditions)
}

/// The condition of an arc on its line, from the least pair on that may come.
#[tactic(auto, unfolding(crate::specs::Gates::entry_in))]
fn entry_of(line: &[u8], inputs: u8, gates: u32, names: &Names, least: Least) -> Option<ArcLine>
    requires known { AreNames names.now }
    requires few { length names.now ≤ 64 }
    requires small { inputs + gates < 2 ^ 32 }
    ensures value { result ≡ entry_in inputs gates names.now (record { first = least.first; second = least.second }) line.now }
    ensures below { IfSome result (λ e. e.second < 64) }
{
    let rest = behind(line, b"arc ")?;
    let (word, rest) = word_at(rest)?;
    let u = operation_of(names, word)?;
    let (word, rest) = word_at(rest)?;
    let v = operation_of(names, word)?;
    let condition = condition_of(rest, inputs, gates)?;
    entry_from(least, u as u8, v as u8, condition)
}

fn entry_from(least: Least, first: u8, second: u8, condition: Ref) -> Option<ArcLine>
    ensures value { result ≡ entry_from (record { first = least.first; second = least.second }) (first, (second, condition)) }
    ensures second { IfSome result (λ e. e.second ≡ second) }
{
    if may_come(least, first, second) && first != second && !is_zero(condition) {
        Some(ArcLine {
            first,
            second,
            condition,
        })
    } else {
        None
    }
}

/// The conditions of arcs that aren't 0, and the bound behind them.
pub fn arcs_of(
    alloc: Global,
    cursor: &mut Cursor<'_>,
    inputs: u8,
    gates: u32,
    names: &Names,
) -> Result<(Vec<ArcLine>, Bound), ReadError>
    requires known { AreNames names.now }
    requires few { length names.now ≤ 64 }
    requires small { inputs + gates < 2 ^ 32 }
    ensures { Gives (λ x. ((x.0.items, x.1), cursor.new)) result (arcs_at inputs gates names.now cursor.old) }
{
    let mut arcs = Vec::new(alloc);
    let mut least = Least {
        first: 0,
        second: 0,
    };
    'lines: loop {
        let line = match cursor.line() {
            Ok(line) => line,
            Err(fault) => return Err(fault),
        };
        if !is_arc(line) {
            let Some(bound) = bound_of(line) else {
                return Err(cursor.bad());
            };
            return Ok((arcs, bound));
        }
        let Some(arc) = entry_of(line, inputs, gates, names, least) else {
            return Err(cursor.bad());
        };
        least = Least {
            first: arc.first,
            second: arc.second + 1,
        };
        let Ok(()) = arcs.push(arc) else {
            return Err(ReadError::Memory);
        };
    }
}
