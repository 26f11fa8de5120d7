//! The rows of gates, conditions and arc wires.
ghost use Rattle.std.specs.Prelude.{◌≡◌, ◌≤◌, ◌<◌, ◌+◌, ◌^◌, ◌++◌, ℕ, false, [], length, map, codes, slice_index_or, string_bytes, IfOk};
ghost use Rattle.std.specs.Fmt.{decimal};
ghost use Rattle.cpog_base.specs.declared.limits.TheConstants.{BIT_LIMIT};
ghost use Rattle.netlist_verilog.specs.Wires.{name_of};
ghost use Rattle.line_rows.specs.Reading.{Gives, row, many_of};
ghost use Rattle.line_rows.specs.Words.{behind_of, before_of};
ghost use Rattle.module_reader.specs.Reading.{reference_in, condition_in};
ghost use Rattle.module_reader.specs.Gates.{gate_in};
ghost use Rattle.module_reader.specs.Rows.{gates_at, conditions_at, arc_in, arc_at, arcs_at};
ghost use Rattle.module_reader.specs.Modules.{is_declared};

use crate::gate::gate_of;
use crate::words::{condition_of, reference_of};
use cpog_base::{Memory, Names};
use gate_core::{Gate, GateList, Ref};
use line_rows::{Cursor, ReadError, before, behind};
use std::alloc::Global;

fn gate_row(cursor: &mut Cursor<'_>, inputs: u8, g: u32) -> Result<Gate, ReadError>
    requires { inputs + g < 2 ^ 31 }
    ensures read { Gives (λ gate. (gate, cursor.new)) result (row (gate_in inputs g) cursor.old) }
    ensures below { IfOk result (λ gate. (gate.j < gate.k) × (gate.k < inputs + g) × (gate.table < 16)) }
{
    let line = cursor.line()?;
    let Some(gate) = gate_of(line, inputs, g) else {
        return Err(cursor.bad());
    };
    Ok(gate)
}

/// The gates of a module, a line for each.
pub(crate) fn gates_rows(
    alloc: Global,
    cursor: &mut Cursor<'_>,
    inputs: u8,
    count: u32,
) -> Result<GateList, ReadError>
    requires some { 1 ≤ inputs }
    requires few { inputs ≤ BIT_LIMIT }
    requires small { count < 2 ^ 30 }
    ensures read { Gives (λ list. (list.gates, cursor.new)) result (gates_at inputs count cursor.old) }
    ensures inputs { IfOk result (λ list. list.inputs ≡ inputs) }
{
    let mut gates = GateList::new(alloc, inputs);
    for index in 0..count {
        let gate = gate_row(cursor, inputs, index)?;
        let Ok(_number) = gates.push(gate) else {
            return Err(ReadError::Memory);
        };
    }
    Ok(gates)
}

fn condition_row(
    cursor: &mut Cursor<'_>,
    inputs: u8,
    gates: u32,
    names: &Names,
    v: u32,
) -> Result<Ref, ReadError>
    requires small { gates < 2 ^ 30 }
    requires named { v < length names.now }
    ensures { Gives (λ r. (r, cursor.new)) result (row (condition_in inputs gates (name_of names.now v)) cursor.old) }
{
    let line = cursor.line()?;
    let Some(condition) = condition_of(line, inputs, gates, names.get(v).as_bytes()) else {
        return Err(cursor.bad());
    };
    Ok(condition)
}

/// The conditions of a module's operations, a line for each.
pub(crate) fn conditions_rows(
    alloc: Global,
    cursor: &mut Cursor<'_>,
    inputs: u8,
    gates: u32,
    names: &Names,
) -> Result<Vec<Ref>, ReadError>
    requires { gates < 2 ^ 30 }
    ensures { Gives (λ refs. (refs.items, cursor.new)) result (conditions_at inputs gates names.now cursor.old) }
{
    let mut conditions = Vec::new(alloc);
    let count = names.len();
    for index in 0..count {
        let condition = condition_row(cursor, inputs, gates, names, index)?;
        conditions.push(condition)?;
    }
    Ok(conditions)
}

/// The name of an arc wire.
fn arc_name(alloc: Global, u: u8, v: u8) -> Result<String, Memory>
    ensures { IfOk result (λ text. string_bytes text ≡ codes "e" ++ (decimal u ++ (codes "_" ++ decimal v))) }
{
    Ok(format!(in alloc; "e{u}_{v}")?)
}

/// The condition on the line of this wire.
fn wire_condition(line: &[u8], inputs: u8, gates: u32, wire: &[u8]) -> Option<Ref>
    requires { inputs + gates < 2 ^ 32 }
    ensures { result ≡ behind_of (codes "  assign ") (behind_of wire.now (behind_of (codes " = ") (before_of (codes ";") (reference_in inputs gates)))) line.now }
{
    let rest = behind(line, b"  assign ")?;
    let rest = behind(rest, wire)?;
    let rest = behind(rest, b" = ")?;
    let word = before(rest, b";")?;
    reference_of(word, inputs, gates)
}

#[tactic(auto, unfolding(crate::specs::Rows::arc_in))]
fn arc_condition(
    alloc: Global,
    cursor: &mut Cursor<'_>,
    inputs: u8,
    gates: u32,
    u: u8,
    v: u8,
) -> Result<Ref, ReadError>
    requires { gates < 2 ^ 30 }
    ensures { Gives (λ r. (r, cursor.new)) result (row (arc_in inputs gates u v) cursor.old) }
{
    let Ok(wire) = arc_name(alloc, u, v) else {
        return Err(ReadError::Memory);
    };
    let line = cursor.line()?;
    let Some(condition) = wire_condition(line, inputs, gates, wire.as_bytes()) else {
        return Err(cursor.bad());
    };
    Ok(condition)
}

fn arc_row(
    alloc: Global,
    cursor: &mut Cursor<'_>,
    inputs: u8,
    gates: u32,
    u: u8,
    v: u8,
    is_declared: bool,
) -> Result<Option<Ref>, ReadError>
    requires { gates < 2 ^ 30 }
    ensures { Gives (λ w. (w, cursor.new)) result (arc_at inputs gates is_declared u v cursor.old) }
{
    if !is_declared {
        return Ok(None);
    }
    let condition = arc_condition(alloc, cursor, inputs, gates, u, v)?;
    Ok(Some(condition))
}

/// The arc wires from one operation, a line for each that is declared.
fn arcs_from_rows(
    alloc: Global,
    cursor: &mut Cursor<'_>,
    inputs: u8,
    gates: u32,
    u: u8,
    declared: &[bool],
) -> Result<Vec<Option<Ref>>, ReadError>
    requires small { gates < 2 ^ 30 }
    requires few { length declared.now ≤ 128 }
    ensures { Gives (λ wires. (wires.items, cursor.new)) result (many_of (λ v. arc_at inputs gates (slice_index_or declared.now v false) u v) (λ v _. v + 1) (length declared.now) 0 cursor.old) }
{
    let mut wires = Vec::new(alloc);
    let count = declared.len() as u8;
    for v in 0..count {
        let wire = arc_row(alloc, cursor, inputs, gates, u, v, declared[v as usize])?;
        wires.push(wire)?;
    }
    Ok(wires)
}

/// A row of the matrix.
#[tactic(auto, using(crate::proofs::LoopLaws::mapped_at))]
pub(crate) fn row_at(arcs: &[Vec<bool>], u: u8) -> &[bool]
    requires { u < length arcs.now }
    ensures { result.now ≡ slice_index_or (map (λ row. row.items) arcs.now) u [] }
{
    &arcs[u as usize]
}

/// The arc wires, a line for each that is declared.
pub(crate) fn arcs_rows(
    alloc: Global,
    cursor: &mut Cursor<'_>,
    inputs: u8,
    gates: u32,
    arcs: &[Vec<bool>],
) -> Result<Vec<Vec<Option<Ref>>>, ReadError>
    requires small { gates < 2 ^ 30 }
    requires few { length arcs.now ≤ 128 }
    requires square { (u : ℕ) → u < length arcs.now → length (slice_index_or (map (λ row. row.items) arcs.now) u []) ≡ length arcs.now }
    ensures { Gives (λ rows. (map (λ row. row.items) rows.items, cursor.new)) result (arcs_at inputs gates (is_declared (map (λ row. row.items) arcs.now)) (length arcs.now) cursor.old) }
{
    let mut rows = Vec::new(alloc);
    let count = arcs.len() as u8;
    for u in 0..count {
        let row = arcs_from_rows(alloc, cursor, inputs, gates, u, row_at(arcs, u))?;
        rows.push(row)?;
    }
    Ok(rows)
}
