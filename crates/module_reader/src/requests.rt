//! The rows of requests.
ghost use Rattle.std.specs.Prelude.{◌≡◌, ◌≤◌, ◌<◌, ◌++◌, ℕ, [], length, map, slice_index_or, string_bytes, IfOk, if◌then◌else◌};
ghost use Rattle.std.specs.FinSet as set;
ghost use Rattle.std.specs.Option.{option_map};
ghost use Rattle.netlist_verilog.specs.Wires.{name_of};
ghost use Rattle.line_rows.specs.Reading.{Gives, row};
ghost use Rattle.module_reader.specs.Lists as lists;
ghost use Rattle.module_reader.specs.Modules as modules;
ghost use Rattle.module_reader.specs.Modules.{is_declared, request_in, requests_at};

use crate::rows::row_at;
use cpog_base::{Memory, Names, OpId, OpSet};
use line_rows::{Cursor, ReadError, behind};
use std::alloc::Global;

/// What the line of a request has for an operation that it waits for.
fn wait_text(alloc: Global, name: &str, u: u8, v: u8) -> Result<String, Memory>
    ensures { IfOk result (λ text. string_bytes text ≡ modules.wait_words name.now u v) }
{
    Ok(format!(in alloc; " & (a_{name} | ~c_{name} | ~e{u}_{v})")?)
}

/// Whether the request of `v` waits for `u`, as the front says, and what is behind it.
fn wait_of<'a>(
    alloc: Global,
    text: &'a [u8],
    name: &str,
    u: u8,
    v: u8,
    is_declared: bool,
) -> Result<(bool, &'a [u8]), Memory>
    ensures { IfOk result (λ x. (x.0, x.1.now) ≡ lists.wait_mark is_declared (modules.wait_words name.now u v) text.now) }
{
    if !is_declared {
        return Ok((false, text));
    }
    let item = wait_text(alloc, name, u, v)?;
    let Some(rest) = behind(text, item.as_bytes()) else {
        return Ok((false, text));
    };
    Ok((true, rest))
}

/// The set, with the operation where that is waited for.
fn joined_by(waits: OpSet, u: u8, is_waited: bool) -> OpSet
    requires { u < 128 }
    ensures { result ≡ if is_waited then set.insert waits u else waits }
{
    let mut joined = waits;
    if is_waited {
        joined.insert(OpId(u));
    }
    joined
}

/// Whether the arc wire from `u` to `v` is declared.
fn bit_at(arcs: &[Vec<bool>], u: u8, v: u8) -> bool
    requires first { u < length arcs.now }
    requires second { v < length (slice_index_or (map (λ row. row.items) arcs.now) u []) }
    ensures { result ≡ is_declared (map (λ row. row.items) arcs.now) u v }
{
    let row = row_at(arcs, u);
    row[v as usize]
}

/// The operations that are waited for, as the front says, and what is behind them.
fn waits_of<'a>(
    alloc: Global,
    text: &'a [u8],
    names: &Names,
    arcs: &[Vec<bool>],
    v: u8,
) -> Result<(OpSet, &'a [u8]), Memory>
    requires few { length names.now ≤ 128 }
    requires below { v < length names.now }
    requires rows { length arcs.now ≡ length names.now }
    requires square { (u : ℕ) → u < length names.now → length (slice_index_or (map (λ row. row.items) arcs.now) u []) ≡ length names.now }
    ensures { IfOk result (λ x. (x.0, x.1.now) ≡ modules.waits_after names.now (map (λ row. row.items) arcs.now) v text.now) }
{
    let mut waits = OpSet::empty();
    let mut rest = text;
    let count = names.len() as u8;
    for u in 0..count {
        let is_declared = bit_at(arcs, u, v);
        let (is_waited, more) = wait_of(alloc, rest, names.get(u32::from(u)), u, v, is_declared)?;
        waits = joined_by(waits, u, is_waited);
        rest = more;
    }
    Ok((waits, rest))
}

/// What stands before them.
fn request_front(alloc: Global, name: &str) -> Result<String, Memory>
    ensures { IfOk result (λ text. string_bytes text ≡ modules.front_words name.now) }
{
    Ok(format!(in alloc; "  assign r_{name} = go & c_{name}")?)
}

/// The operations for which `v` waits, by the line of its request.
#[tactic(auto, unfolding(crate::specs::Modules::request_in))]
fn request_of(
    alloc: Global,
    line: &[u8],
    names: &Names,
    arcs: &[Vec<bool>],
    v: u8,
) -> Result<Option<OpSet>, Memory>
    requires few { length names.now ≤ 128 }
    requires below { v < length names.now }
    requires rows { length arcs.now ≡ length names.now }
    requires square { (u : ℕ) → u < length names.now → length (slice_index_or (map (λ row. row.items) arcs.now) u []) ≡ length names.now }
    ensures { IfOk result (λ o. o ≡ request_in names.now (map (λ row. row.items) arcs.now) v line.now) }
{
    let front = request_front(alloc, names.get(u32::from(v)))?;
    let Some(rest) = behind(line, front.as_bytes()) else {
        return Ok(None);
    };
    let Ok((waits, rest)) = waits_of(alloc, rest, names, arcs, v) else {
        return Err(Memory);
    };
    if rest == b";".as_slice() {
        Ok(Some(waits))
    } else {
        Ok(None)
    }
}

fn request_row(
    alloc: Global,
    cursor: &mut Cursor<'_>,
    names: &Names,
    arcs: &[Vec<bool>],
    v: u8,
) -> Result<OpSet, ReadError>
    requires few { length names.now ≤ 128 }
    requires below { v < length names.now }
    requires rows { length arcs.now ≡ length names.now }
    requires square { (u : ℕ) → u < length names.now → length (slice_index_or (map (λ row. row.items) arcs.now) u []) ≡ length names.now }
    ensures { Gives (λ waits. (waits, cursor.new)) result (row (request_in names.now (map (λ row. row.items) arcs.now) v) cursor.old) }
{
    let line = cursor.line()?;
    let Ok(found) = request_of(alloc, line, names, arcs, v) else {
        return Err(ReadError::Memory);
    };
    let Some(waits) = found else {
        return Err(cursor.bad());
    };
    Ok(waits)
}

/// The requests of a module's operations, a line for each.
pub(crate) fn requests_rows(
    alloc: Global,
    cursor: &mut Cursor<'_>,
    names: &Names,
    arcs: &[Vec<bool>],
) -> Result<Vec<OpSet>, ReadError>
    requires few { length names.now ≤ 128 }
    requires rows { length arcs.now ≡ length names.now }
    requires square { (u : ℕ) → u < length names.now → length (slice_index_or (map (λ row. row.items) arcs.now) u []) ≡ length names.now }
    ensures { Gives (λ sets. (sets.items, cursor.new)) result (requests_at names.now (map (λ row. row.items) arcs.now) cursor.old) }
{
    let mut sets = Vec::new(alloc);
    let count = names.len() as u8;
    for v in 0..count {
        let waits = request_row(alloc, cursor, names, arcs, v)?;
        sets.push(waits)?;
    }
    Ok(sets)
}
