//! The scenarios of a report, up to the number of its gates.
ghost use Rattle.std.specs.Prelude.{◌≡◌, true, None, Some, Ok, ◌<◌, ◌≤◌, ◌+◌, ◌^◌, length, IfSome, IfOk, MatchOption};
ghost use Rattle.netlist_verilog.specs.Module.{AreNames};
ghost use Rattle.line_rows.specs.Reading.{Gives};
ghost use Rattle.report_reader.specs.Scenarios.{named_label, is_label, gate_bound, gates_in, add_at, count_in, others_at, columns_at};
ghost use Rattle.report_reader.specs.Columns.{columns_of};

use crate::codes::code_of;
use crate::names::takes;
use crate::operations::{take_arc_list, take_has};
use cpog_base::{Memory, Names, Pattern, Scenario};
use line_rows::{Cursor, ReadError, behind, number_of, word_at};
use std::alloc::Global;

/// The scenarios of a report: their names, codes, given bits and what they say.
#[derive(Drop)]
pub struct Scenarios {
    pub names: Names,
    pub codes: Vec<u8>,
    pub given: Vec<Pattern>,
    pub scenarios: Vec<Scenario>,
}

/// Whether the line begins a scenario.
fn is_label(line: &[u8]) -> bool
    ensures { result ≡ is_label line.now }
{
    behind(line, b"scenario ").is_some()
}

/// How many gates there are, on their line.
#[tactic(auto, unfolding(crate::specs::Scenarios::gates_in))]
fn gate_count_of(line: &[u8], bits: u8) -> Option<u32>
    ensures { result ≡ gates_in bits line.now }
{
    let word = behind(line, b"gates ")?;
    let bound = if bits == 1 { 1 } else { 65536 };
    let count = number_of(word, bound)?;
    Some(count as u32)
}

/// The code on the first line of a scenario and what is given of it; its name then goes last.
#[tactic(auto, unfolding(crate::specs::Scenarios::named_label, crate::specs::Scenarios::label_in))]
fn label_of(names: &mut Names, line: &[u8], bits: u8) -> Result<Option<(u8, Pattern)>, Memory>
    requires { bits ≤ 8 }
    ensures { IfOk result (λ o. MatchOption o (named_label bits names.old line.now ≡ None) (λ x. named_label bits names.old line.now ≡ Some (names.new, x))) }
{
    let Some(rest) = behind(line, b"scenario ") else {
        return Ok(None);
    };
    let Some((word, rest)) = word_at(rest) else {
        return Ok(None);
    };
    if !takes(names, word, 64)? {
        return Ok(None);
    }
    Ok(code_of(rest, bits))
}

/// Puts a scenario whose first line this is behind those that were read.
#[tactic(auto, unfolding(crate::specs::Scenarios::add_at))]
fn add_scenario(
    alloc: Global,
    cursor: &mut Cursor<'_>,
    line: &[u8],
    bits: u8,
    names: &Names,
    read: &mut Scenarios,
) -> Result<(), ReadError>
    requires bits { bits ≤ 8 }
    requires known { AreNames names.now }
    requires few { length names.now ≤ 64 }
    ensures { Gives (λ _. (columns_of read.new, cursor.new)) result (add_at bits names.now (columns_of read.old) line.now cursor.old) }
{
    let Ok(label) = label_of(&mut read.names, line, bits) else {
        return Err(ReadError::Memory);
    };
    let Some((code, given)) = label else {
        return Err(cursor.bad());
    };
    let mut scenario = Scenario::new(alloc, names.len() as u8);
    let line = cursor.line()?;
    if !take_has(&mut scenario, names, line) {
        return Err(cursor.bad());
    }
    let line = cursor.line()?;
    let Ok(is_list) = take_arc_list(&mut scenario, names, line) else {
        return Err(ReadError::Memory);
    };
    if !is_list {
        return Err(cursor.bad());
    }
    read.codes.push(code)?;
    read.given.push(given)?;
    read.scenarios.push(scenario)?;
    Ok(())
}

/// The number of gates, on this line.
fn count_from(cursor: &Cursor<'_>, line: &[u8], bits: u8) -> Result<u32, ReadError>
    ensures { Gives (λ n. n) result (count_in bits line.now cursor.now) }
{
    match gate_count_of(line, bits) {
        Some(count) => Ok(count),
        None => Err(cursor.bad()),
    }
}

/// Puts the other scenarios behind those that were read, and answers the number of gates behind them.
fn add_others(
    alloc: Global,
    cursor: &mut Cursor<'_>,
    bits: u8,
    names: &Names,
    read: &mut Scenarios,
) -> Result<u32, ReadError>
    requires bits { bits ≤ 8 }
    requires known { AreNames names.now }
    requires few { length names.now ≤ 64 }
    ensures { Gives (λ n. ((columns_of read.new, n), cursor.new)) result (others_at bits names.now (columns_of read.old) 63 cursor.old) }
{
    for index in 0..63u8 {
        let line = cursor.line()?;
        if !is_label(line) {
            return count_from(cursor, line, bits);
        }
        add_scenario(alloc, cursor, line, bits, names, read)?;
    }
    let line = cursor.line()?;
    count_from(cursor, line, bits)
}

/// The scenarios, and the number of gates.
#[tactic(auto, unfolding(crate::specs::Scenarios::columns_at))]
pub fn scenarios_of(
    alloc: Global,
    cursor: &mut Cursor<'_>,
    bits: u8,
    names: &Names,
) -> Result<(Scenarios, u32), ReadError>
    requires bits { bits ≤ 8 }
    requires known { AreNames names.now }
    requires few { length names.now ≤ 64 }
    ensures { Gives (λ x. ((columns_of x.0, x.1), cursor.new)) result (columns_at bits names.now cursor.old) }
{
    let mut read = Scenarios {
        names: Names::new(alloc),
        codes: Vec::new(alloc),
        given: Vec::new(alloc),
        scenarios: Vec::new(alloc),
    };
    let line = cursor.line()?;
    add_scenario(alloc, cursor, line, bits, names, &mut read)?;
    let count = add_others(alloc, cursor, bits, names, &mut read)?;
    Ok((read, count))
}
