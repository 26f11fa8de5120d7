//! The first encoding of columns, which is made without a search. The codes of the scenarios are handed in, and gates are
//! appended while the columns are taken in order: a column that no signal so far serves takes a gate over two inputs
//! where one does, else the minterms of the codes of its smaller set of scenarios, joined.

ghost use Rattle.std.specs.Prelude.{◌≡◌, ◌^◌, ◌<◌, ◌≤◌, [], length, IfOk};
ghost use Rattle.std.specs.List.{All};
ghost use Rattle.cpog_defs.specs.Codes.{AreCodes};
ghost use Rattle.cpog_defs.specs.Gates.{IsGateList};
ghost use Rattle.gate_core.specs.Columns.{IsOpenColumn};
ghost use Rattle.gate_core.specs.First.{Takes, TakesAll, IsFirstEncoding, HasFewGates};
ghost use Rattle.gate_core.specs.Serving.{ReferencesServe};
ghost use Rattle.gate_core.specs.Words.{IsColumnOnCodes, IsMintermsRef};

mod asked;
mod choosing;
mod minterms;
mod signals;

use crate::{GateList, Ref};
use asked::{asked_by, smaller_set};
use choosing::{first_agreeing, first_pair};
use cpog_base::{BIT_LIMIT, Column, Memory, SCENARIO_LIMIT};
use minterms::sum_of_minterms;
use signals::Signals;
use std::alloc::Global;

/// The most columns: 2 ^ 24. Each appends fewer than 64 gates to those that all share, so there are fewer than 2 ^ 30 gates,
/// and the numbers of their signals are words of 32 bits.
pub const COLUMN_LIMIT: u32 = 16777216;

/// A law: the limit is this number.
pub fn column_limit_is_this()
    ensures { COLUMN_LIMIT ≡ 16777216 }
{}

/// A code for each scenario, gates over the bits of these codes, and a reference for each column.
#[derive(Debug, Drop)]
pub struct FirstEncoding {
    pub codes: Vec<u8>,
    pub gates: GateList,
    pub refs: Vec<Ref>,
}

/// The first encoding of columns on these codes of so many bits, one for each scenario.
///
/// # Errors
///
/// `Memory` where none is left.
pub fn first_encode(
    alloc: Global,
    classes: &[Column],
    codes: &[u8],
    bits: u8,
) -> Result<FirstEncoding, Memory>
    requires some_bit { 1 ≤ bits }
    requires few_bits { bits ≤ BIT_LIMIT }
    requires few { length codes.now ≤ SCENARIO_LIMIT }
    requires codes { AreCodes bits (length codes.now) codes.now }
    requires few_classes { length classes.now ≤ COLUMN_LIMIT }
    requires classes { All (IsOpenColumn (length codes.now)) classes.now }
    ensures first { IfOk result (λ e. IsFirstEncoding codes.now bits classes.now (record { codes = e.codes.items; gates = e.gates; refs = e.refs.items })) }
    ensures codes { IfOk result (λ e. e.codes.items ≡ codes.now) }
    ensures gates { IfOk result (λ e. IsGateList e.gates × (e.gates.inputs ≡ bits)) }
    ensures refs { IfOk result (λ e. ReferencesServe classes.now e.codes.items e.gates e.refs.items) }
    ensures few_gates { IfOk result (λ e. HasFewGates codes.now bits classes.now (record { codes = e.codes.items; gates = e.gates; refs = e.refs.items })) }
{
    let mut signals = Signals::new(alloc, codes, bits)?;
    let refs = take_all(alloc, &mut signals, classes)?;
    Ok(FirstEncoding {
        codes: Vec::from_slice(alloc, codes)?,
        gates: signals.gate_list(alloc)?,
        refs,
    })
}

/// A reference for each column in order, for which gates are put to the list.
fn take_all(alloc: Global, signals: &mut Signals, columns: &[Column]) -> Result<Vec<Ref>, Memory>
    requires encodable { All (IsColumnOnCodes signals.old.codes signals.old.list.inputs) columns.now }
    requires inputs { (1 ≤ signals.old.list.inputs) × (signals.old.list.inputs ≤ BIT_LIMIT) }
    requires few { length columns.now ≤ COLUMN_LIMIT }
    requires few_codes { length signals.old.codes ≤ SCENARIO_LIMIT }
    requires no_gate { signals.old.list.gates ≡ [] }
    ensures { IfOk result (λ refs. TakesAll signals.old.codes signals.old.list columns.now signals.new.list refs.items) }
{
    let mut refs = Vec::with_capacity(alloc, columns.len())?;
    for column in columns {
        refs.push(take_column(alloc, signals, column)?)?;
    }
    Ok(refs)
}

/// A reference for a column, for which gates are put to the list.
fn take_column(alloc: Global, signals: &mut Signals, column: &Column) -> Result<Ref, Memory>
    requires encodable { IsColumnOnCodes signals.old.codes signals.old.list.inputs column.now }
    requires room { length signals.old.list.gates < 2 ^ 30 }
    ensures takes { IfOk result (Takes signals.old.codes signals.old.list column.now signals.new.list) }
    ensures codes { signals.new.codes ≡ signals.old.codes }
{
    let asked = asked_by(column);
    if let Some(reference) = first_agreeing(signals.words(), asked) {
        return Ok(reference);
    }
    if let Some(gate) = first_pair(signals.input_words(), asked) {
        let number = signals.with_gate(gate)?;
        return Ok(Ref::Signal {
            number,
            negated: false,
        });
    }
    by_minterms(alloc, signals, column)
}

/// A reference to the minterms of the codes of the smaller set of a column, joined, or to the complement where these are
/// of its zeros.
fn by_minterms(alloc: Global, signals: &mut Signals, column: &Column) -> Result<Ref, Memory>
    requires gates { IsGateList signals.old.list }
    requires inputs { 2 ≤ signals.old.list.inputs }
    requires few_inputs { signals.old.list.inputs ≤ BIT_LIMIT }
    requires encodable { IsColumnOnCodes signals.old.codes signals.old.list.inputs column.now }
    requires room { length signals.old.list.gates < 2 ^ 30 }
    ensures minterms { IfOk result (IsMintermsRef signals.old.codes signals.old.list column.now signals.new.list) }
    ensures codes { signals.new.codes ≡ signals.old.codes }
{
    let (codes, negated) = smaller_set(alloc, signals.codes(), column)?;
    let number = sum_of_minterms(alloc, signals, codes.as_slice())?;
    Ok(Ref::Signal { number, negated })
}
