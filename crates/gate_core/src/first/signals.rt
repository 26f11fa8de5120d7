//! The signals of a list of gates while it grows. The values of a signal on the codes of all scenarios are the bits of
//! one word, that of scenario `s` bit `s`, so a question about a signal is a few steps; and a gate that is there already is looked up.

ghost use Rattle.std.specs.Prelude.{◌≡◌, ℕ, ◌+◌, ◌-◌, ◌<◌, ◌≤◌, ◌^◌, ◌&&◌, [], length, map, IfOk, OnErr};
ghost use Rattle.cpog_defs.specs.Codes.{bit};
ghost use Rattle.cpog_defs.specs.Gates.{signal_count, gate_value, IsGateList};
ghost use Rattle.gate_core.specs.First.{code_at, with_gate};
ghost use Rattle.gate_core.specs.Words as words_of;
ghost use Rattle.gate_core.specs.Words.{AreSignals, AreInputWords};

use crate::GateList;
use cpog_base::bits::{has_bit, with_bit};
use cpog_base::{BIT_LIMIT, Memory, SCENARIO_LIMIT};
use cpog_defs::types::Gate;
use indexmap::IndexSet;
use std::alloc::Global;
use std::marker::Model;

/// Gates over 1 to 8 inputs, any two of them different, and the values of their signals on at most 64 codes.
#[derive(Drop)]
pub(crate) struct Signals {
    codes: Vec<u8>,
    inputs: u8,
    // What each gate reads, the lower signal first, and its table.
    gates: IndexSet<(u32, u32, u8)>,
    // For each signal the word whose bit s is its value on the code at place s.
    words: Vec<u64>,
}

impl Model for Signals {
    ghost use Rattle.gate_core.specs.Words as words_of;

    ghost Value = { words_of.Signals };

    ghost view = { λ a. record { codes = a.codes.items; list = words_of.gates_of a.inputs a.gates.keys } };

    ghost invariant = { λ a. words_of.AreSignals a.codes.items (words_of.gates_of a.inputs a.gates.keys) a.words.items };
}

impl Signals {
    /// So many inputs, and no gate.
    pub(crate) fn new(alloc: Global, codes: &[u8], inputs: u8) -> Result<Signals, Memory>
        requires some { 1 ≤ inputs }
        requires few { inputs ≤ BIT_LIMIT }
        requires few_codes { length codes.now ≤ SCENARIO_LIMIT }
        ensures { IfOk result (λ signals. signals ≡ record { codes = codes.now; list = record { inputs = inputs; gates = [] } }) }
    {
        let mut words = Vec::with_capacity(alloc, usize::from(inputs))?;
        for i in 0..inputs {
            words.push(input_word(codes, i))?;
        }
        Ok(Signals {
            codes: Vec::from_slice(alloc, codes)?,
            inputs,
            gates: IndexSet::new(alloc),
            words,
        })
    }

    /// The codes on which the signals have their values.
    pub(crate) fn codes(&self) -> &[u8]
        ensures { result.now ≡ self.now.codes }
    {
        self.codes.as_slice()
    }

    /// How many inputs there are.
    pub(crate) fn inputs(&self) -> u8
        ensures inputs { result ≡ self.now.list.inputs }
        ensures some { 1 ≤ self.now.list.inputs }
        ensures few { self.now.list.inputs ≤ BIT_LIMIT }
        ensures gates { IsGateList self.now.list }
    {
        self.inputs
    }

    /// For each signal a word of its values.
    pub(crate) fn words(&self) -> &[u64]
        ensures { AreSignals self.now.codes self.now.list result.now }
    {
        self.words.as_slice()
    }

    /// For each input a word of its values.
    pub(crate) fn input_words(&self) -> &[u64]
        ensures words { AreInputWords self.now.list.inputs self.now.codes result.now }
        ensures few { self.now.list.inputs ≤ BIT_LIMIT }
    {
        &self.words[..usize::from(self.inputs)]
    }

    /// Puts a gate to the list unless an equal one is there, and answers the number of its signal.
    ///
    /// # Errors
    ///
    /// `Memory` where none is left. The list is as before then.
    pub(crate) fn with_gate(&mut self, gate: Gate) -> Result<u32, Memory>
        requires lower { gate.j < gate.k }
        requires earlier { gate.k < signal_count self.old.list }
        requires table { gate.table < 16 }
        requires room { signal_count self.old.list < 2 ^ 32 - 1 }
        ensures gate { IfOk result (λ number. with_gate self.old.list gate ≡ record { gates = self.new.list; signal = number }) }
        ensures codes { self.new.codes ≡ self.old.codes }
        ensures err { OnErr result (self.new ≡ self.old) }
    {
        let word = gate_word(
            gate.table,
            self.words[gate.j as usize],
            self.words[gate.k as usize],
        );
        // With room for the word first, want of memory leaves both as they are.
        self.words.reserve(1)?;
        let (place, is_new) = self.gates.insert_full((gate.j, gate.k, gate.table))?;
        if is_new {
            self.words.push(word)?;
        }
        Ok(u32::from(self.inputs) + place as u32)
    }

    /// The gates.
    ///
    /// # Errors
    ///
    /// `Memory` where none is left.
    pub(crate) fn gate_list(&self, alloc: Global) -> Result<GateList, Memory>
        requires { signal_count self.now.list < 2 ^ 32 }
        ensures { IfOk result (λ list. list ≡ self.now.list) }
    {
        let gates = gates_in(alloc, &self.gates)?;
        Ok(GateList::from_vec(self.inputs, gates))
    }
}

/// The gates that are kept so, in order.
fn gates_in(alloc: Global, keys: &IndexSet<(u32, u32, u8)>) -> Result<Vec<Gate>, Memory>
    ensures { IfOk result (λ gates. gates.items ≡ map words_of.gate_of keys.now.keys) }
{
    Ok(
        keys.iter()
            .map(|key| Gate {
                j: key.0,
                k: key.1,
                table: key.2,
            })
            .collect(alloc)?,
    )
}

/// The values of an input on the codes.
fn input_word(codes: &[u8], i: u8) -> u64
    requires few { length codes.now ≤ SCENARIO_LIMIT }
    requires input { i < BIT_LIMIT }
    ensures { (s : ℕ) → s < length codes.now → bit result s ≡ bit (code_at codes.now s) i }
{
    let mut word = 0;
    for (s, code) in codes.iter().enumerate() {
        word = with_bit(word, s as u8, has_bit(u64::from(*code), i));
    }
    word
}

/// The values of a gate with this table, from those of its two signals.
fn gate_word(table: u8, first: u64, second: u64) -> u64
    ensures { (s : ℕ) → s < 64 → bit result s ≡ gate_value table (bit first s) (bit second s) }
{
    row_of(table, 0, !first & !second)
        | row_of(table, 1, !first & second)
        | row_of(table, 2, first & !second)
        | row_of(table, 3, first & second)
}

/// A word where this row of a table is 1, else none of its bits.
fn row_of(table: u8, row: u8, word: u64) -> u64
    requires { row < 4 }
    ensures { (s : ℕ) → bit result s ≡ (bit table row && bit word s) }
{
    if has_bit(u64::from(table), row) {
        word
    } else {
        0
    }
}
