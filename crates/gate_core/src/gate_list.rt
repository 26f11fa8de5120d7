ghost use Rattle.std.specs.Prelude.{◌≡◌, ◌+◌, ◌-◌, ◌<◌, ◌≤◌, ◌^◌, [], ◌∷◌, ◌++◌, length, take, slice_get, Some, IfOk, OnOk, OnErr};
ghost use Rattle.cpog_defs.specs.Codes.{word_bits};
ghost use Rattle.cpog_defs.specs.Gates.{IsGateList, signal_count, signal_values, gate_value, with_gates};

use cpog_base::bits::has_bit;
use cpog_base::{BIT_LIMIT, Memory};
use cpog_defs::types::Gate;
use sqlite_items::Items;
use std::alloc::Global;
use std::marker::Model;

/// Gates over 1 to 8 inputs. The inputs are the first signals, and gate `g` is signal `inputs + g`; each gate reads
/// two signals before its own. There are fewer than 2^32 signals.
#[derive(Debug, Drop)]
pub struct GateList {
    inputs: u8,
    gates: Items<Gate>,
}

impl Model for GateList {
    ghost use Rattle.std.specs.Prelude.{◌+◌, ◌<◌, ◌≤◌, ◌^◌, length};
    ghost use Rattle.cpog_base.specs.declared.limits.TheConstants.{BIT_LIMIT};
    ghost use Rattle.cpog_defs.specs.Gates as lists;

    ghost Value = { lists.GateList };

    ghost view = { λ a. record { inputs = a.inputs; gates = a.gates } };

    ghost invariant = { λ a. (1 ≤ a.inputs) × (a.inputs ≤ BIT_LIMIT) × (a.inputs + length a.gates < 2 ^ 32) × lists.AreGatesFrom a.inputs a.gates };
}

impl GateList {
    /// No gate yet.
    pub fn new(alloc: Global, inputs: u8) -> GateList
        requires some { 1 ≤ inputs }
        requires few { inputs ≤ BIT_LIMIT }
        ensures { result ≡ record { inputs = inputs; gates = [] } }
    {
        GateList {
            inputs,
            gates: Items::new(alloc),
        }
    }

    /// These gates.
    pub(crate) fn from_vec(inputs: u8, gates: Vec<Gate>) -> GateList
        requires some { 1 ≤ inputs }
        requires few { inputs ≤ BIT_LIMIT }
        requires fit { inputs + length gates.items < 2 ^ 32 }
        requires earlier { IsGateList (record { inputs = inputs; gates = gates.items }) }
        ensures { result ≡ record { inputs = inputs; gates = gates.items } }
    {
        let gates = Items::from_vec(gates);
        GateList { inputs, gates }
    }

    /// A list of the same gates.
    ///
    /// # Errors
    ///
    /// `Memory` where none is left.
    pub fn try_clone(&self, alloc: Global) -> Result<GateList, Memory>
        ensures { IfOk result (λ list. list ≡ self.now) }
    {
        Ok(GateList {
            inputs: self.inputs,
            gates: Items::from_slice(alloc, self.gates())?,
        })
    }

    /// Puts a gate at the end, and answers the number of its signal.
    ///
    /// # Errors
    ///
    /// `Memory` where none is left.
    pub fn push(&mut self, gate: Gate) -> Result<u32, Memory>
        requires lower { gate.j < gate.k }
        requires earlier { gate.k < signal_count self.old }
        requires table { gate.table < 16 }
        requires room { signal_count self.old < 2 ^ 32 - 1 }
        ensures number { IfOk result (λ number. number ≡ signal_count self.old) }
        ensures gates { OnOk result (self.new ≡ record self.old { gates = self.old.gates ++ gate ∷ [] }) }
        ensures err { OnErr result (self.new ≡ self.old) }
    {
        let number = self.len() + u32::from(self.inputs);
        self.gates.push(gate)?;
        Ok(number)
    }

    /// How many inputs there are.
    pub fn inputs(&self) -> u8
        ensures inputs { result ≡ self.now.inputs }
        ensures some { 1 ≤ self.now.inputs }
        ensures few { self.now.inputs ≤ BIT_LIMIT }
    {
        self.inputs
    }

    /// How many gates there are.
    pub fn len(&self) -> u32
        ensures len { result ≡ length self.now.gates }
        ensures fit { signal_count self.now < 2 ^ 32 }
    {
        self.gates.len() as u32
    }

    /// The gate at a place.
    pub fn gate(&self, g: u32) -> Gate
        requires { g < length self.now.gates }
        ensures { slice_get self.now.gates g ≡ Some result }
    {
        self.gates.as_slice()[g as usize]
    }

    /// The gates, in the order of their signals.
    pub fn gates(&self) -> &[Gate]
        ensures gates { result.now ≡ self.now.gates }
        ensures earlier { IsGateList self.now }
        ensures fit { signal_count self.now < 2 ^ 32 }
    {
        self.gates.as_slice()
    }

    /// The values of all signals on a word, whose bit `i` is input `i`: one step for each signal.
    pub fn eval(&self, word: u8, out: &mut [bool])
        requires { length out.old ≡ signal_count self.now }
        ensures { out.new ≡ signal_values self.now word }
    {
        let inputs = usize::from(self.inputs());
        write_bits(word, &mut out[..inputs]);
        self.write_gates(out);
    }

    /// Writes the values of the gates' signals behind those of the inputs.
    fn write_gates(&self, out: &mut [bool])
        requires { length out.old ≡ signal_count self.now }
        ensures { out.new ≡ with_gates self.now.gates (take self.now.inputs out.old) }
    {
        let inputs = usize::from(self.inputs());
        for (g, gate) in self.gates().iter().enumerate() {
            out[inputs + g] = table_value(gate.table, out[gate.j as usize], out[gate.k as usize]);
        }
    }
}

/// Writes as many bits of a word as there is place for, the lowest first.
fn write_bits(word: u8, out: &mut [bool])
    requires { length out.old ≤ BIT_LIMIT }
    ensures { out.new ≡ word_bits word (length out.old) }
{
    for (i, bit) in out.iter_mut().enumerate() {
        *bit = has_bit(u64::from(word), i as u8);
    }
}

/// The value of a gate with this table on the values of its two signals.
fn table_value(table: u8, p: bool, q: bool) -> bool
    ensures { result ≡ gate_value table p q }
{
    has_bit(u64::from(table), 2 * u8::from(p) + u8::from(q))
}
