//! Normal, padded and flipped gates.
ghost use Rattle.std.specs.Prelude.{◌≡◌, ◌≢◌, ◌+◌, ◌<◌, ◌≤◌, ◌^◌, length, map, take, IfOk, OnOk, replicate, bit_xor};
ghost use Rattle.std.specs.List.{All};
ghost use Rattle.cpog_defs.specs.Codes.{word_bits};
ghost use Rattle.cpog_defs.specs.Gates.{signal_count, IsRefOver};
ghost use Rattle.gate_forms.specs.Forms.{IsNormalForm, idle_gate, padded, KeepsValues, IsFlipped};

use crate::signs::{Form, push_gates_under, refs_under};
use cpog_base::bits::has_bit;
use cpog_base::{BIT_LIMIT, Memory};
use gate_core::{Gate, GateList, Ref};
use std::alloc::Global;

/// The bits of a word, the lowest first.
fn bits_of(alloc: Global, word: u8, count: u8) -> Result<Vec<bool>, Memory>
    requires { count ≤ BIT_LIMIT }
    ensures { IfOk result (λ bits. bits.items ≡ word_bits word count) }
{
    let mut bits = Vec::new(alloc);
    for i in 0..count {
        bits.push(has_bit(u64::from(word), i))?;
    }
    Ok(bits)
}

/// Gates whose value is 0 where both of their signals are, and references with the old values on every word.
///
/// # Errors
///
/// `Memory` where none is left.
pub fn normalise(
    alloc: Global,
    gates: &GateList,
    refs: &[Ref],
) -> Result<(GateList, Vec<Ref>), Memory>
    requires { All (IsRefOver (signal_count gates.now)) refs.now }
    ensures { IfOk result (λ r. IsNormalForm gates.now refs.now r.0 r.1.items) }
{
    // What makes it a list of gates is known once they are lent.
    let _all = gates.gates();
    let mut flags = bits_of(alloc, 0, gates.inputs())?;
    let mut list = GateList::new(alloc, gates.inputs());
    push_gates_under(&mut list, &mut flags, gates, Form::Normal)?;
    let new = refs_under(alloc, refs, &flags)?;
    Ok((list, new))
}

/// The list with idle gates behind it, so many gates in all.
///
/// # Errors
///
/// `Memory` where none is left.
pub fn pad(alloc: Global, gates: &GateList, to: u32) -> Result<GateList, Memory>
    requires inputs { 2 ≤ gates.now.inputs }
    requires more { length gates.now.gates ≤ to }
    requires room { gates.now.inputs + to < 2 ^ 32 }
    ensures list { IfOk result (λ list. list ≡ padded gates.now to) }
    ensures values { IfOk result (KeepsValues gates.now) }
{
    let mut list = gates.try_clone(alloc)?;
    for g in gates.len()..to {
        let _next = g;
        list.push(Gate {
            j: 0,
            k: 1,
            table: 0,
        })?;
    }
    Ok(list)
}

/// Codes that differ from others by a mask, and gates and references with the old values on the old words.
#[derive(Debug, Drop)]
pub struct Flipped {
    pub codes: Vec<u8>,
    pub gates: GateList,
    pub refs: Vec<Ref>,
}

/// Each code combined with the mask by exclusive or; gates that read the same signals, and gates and references whose
/// values on a word combined with the mask are those that they had on the word.
///
/// # Errors
///
/// `Memory` where none is left.
pub fn flip(
    alloc: Global,
    mask: u8,
    codes: &[u8],
    gates: &GateList,
    refs: &[Ref],
) -> Result<Flipped, Memory>
    requires mask { mask < 2 ^ gates.now.inputs }
    requires codes { All (λ word. word < 2 ^ gates.now.inputs) codes.now }
    requires refs { All (IsRefOver (signal_count gates.now)) refs.now }
    ensures codes { IfOk result (λ f. f.codes.items ≡ map (bit_xor mask) codes.now) }
    ensures flipped { IfOk result (λ f. IsFlipped mask gates.now refs.now f.gates f.refs.items) }
{
    let _all = gates.gates();
    let mut flags = bits_of(alloc, mask, gates.inputs())?;
    let mut list = GateList::new(alloc, gates.inputs());
    push_gates_under(&mut list, &mut flags, gates, Form::Kept)?;
    let new = refs_under(alloc, refs, &flags)?;
    Ok(Flipped {
        codes: combined(alloc, mask, codes)?,
        gates: list,
        refs: new,
    })
}

/// Each code combined with the mask.
fn combined(alloc: Global, mask: u8, codes: &[u8]) -> Result<Vec<u8>, Memory>
    ensures { IfOk result (λ list. list.items ≡ map (bit_xor mask) codes.now) }
{
    let mut list = Vec::new(alloc);
    for code in codes {
        list.push(mask ^ *code)?;
    }
    Ok(list)
}
