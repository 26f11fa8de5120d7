//! The signal that agrees with what a column asks for, and the two inputs whose gate would.

ghost use Rattle.std.specs.Prelude.{◌≡◌, ℕ, ◌^◌, ◌<◌, ◌≤◌, Bool, length, slice_index, MatchOption, IsTrue, ◌↔◌};
ghost use Rattle.cpog_defs.specs.declared.types.Ref.TheVariants.{Signal};
ghost use Rattle.cpog_defs.specs.Codes.{bit};
ghost use Rattle.gate_core.specs.Words.{IsMetBy, IsFirstMet, IsTableOf, IsFirstWith, NoneWith, IsFirstApart};

use crate::first::asked::Asked;
use cpog_base::BIT_LIMIT;
use cpog_defs::types::{Gate, Ref};

/// The first signal that agrees with what is asked, complemented only where it does not agree as it stands.
pub(crate) fn first_agreeing(words: &[u64], asked: Asked) -> Option<Ref>
    requires { length words.now ≤ 2 ^ 32 }
    ensures { MatchOption result ((k : ℕ) (negated : Bool) → k < length words.now → IsMetBy asked.ones asked.zeros negated (slice_index words.now k) → ⊥) (IsFirstMet asked.ones asked.zeros words.now) }
{
    for (n, word) in words.iter().enumerate() {
        if asked.is_met_by(*word) {
            return Some(signal(n as u32, false));
        }
        if asked.is_opposed_by(*word) {
            return Some(signal(n as u32, true));
        }
    }
    None
}

fn signal(number: u32, negated: bool) -> Ref
    ensures { result ≡ Signal number negated }
{
    Ref::Signal { number, negated }
}

/// The gate of the first two inputs that tell the scenarios apart, which is 1 exactly where a scenario is asked for a 1.
pub(crate) fn first_pair(inputs: &[u64], asked: Asked) -> Option<Gate>
    requires { length inputs.now ≤ BIT_LIMIT }
    ensures { MatchOption result ((j : ℕ) → NoneWith asked.ones asked.zeros inputs.now j) (IsFirstApart asked.ones asked.zeros inputs.now) }
{
    for j in 0..inputs.len() {
        if let Some(gate) = first_pair_with(inputs, j, asked) {
            return Some(gate);
        }
    }
    None
}

/// The gate of this input and the first later one with which it tells the scenarios apart.
fn first_pair_with(inputs: &[u64], j: usize, asked: Asked) -> Option<Gate>
    requires in_range { j < length inputs.now }
    requires few { length inputs.now ≤ BIT_LIMIT }
    ensures { MatchOption result (NoneWith asked.ones asked.zeros inputs.now j) (IsFirstWith asked.ones asked.zeros inputs.now j) }
{
    for k in j + 1..inputs.len() {
        let ones = rows_of(asked.ones, inputs[j], inputs[k]);
        let zeros = rows_of(asked.zeros, inputs[j], inputs[k]);
        if ones & zeros == 0 {
            return Some(Gate {
                j: j as u32,
                k: k as u32,
                table: ones,
            });
        }
    }
    None
}

/// The table that is 1 exactly at the values that two inputs have at some scenario of a word.
fn rows_of(word: u64, first: u64, second: u64) -> u8
    ensures { IsTableOf result word first second }
{
    row(0, word & !first & !second)
        | row(1, word & !first & second)
        | row(2, word & first & !second)
        | row(3, word & first & second)
}

/// This row of a table where a word has some bit.
fn row(number: u8, word: u64) -> u8
    requires { number < 4 }
    ensures below { result < 16 }
    ensures there { (r : ℕ) → IsTrue (bit result r) ↔ ((r ≡ number) × (s : ℕ) × IsTrue (bit word s)) }
{
    if word == 0 { 0 } else { 1 << number }
}
