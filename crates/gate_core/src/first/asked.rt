//! What a column asks for, with a bit for each scenario.

ghost use Rattle.std.specs.Prelude.{◌≡◌, ◌≢◌, ◌↔◌, ◌<◌, ℕ, IsTrue, true, false, length, IfOk};
ghost use Rattle.cpog_defs.specs.declared.types.Bit3.TheVariants.{Free};
ghost use Rattle.cpog_defs.specs.Codes.{bit};
ghost use Rattle.cpog_defs.specs.Entries.{entry_at};
ghost use Rattle.gate_core.specs.First.{codes_where, smaller_codes, has_fewer_zeros};
ghost use Rattle.gate_core.specs.Words.{asks_for, IsAskedBy, IsMetBy};

use cpog_base::bits::{is_within, share_bit, with_bit};
use cpog_base::{Bit3, Column, Memory, ScenId};
use std::alloc::Global;

/// The scenarios that are asked for a 1, and those that are asked for a 0.
#[derive(Clone, Copy, Debug)]
pub(crate) struct Asked {
    pub(crate) ones: u64,
    pub(crate) zeros: u64,
}

/// What a column asks for.
pub(crate) fn asked_by(column: &Column) -> Asked
    ensures { IsAskedBy column.now result.ones result.zeros }
{
    Asked {
        ones: word_asking(column, Bit3::One),
        zeros: word_asking(column, Bit3::Zero),
    }
}

/// The scenarios that are asked for this bit, as a word.
fn word_asking(column: &Column, asked: Bit3) -> u64
    requires { asked ≢ Free }
    ensures { (s : ℕ) → bit result s ≡ asks_for asked (entry_at column.now s) }
{
    let mut word = 0;
    for s in 0..column.len() {
        word = with_bit(word, s, column.get(ScenId(s)) == asked);
    }
    word
}

/// The codes of the scenarios that are asked for a 1, or of those that are asked for a 0 where these are fewer; and
/// whether they are.
///
/// # Errors
///
/// `Memory` where none is left.
pub(crate) fn smaller_set(
    alloc: Global,
    codes: &[u8],
    column: &Column,
) -> Result<(Vec<u8>, bool), Memory>
    requires { length column.now ≡ length codes.now }
    ensures codes { IfOk result (λ set. set.0.items ≡ smaller_codes codes.now column.now) }
    ensures zeros { IfOk result (λ set. set.1 ≡ has_fewer_zeros column.now) }
{
    let ones = codes_asking(alloc, codes, column, Bit3::One)?;
    let zeros = codes_asking(alloc, codes, column, Bit3::Zero)?;
    if zeros.len() < ones.len() {
        Ok((zeros, true))
    } else {
        Ok((ones, false))
    }
}

/// The codes of the scenarios that are asked for this bit, in order.
fn codes_asking(
    alloc: Global,
    codes: &[u8],
    column: &Column,
    asked: Bit3,
) -> Result<Vec<u8>, Memory>
    requires asked { asked ≢ Free }
    requires one_each { length column.now ≡ length codes.now }
    ensures { IfOk result (λ asking. asking.items ≡ codes_where (asks_for asked) codes.now column.now) }
{
    let mut asking = Vec::new(alloc);
    for s in 0..column.len() {
        if column.get(ScenId(s)) == asked {
            asking.push(codes[usize::from(s)])?;
        }
    }
    Ok(asking)
}

impl Asked {
    /// Whether the values in a word are as asked.
    pub(crate) fn is_met_by(self, word: u64) -> bool
        ensures { IsTrue result ↔ IsMetBy self.ones self.zeros false word }
    {
        is_within(self.ones, word) && !share_bit(self.zeros, word)
    }

    /// Whether the complements of the values in a word are as asked.
    pub(crate) fn is_opposed_by(self, word: u64) -> bool
        ensures { IsTrue result ↔ IsMetBy self.ones self.zeros true word }
    {
        !share_bit(self.ones, word) && is_within(self.zeros, word)
    }
}
