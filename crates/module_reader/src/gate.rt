ghost use Rattle.std.specs.Prelude.{◌≡◌, ◌<◌, ◌+◌, ◌^◌};
ghost use Rattle.module_reader.specs.Gates.{join_in, tail_in, table_of, ordered, noted, joined, gate_from, function_in, gate_in};

use crate::words::{reference_of, signal_of};
use gate_core::{Gate, Ref};
use line_rows::{before, behind, number_of, word_at};

/// What stands between the two signals of a gate's function, or begins the comment that names both.
#[derive(Clone, Copy, Debug, PartialEq, Eq)]
pub enum Join {
    And,
    Xor,
    Or,
    Note,
}

/// What follows it: a reference, or both signals.
#[derive(Clone, Copy, Debug, PartialEq, Eq)]
pub enum Tail {
    One(Ref),
    Both(u32, u32),
}

#[tactic(auto, unfolding(crate::specs::Gates::join_in))]
fn join_of(word: &[u8]) -> Option<Join>
    ensures { result ≡ join_in word.now }
{
    if word == b"&".as_slice() {
        return Some(Join::And);
    }
    if word == b"^".as_slice() {
        return Some(Join::Xor);
    }
    if word == b"|".as_slice() {
        return Some(Join::Or);
    }
    if word == b"/*".as_slice() {
        Some(Join::Note)
    } else {
        None
    }
}

#[tactic(auto, unfolding(crate::specs::Gates::tail_in))]
fn tail_of(text: &[u8], inputs: u8, gates: u32, join: Join) -> Option<Tail>
    requires { inputs + gates < 2 ^ 32 }
    ensures { result ≡ tail_in inputs gates join text.now }
{
    match join {
        Join::Note => {
            let (word, rest) = word_at(text)?;
            let p = signal_of(word, inputs, gates)?;
            let word = before(rest, b" */")?;
            let q = signal_of(word, inputs, gates)?;
            Some(Tail::Both(p, q))
        }
        _ => {
            let second = reference_of(text, inputs, gates)?;
            Some(Tail::One(second))
        }
    }
}

fn table_of(join: Join, first: bool, second: bool) -> Option<u8>
    ensures { result ≡ table_of join first second }
{
    match (join, first, second) {
        (Join::And, false, false) => Some(0b1000),
        (Join::And, false, true) => Some(0b0100),
        (Join::And, true, false) => Some(0b0010),
        (Join::And, true, true) => Some(0b0001),
        (Join::Xor, false, false) => Some(0b0110),
        (Join::Xor, false, true) => Some(0b1001),
        (Join::Or, false, false) => Some(0b1110),
        (Join::Or, false, true) => Some(0b1101),
        (Join::Or, true, false) => Some(0b1011),
        (Join::Or, true, true) => Some(0b0111),
        _ => None,
    }
}

fn ordered(j: u32, k: u32, table: u8) -> Option<Gate>
    ensures { result ≡ ordered j k table }
{
    if j < k {
        Some(Gate { j, k, table })
    } else {
        None
    }
}

fn noted(first: Ref, p: u32, q: u32) -> Option<Gate>
    ensures { result ≡ noted first p q }
{
    match first {
        Ref::Const(false) => ordered(p, q, 0b0000),
        Ref::Const(true) => ordered(p, q, 0b1111),
        Ref::Signal { number, negated } => {
            if number == p {
                ordered(p, q, if negated { 0b0011 } else { 0b1100 })
            } else if number == q {
                ordered(p, q, if negated { 0b0101 } else { 0b1010 })
            } else {
                None
            }
        }
    }
}

fn joined(join: Join, first: Ref, second: Ref) -> Option<Gate>
    ensures { result ≡ joined join first second }
{
    match (first, second) {
        (
            Ref::Signal {
                number: j,
                negated: a,
            },
            Ref::Signal {
                number: k,
                negated: b,
            },
        ) => {
            let table = table_of(join, a, b)?;
            ordered(j, k, table)
        }
        _ => None,
    }
}

fn gate_from(first: Ref, join: Join, tail: Tail) -> Option<Gate>
    ensures { result ≡ gate_from (first, (join, tail)) }
{
    match tail {
        Tail::Both(p, q) => noted(first, p, q),
        Tail::One(second) => joined(join, first, second),
    }
}

/// The gate whose function is written so.
#[tactic(auto, unfolding(crate::specs::Gates::function_in))]
pub fn function_of(text: &[u8], inputs: u8, gates: u32) -> Option<Gate>
    requires { inputs + gates < 2 ^ 32 }
    ensures { result ≡ function_in inputs gates text.now }
{
    let (word, rest) = word_at(text)?;
    let first = reference_of(word, inputs, gates)?;
    let (word, rest) = word_at(rest)?;
    let join = join_of(word)?;
    let tail = tail_of(rest, inputs, gates, join)?;
    gate_from(first, join, tail)
}

/// Gate g on its line.
#[tactic(auto, unfolding(crate::specs::Gates::gate_in))]
pub fn gate_of(line: &[u8], inputs: u8, g: u32) -> Option<Gate>
    requires { inputs + g < 2 ^ 31 }
    ensures { result ≡ gate_in inputs g line.now }
{
    let rest = behind(line, b"  assign g")?;
    let (word, rest) = word_at(rest)?;
    let number = number_of(word, u64::from(g) + 1)?;
    let rest = behind(rest, b"= ")?;
    let text = before(rest, b";")?;
    let gate = function_of(text, inputs, g)?;
    if number == u64::from(g) {
        Some(gate)
    } else {
        None
    }
}
