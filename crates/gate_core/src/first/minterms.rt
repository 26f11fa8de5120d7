//! Minterms: the gates that are 1 on one code alone, and gates that join them.

ghost use Rattle.std.specs.Prelude.{◌≡◌, ◌+◌, ◌-◌, ◌*◌, ◌<◌, ◌≤◌, ◌^◌, length, IfOk};
ghost use Rattle.cpog_defs.specs.Gates.{IsGateList};
ghost use Rattle.gate_core.specs.First as first;
ghost use Rattle.gate_core.specs.Minterms.{AllDiffer, CanJoinAll};

use crate::first::signals::Signals;
use cpog_base::bits::has_bit;
use cpog_base::{BIT_LIMIT, Memory, SCENARIO_LIMIT};
use cpog_defs::types::Gate;
use std::alloc::Global;

/// Puts the minterms of some codes and the gates that join them to the list, and answers the number of the last.
///
/// # Errors
///
/// `Memory` where none is left.
pub(crate) fn sum_of_minterms(
    alloc: Global,
    signals: &mut Signals,
    codes: &[u8],
) -> Result<u32, Memory>
    requires gates { IsGateList signals.old.list }
    requires inputs { 2 ≤ signals.old.list.inputs }
    requires few_inputs { signals.old.list.inputs ≤ BIT_LIMIT }
    requires some { 1 ≤ length codes.now }
    requires few { length codes.now ≤ SCENARIO_LIMIT }
    requires differ { AllDiffer signals.old.list.inputs codes.now }
    requires room { length signals.old.list.gates < 2 ^ 30 }
    ensures sum { IfOk result (λ number. first.sum_of_minterms signals.old.list codes.now ≡ record { gates = signals.new.list; signal = number }) }
    ensures codes { signals.new.codes ≡ signals.old.codes }
{
    let numbers = minterms(alloc, signals, codes)?;
    joined(signals, numbers[0], &numbers[1..])
}

/// Puts the minterm of each code to the list, and answers the numbers of their signals.
fn minterms(alloc: Global, signals: &mut Signals, codes: &[u8]) -> Result<Vec<u32>, Memory>
    requires gates { IsGateList signals.old.list }
    requires inputs { 2 ≤ signals.old.list.inputs }
    requires few_inputs { signals.old.list.inputs ≤ BIT_LIMIT }
    requires few { length codes.now ≤ SCENARIO_LIMIT }
    requires room { length signals.old.list.gates < 2 ^ 30 }
    ensures minterms { IfOk result (λ numbers. first.minterms signals.old.list codes.now ≡ record { gates = signals.new.list; signals = numbers.items }) }
    ensures codes { signals.new.codes ≡ signals.old.codes }
{
    let mut numbers = Vec::with_capacity(alloc, codes.len())?;
    for code in codes {
        numbers.push(minterm(signals, *code)?)?;
    }
    Ok(numbers)
}

/// Puts the minterm of a code to the list, and answers the number of its signal.
fn minterm(signals: &mut Signals, code: u8) -> Result<u32, Memory>
    requires inputs { 2 ≤ signals.old.list.inputs }
    requires room { length signals.old.list.gates < 2 ^ 31 }
    ensures minterm { IfOk result (λ number. first.minterm signals.old.list code (signals.old.list.inputs - 2) ≡ record { gates = signals.new.list; signal = number }) }
    ensures codes { signals.new.codes ≡ signals.old.codes }
{
    let word = u64::from(code);
    let further = signals.inputs() - 2;
    let mut number = signals.with_gate(Gate {
        j: 0,
        k: 1,
        table: only_at(has_bit(word, 0), has_bit(word, 1)),
    })?;
    for i in 0..further {
        number = signals.with_gate(Gate {
            j: u32::from(i) + 2,
            k: number,
            table: only_at(has_bit(word, i + 2), true),
        })?;
    }
    Ok(number)
}

/// Puts gates to the list that join a signal with others, and answers the number of the last.
fn joined(signals: &mut Signals, one: u32, others: &[u32]) -> Result<u32, Memory>
    requires joinable { CanJoinAll signals.old.list one others.now }
    requires few { length others.now ≤ SCENARIO_LIMIT }
    requires few_inputs { signals.old.list.inputs ≤ BIT_LIMIT }
    requires room { length signals.old.list.gates < 2 ^ 31 }
    ensures joined { IfOk result (λ number. first.joined (record { gates = signals.old.list; signal = one }) others.now ≡ record { gates = signals.new.list; signal = number }) }
    ensures codes { signals.new.codes ≡ signals.old.codes }
{
    let mut number = one;
    for other in others {
        number = signals.with_gate(Gate {
            j: number.min(*other),
            k: number.max(*other),
            table: EITHER,
        })?;
    }
    Ok(number)
}

/// The table of the gate that is 1 where either signal is.
const EITHER: u8 = 0b1110;

/// The table that is 1 only at these values.
fn only_at(p: bool, q: bool) -> u8
    ensures { result ≡ first.only_at p q }
{
    1 << (2 * u8::from(p) + u8::from(q))
}
