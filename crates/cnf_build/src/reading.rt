//! The codes, the gates and the references that an assignment gives: each gate by its first true selection, and each
//! class by its first true signal.
ghost use Rattle.std.specs.Prelude.{◌≡◌, ◌+◌, ◌*◌, ◌^◌, ◌<◌, ◌≤◌, ℕ, [], false, if◌then◌else◌, IsTrue, length, slice_index_or, IfOk};
ghost use Rattle.cpog_defs.specs.declared.types.Ref.TheVariants.{Const};
ghost use Rattle.clause_arena.specs.Clauses.{by_place};
ghost use Rattle.gate_forms.specs.Forms.{table_with, idle_gate};
ghost use Rattle.gate_template.specs.Variables.{Var, X, Sel, T, O, P};
ghost use Rattle.gate_template.specs.Families.{plain, some_pair, some_signal};
ghost use Rattle.gate_template.proofs.ClauseLemmas.{named_true};
ghost use Rattle.gate_template.proofs.DecodeLemmas.{number_from, code};
ghost use Rattle.gate_template.specs.Listed.{listed};
ghost use Rattle.cnf_build.specs.Decoded.{value_in, IsFirstFrom, IsFirstPair, IsFirstGate, IsFirstRef};

use crate::numbers::Numbers;
use clause_arena::Lit;
use cpog_base::Memory;
use gate_core::{Gate, GateList, Ref};
use std::alloc::Global;

/// The value of a literal's variable; a variable without a place is false.
fn value_at(assignment: &[bool], lit: Lit) -> bool
    ensures { result ≡ by_place assignment.now lit.var }
{
    let place = (lit.var() - 1) as usize;
    if place < assignment.len() {
        assignment[place]
    } else {
        false
    }
}

/// A word with one more bit above its others.
fn with_top(word: u8, i: u8, bit: bool) -> u8
    requires few { i < 8 }
    requires below { word < 2 ^ i }
    ensures { result ≡ (if bit then 1 else 0) * 2 ^ i + word }
{
    (u8::from(bit) << i) + word
}

/// The code of a scenario.
fn code_read(numbers: &Numbers, assignment: &[bool], s: u32) -> u8
    requires { s < numbers.now.scenarios }
    ensures { result ≡ code (value_in assignment.now numbers.now) numbers.now s }
{
    let mut word = 0;
    for i in 0..numbers.shape().bits {
        word = with_top(word, i as u8, value_at(assignment, numbers.x(s, i)));
    }
    word
}

/// The codes of the scenarios.
pub(crate) fn codes_read(
    alloc: Global,
    numbers: &Numbers,
    assignment: &[bool],
) -> Result<Vec<u8>, Memory>
    ensures { IfOk result (λ codes. codes.items ≡
        listed (code (value_in assignment.now numbers.now) numbers.now) numbers.now.scenarios) }
{
    let mut codes = Vec::new(alloc);
    for s in 0..numbers.shape().scenarios {
        codes.push(code_read(numbers, assignment, s))?;
    }
    Ok(codes)
}

/// The first signal above j that gate g is selected with, or the number of signals before the gate.
fn first_with(numbers: &Numbers, assignment: &[bool], g: u32, j: u32) -> u32
    requires gate { g < numbers.now.gates }
    requires earlier { j < numbers.now.bits + g }
    ensures { IsFirstFrom (λ k. value_in assignment.now numbers.now (Sel g j k)) (j + 1) (numbers.now.bits + g) result }
{
    let signals = numbers.shape().bits + g;
    for k in j + 1..signals {
        if value_at(assignment, numbers.sel(g, j, k)) {
            return k;
        }
    }
    signals
}

/// Two signals, the lower number first.
#[derive(Clone, Copy, Debug)]
pub(crate) struct Pair {
    j: u32,
    k: u32,
}

/// The first pair that gate g is selected with.
fn first_pair(numbers: &Numbers, assignment: &[bool], g: u32) -> Pair
    requires gate { g < numbers.now.gates }
    requires some { IsTrue (named_true (value_in assignment.now numbers.now) (some_pair numbers.now g)) }
    ensures { IsFirstPair
        (λ j k. value_in assignment.now numbers.now (Sel g j k)) (numbers.now.bits + g) result.j result.k }
{
    let signals = numbers.shape().bits + g;
    for j in 0..signals {
        let k = first_with(numbers, assignment, g, j);
        if k < signals {
            return Pair { j, k };
        }
    }
    Pair { j: 0, k: 1 }
}

/// The table with the value 0 at 0 and these values at 1, 2 and 3.
fn table_of(first: bool, second: bool, third: bool) -> u8
    ensures { result ≡ table_with false first second third }
{
    2 * u8::from(first) + 4 * u8::from(second) + 8 * u8::from(third)
}

/// Gate g, by the first pair that it is selected with.
fn gate_read(numbers: &Numbers, assignment: &[bool], g: u32) -> Gate
    requires gate { g < numbers.now.gates }
    requires some { IsTrue (named_true (value_in assignment.now numbers.now) (some_pair numbers.now g)) }
    ensures { IsFirstGate (value_in assignment.now numbers.now) numbers.now g result }
{
    let pair = first_pair(numbers, assignment, g);
    let first = value_at(assignment, numbers.t1(g));
    let second = value_at(assignment, numbers.t2(g));
    let third = value_at(assignment, numbers.t3(g));
    Gate {
        j: pair.j,
        k: pair.k,
        table: table_of(first, second, third),
    }
}

/// The gates in order.
pub(crate) fn gates_read(
    alloc: Global,
    numbers: &Numbers,
    assignment: &[bool],
) -> Result<GateList, Memory>
    requires some { (g : ℕ) → g < numbers.now.gates →
        IsTrue (named_true (value_in assignment.now numbers.now) (some_pair numbers.now g)) }
    ensures inputs { IfOk result (λ list. list.inputs ≡ numbers.now.bits) }
    ensures one_each { IfOk result (λ list. length list.gates ≡ numbers.now.gates) }
    ensures first { IfOk result (λ list. (g : ℕ) → g < numbers.now.gates →
        IsFirstGate (value_in assignment.now numbers.now) numbers.now g (slice_index_or list.gates g idle_gate)) }
{
    let shape = numbers.shape();
    let mut list = GateList::new(alloc, shape.bits as u8);
    for g in 0..shape.gates {
        list.push(gate_read(numbers, assignment, g))?;
    }
    Ok(list)
}

/// The first signal that a class is taken from, or the number of signals.
fn first_signal(numbers: &Numbers, assignment: &[bool], c: u32) -> u32
    requires { c < numbers.now.classes }
    ensures { IsFirstFrom
        (λ n. value_in assignment.now numbers.now (O c n)) 0 (numbers.now.bits + numbers.now.gates) result }
{
    let signals = numbers.shape().bits + numbers.shape().gates;
    for n in 0..signals {
        if value_at(assignment, numbers.o(c, n)) {
            return n;
        }
    }
    signals
}

/// The reference of a class: the first signal that it is taken from, with its sign.
fn ref_read(numbers: &Numbers, assignment: &[bool], c: u32) -> Ref
    requires class { c < numbers.now.classes }
    requires some { IsTrue (named_true (value_in assignment.now numbers.now) (some_signal numbers.now c)) }
    ensures { IsFirstRef (value_in assignment.now numbers.now) numbers.now c result }
{
    let number = first_signal(numbers, assignment, c);
    let negated = value_at(assignment, numbers.p(c));
    Ref::Signal { number, negated }
}

/// The references of the classes.
pub(crate) fn refs_read(
    alloc: Global,
    numbers: &Numbers,
    assignment: &[bool],
) -> Result<Vec<Ref>, Memory>
    requires some { (c : ℕ) → c < numbers.now.classes →
        IsTrue (named_true (value_in assignment.now numbers.now) (some_signal numbers.now c)) }
    ensures one_each { IfOk result (λ refs. length refs.items ≡ numbers.now.classes) }
    ensures first { IfOk result (λ refs. (c : ℕ) → c < numbers.now.classes →
        IsFirstRef (value_in assignment.now numbers.now) numbers.now c (slice_index_or refs.items c (Const false))) }
{
    let mut refs = Vec::new(alloc);
    for c in 0..numbers.shape().classes {
        refs.push(ref_read(numbers, assignment, c))?;
    }
    Ok(refs)
}
