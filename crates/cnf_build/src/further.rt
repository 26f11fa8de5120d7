//! What the second and the third template add: given bits, and zeros in the first code.

ghost use Rattle.std.specs.Prelude.{◌≡◌, ◌+◌, ◌<◌, ◌≤◌, ◌++◌, ◌∷◌, [], if◌then◌else◌, length, slice_index_or, IfOk, OnOk};
ghost use Rattle.std.specs.List.{All};
ghost use Rattle.cpog_defs.specs.Orders.{each_below};
ghost use Rattle.gate_template.specs.Variables.{X};
ghost use Rattle.gate_template.specs.Families.{as_clauses, complemented, given_bit, given_pattern, given_clauses, gives, zero_clauses, all_zero_clauses};

use crate::given::{given_at, is_given_by_some};
use crate::numbers::Numbers;
use clause_arena::ClauseArena;
use cpog_base::{Bit3, Memory, Pattern};

fn push_given_at(
    clauses: &mut ClauseArena,
    numbers: &Numbers,
    s: u32,
    i: u32,
    entry: Bit3,
) -> Result<(), Memory>
    requires scenario { s < numbers.now.scenarios }
    requires bit { i < numbers.now.bits }
    ensures { OnOk result (clauses.new.clauses ≡ clauses.old.clauses ++ as_clauses numbers.now (given_bit s i entry)) }
{
    let bit = numbers.x(s, i);
    match entry {
        Bit3::Free => Ok(()),
        Bit3::One => {
            clauses.push(&[bit])?;
            Ok(())
        }
        Bit3::Zero => {
            clauses.push(&[bit.negated()])?;
            Ok(())
        }
    }
}

fn push_given_of(
    clauses: &mut ClauseArena,
    numbers: &Numbers,
    s: u32,
    pattern: &Pattern,
) -> Result<(), Memory>
    requires scenario { s < numbers.now.scenarios }
    requires entries { length pattern.now ≡ numbers.now.bits }
    ensures { OnOk result (clauses.new.clauses ≡ clauses.old.clauses ++
        as_clauses numbers.now (given_pattern numbers.now s pattern.now)) }
{
    for i in 0..numbers.shape().bits {
        push_given_at(clauses, numbers, s, i, given_at(pattern, i as u8))?;
    }
    Ok(())
}

pub(crate) fn push_given(
    clauses: &mut ClauseArena,
    numbers: &Numbers,
    patterns: &[Pattern],
) -> Result<(), Memory>
    requires one_each { length patterns.now ≡ numbers.now.scenarios }
    requires entries { All (λ pattern. length pattern ≡ numbers.now.bits) patterns.now }
    ensures { OnOk result (clauses.new.clauses ≡ clauses.old.clauses ++
        as_clauses numbers.now (given_clauses numbers.now patterns.now)) }
{
    for s in 0..numbers.shape().scenarios {
        push_given_of(clauses, numbers, s, &patterns[s as usize])?;
    }
    Ok(())
}

fn push_zero_at(clauses: &mut ClauseArena, numbers: &Numbers, i: u32) -> Result<(), Memory>
    requires some { 1 ≤ numbers.now.scenarios }
    requires bit { i < numbers.now.bits }
    ensures { OnOk result (clauses.new.clauses ≡ clauses.old.clauses ++
        as_clauses numbers.now ((complemented (X 0 i) ∷ []) ∷ [])) }
{
    clauses.push(&[numbers.x(0, i).negated()])?;
    Ok(())
}

fn push_zero_unless(
    clauses: &mut ClauseArena,
    numbers: &Numbers,
    i: u32,
    given: bool,
) -> Result<(), Memory>
    requires some { 1 ≤ numbers.now.scenarios }
    requires bit { i < numbers.now.bits }
    ensures { OnOk result (clauses.new.clauses ≡ clauses.old.clauses ++
        as_clauses numbers.now (if given then [] else (complemented (X 0 i) ∷ []) ∷ [])) }
{
    if given {
        Ok(())
    } else {
        push_zero_at(clauses, numbers, i)
    }
}

pub(crate) fn push_all_zeros(clauses: &mut ClauseArena, numbers: &Numbers) -> Result<(), Memory>
    requires { 1 ≤ numbers.now.scenarios }
    ensures { OnOk result (clauses.new.clauses ≡ clauses.old.clauses ++
        as_clauses numbers.now (all_zero_clauses numbers.now)) }
{
    for i in 0..numbers.shape().bits {
        push_zero_at(clauses, numbers, i)?;
    }
    Ok(())
}

pub(crate) fn push_zeros(
    clauses: &mut ClauseArena,
    numbers: &Numbers,
    patterns: &[Pattern],
) -> Result<(), Memory>
    requires some { 1 ≤ numbers.now.scenarios }
    requires entries { All (λ pattern. length pattern ≡ numbers.now.bits) patterns.now }
    ensures { OnOk result (clauses.new.clauses ≡ clauses.old.clauses ++
        as_clauses numbers.now (zero_clauses numbers.now patterns.now)) }
{
    for i in 0..numbers.shape().bits {
        push_zero_unless(clauses, numbers, i, is_given_by_some(patterns, i as u8))?;
    }
    Ok(())
}
