//! Each gate is read from a pair of earlier signals, and its values are its table's.

ghost use Rattle.std.specs.Prelude.{◌≡◌, ◌+◌, ◌<◌, ◌≤◌, ◌++◌, ◌∷◌, [], IfOk, OnOk};
ghost use Rattle.cpog_defs.specs.Orders.{each_below};
ghost use Rattle.clause_arena.specs.Clauses.{opposite};
ghost use Rattle.gate_template.specs.Variables.{Sel, pairs_from};
ghost use Rattle.gate_template.specs.Families.{plain, as_clause, as_clauses, gate_clauses_at, gate_pair, some_pair, one_gate, gate_clauses};

use crate::numbers::Numbers;
use clause_arena::{ClauseArena, Lit};
use cpog_base::Memory;
use std::alloc::Global;

/// Where the first three literals are false, the value is the table's.
fn push_table(
    clauses: &mut ClauseArena,
    sel: Lit,
    a: Lit,
    b: Lit,
    v: Lit,
    t: Lit,
) -> Result<(), Memory>
    ensures { OnOk result (clauses.new.clauses ≡ clauses.old.clauses
        ++ (sel ∷ a ∷ b ∷ opposite v ∷ t ∷ []) ∷ (sel ∷ a ∷ b ∷ v ∷ opposite t ∷ []) ∷ []) }
{
    clauses.push(&[sel, a, b, v.negated(), t])?;
    clauses.push(&[sel, a, b, v, t.negated()])?;
    Ok(())
}

fn push_gate_at(
    clauses: &mut ClauseArena,
    numbers: &Numbers,
    g: u32,
    j: u32,
    k: u32,
    s: u32,
) -> Result<(), Memory>
    requires gate { g < numbers.now.gates }
    requires lower { j < k }
    requires earlier { k < numbers.now.bits + g }
    requires scenario { s < numbers.now.scenarios }
    ensures { OnOk result (clauses.new.clauses ≡ clauses.old.clauses ++
        as_clauses numbers.now (gate_clauses_at numbers.now g j k s)) }
{
    let sel = numbers.sel(g, j, k).negated();
    let a = numbers.value(j, s);
    let b = numbers.value(k, s);
    let v = numbers.v(g, s);
    let not_a = a.negated();
    let not_b = b.negated();
    clauses.push(&[sel, a, b, v.negated()])?;
    push_table(clauses, sel, a, not_b, v, numbers.t1(g))?;
    push_table(clauses, sel, not_a, b, v, numbers.t2(g))?;
    push_table(clauses, sel, not_a, not_b, v, numbers.t3(g))?;
    Ok(())
}

fn push_gate_pair(
    clauses: &mut ClauseArena,
    numbers: &Numbers,
    g: u32,
    j: u32,
    k: u32,
) -> Result<(), Memory>
    requires gate { g < numbers.now.gates }
    requires lower { j < k }
    requires earlier { k < numbers.now.bits + g }
    ensures { OnOk result (clauses.new.clauses ≡ clauses.old.clauses ++
        as_clauses numbers.now (gate_pair numbers.now g j k)) }
{
    for s in 0..numbers.shape().scenarios {
        push_gate_at(clauses, numbers, g, j, k, s)?;
    }
    Ok(())
}

fn push_gate_pairs_from(
    clauses: &mut ClauseArena,
    numbers: &Numbers,
    g: u32,
    j: u32,
) -> Result<(), Memory>
    requires gate { g < numbers.now.gates }
    requires earlier { j < numbers.now.bits + g }
    ensures { OnOk result (clauses.new.clauses ≡ clauses.old.clauses ++
        as_clauses numbers.now (pairs_from (gate_pair numbers.now g) (numbers.now.bits + g) j)) }
{
    let signals = numbers.shape().bits + g;
    for k in j + 1..signals {
        push_gate_pair(clauses, numbers, g, j, k)?;
    }
    Ok(())
}

fn push_gate_pairs(clauses: &mut ClauseArena, numbers: &Numbers, g: u32) -> Result<(), Memory>
    requires { g < numbers.now.gates }
    ensures { OnOk result (clauses.new.clauses ≡ clauses.old.clauses ++
        as_clauses numbers.now
        (each_below (pairs_from (gate_pair numbers.now g) (numbers.now.bits + g)) (numbers.now.bits + g))) }
{
    let signals = numbers.shape().bits + g;
    for j in 0..signals {
        push_gate_pairs_from(clauses, numbers, g, j)?;
    }
    Ok(())
}

fn push_selections_from(
    lits: &mut Vec<Lit>,
    numbers: &Numbers,
    g: u32,
    j: u32,
) -> Result<(), Memory>
    requires gate { g < numbers.now.gates }
    requires earlier { j < numbers.now.bits + g }
    ensures { OnOk result (lits.new.items ≡ lits.old.items ++ as_clause numbers.now (pairs_from
        (λ j k. plain (Sel g j k) ∷ []) (numbers.now.bits + g) j)) }
{
    let signals = numbers.shape().bits + g;
    for k in j + 1..signals {
        lits.push(numbers.sel(g, j, k))?;
    }
    Ok(())
}

fn some_pair_selected(alloc: Global, numbers: &Numbers, g: u32) -> Result<Vec<Lit>, Memory>
    requires { g < numbers.now.gates }
    ensures { IfOk result (λ lits. lits.items ≡ as_clause numbers.now (some_pair numbers.now g)) }
{
    let mut lits = Vec::new(alloc);
    let signals = numbers.shape().bits + g;
    for j in 0..signals {
        push_selections_from(&mut lits, numbers, g, j)?;
    }
    Ok(lits)
}

fn push_gate(
    alloc: Global,
    clauses: &mut ClauseArena,
    numbers: &Numbers,
    g: u32,
) -> Result<(), Memory>
    requires { g < numbers.now.gates }
    ensures { OnOk result (clauses.new.clauses ≡ clauses.old.clauses ++
        as_clauses numbers.now (one_gate numbers.now g)) }
{
    let some = some_pair_selected(alloc, numbers, g)?;
    clauses.push(&some)?;
    push_gate_pairs(clauses, numbers, g)?;
    Ok(())
}

pub(crate) fn push_gates(
    alloc: Global,
    clauses: &mut ClauseArena,
    numbers: &Numbers,
) -> Result<(), Memory>
    ensures { OnOk result (clauses.new.clauses ≡ clauses.old.clauses ++
        as_clauses numbers.now (gate_clauses numbers.now)) }
{
    for g in 0..numbers.shape().gates {
        push_gate(alloc, clauses, numbers, g)?;
    }
    Ok(())
}
