//! A netlist is put together from the parts that were read.
ghost use Rattle.std.specs.Prelude.{◌≡◌, ◌≢◌, ◌≤◌, ◌<◌, ℕ, true, false, if◌then◌else◌, [], None, length, map, slice_index_or, slice_set, IsSome, IfOk, OnOk};
ghost use Rattle.std.specs.FinSet as set;
ghost use Rattle.cpog_defs.specs.declared.types.Ref.TheVariants.{Const};
ghost use Rattle.cpog_defs.specs.Gates.{signal_count, IsRefOver};
ghost use Rattle.handshake_eqs.specs.Netlists.{IsNetlist, IsWireOver, wire_of, waits_of};

use cpog_base::{Memory, OpId, OpSet};
use gate_core::{GateList, Ref};
use handshake_eqs::Netlist;
use std::alloc::Global;

/// Gives all operations these conditions.
fn put_conditions(netlist: &mut Netlist, conditions: &[Ref])
    requires few { length conditions.now ≤ 128 }
    requires long { length conditions.now ≡ length netlist.old.conditions }
    requires over { (v : ℕ) → IsRefOver (signal_count netlist.old.gates) (slice_index_or conditions.now v (Const false)) }
    ensures { netlist.new ≡ record netlist.old { conditions = conditions.now } }
{
    let count = conditions.len() as u8;
    for v in 0..count {
        netlist.set_condition(OpId(v), conditions[v as usize]);
    }
}

/// Declares the arc wire from `u` to `v`, where there is one.
#[tactic(auto, using(crate::proofs::AssemblyLaws::none_put))]
fn put_wire(netlist: &mut Netlist, u: u8, v: u8, wire: Option<Ref>) -> Result<(), Memory>
    requires first { u < length netlist.old.conditions }
    requires second { v < length netlist.old.conditions }
    requires own { IsSome wire → u ≢ v }
    requires over { IsWireOver (signal_count netlist.old.gates) wire }
    requires undeclared { wire_of netlist.old u v ≡ None }
    ensures { OnOk result (netlist.new ≡ record netlist.old { wires = slice_set netlist.old.wires u (slice_set (slice_index_or netlist.old.wires u []) v wire) }) }
{
    match wire {
        None => Ok(()),
        Some(condition) => netlist.add_wire(OpId(u), OpId(v), condition),
    }
}

/// Declares the arc wires from `u`.
fn put_wires_from(netlist: &mut Netlist, u: u8, row: &[Option<Ref>]) -> Result<(), Memory>
    requires few { length row.now ≤ 128 }
    requires long { length row.now ≡ length netlist.old.conditions }
    requires first { u < length netlist.old.conditions }
    requires rows { length netlist.old.wires ≡ length netlist.old.conditions }
    requires columns { length (slice_index_or netlist.old.wires u []) ≡ length netlist.old.conditions }
    requires own { slice_index_or row.now u None ≡ None }
    requires over { (v : ℕ) → IsWireOver (signal_count netlist.old.gates) (slice_index_or row.now v None) }
    requires undeclared { (v : ℕ) → wire_of netlist.old u v ≡ None }
    ensures { OnOk result (netlist.new ≡ record netlist.old { wires = slice_set netlist.old.wires u row.now }) }
{
    let count = row.len() as u8;
    for v in 0..count {
        put_wire(netlist, u, v, row[v as usize])?;
    }
    Ok(())
}

/// Declares all arc wires.
fn put_wires(netlist: &mut Netlist, wires: &[Vec<Option<Ref>>]) -> Result<(), Memory>
    requires few { length wires.now ≤ 128 }
    requires long { length wires.now ≡ length netlist.old.conditions }
    requires rows { length netlist.old.wires ≡ length netlist.old.conditions }
    requires columns { (u : ℕ) → u < length netlist.old.conditions → length (slice_index_or netlist.old.wires u []) ≡ length netlist.old.conditions }
    requires square { (u : ℕ) → u < length netlist.old.conditions → length (slice_index_or (map (λ row. row.items) wires.now) u []) ≡ length netlist.old.conditions }
    requires own { (u : ℕ) → slice_index_or (slice_index_or (map (λ row. row.items) wires.now) u []) u None ≡ None }
    requires over { (u v : ℕ) → IsWireOver (signal_count netlist.old.gates) (slice_index_or (slice_index_or (map (λ row. row.items) wires.now) u []) v None) }
    requires undeclared { (u v : ℕ) → wire_of netlist.old u v ≡ None }
    ensures { OnOk result (netlist.new ≡ record netlist.old { wires = map (λ row. row.items) wires.now }) }
{
    let count = wires.len() as u8;
    for u in 0..count {
        put_wires_from(netlist, u, wires_at(wires, u))?;
    }
    Ok(())
}

/// A row of the arc wires.
#[tactic(auto, using(crate::proofs::LoopLaws::mapped_at))]
fn wires_at(wires: &[Vec<Option<Ref>>], u: u8) -> &[Option<Ref>]
    requires { u < length wires.now }
    ensures { result.now ≡ slice_index_or (map (λ row. row.items) wires.now) u [] }
{
    &wires[u as usize]
}

/// Lets `v` wait for `u`, where it is to.
#[tactic(auto, using(crate::proofs::AssemblyLaws::wait_none_put))]
fn put_wait(netlist: &mut Netlist, u: u8, v: u8, is_waited: bool)
    requires first { u < length netlist.old.conditions }
    requires second { v < length netlist.old.conditions }
    requires declared { is_waited ≡ true → IsSome (wire_of netlist.old u v) }
    ensures { netlist.new ≡ record netlist.old { waits = slice_set netlist.old.waits v (if is_waited then set.insert (waits_of netlist.old v) u else waits_of netlist.old v) } }
{
    if is_waited {
        netlist.add_wait(OpId(u), OpId(v));
    }
}

/// Lets `v` wait for these operations alone.
fn put_waits_of(netlist: &mut Netlist, v: u8, waits: OpSet)
    requires few { length netlist.old.conditions ≤ 128 }
    requires below { v < length netlist.old.conditions }
    requires long { length netlist.old.waits ≡ length netlist.old.conditions }
    requires none { waits_of netlist.old v ≡ set.empty }
    requires declared { (u : ℕ) → set.contains waits u ≡ true → (u < length netlist.old.conditions) × IsSome (wire_of netlist.old u v) }
    ensures { netlist.new ≡ record netlist.old { waits = slice_set netlist.old.waits v waits } }
{
    let count = netlist.count();
    for u in 0..count {
        put_wait(netlist, u, v, waits.contains(OpId(u)));
    }
}

/// The set of an operation.
fn set_at(waits: &[OpSet], v: u8) -> OpSet
    requires { v < length waits.now }
    ensures { result ≡ slice_index_or waits.now v set.empty }
{
    waits[v as usize]
}

/// Lets all operations wait for these.
fn put_waits(netlist: &mut Netlist, waits: &[OpSet])
    requires few { length waits.now ≤ 128 }
    requires long { length waits.now ≡ length netlist.old.conditions }
    requires places { length netlist.old.waits ≡ length netlist.old.conditions }
    requires none { (v : ℕ) → waits_of netlist.old v ≡ set.empty }
    requires declared { (u v : ℕ) → set.contains (slice_index_or waits.now v set.empty) u ≡ true → (u < length netlist.old.conditions) × IsSome (wire_of netlist.old u v) }
    ensures { netlist.new ≡ record netlist.old { waits = waits.now } }
{
    let count = waits.len() as u8;
    for v in 0..count {
        put_waits_of(netlist, v, set_at(waits, v));
    }
}

/// The netlist of these parts.
pub(crate) fn netlist_of(
    alloc: Global,
    gates: GateList,
    conditions: &[Ref],
    wires: &[Vec<Option<Ref>>],
    waits: &[OpSet],
) -> Result<Netlist, Memory>
    requires { IsNetlist (record { gates = gates; conditions = conditions.now; wires = map (λ row. row.items) wires.now; waits = waits.now }) }
    ensures { IfOk result (λ n. n ≡ record { gates = gates; conditions = conditions.now; wires = map (λ row. row.items) wires.now; waits = waits.now }) }
{
    let count = conditions.len() as u8;
    let mut netlist = Netlist::new(alloc, gates, count)?;
    put_conditions(&mut netlist, conditions);
    put_wires(&mut netlist, wires)?;
    put_waits(&mut netlist, waits);
    Ok(netlist)
}
