ghost use Rattle.std.specs.Prelude.{◌≡◌, ◌≢◌, ◌<◌, ◌≤◌, false, [], length, replicate, map, slice_index_or, slice_set, Some, None, IsSome, IfOk, OnOk, OnErr};
ghost use Rattle.std.specs.FinSet as set;
ghost use Rattle.cpog_defs.specs.declared.types.Ref.TheVariants.{Const};
ghost use Rattle.cpog_defs.specs.Gates.{signal_count, IsRefOver};
ghost use Rattle.handshake_eqs.specs.Netlists.{IsNetlist, condition_of, wire_of, waits_of};

use cpog_base::{BIT_LIMIT, Memory, OpId, OpSet};
use gate_core::{GateList, Ref};
use std::alloc::Global;
use std::marker::Model;

/// The equations of a controller over gates: for each of at most 128 operations a condition, the arc wires that lead
/// from it with their conditions, and the operations whose acknowledges it waits for, each over an arc wire.
#[derive(Debug, Drop)]
pub struct Netlist {
    gates: GateList,
    conditions: Vec<Ref>,
    wires: Vec<Vec<Option<Ref>>>,
    waits: Vec<OpSet>,
}

impl Model for Netlist {
    ghost use Rattle.std.specs.Prelude.{map};
    ghost use Rattle.handshake_eqs.specs.Netlists as netlists;
    ghost use Rattle.handshake_eqs.specs.StoredNetlist.{netlist_code};

    ghost Value = { netlists.Netlist };

    ghost coded = { netlist_code };

    ghost view = { λ n. record { gates = n.gates; conditions = n.conditions.items; wires = map (λ row. row.items) n.wires.items; waits = n.waits.items } };

    ghost invariant = { λ n. netlists.IsNetlist (record { gates = n.gates; conditions = n.conditions.items; wires = map (λ row. row.items) n.wires.items; waits = n.waits.items }) };
}

impl Netlist {
    /// The netlist of so many operations in which each condition is the constant 0, with no arc wire and no wait.
    ///
    /// # Errors
    ///
    /// `Memory` where none is left.
    pub fn new(alloc: Global, gates: GateList, count: u8) -> Result<Netlist, Memory>
        requires { count ≤ 128 }
        ensures { IfOk result (λ n. n ≡ record { gates = gates; conditions = replicate count (Const false); wires = replicate count (replicate count None); waits = replicate count set.empty }) }
    {
        let conditions = constants(alloc, count)?;
        let waits = no_waits(alloc, count)?;
        let mut wires = Vec::with_capacity(alloc, usize::from(count))?;
        for _u in 0..count {
            wires.push(no_wires(alloc, count)?)?;
        }
        Ok(Netlist {
            gates,
            conditions,
            wires,
            waits,
        })
    }

    /// The netlist of these parts.
    pub(crate) fn from_parts(
        gates: GateList,
        conditions: Vec<Ref>,
        wires: Vec<Vec<Option<Ref>>>,
        waits: Vec<OpSet>,
    ) -> Netlist
        requires { IsNetlist (record { gates = gates; conditions = conditions.items; wires = map (λ row. row.items) wires.items; waits = waits.items }) }
        ensures { result ≡ record { gates = gates; conditions = conditions.items; wires = map (λ row. row.items) wires.items; waits = waits.items } }
    {
        Netlist {
            gates,
            conditions,
            wires,
            waits,
        }
    }

    /// Gives an operation this condition.
    pub fn set_condition(&mut self, v: OpId, r: Ref)
        requires below { v.0 < length self.old.conditions }
        requires over { IsRefOver (signal_count self.old.gates) r }
        ensures { self.new ≡ record self.old { conditions = slice_set self.old.conditions v.0 r } }
    {
        self.conditions[v.0 as usize] = r;
    }

    /// Declares the arc wire from `u` to `v`, with this condition.
    ///
    /// # Errors
    ///
    /// `Memory` where none is left.
    pub fn add_wire(&mut self, u: OpId, v: OpId, r: Ref) -> Result<(), Memory>
        requires first { u.0 < length self.old.conditions }
        requires second { v.0 < length self.old.conditions }
        requires differ { u.0 ≢ v.0 }
        requires over { IsRefOver (signal_count self.old.gates) r }
        requires undeclared { wire_of self.old u.0 v.0 ≡ None }
        ensures wires { OnOk result (self.new ≡ record self.old { wires = slice_set self.old.wires u.0 (slice_set (slice_index_or self.old.wires u.0 []) v.0 (Some r)) }) }
        ensures err { OnErr result (self.new ≡ self.old) }
    {
        self.wires[u.0 as usize][v.0 as usize] = Some(r);
        Ok(())
    }

    /// Lets `v` wait for `u`.
    pub fn add_wait(&mut self, u: OpId, v: OpId)
        requires first { u.0 < length self.old.conditions }
        requires second { v.0 < length self.old.conditions }
        requires declared { IsSome (wire_of self.old u.0 v.0) }
        ensures { self.new ≡ record self.old { waits = slice_set self.old.waits v.0 (set.insert (waits_of self.old v.0) u.0) } }
    {
        self.waits[v.0 as usize].insert(u);
    }

    /// How many operations there are.
    pub fn count(&self) -> u8
        ensures count { result ≡ length self.now.conditions }
        ensures netlist { IsNetlist self.now }
    {
        self.conditions.len() as u8
    }

    /// How many inputs the gates have: the bits of a code.
    pub fn bits(&self) -> u8
        ensures bits { result ≡ self.now.gates.inputs }
        ensures few { self.now.gates.inputs ≤ BIT_LIMIT }
    {
        self.gates.inputs()
    }

    /// The gates over the code's bits.
    pub fn gates(&self) -> &GateList
        ensures gates { result.now ≡ self.now.gates }
        ensures netlist { IsNetlist self.now }
    {
        &self.gates
    }

    /// The condition of an operation.
    pub fn condition(&self, v: OpId) -> Ref
        requires { v.0 < length self.now.conditions }
        ensures { result ≡ condition_of self.now v.0 }
    {
        self.conditions[v.0 as usize]
    }

    /// The condition of the arc wire from `u` to `v`, where that is declared.
    pub fn arc_wire(&self, u: OpId, v: OpId) -> Option<Ref>
        requires first { u.0 < length self.now.conditions }
        requires second { v.0 < length self.now.conditions }
        ensures { result ≡ wire_of self.now u.0 v.0 }
    {
        let row = &self.wires[u.0 as usize];
        row[v.0 as usize]
    }

    /// The operations that `v` waits for.
    pub fn waits(&self, v: OpId) -> OpSet
        requires { v.0 < length self.now.conditions }
        ensures { result ≡ waits_of self.now v.0 }
    {
        self.waits[v.0 as usize]
    }
}

/// So many conditions that are the constant 0.
fn constants(alloc: Global, count: u8) -> Result<Vec<Ref>, Memory>
    ensures { IfOk result (λ row. row.items ≡ replicate count (Const false)) }
{
    Ok(vec![in alloc; Ref::Const(false); usize::from(count)]?)
}

/// So many places without an arc wire.
fn no_wires(alloc: Global, count: u8) -> Result<Vec<Option<Ref>>, Memory>
    ensures { IfOk result (λ row. row.items ≡ replicate count None) }
{
    Ok(vec![in alloc; None; usize::from(count)]?)
}

/// So many operations that wait for none.
fn no_waits(alloc: Global, count: u8) -> Result<Vec<OpSet>, Memory>
    ensures { IfOk result (λ row. row.items ≡ replicate count set.empty) }
{
    Ok(vec![in alloc; OpSet::empty(); usize::from(count)]?)
}
