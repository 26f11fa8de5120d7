//! The netlist of an encoding.
ghost use Rattle.std.specs.Prelude.{◌≡◌, ℕ, ◌<◌, [], length, map, slice_index_or, is_some, IfOk};
ghost use Rattle.std.specs.FinSet as set;
ghost use Rattle.cpog_defs.specs.Graphs.{arc_ref};
ghost use Rattle.handshake_eqs.specs.Netlists.{unless_zero, IsNetlistOf};
ghost use Rattle.handshake_eqs.specs.Agreement.{AgreesOverRuns};

use crate::Netlist;
use cpog_base::{Memory, OpId, OpSet};
use gate_core::{ConditionalGraph, Encoding, Ref};
use std::alloc::Global;

/// The controller of an encoding: its gates and conditions, an arc wire for each pair whose condition isn't the
/// constant 0, and each operation waits for exactly those from which an arc wire leads to it.
///
/// # Errors
///
/// `Memory` where none is left.
pub fn equations(alloc: Global, encoding: &Encoding) -> Result<Netlist, Memory>
    ensures netlist { IfOk result (λ n. IsNetlistOf encoding.now n) }
    ensures agrees { IfOk result (λ n. AgreesOverRuns encoding.now n) }
{
    let graph = encoding.graph();
    let gates = encoding.gates().try_clone(alloc)?;
    let conditions = conditions(alloc, graph)?;
    let wires = arc_wires(alloc, graph)?;
    let waits = waits(alloc, graph)?;
    Ok(Netlist::from_parts(gates, conditions, wires, waits))
}

/// The condition of each operation.
fn conditions(alloc: Global, graph: &ConditionalGraph) -> Result<Vec<Ref>, Memory>
    ensures { IfOk result (λ refs. refs.items ≡ graph.now.ops) }
{
    let count = graph.count();
    let mut refs = Vec::with_capacity(alloc, usize::from(count))?;
    for v in 0..count {
        refs.push(graph.op(OpId(v)))?;
    }
    Ok(refs)
}

/// For each operation the arc wires that lead from it.
fn arc_wires(alloc: Global, graph: &ConditionalGraph) -> Result<Vec<Vec<Option<Ref>>>, Memory>
    ensures { IfOk result (λ rows. map (λ row. row.items) rows.items ≡ map (map unless_zero) graph.now.arcs) }
{
    let count = graph.count();
    let mut rows = Vec::with_capacity(alloc, usize::from(count))?;
    for u in 0..count {
        rows.push(wires_from(alloc, graph, OpId(u))?)?;
    }
    Ok(rows)
}

/// The arc wires that lead from one operation.
fn wires_from(alloc: Global, graph: &ConditionalGraph, u: OpId) -> Result<Vec<Option<Ref>>, Memory>
    requires { u.0 < length graph.now.ops }
    ensures { IfOk result (λ row. row.items ≡ map unless_zero (slice_index_or graph.now.arcs u.0 [])) }
{
    let count = graph.count();
    let mut row = Vec::with_capacity(alloc, usize::from(count))?;
    for v in 0..count {
        row.push(wire(graph.arc(u, OpId(v))))?;
    }
    Ok(row)
}

/// For each operation those from which an arc wire leads to it.
fn waits(alloc: Global, graph: &ConditionalGraph) -> Result<Vec<OpSet>, Memory>
    ensures len { IfOk result (λ sets. length sets.items ≡ length graph.now.ops) }
    ensures each { IfOk result (λ sets. (u v : ℕ) → set.contains (slice_index_or sets.items v set.empty) u ≡ is_some (unless_zero (arc_ref graph.now u v))) }
{
    let count = graph.count();
    let mut sets = Vec::with_capacity(alloc, usize::from(count))?;
    for v in 0..count {
        sets.push(waits_of(graph, OpId(v)))?;
    }
    Ok(sets)
}

/// The operations from which an arc wire leads to this one.
fn waits_of(graph: &ConditionalGraph, v: OpId) -> OpSet
    requires { v.0 < length graph.now.ops }
    ensures { (u : ℕ) → set.contains result u ≡ is_some (unless_zero (arc_ref graph.now u v.0)) }
{
    let mut waits = OpSet::empty();
    for u in 0..graph.count() {
        if wire(graph.arc(OpId(u), v)).is_some() {
            waits.insert(OpId(u));
        }
    }
    waits
}

/// The arc wire of a condition.
fn wire(r: Ref) -> Option<Ref>
    ensures { result ≡ unless_zero r }
{
    match r {
        Ref::Const(false) => None,
        _ => Some(r),
    }
}
