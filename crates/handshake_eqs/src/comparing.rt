//! Whether a netlist is that of an encoding. Its parts are compared one by one, and no second netlist is built.
ghost use Rattle.std.specs.Prelude.{◌≡◌, ◌↔◌, ◌<◌, ℕ, IsTrue, length};
ghost use Rattle.handshake_eqs.specs.Netlists.{unless_zero, IsNetlist, HasWiresFrom, WaitsForWires, IsNetlistOf};

use crate::Netlist;
use cpog_base::OpId;
use gate_core::{ConditionalGraph, Encoding, Gate, GateList, Ref};

/// Whether a netlist is that of an encoding: the one that `equations` makes of it. It takes no memory, and the time of
/// the gates and of the pairs of operations.
pub fn is_netlist_of(encoding: &Encoding, netlist: &Netlist) -> bool
    ensures { IsTrue result ↔ IsNetlistOf encoding.now netlist.now }
{
    let graph = encoding.graph();
    same_gate_lists(netlist.gates(), encoding.gates())
        && has_conditions(netlist, graph)
        && has_wires(netlist, graph)
        && waits_for_wires(netlist)
}

/// Whether two lists have the same inputs and gates.
fn same_gate_lists(list: &GateList, other: &GateList) -> bool
    ensures { IsTrue result ↔ (list.now ≡ other.now) }
{
    list.inputs() == other.inputs() && same_gates(list.gates(), other.gates())
}

fn same_gates(gates: &[Gate], others: &[Gate]) -> bool
    ensures { IsTrue result ↔ (gates.now ≡ others.now) }
{
    if gates.len() != others.len() {
        return false;
    }
    for g in 0..gates.len() {
        if gates[g] != others[g] {
            return false;
        }
    }
    true
}

/// Whether each operation has the condition that it has in the graph.
fn has_conditions(netlist: &Netlist, graph: &ConditionalGraph) -> bool
    ensures { IsTrue result ↔ (netlist.now.conditions ≡ graph.now.ops) }
{
    if netlist.count() != graph.count() {
        return false;
    }
    for v in 0..graph.count() {
        if netlist.condition(OpId(v)) != graph.op(OpId(v)) {
            return false;
        }
    }
    true
}

/// Whether the arc wires are those of the graph.
fn has_wires(netlist: &Netlist, graph: &ConditionalGraph) -> bool
    requires netlist { IsNetlist netlist.now }
    requires count { length netlist.now.conditions ≡ length graph.now.ops }
    ensures { IsTrue result ↔ ((u : ℕ) → HasWiresFrom graph.now netlist.now u) }
{
    for u in 0..graph.count() {
        if !has_wires_from(netlist, graph, OpId(u)) {
            return false;
        }
    }
    true
}

/// Whether the arc wires that lead from one operation are those of the graph.
fn has_wires_from(netlist: &Netlist, graph: &ConditionalGraph, u: OpId) -> bool
    requires netlist { IsNetlist netlist.now }
    requires count { length netlist.now.conditions ≡ length graph.now.ops }
    requires within { u.0 < length graph.now.ops }
    ensures { IsTrue result ↔ HasWiresFrom graph.now netlist.now u.0 }
{
    for v in 0..graph.count() {
        if !is_wire_of(netlist.arc_wire(u, OpId(v)), graph.arc(u, OpId(v))) {
            return false;
        }
    }
    true
}

/// Whether this is the arc wire of a condition.
fn is_wire_of(wire: Option<Ref>, condition: Ref) -> bool
    ensures { IsTrue result ↔ (wire ≡ unless_zero condition) }
{
    match wire {
        Some(r) => r == condition && condition != Ref::Const(false),
        None => condition == Ref::Const(false),
    }
}

/// Whether each operation waits for all from which an arc wire leads to it.
fn waits_for_wires(netlist: &Netlist) -> bool
    ensures { IsTrue result ↔ ((v : ℕ) → WaitsForWires netlist.now v) }
{
    for v in 0..netlist.count() {
        if !waits_for_wires_to(netlist, OpId(v)) {
            return false;
        }
    }
    true
}

/// Whether an operation waits for all from which an arc wire leads to it.
fn waits_for_wires_to(netlist: &Netlist, v: OpId) -> bool
    requires { v.0 < length netlist.now.conditions }
    ensures { IsTrue result ↔ WaitsForWires netlist.now v.0 }
{
    for u in 0..netlist.count() {
        if netlist.arc_wire(OpId(u), v).is_some() && !netlist.waits(v).contains(OpId(u)) {
            return false;
        }
    }
    true
}
