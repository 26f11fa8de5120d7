//! The outputs to which a netlist settles on given inputs.
ghost use Rattle.std.specs.Prelude.{◌≡◌, ℕ, ◌<◌, ◌&&◌, not, length};
ghost use Rattle.std.specs.FinSet as set;
ghost use Rattle.cpog_defs.specs.Orders.{any_below};
ghost use Rattle.cpog_defs.specs.Gates.{signal_count, signal_values, ref_value, IsRefOver};
ghost use Rattle.handshake_eqs.specs.Netlists.{wire_of, IsNetlist, IsWireOver};
ghost use Rattle.handshake_eqs.specs.Agreement.{request, done, idle, request_enabled, all_acknowledged, condition_value, wire_value};

use crate::{Inputs, Netlist, Outputs};
use cpog_base::{OpId, OpSet};
use gate_core::Ref;

/// The outputs on these inputs, once all gates have settled; `values` gets the value of each signal.
pub fn settle(netlist: &Netlist, inputs: &Inputs, values: &mut [bool]) -> Outputs
    requires { length values.old ≡ signal_count netlist.now.gates }
    ensures requests { (v : ℕ) → set.contains result.requests v ≡ request netlist.now inputs.now v }
    ensures done { result.done ≡ done netlist.now inputs.now }
    ensures idle { result.idle ≡ idle netlist.now inputs.now }
    ensures values { values.new ≡ signal_values netlist.now.gates inputs.now.x }
{
    netlist.gates().eval(inputs.x, values);
    let go = inputs.go;
    let requests = if go {
        enabled(netlist, values, &inputs.acks)
    } else {
        OpSet::empty()
    };
    Outputs {
        requests,
        done: go && all_acknowledged(netlist, values, &inputs.acks),
        idle: !go && !any_acknowledged(netlist, &inputs.acks),
    }
}

/// The operations that are enabled under these values and acknowledges.
fn enabled(netlist: &Netlist, values: &[bool], acks: &OpSet) -> OpSet
    requires { length values.now ≡ signal_count netlist.now.gates }
    ensures { (v : ℕ) → set.contains result v ≡ request_enabled netlist.now values.now acks.now v }
{
    let mut enabled = OpSet::empty();
    for v in 0..netlist.count() {
        if is_enabled(netlist, values, acks, OpId(v)) {
            enabled.insert(OpId(v));
        }
    }
    enabled
}

/// Whether the operation's condition is 1, and each that it waits for is acknowledged or not there.
fn is_enabled(netlist: &Netlist, values: &[bool], acks: &OpSet, v: OpId) -> bool
    requires netlist { IsNetlist netlist.now }
    requires values { length values.now ≡ signal_count netlist.now.gates }
    requires below { v.0 < length netlist.now.conditions }
    ensures { result ≡ request_enabled netlist.now values.now acks.now v.0 }
{
    if !value(netlist.condition(v), values) {
        return false;
    }
    let mut missing = netlist.waits(v).difference(acks);
    'missing: while let Some(u) = missing.first() {
        if is_awaited(netlist, values, u, v) {
            return false;
        }
        missing.remove(u);
    }
    true
}

/// Whether the conditions of an operation and of the arc from it are 1.
fn is_awaited(netlist: &Netlist, values: &[bool], u: OpId, v: OpId) -> bool
    requires netlist { IsNetlist netlist.now }
    requires values { length values.now ≡ signal_count netlist.now.gates }
    requires first { u.0 < length netlist.now.conditions }
    requires second { v.0 < length netlist.now.conditions }
    ensures { result ≡ (condition_value netlist.now values.now u.0 && wire_value values.now (wire_of netlist.now u.0 v.0)) }
{
    value(netlist.condition(u), values) && wire(netlist.arc_wire(u, v), values)
}

/// Whether each operation is acknowledged or has the condition 0.
fn all_acknowledged(netlist: &Netlist, values: &[bool], acks: &OpSet) -> bool
    requires { length values.now ≡ signal_count netlist.now.gates }
    ensures { result ≡ all_acknowledged netlist.now values.now acks.now }
{
    for v in 0..netlist.count() {
        let v = OpId(v);
        if !acks.contains(v) && value(netlist.condition(v), values) {
            return false;
        }
    }
    true
}

/// Whether some operation is acknowledged.
fn any_acknowledged(netlist: &Netlist, acks: &OpSet) -> bool
    ensures { result ≡ any_below (set.contains acks.now) (length netlist.now.conditions) }
{
    for v in 0..netlist.count() {
        if acks.contains(OpId(v)) {
            return true;
        }
    }
    false
}

/// The value of a reference, from the values of the signals.
fn value(r: Ref, values: &[bool]) -> bool
    requires { IsRefOver (length values.now) r }
    ensures { result ≡ ref_value values.now r }
{
    match r {
        Ref::Const(value) => value,
        Ref::Signal { number, negated } => values[number as usize] != negated,
    }
}

/// The value of an arc wire: 0 where it isn't declared.
fn wire(wire: Option<Ref>, values: &[bool]) -> bool
    requires { IsWireOver (length values.now) wire }
    ensures { result ≡ wire_value values.now wire }
{
    match wire {
        Some(r) => value(r, values),
        None => false,
    }
}
