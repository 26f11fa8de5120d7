//! What no clause says: that the calls that take memory succeed where memory is there.

use crate::{Inputs, Netlist, equations, settle};
use cpog_base::{OpId, OpSet};
use gate_core::{ConditionalGraph, Encoding, GateList, Ref};

#[test]
fn a_chain_of_two_is_requested_in_turn(rt: HostRuntime) {
    let (first, second) = (OpId(0), OpId(1));
    let gates = GateList::new(rt.alloc(), 1);
    let mut netlist = Netlist::new(rt.alloc(), gates, 2).expect(&rt, "there is memory");
    netlist.set_condition(first, Ref::Const(true));
    netlist.set_condition(second, Ref::Const(true));
    netlist
        .add_wire(first, second, Ref::Const(true))
        .expect(&rt, "there is memory");
    netlist.add_wait(first, second);
    let mut inputs = Inputs {
        x: 0,
        go: true,
        acks: OpSet::empty(),
    };
    let mut values = [false];
    let before = settle(&netlist, &inputs, &mut values);
    assert!(rt;
        before.requests.contains(first) && !before.requests.contains(second) && !before.done
    );
    inputs.acks.insert(first);
    let after = settle(&netlist, &inputs, &mut values);
    assert!(rt; after.requests.contains(second) && !after.done && !after.idle);
}

#[test]
fn an_encoding_has_equations(rt: HostRuntime) {
    let codes = vec![in rt.alloc(); 0u8].expect(&rt, "there is memory");
    let graph = ConditionalGraph::new(rt.alloc(), 1).expect(&rt, "there is memory");
    let encoding = Encoding::new(codes, GateList::new(rt.alloc(), 1), graph);
    let netlist = equations(rt.alloc(), &encoding).expect(&rt, "there is memory");
    assert_eq!(rt; netlist.bits(), 1);
    assert_eq!(rt; netlist.count(), 1);
}
