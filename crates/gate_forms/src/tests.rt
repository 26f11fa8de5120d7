//! Worked gates from outside; with them, that the calls that take memory succeed where memory is there.

ghost use Rattle.std.specs.Prelude.{◌≡◌, ◌<◌, length, IfSome};

use crate::{flip, normalise, pad};
use gate_core::{Gate, GateList, Ref};
use std::alloc::Global;

/// The gate of the two inputs with a table.
fn one_gate(alloc: Global, table: u8) -> Option<GateList>
    requires { table < 16 }
    ensures inputs { IfSome result (λ list. list.inputs ≡ 2) }
    ensures gates { IfSome result (λ list. length list.gates ≡ 1) }
{
    let mut gates = GateList::new(alloc, 2);
    match gates.push(Gate { j: 0, k: 1, table }) {
        Ok(_) => Some(gates),
        Err(_) => None,
    }
}

/// A gate that is 1 where its signals are equal is the complement of one that is 1 where they differ.
#[test]
fn equality_is_read_from_difference(rt: HostRuntime) {
    let gates = one_gate(rt.alloc(), 9).expect(&rt, "there is memory");
    let equal = Ref::Signal {
        number: 2,
        negated: false,
    };
    let (list, refs) = normalise(rt.alloc(), &gates, &[equal]).expect(&rt, "there is memory");
    let difference = Gate {
        j: 0,
        k: 1,
        table: 6,
    };
    assert!(rt; list.gates() == [difference].as_slice());
    let complement = Ref::Signal {
        number: 2,
        negated: true,
    };
    assert!(rt; refs.as_slice() == [complement].as_slice());
}

#[test]
fn an_idle_gate_is_added(rt: HostRuntime) {
    let gates = GateList::new(rt.alloc(), 2);
    let list = pad(rt.alloc(), &gates, 1).expect(&rt, "there is memory");
    let idle = Gate {
        j: 0,
        k: 1,
        table: 0,
    };
    assert!(rt; list.gates() == [idle].as_slice());
}

/// What is 1 where both bits are 1 is, once both are complemented, 1 where both are 0.
#[test]
fn both_bits_are_complemented(rt: HostRuntime) {
    let gates = one_gate(rt.alloc(), 8).expect(&rt, "there is memory");
    let refs = [
        Ref::Signal {
            number: 2,
            negated: false,
        },
        Ref::Signal {
            number: 0,
            negated: false,
        },
    ];
    let moved = flip(rt.alloc(), 3, &[3, 0], &gates, &refs).expect(&rt, "there is memory");
    assert!(rt; moved.codes.as_slice() == [0, 3].as_slice());
    let neither = Gate {
        j: 0,
        k: 1,
        table: 1,
    };
    assert!(rt; moved.gates.gates() == [neither].as_slice());
    let want = [
        Ref::Signal {
            number: 2,
            negated: false,
        },
        Ref::Signal {
            number: 0,
            negated: true,
        },
    ];
    assert!(rt; moved.refs.as_slice() == want.as_slice());
}
