//! What no clause says: that the calls that take memory succeed where memory is there. Four scenarios have an operation
//! each, so each column has a 1 and any two of them agree where both have a 0.

ghost use Rattle.std.specs.Prelude.{◌≡◌, ◌<◌, ◌≤◌, length, IfOk};
ghost use Rattle.std.specs.List.{All};
ghost use Rattle.cpog_defs.specs.Orders.{IsOrderOf};

use crate::{ClassList, classes, incompatible_set, merge};
use cpog_base::{Memory, OpId, OpSet, Order, empty_sets};
use order_reduce::covered_orders;
use std::alloc::Global;

/// One operation of four.
fn alone(alloc: Global, v: OpId) -> Result<Order, Memory>
    requires { v.0 < 4 }
    ensures { IfOk result (IsOrderOf 4) }
{
    let mut ops = OpSet::empty();
    ops.insert(v);
    let before = empty_sets(alloc, 4)?;
    Ok(Order::from_sets(ops, before))
}

/// The classes of four scenarios, each of which has an operation of its own.
fn four_classes(alloc: Global) -> Result<ClassList, Memory> {
    let mut orders = Vec::new(alloc);
    for v in 0..4 {
        orders.push(alone(alloc, OpId(v))?)?;
    }
    let columns = merge(alloc, &covered_orders(alloc, orders)?)?;
    classes(alloc, &columns)
}

#[test]
fn each_operation_needs_a_signal(rt: HostRuntime) {
    let list = four_classes(rt.alloc()).expect(&rt, "there is memory");
    assert_eq!(rt; list.count(), 4);
    let taken = incompatible_set(rt.alloc(), &list).expect(&rt, "there is memory");
    assert!(rt; taken.as_slice() == [0, 1, 2, 3].as_slice());
}
