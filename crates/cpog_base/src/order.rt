ghost use Rattle.std.specs.Prelude.{◌≡◌, ◌<◌, ◌≤◌, length, slice_index_or};
ghost use Rattle.std.specs.FinSet as set;
ghost use Rattle.cpog_defs.specs.Orders.{IsOrder};

use crate::OpSet;
use cpog_defs::types::OpId;
use sqlite_items::Items;
use std::marker::Model;

/// A strict partial order of the operations of a scenario: for each operation the set of those before it.
#[derive(Debug, Drop)]
pub struct Order {
    ops: OpSet,
    before: Items<OpSet>,
}

impl Model for Order {
    ghost use Rattle.std.specs.Prelude.{length, ◌≤◌};
    ghost use Rattle.cpog_defs.specs.Orders as orders;
    ghost use Rattle.cpog_defs.specs.Stored.{order_code};

    ghost Value = { orders.Order };

    ghost coded = { order_code };

    ghost view = { λ o. record { count = length o.before; ops = o.ops; before = o.before } };

    ghost invariant = { λ o. (length o.before ≤ 128) × orders.IsOrder (record { count = length o.before; ops = o.ops; before = o.before }) };
}

impl Order {
    /// The order of these operations in which each has the set at its number before it.
    pub fn from_sets(ops: OpSet, before: Vec<OpSet>) -> Order
        requires few { length before.items ≤ 128 }
        requires order { IsOrder (record { count = length before.items; ops = ops; before = before.items }) }
        ensures { result ≡ record { count = length before.items; ops = ops; before = before.items } }
    {
        Order {
            ops,
            before: Items::from_vec(before),
        }
    }

    /// How many operations there may be.
    pub fn count(&self) -> u8
        ensures count { result ≡ self.now.count }
        ensures few { self.now.count ≤ 128 }
        ensures order { IsOrder self.now }
    {
        self.before.len() as u8
    }

    /// The operations that the scenario has.
    pub fn ops(&self) -> OpSet
        ensures { result ≡ self.now.ops }
    {
        self.ops
    }

    /// The operations before one.
    pub fn before(&self, v: OpId) -> OpSet
        requires { v.0 < self.now.count }
        ensures { result ≡ slice_index_or self.now.before v.0 set.empty }
    {
        self.before.as_slice()[v.0 as usize]
    }

    /// For each operation, by its number, the operations before it.
    pub fn rows(&self) -> &[OpSet]
        ensures { result.now ≡ self.now.before }
    {
        self.before.as_slice()
    }
}
