//! A column for each operation and for each ordered pair.

ghost use Rattle.std.specs.Prelude.{◌≡◌, ◌≢◌, ◌<◌};
ghost use Rattle.cpog_defs.specs.declared.types.Place.TheVariants.{Op, Arc};
ghost use Rattle.cpog_merge.specs.Columns.{AreColumns, column_at};

use cpog_base::{Column, OpId};
use sqlite_items::Items;
use std::marker::Model;

/// The columns of some scenarios: one for each operation, and one for each ordered pair of different operations.
#[derive(Debug, Drop)]
pub struct Columns {
    count: u8,
    scenarios: u8,
    ops: Items<Column>,
    // For each second operation of a pair, by its number, the column of each first.
    arcs: Items<Column>,
}

impl Model for Columns {
    ghost use Rattle.cpog_merge.specs.Columns.{Columns, AreColumns};

    ghost Value = { Columns };

    ghost view = { λ c. record { count = c.count; scenarios = c.scenarios; ops = c.ops; arcs = c.arcs } };

    ghost invariant = { λ c. AreColumns (record { count = c.count; scenarios = c.scenarios; ops = c.ops; arcs = c.arcs }) };
}

impl Columns {
    /// The columns that are in these lists.
    pub(crate) fn from_vecs(
        count: u8,
        scenarios: u8,
        ops: Vec<Column>,
        arcs: Vec<Column>,
    ) -> Columns
        requires { AreColumns (record { count = count; scenarios = scenarios; ops = ops.items; arcs = arcs.items }) }
        ensures { result ≡ record { count = count; scenarios = scenarios; ops = ops.items; arcs = arcs.items } }
    {
        Columns {
            count,
            scenarios,
            ops: Items::from_vec(ops),
            arcs: Items::from_vec(arcs),
        }
    }

    /// How many operations there may be.
    pub fn count(&self) -> u8
        ensures count { result ≡ self.now.count }
        ensures columns { AreColumns self.now }
    {
        self.count
    }

    /// How many scenarios there are, each with an entry in each column.
    pub fn scenarios(&self) -> u8
        ensures { result ≡ self.now.scenarios }
    {
        self.scenarios
    }

    /// The column of an operation.
    pub fn op(&self, v: OpId) -> Column
        requires { v.0 < self.now.count }
        ensures { result ≡ column_at self.now (Op v) }
    {
        self.ops.as_slice()[v.0 as usize]
    }

    /// The column of an ordered pair of operations.
    pub fn arc(&self, u: OpId, v: OpId) -> Column
        requires first { u.0 < self.now.count }
        requires second { v.0 < self.now.count }
        requires different { u.0 ≢ v.0 }
        ensures { result ≡ column_at self.now (Arc u v) }
    {
        let place = v.0 as usize * self.count as usize + u.0 as usize;
        self.arcs.as_slice()[place]
    }
}
