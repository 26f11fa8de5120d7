//! The classes of some columns, and what each column belongs to.

ghost use Rattle.std.specs.Prelude.{◌≡◌, ◌<◌, length, slice_get, Some};
ghost use Rattle.cpog_defs.specs.Graphs.{IsPlace};
ghost use Rattle.cpog_merge.specs.Classes.{IsClassList, class_column, belongs_at};

use cpog_base::Column;
use cpog_defs::types::Place;
use sqlite_items::Items;
use std::marker::Model;

/// What serves a column: a constant, or the class of this number, complemented where negated.
#[derive(Clone, Copy, Debug, PartialEq, Eq)]
pub enum Belongs {
    Const(bool),
    Class { number: u32, negated: bool },
}

/// The classes of the columns of some scenarios, in column order, and what the column of each operation and of each
/// ordered pair belongs to.
#[derive(Debug, Drop)]
pub struct ClassList {
    count: u8,
    places: Items<Place>,
    columns: Items<Column>,
    ops: Items<Belongs>,
    // For each first operation of a pair, by its number, what the column of each second belongs to.
    arcs: Items<Belongs>,
}

impl Model for ClassList {
    ghost use Rattle.cpog_merge.specs.Classes.{Classes, IsClassList};

    ghost Value = { Classes };

    ghost view = { λ c. record { count = c.count; places = c.places; columns = c.columns; ops = c.ops; arcs = c.arcs } };

    ghost invariant = { λ c. IsClassList (record { count = c.count; places = c.places; columns = c.columns; ops = c.ops; arcs = c.arcs }) };
}

impl ClassList {
    /// The classes that are in these lists.
    pub(crate) fn from_vecs(
        count: u8,
        places: Vec<Place>,
        columns: Vec<Column>,
        ops: Vec<Belongs>,
        arcs: Vec<Belongs>,
    ) -> ClassList
        requires { IsClassList (record { count = count; places = places.items; columns = columns.items; ops = ops.items; arcs = arcs.items }) }
        ensures { result ≡ record { count = count; places = places.items; columns = columns.items; ops = ops.items; arcs = arcs.items } }
    {
        ClassList {
            count,
            places: Items::from_vec(places),
            columns: Items::from_vec(columns),
            ops: Items::from_vec(ops),
            arcs: Items::from_vec(arcs),
        }
    }

    /// How many operations there may be.
    pub fn operations(&self) -> u8
        ensures operations { result ≡ self.now.count }
        ensures list { IsClassList self.now }
    {
        self.count
    }

    /// How many classes there are.
    pub fn count(&self) -> u32
        ensures count { result ≡ length self.now.columns }
        ensures list { IsClassList self.now }
    {
        self.columns.len() as u32
    }

    /// The column of a class.
    pub fn column(&self, c: u32) -> Column
        requires { c < length self.now.columns }
        ensures { result ≡ class_column self.now c }
    {
        self.columns.as_slice()[c as usize]
    }

    /// The columns of the classes, in order.
    pub fn columns(&self) -> &[Column]
        ensures columns { result.now ≡ self.now.columns }
        ensures list { IsClassList self.now }
    {
        self.columns.as_slice()
    }

    /// The operation or the pair whose column is the class.
    pub fn place(&self, c: u32) -> Place
        requires { c < length self.now.columns }
        ensures { slice_get self.now.places c ≡ Some result }
    {
        self.places.as_slice()[c as usize]
    }

    /// What the column of an operation or of a pair belongs to.
    pub fn belongs(&self, p: Place) -> Belongs
        requires { IsPlace self.now.count p }
        ensures { result ≡ belongs_at self.now p }
    {
        match p {
            Place::Op(v) => self.ops.as_slice()[v.0 as usize],
            Place::Arc(u, v) => {
                self.arcs.as_slice()[u.0 as usize * self.count as usize + v.0 as usize]
            }
        }
    }
}
