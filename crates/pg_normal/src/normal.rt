//! The forms of a file, each with the statement that it is of.
ghost use Rattle.std.specs.Prelude.{◌≡◌, ◌<◌, ◌^◌, length, slice_get};
ghost use Rattle.std.specs.Option.{IsSomeAnd};

use crate::{NormalForm, Partial};
use sqlite_items::Items;
use std::marker::Model;

/// What a statement with a form defines.
#[derive(Clone, Copy, Debug, PartialEq, Eq)]
pub enum Kind {
    Graph,
    Scenario,
}

/// Where a form comes from.
#[derive(Clone, Copy, Debug, PartialEq, Eq)]
pub struct Origin {
    /// The place of the statement in its file, from 0.
    pub statement: u32,
    /// The number of the statement's line, from 1.
    pub line: u32,
    /// What the statement defines.
    pub kind: Kind,
}

/// A normal form, the parameters that its statement binds, and where it comes from.
#[derive(Drop)]
pub struct Normal {
    pub(crate) form: NormalForm,
    pub(crate) binding: Partial,
    pub(crate) origin: Origin,
}

impl Normal {
    /// The form.
    pub fn form(&self) -> &NormalForm
        ensures { result.now ≡ self.now.form }
    {
        &self.form
    }

    /// The parameters that the statement binds.
    pub fn binding(&self) -> Partial
        ensures { result ≡ self.now.binding }
    {
        self.binding
    }

    /// Where the form comes from.
    pub fn origin(&self) -> Origin
        ensures { result ≡ self.now.origin }
    {
        self.origin
    }
}

/// The normal forms of the graphs and scenarios of a file, in their order.
#[derive(Drop)]
pub struct NormalList {
    normals: Items<Normal>,
}

impl Model for NormalList {
    ghost use Rattle.std.specs.Prelude.{◌<◌, ◌^◌, length};
    ghost use Rattle.pg_normal.specs.Listed.{Listed};

    ghost Value = { Listed };

    ghost view = { λ l. record { normals = l.normals } };

    ghost invariant = { λ l. length l.normals < 2 ^ 32 };
}

impl NormalList {
    /// The list of these forms, which are fewer than 2 to the power 32.
    pub(crate) fn new(normals: Vec<Normal>) -> NormalList
        requires { length normals.items < 2 ^ 32 }
        ensures { result.normals ≡ normals.items }
    {
        NormalList {
            normals: Items::from_vec(normals),
        }
    }

    /// How many forms there are.
    pub fn len(&self) -> u32
        ensures { result ≡ length self.now.normals }
    {
        self.normals.len() as u32
    }

    /// The forms.
    pub fn as_slice(&self) -> &[Normal]
        ensures { result.now ≡ self.now.normals }
    {
        self.normals.as_slice()
    }

    /// The form at a place, from 0.
    pub fn form(&self, i: u32) -> &NormalForm
        requires { i < length self.now.normals }
        ensures { IsSomeAnd (slice_get self.now.normals i) (λ x. result.now ≡ x.form) }
    {
        &self.normals.as_slice()[i as usize].form
    }

    /// The parameters that the statement of the form at a place binds.
    pub fn bound(&self, i: u32) -> Partial
        requires { i < length self.now.normals }
        ensures { IsSomeAnd (slice_get self.now.normals i) (λ x. result ≡ x.binding) }
    {
        self.normals.as_slice()[i as usize].binding
    }
}
