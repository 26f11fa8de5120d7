//! Operations in the order in which they first appear.
ghost use Rattle.std.specs.Prelude.{◌≡◌, ◌<◌, ◌==◌, [], length, slice_get, Some, OnOk};
ghost use Rattle.std.specs.List.{IsDistinct};
ghost use Rattle.pg_normal.specs.Appearing.{with_number, with_numbers};

use cpog_base::Memory;
use indexmap::IndexSet;
use std::alloc::Global;
use std::marker::Model;

/// Different operations in a row.
#[derive(Drop)]
pub(crate) struct Appearance {
    set: IndexSet<u32>,
}

impl Model for Appearance {
    ghost use Rattle.std.specs.Prelude.{List, ℕ, ◌==◌};
    ghost use Rattle.std.specs.List.{IsDistinct};

    ghost Value = { List ℕ };

    ghost view = { λ o. o.set.keys };

    ghost invariant = { λ o. IsDistinct (λ v w. v == w) o.set.keys };
}

impl Appearance {
    /// No operation yet.
    pub(crate) fn new(alloc: Global) -> Appearance
        ensures { result ≡ [] }
    {
        Appearance {
            set: IndexSet::new(alloc),
        }
    }

    /// How many operations there are.
    pub(crate) fn len(&self) -> usize
        ensures len { result ≡ length self.now }
        ensures distinct { IsDistinct (λ v w. v == w) self.now }
    {
        self.set.len()
    }

    /// The operation at a place.
    pub(crate) fn get(&self, i: usize) -> u32
        requires { i < length self.now }
        ensures { slice_get self.now i ≡ Some result }
    {
        *self.set.get_index(i).unwrap()
    }

    /// Puts an operation last, where it is new.
    ///
    /// # Errors
    ///
    /// `Memory` where none is left.
    pub(crate) fn note(&mut self, v: u32) -> Result<(), Memory>
        ensures { OnOk result (self.new ≡ with_number self.old v) }
    {
        self.set.insert(v)?;
        Ok(())
    }

    /// Puts the operations of another row last, where they are new.
    ///
    /// # Errors
    ///
    /// `Memory` where none is left.
    pub(crate) fn note_all(&mut self, more: &Appearance) -> Result<(), Memory>
        ensures { OnOk result (self.new ≡ with_numbers self.old more.now) }
    {
        'places: for i in 0..more.len() {
            self.note(more.get(i))?;
        }
        Ok(())
    }
}
