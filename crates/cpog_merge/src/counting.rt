//! Columns that need different signals. Two columns that agree at one scenario and differ at another are met by no one
//! signal, neither as it stands nor complemented. So open columns any two of which are incompatible need as many
//! signals as they are, and these are code bits and gates.

ghost use Rattle.std.specs.Prelude.{◌≡◌, ◌↔◌, ◌<◌, ℕ, IsTrue, length, IfOk};
ghost use Rattle.std.specs.List.{All, Contains};
ghost use Rattle.cpog_merge.specs.Incompatible.{AreIncompatible, IsIncompatibleSet, column_of};

use crate::class_list::ClassList;
use cpog_base::{Column, Memory};
use std::alloc::Global;

/// Whether two columns agree at some scenario and differ at another, where both ask for a bit.
pub fn incompatible(a: &Column, b: &Column) -> bool
    ensures { IsTrue result ↔ AreIncompatible a.now b.now }
{
    a.agrees_somewhere(b) && a.differs_somewhere(b)
}

/// Whether the columns of these numbers are incompatible.
fn are_apart(columns: &[Column], t: u32, c: u32) -> bool
    requires first { t < length columns.now }
    requires second { c < length columns.now }
    ensures { IsTrue result ↔ AreIncompatible (column_of columns.now t) (column_of columns.now c) }
{
    incompatible(&columns[t as usize], &columns[c as usize])
}

/// Whether a column is incompatible with each of those taken.
fn is_apart_from(columns: &[Column], taken: &[u32], c: u32) -> bool
    requires column { c < length columns.now }
    requires taken { All (λ t. t < length columns.now) taken.now }
    ensures { IsTrue result ↔ ((t : ℕ) → Contains taken.now t →
        AreIncompatible (column_of columns.now t) (column_of columns.now c)) }
{
    for k in 0..taken.len() {
        if !are_apart(columns, taken[k], c) {
            return false;
        }
    }
    true
}

/// The classes in order, each where it is incompatible with all that are taken before it. No encoding has fewer gates
/// than they are, less the bits of a code.
///
/// # Errors
///
/// `Memory` where none is left.
pub fn incompatible_set(alloc: Global, classes: &ClassList) -> Result<Vec<u32>, Memory>
    ensures { IfOk result (λ taken. IsIncompatibleSet classes.now.columns taken.items) }
{
    let columns = classes.columns();
    let mut taken = Vec::new(alloc);
    for c in 0..classes.count() {
        if is_apart_from(columns, &taken, c) {
            taken.push(c)?;
        }
    }
    Ok(taken)
}
