//! For each operation the set of those that a walk of arcs leads from to it. The set begins with the arcs into the
//! operation; then, for one operation after the other, what is before it joins each set that it is in. The sets are
//! words of bits, so n operations take n * n steps (the algorithm of Warshall).
ghost use Rattle.std.specs.Prelude.{◌≡◌, ◌<◌, ◌≤◌, ◌||◌, ℕ, IsTrue, length, replicate, slice_index_or, slice_set, IfOk, MatchOption};
ghost use Rattle.std.specs.FinSet as set;
ghost use Rattle.std.specs.List.{All};
ghost use Rattle.cpog_base.specs.Rows.{row_has, has_arc};
ghost use Rattle.scenario_check.specs.Rows.{turned, turns, NoneBelow, AreRowsOf};

use cpog_base::{Memory, OpId, OpSet, empty_sets};
use std::alloc::Global;

/// Puts u before v.
fn add_arc(rows: &mut [OpSet], u: OpId, v: OpId)
    requires first { u.0 < 128 }
    requires second { v.0 < length rows.old }
    ensures { rows.new ≡ slice_set rows.old v.0 (set.insert (slice_index_or rows.old v.0 set.empty) u.0) }
{
    rows[v.0 as usize].insert(u);
}

fn add_arcs(rows: &mut [OpSet], arcs: &[(OpId, OpId)])
    requires few { length rows.old ≤ 128 }
    requires ends { All (λ a. (a.0.0 < length rows.old) × (a.1.0 < length rows.old)) arcs.now }
    ensures { (u v : ℕ) → row_has rows.new u v ≡ (row_has rows.old u v || has_arc arcs.now u v) }
{
    for &(u, v) in arcs {
        add_arc(rows, u, v);
    }
}

/// What is before k is before all that k is before.
fn join_through(rows: &mut [OpSet], k: OpId)
    requires { k.0 < length rows.old }
    ensures { rows.new ≡ turned k.0 rows.old }
{
    let through = rows[k.0 as usize];
    for row in rows.iter_mut() {
        if row.contains(k) {
            *row = row.union(&through);
        }
    }
}

fn close(rows: &mut [OpSet])
    requires { length rows.old ≤ 128 }
    ensures { rows.new ≡ turns (length rows.old) rows.old }
{
    let count = rows.len() as u8;
    for k in 0..count {
        join_through(rows, OpId(k));
    }
}

/// Fills the empty rows with the walks of the arcs.
fn fill(rows: &mut [OpSet], arcs: &[(OpId, OpId)])
    requires few { length rows.old ≤ 128 }
    requires ends { All (λ a. (a.0.0 < length rows.old) × (a.1.0 < length rows.old)) arcs.now }
    requires none { rows.old ≡ replicate (length rows.old) set.empty }
    ensures { AreRowsOf arcs.now rows.new }
{
    add_arcs(rows, arcs);
    close(rows);
}

/// For each of so many operations, by its number, those from which a walk of at least one arc leads to it. The arcs may
/// be cyclic: an operation that a walk leads back to is in its own set.
///
/// # Errors
///
/// `Memory` where none is left.
pub fn walks(alloc: Global, count: u8, arcs: &[(OpId, OpId)]) -> Result<Vec<OpSet>, Memory>
    requires few { count ≤ 128 }
    requires ends { All (λ a. (a.0.0 < count) × (a.1.0 < count)) arcs.now }
    ensures length { IfOk result (λ rows. length rows.items ≡ count) }
    ensures walks { IfOk result (λ rows. AreRowsOf arcs.now rows.items) }
{
    let mut rows = empty_sets(alloc, count)?;
    fill(&mut rows, arcs);
    Ok(rows)
}

/// The least operation that stands in its own row.
pub(crate) fn first_cyclic(rows: &[OpSet]) -> Option<OpId>
    requires { length rows.now ≤ 128 }
    ensures { MatchOption result (NoneBelow rows.now (length rows.now)) (λ v. IsTrue (row_has rows.now v.0 v.0) × NoneBelow rows.now v.0) }
{
    for v in 0..rows.len() as u8 {
        if rows[v as usize].contains(OpId(v)) {
            return Some(OpId(v));
        }
    }
    None
}
