//! A graph under all valuations at once, with a table for each operation and each pair, by their numbers.
ghost use Rattle.std.specs.Prelude.{◌≡◌, ◌<◌, ◌&&◌, ◌||◌, ℕ, List, length, slice_index, IfOk, false};
ghost use Rattle.cpog_defs.specs.Codes.{bit};
ghost use Rattle.pg_normal.specs.Known.{AreJoined, HasFullRows, entry};

use crate::{Appearance, Row};
use cpog_base::Memory;
use pg_algebra::Table;
use sqlite_items::Items;
use std::alloc::Global;

/// The operations in the order of first appearance, their tables, and for each second end those of arcs.
#[derive(Drop)]
pub(crate) struct Tables {
    pub(crate) order: Appearance,
    pub(crate) vertices: Row,
    pub(crate) arcs: Items<Row>,
}

/// Adds the arcs of other rows, where the guard is 1.
pub(crate) fn unite_rows(into: &mut [Row], from: &[Row], guard: Table)
    requires into { HasFullRows (length into.old) into.old }
    requires from { HasFullRows (length into.old) from.now }
    ensures square { HasFullRows (length into.old) into.new }
    ensures each { (u v n : ℕ) → bit (entry into.new u v) n ≡ (bit (entry into.old u v) n || (bit guard.0 n && bit (entry from.now u v) n)) }
{
    'rows: for v in 0..into.len() {
        into[v].unite(&from[v], guard);
    }
}

/// Adds an arc from each vertex of the first row to each of the second.
pub(crate) fn join(arcs: &mut [Row], before: &Row, here: &Row)
    requires square { HasFullRows (length arcs.old) arcs.old }
    requires before { length before.now ≡ length arcs.old }
    requires here { length here.now ≡ length arcs.old }
    ensures square { HasFullRows (length arcs.old) arcs.new }
    ensures each { (u v n : ℕ) → bit (entry arcs.new u v) n ≡ (bit (entry arcs.old u v) n || (bit (slice_index before.now u) n && bit (slice_index here.now v) n)) }
{
    'rows: for v in 0..arcs.len() {
        let table = here.get(v);
        if table != 0 {
            arcs[v].unite(before, Table(table));
        }
    }
}

/// Adds an arc from each vertex of the first row to each of the last, if they are not joined yet.
pub(crate) fn join_once(arcs: &mut [Row], before: &Row, joined: &mut Row, here: &Row)
    requires square { HasFullRows (length arcs.old) arcs.old }
    requires before { length before.now ≡ length arcs.old }
    requires row { length joined.old ≡ length arcs.old }
    requires here { length here.now ≡ length arcs.old }
    requires joined { AreJoined before.now joined.old arcs.old }
    ensures square { HasFullRows (length arcs.old) arcs.new }
    ensures row { length joined.new ≡ length arcs.old }
    ensures joined { AreJoined before.now joined.new arcs.new }
    ensures each { (u v n : ℕ) → n < 64 → bit (entry arcs.new u v) n ≡ (bit (entry arcs.old u v) n || (bit (slice_index before.now u) n && bit (slice_index here.now v) n)) }
{
    if joined.contains_row(here) {
        return;
    }
    join(arcs, before, here);
    joined.unite(here, Table::constant(true));
}

/// Adds the vertices of the last row to the first. Nothing is joined any more where there is a new one.
pub(crate) fn take_up(before: &mut Row, joined: &mut Row, here: &Row)
    requires here { length here.now ≡ length before.old }
    ensures len { length before.new ≡ length before.old }
    ensures row { length joined.new ≡ length joined.old }
    ensures each { (v n : ℕ) → n < 64 → bit (slice_index before.new v) n ≡ (bit (slice_index before.old v) n || bit (slice_index here.now v) n) }
    ensures joined { (arcs : List (List ℕ)) → AreJoined before.old joined.old arcs → AreJoined before.new joined.new arcs }
{
    if before.contains_row(here) {
        return;
    }
    before.unite(here, Table::constant(true));
    joined.clear();
}

/// As many rows of zeros as each is long.
///
/// # Errors
///
/// `Memory` where none is left.
pub(crate) fn zero_rows(alloc: Global, count: usize) -> Result<Vec<Row>, Memory>
    ensures square { IfOk result (λ rows. HasFullRows count rows.items) }
    ensures zeros { IfOk result (λ rows. (u v n : ℕ) → bit (entry rows.items u v) n ≡ false) }
{
    let mut rows = Vec::new(alloc);
    'rows: for _v in 0..count {
        rows.push(Row::zeros(alloc, count)?)?;
    }
    Ok(rows)
}
