//! A row has a table for each operation.
ghost use Rattle.std.specs.Prelude.{◌≡◌, ◌<◌, ◌&&◌, ◌||◌, ℕ, true, IfOk, length, replicate, slice_index, bit_or, bit_and};
ghost use Rattle.cpog_defs.specs.Codes.{bit};

use cpog_base::Memory;
use pg_algebra::Table;
use std::alloc::Global;
use std::marker::Model;

/// A table for each operation, by its number.
#[derive(Drop)]
pub(crate) struct Row {
    tables: Vec<u64>,
}

impl Model for Row {
    ghost use Rattle.std.specs.Prelude.{List, ℕ};

    ghost Value = { List ℕ };

    ghost view = { λ r. r.tables.items };
}

/// Adds each word of the second list to that of the first, where the guard is 1.
fn unite_words(into: &mut [u64], from: &[u64], guard: u64)
    requires { length from.now ≡ length into.old }
    ensures { (k : ℕ) → slice_index into.new k ≡ bit_or (slice_index into.old k) (bit_and guard (slice_index from.now k)) }
{
    'places: for i in 0..into.len() {
        into[i] |= guard & from[i];
    }
}

/// Makes each word 0.
fn clear_words(words: &mut [u64])
    ensures { (k : ℕ) → slice_index words.new k ≡ 0 }
{
    'places: for i in 0..words.len() {
        words[i] = 0;
    }
}

impl Row {
    /// So many tables that are 0.
    ///
    /// # Errors
    ///
    /// `Memory` where none is left.
    pub(crate) fn zeros(alloc: Global, count: usize) -> Result<Row, Memory>
        ensures { IfOk result (λ r. r ≡ replicate count 0) }
    {
        Ok(Row {
            tables: vec![in alloc; 0; count]?,
        })
    }

    /// The table of an operation, and 0 where there is none.
    pub(crate) fn get(&self, v: usize) -> u64
        ensures { result ≡ slice_index self.now v }
    {
        match self.tables.get(v) {
            Some(table) => *table,
            None => 0,
        }
    }

    /// Whether each table of another row is 1 only where this row's is.
    pub(crate) fn contains_row(&self, other: &Row) -> bool
        requires { length other.now ≡ length self.now }
        ensures { result ≡ true → (k n : ℕ) → n < 64 → bit (slice_index other.now k) n ≡ true → bit (slice_index self.now k) n ≡ true }
    {
        'places: for i in 0..self.tables.len() {
            let left = Table(other.get(i)).and(Table(self.get(i)).not());
            if left.0 != 0 {
                return false;
            }
        }
        true
    }

    /// Makes each table 0.
    pub(crate) fn clear(&mut self)
        ensures len { length self.new ≡ length self.old }
        ensures zeros { (k : ℕ) → slice_index self.new k ≡ 0 }
    {
        clear_words(&mut self.tables);
    }

    /// Adds a table to that of an operation.
    pub(crate) fn add(&mut self, v: usize, table: Table)
        requires { v < length self.old }
        ensures len { length self.new ≡ length self.old }
        ensures same { (n : ℕ) → bit (slice_index self.new v) n ≡ (bit (slice_index self.old v) n || bit table.0 n) }
        ensures others { (k : ℕ) → (k ≡ v → ⊥) → slice_index self.new k ≡ slice_index self.old k }
    {
        self.tables[v] |= table.0;
    }

    /// Adds the tables of another row, where the guard is 1.
    pub(crate) fn unite(&mut self, from: &Row, guard: Table)
        requires { length from.now ≡ length self.old }
        ensures len { length self.new ≡ length self.old }
        ensures each { (k n : ℕ) → bit (slice_index self.new k) n ≡ (bit (slice_index self.old k) n || (bit guard.0 n && bit (slice_index from.now k) n)) }
    {
        unite_words(&mut self.tables, &from.tables, guard.0);
    }
}
