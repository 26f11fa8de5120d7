ghost use Rattle.std.specs.Prelude.{◌≡◌, ◌<◌, ◌≤◌, ℕ, [], IsTrue, length, slice_index_or, slice_set, OnOk, OnErr};
ghost use Rattle.std.specs.FinSet as set;
ghost use Rattle.cpog_defs.specs.Scenarios.{IsScenario};
ghost use Rattle.cpog_base.specs.Arcs.{with_arc};

use crate::{Memory, OpSet};
use cpog_defs::types::OpId;
use sqlite_items::Items;
use std::alloc::Global;
use std::marker::Model;

/// A scenario as it is written: the operations that it has, and different arcs between them.
#[derive(Debug, Drop)]
pub struct Scenario {
    count: u8,
    ops: OpSet,
    arcs: Items<(OpId, OpId)>,
    // For each operation, as far as the list goes, those to which an arc leads: so a written arc is found at once.
    successors: Items<OpSet>,
}

impl Model for Scenario {
    ghost use Rattle.cpog_defs.specs.Scenarios as scenarios;
    ghost use Rattle.cpog_defs.specs.Stored.{scenario_code};
    ghost use Rattle.cpog_base.specs.Arcs.{IsStored};

    ghost Value = { scenarios.Scenario };

    ghost coded = { scenario_code };

    ghost view = { λ s. record { count = s.count; ops = s.ops; arcs = s.arcs } };

    ghost invariant = { λ s. IsStored (record { count = s.count; ops = s.ops; arcs = s.arcs }) s.successors };
}

/// Gives the list a set for the operation: the empty one where it had none.
fn extend_to(rows: &mut Items<OpSet>, u: OpId) -> Result<(), Memory>
    ensures same { (w : ℕ) → slice_index_or rows.new w set.empty ≡ slice_index_or rows.old w set.empty }
    ensures room { OnOk result (u.0 < length rows.new) }
{
    'rows: while rows.len() <= usize::from(u.0) {
        rows.push(OpSet::empty())?;
    }
    Ok(())
}

/// Whether an operation is in the set of another. No set is the empty one.
fn is_member_at(rows: &[OpSet], u: OpId, v: OpId) -> bool
    ensures { result ≡ set.contains (slice_index_or rows.now u.0 set.empty) v.0 }
{
    let at = usize::from(u.0);
    at < rows.len() && rows[at].contains(v)
}

/// Puts an operation into the set of another.
fn insert_at(rows: &mut Items<OpSet>, u: OpId, v: OpId)
    requires room { u.0 < length rows.old }
    requires below { v.0 < 128 }
    ensures { rows.new ≡ slice_set rows.old u.0 (set.insert (slice_index_or rows.old u.0 set.empty) v.0) }
{
    let mut row = rows.as_slice()[usize::from(u.0)];
    row.insert(v);
    rows.set(usize::from(u.0), row);
}

impl Scenario {
    /// A scenario without operations, of so many as there may be.
    pub fn new(alloc: Global, count: u8) -> Scenario
        requires { count ≤ 128 }
        ensures { result ≡ record { count = count; ops = set.empty; arcs = [] } }
    {
        Scenario {
            count,
            ops: OpSet::empty(),
            arcs: Items::new(alloc),
            successors: Items::new(alloc),
        }
    }

    /// How many operations there may be.
    pub fn count(&self) -> u8
        ensures count { result ≡ self.now.count }
        ensures few { self.now.count ≤ 128 }
        ensures scenario { IsScenario self.now }
    {
        self.count
    }

    /// The operations that it has.
    pub fn ops(&self) -> OpSet
        ensures { result ≡ self.now.ops }
    {
        self.ops
    }

    /// Its arcs, in the order in which they came.
    pub fn arcs(&self) -> &[(OpId, OpId)]
        ensures { result.now ≡ self.now.arcs }
    {
        self.arcs.as_slice()
    }

    /// Gives it an operation, where it hasn't it.
    pub fn add_op(&mut self, v: OpId)
        requires { v.0 < self.old.count }
        ensures { self.new ≡ record self.old { ops = set.insert self.old.ops v.0 } }
    {
        self.ops.insert(v);
    }

    /// Gives it an arc between two of its operations, where it hasn't it. The two may be one.
    ///
    /// # Errors
    ///
    /// `Memory` where none is left.
    pub fn add_arc(&mut self, u: OpId, v: OpId) -> Result<(), Memory>
        requires first { IsTrue (set.contains self.old.ops u.0) }
        requires second { IsTrue (set.contains self.old.ops v.0) }
        ensures ok { OnOk result (self.new ≡ record self.old { arcs = with_arc self.old.arcs u.0 v.0 }) }
        ensures err { OnErr result (self.new ≡ self.old) }
    {
        if is_member_at(self.successors.as_slice(), u, v) {
            return Ok(());
        }
        extend_to(&mut self.successors, u)?;
        self.arcs.push((u, v))?;
        insert_at(&mut self.successors, u, v);
        Ok(())
    }
}
