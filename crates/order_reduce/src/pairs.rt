ghost use Rattle.std.specs.Prelude.{◌≡◌, ◌≤◌, ◌*◌, ◌/◌, ◌↔◌, ◌++◌, ℕ, IsTrue, length, IfOk, OnOk};
ghost use Rattle.std.specs.List.{Contains};
ghost use Rattle.std.specs.FinSet as set;
ghost use Rattle.cpog_defs.specs.Orders.{is_before, arc_of, covering_pairs};
ghost use Rattle.cpog_defs.specs.Walks.{Walk};
ghost use Rattle.order_reduce.specs.Covered.{pairs_from};

use crate::CoveredOrder;
use cpog_base::{Memory, OpId, OpSet};
use std::alloc::Global;

/// Appends the pairs of the rows whose first is u.
fn push_pairs_from(pairs: &mut Vec<(OpId, OpId)>, rows: &[OpSet], u: OpId) -> Result<(), Memory>
    requires { length rows.now ≤ 128 }
    ensures { OnOk result (pairs.new.items ≡ pairs.old.items ++ pairs_from rows.now (length rows.now) u.0) }
{
    for v in 0..rows.len() as u8 {
        if rows[v as usize].contains(u) {
            pairs.push((u, OpId(v)))?;
        }
    }
    Ok(())
}

/// The covering pairs of an order, by the first and then by the second: the arcs of its transitive reduction (Mokhov
/// and Yakovlev 2010).
///
/// # Errors
///
/// `Memory` where none is left.
pub fn covers(alloc: Global, order: &CoveredOrder) -> Result<Vec<(OpId, OpId)>, Memory>
    ensures pairs { IfOk result (λ pairs. pairs.items ≡ covering_pairs order.now) }
    ensures walks { IfOk result (λ pairs. (u v : ℕ) → Walk (λ a b. Contains pairs.items (arc_of a b)) u v ↔ IsTrue (is_before order.now u v)) }
    ensures few { IfOk result (λ pairs. length pairs.items ≤ set.len order.now.ops * set.len order.now.ops / 4) }
{
    let count = order.as_order().count();
    let rows = order.rows();
    let mut pairs = Vec::new(alloc);
    for u in 0..count {
        push_pairs_from(&mut pairs, rows, OpId(u))?;
    }
    Ok(pairs)
}
