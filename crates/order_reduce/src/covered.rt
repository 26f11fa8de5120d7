//! An operation covers what is before it and not before another that is before it. The sets of operations before
//! one are words of bits, so one step joins or takes out a whole set, and an order of n operations takes n * n steps.
//! They are taken once: an order that keeps the sets that its operations cover serves columns and printed scenarios.
ghost use Rattle.std.specs.Prelude.{◌≡◌, ◌<◌, ◌&&◌, ℕ, IfOk};
ghost use Rattle.std.specs.FinSet as set;
ghost use Rattle.cpog_defs.specs.Orders.{any_below, is_before, is_covered};
ghost use Rattle.order_reduce.specs.Covered.{AreCovered};

use cpog_base::{Memory, OpId, OpSet, Order};
use sqlite_items::Items;
use std::alloc::Global;
use std::marker::Model;

/// What is before some operation that is before v.
fn before_those_before(order: &Order, v: OpId) -> OpSet
    requires { v.0 < order.now.count }
    ensures { (u : ℕ) → set.contains result u ≡ any_below (λ z. is_before order.now u z && is_before order.now z v.0) order.now.count }
{
    let before = order.before(v);
    let mut earlier = OpSet::empty();
    for z in 0..order.count() {
        if before.contains(OpId(z)) {
            earlier = earlier.union(&order.before(OpId(z)));
        }
    }
    earlier
}

/// The operations that v covers: those before it with nothing between.
fn covered_by(order: &Order, v: OpId) -> OpSet
    requires { v.0 < order.now.count }
    ensures { (u : ℕ) → set.contains result u ≡ is_covered order.now u v.0 }
{
    order.before(v).difference(&before_those_before(order, v))
}

/// For each operation, by its number, those that it covers.
fn covered_rows(alloc: Global, order: &Order) -> Result<Vec<OpSet>, Memory>
    ensures { IfOk result (λ rows. AreCovered order.now rows.items) }
{
    let mut rows = Vec::new(alloc);
    for v in 0..order.count() {
        rows.push(covered_by(order, OpId(v)))?;
    }
    Ok(rows)
}

/// An order that keeps, for each operation, the set of those that it covers. It is seen as the order.
#[derive(Debug, Drop)]
pub struct CoveredOrder {
    order: Order,
    covered: Items<OpSet>,
}

impl Model for CoveredOrder {
    ghost use Rattle.cpog_defs.specs.Orders as orders;
    ghost use Rattle.cpog_defs.specs.Stored.{order_code};
    ghost use Rattle.order_reduce.specs.Covered.{AreCovered};

    ghost Value = { orders.Order };

    ghost coded = { order_code };

    ghost view = { λ c. c.order };

    ghost invariant = { λ c. AreCovered c.order c.covered };
}

impl CoveredOrder {
    /// The order with the sets that its operations cover.
    ///
    /// # Errors
    ///
    /// `Memory` where none is left.
    pub fn new(alloc: Global, order: Order) -> Result<CoveredOrder, Memory>
        ensures { IfOk result (λ covered. covered ≡ order) }
    {
        let covered = covered_rows(alloc, &order)?;
        Ok(CoveredOrder {
            order,
            covered: Items::from_vec(covered),
        })
    }

    /// The order itself.
    pub fn as_order(&self) -> &Order
        ensures { result.now ≡ self.now }
    {
        &self.order
    }

    /// The operations that v covers: those before it with nothing between.
    pub fn covered_by(&self, v: OpId) -> OpSet
        requires { v.0 < self.now.count }
        ensures { (u : ℕ) → set.contains result u ≡ is_covered self.now u v.0 }
    {
        self.covered.as_slice()[usize::from(v.0)]
    }

    /// For each operation, by its number, those that it covers.
    pub(crate) fn rows(&self) -> &[OpSet]
        ensures { AreCovered self.now result.now }
    {
        self.covered.as_slice()
    }
}

/// Each order with the sets that its operations cover.
///
/// # Errors
///
/// `Memory` where none is left.
pub fn covered_orders(alloc: Global, orders: Vec<Order>) -> Result<Vec<CoveredOrder>, Memory>
    ensures { IfOk result (λ covered. covered.items ≡ orders.items) }
{
    let mut covered = Vec::new(alloc);
    for order in orders {
        covered.push(CoveredOrder::new(alloc, order)?)?;
    }
    Ok(covered)
}
