//! Two scenarios are equal where they have the same operations and the same before relation.

ghost use Rattle.std.specs.Prelude.{◌≡◌, ◌<◌, ◌≤◌, ◌↔◌, ℕ, IsTrue, length, MatchOption};
ghost use Rattle.std.specs.FinSet as set;
ghost use Rattle.cpog_defs.specs.Orders.{AreEqual};
ghost use Rattle.scenario_check.specs.Equals.{EqualsAt, NoneEqualBelow, AreFirstEqual};

use cpog_base::{OpId, OpSet, Order, SCENARIO_LIMIT, ScenId};

/// Whether two sets have the same members.
fn same_members(a: &OpSet, b: &OpSet) -> bool
    ensures { IsTrue result ↔ ((v : ℕ) → set.contains a.now v ≡ set.contains b.now v) }
{
    a.subset(b) & b.subset(a)
}

/// Whether two orders have the same operations and the same before relation. How many operations there may be isn't
/// compared: an operation that neither scenario has makes no difference.
fn are_equal(a: &Order, b: &Order) -> bool
    ensures { IsTrue result ↔ AreEqual a.now b.now }
{
    if !same_members(&a.ops(), &b.ops()) {
        return false;
    }
    // Nothing is before an operation that neither has, so no row beyond the shorter list matters.
    for v in 0..a.count().min(b.count()) {
        if !same_members(&a.before(OpId(v)), &b.before(OpId(v))) {
            return false;
        }
    }
    true
}

/// The first of these orders that is equal to one.
fn first_equal_to(orders: &[Order], order: &Order) -> Option<ScenId>
    requires { length orders.now ≤ SCENARIO_LIMIT }
    ensures { MatchOption result (NoneEqualBelow orders.now order.now (length orders.now)) (λ s. EqualsAt orders.now order.now s.0 × NoneEqualBelow orders.now order.now s.0) }
{
    for s in 0..orders.len() as u8 {
        if are_equal(&orders[s as usize], order) {
            return Some(ScenId(s));
        }
    }
    None
}

/// The least scenario that is equal to an earlier one, and the first that it is equal to, in this order.
pub fn first_equal(orders: &[Order]) -> Option<(ScenId, ScenId)>
    requires { length orders.now ≤ SCENARIO_LIMIT }
    ensures { AreFirstEqual orders.now result }
{
    for later in 0..orders.len() {
        if let Some(earlier) = first_equal_to(&orders[..later], &orders[later]) {
            return Some((ScenId(later as u8), earlier));
        }
    }
    None
}
