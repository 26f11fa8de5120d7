//! The scenario that is printed of an order: its arcs are the covering pairs.
ghost use Rattle.std.specs.Prelude.{◌≡◌, ◌≢◌, IsTrue, [], IfOk, OnOk};
ghost use Rattle.std.specs.List.{All, AllPairs};
ghost use Rattle.std.specs.FinSet as set;
ghost use Rattle.cpog_defs.specs.Orders.{IsOrder};
ghost use Rattle.order_reduce.specs.Scenarios.{covering_scenario};

use crate::{CoveredOrder, covers};
use cpog_base::{Memory, OpId, Order, Scenario};
use std::alloc::Global;

/// The scenario of the operations of an order, without arcs.
fn without_arcs(alloc: Global, order: &Order) -> Scenario
    ensures scenario { result ≡ record { count = order.now.count; ops = order.now.ops; arcs = [] } }
    ensures order { IsOrder order.now }
{
    let ops = order.ops();
    let count = order.count();
    let mut scenario = Scenario::new(alloc, count);
    for v in 0..count {
        if ops.contains(OpId(v)) {
            scenario.add_op(OpId(v));
        }
    }
    scenario
}

/// Gives these arcs to a scenario that has none.
fn add_arcs(scenario: &mut Scenario, arcs: &[(OpId, OpId)]) -> Result<(), Memory>
    requires none { scenario.old.arcs ≡ [] }
    requires ends { All (λ a. IsTrue (set.contains scenario.old.ops a.0.0) × IsTrue (set.contains scenario.old.ops a.1.0)) arcs.now }
    requires distinct { AllPairs (λ a b. a ≢ b) arcs.now }
    ensures { OnOk result (scenario.new ≡ record scenario.old { arcs = arcs.now }) }
{
    for &(u, v) in arcs {
        scenario.add_arc(u, v)?;
    }
    Ok(())
}

/// The scenario of an order with its covering pairs as arcs, by the first and then by the second.
///
/// # Errors
///
/// `Memory` where none is left.
pub fn covering_scenario(alloc: Global, order: &CoveredOrder) -> Result<Scenario, Memory>
    ensures { IfOk result (λ sc. sc ≡ covering_scenario order.now) }
{
    let pairs = covers(alloc, order)?;
    let mut scenario = without_arcs(alloc, order.as_order());
    add_arcs(&mut scenario, &pairs)?;
    Ok(scenario)
}
