//! The orders of scenarios: one operation is before another where a walk of arcs leads from it there.
ghost use Rattle.std.specs.Prelude.{◌≡◌, ◌≤◌, length, IfOk, IfErr};
ghost use Rattle.cpog_defs.specs.Scenarios.{IsOrderOfScenario, AreOrdersOf};
ghost use Rattle.scenario_check.specs.Faults.{IsCycleFault, IsOrderFault, NamesOperation};
ghost use Rattle.scenario_check.specs.declared.orders.CycleFault.TheVariants as cycle;
ghost use Rattle.scenario_check.specs.declared.orders.OrderFault.TheVariants as faults;

use crate::rows::{first_cyclic, walks};
use cpog_base::{OpId, Order, SCENARIO_LIMIT, ScenId, Scenario};
use std::alloc::{AllocFailed, Global};

/// Why a scenario has no order.
#[derive(Clone, Copy, Debug, PartialEq, Eq)]
pub enum CycleFault {
    /// The least operation that is before itself.
    Cyclic(OpId),
    /// No memory was left.
    Memory,
}

impl From<cpog_base::Memory> for CycleFault {
    ghost from_gives = { λ _ e. e ≡ cycle.Memory };

    fn from(_error: cpog_base::Memory) -> CycleFault {
        CycleFault::Memory
    }
}

/// Why scenarios have no orders.
#[derive(Clone, Copy, Debug, PartialEq, Eq)]
pub enum OrderFault {
    /// The first scenario that has an operation before itself, and its least such operation.
    Cyclic(ScenId, OpId),
    /// No memory was left.
    Memory,
}

impl<T: Drop> From<AllocFailed<T>> for OrderFault {
    ghost from_gives = { λ _ e. e ≡ faults.Memory };

    fn from(_error: AllocFailed<T>) -> OrderFault {
        OrderFault::Memory
    }
}

/// The order of a scenario: one operation is before another where a walk of arcs leads from it there (Mokhov and
/// Yakovlev 2010: the transitive closure).
///
/// # Errors
///
/// `Cyclic` exactly where some operation is before itself, with the least such operation; `Memory` where none is left.
pub fn closure(alloc: Global, scenario: &Scenario) -> Result<Order, CycleFault>
    ensures order { IfOk result (IsOrderOfScenario scenario.now) }
    ensures err { IfErr result (IsCycleFault scenario.now) }
{
    let rows = walks(alloc, scenario.count(), scenario.arcs())?;
    match first_cyclic(&rows) {
        Some(v) => Err(CycleFault::Cyclic(v)),
        None => Ok(Order::from_sets(scenario.ops(), rows)),
    }
}

/// The orders of scenarios, one for each.
///
/// # Errors
///
/// `Cyclic` exactly where some scenario has an operation before itself, with the first such scenario and its least such
/// operation; `Memory` where none is left.
pub fn orders_of(alloc: Global, scenarios: &[Scenario]) -> Result<Vec<Order>, OrderFault>
    requires { length scenarios.now ≤ SCENARIO_LIMIT }
    ensures orders { IfOk result (λ orders. AreOrdersOf scenarios.now orders.items) }
    ensures err { IfErr result (IsOrderFault scenarios.now) }
    ensures known { IfErr result (NamesOperation scenarios.now) }
{
    let mut orders = Vec::new(alloc);
    for (s, scenario) in scenarios.iter().enumerate() {
        // No operation of the scenario is as great as its count.
        let _count = scenario.count();
        match closure(alloc, scenario) {
            Ok(order) => orders.push(order)?,
            Err(CycleFault::Cyclic(v)) => return Err(OrderFault::Cyclic(ScenId(s as u8), v)),
            Err(CycleFault::Memory) => return Err(OrderFault::Memory),
        }
    }
    Ok(orders)
}
