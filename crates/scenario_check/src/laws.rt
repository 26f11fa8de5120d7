//! What holds of cycles, whoever finds them.
ghost use Rattle.scenario_check.specs.Laws.{OneFirstCyclic, CyclicOrOrders};

/// The scenario and the operation that a refused cycle names are the only ones of which this is true.
pub fn one_first_cyclic()
    ensures { OneFirstCyclic }
{}

/// Scenarios that have orders have no first cyclic one.
pub fn cyclic_or_orders()
    ensures { CyclicOrOrders }
{}
