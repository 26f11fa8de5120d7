//! The values that every crate of `cpog` speaks of: operations and sets of them, names, columns, scenarios, orders,
//! statuses and limits. It stands on the definitions of `cpog_defs`. Each type is seen by contracts as one plain
//! value (a set, a list, a record of `cpog_defs`), and each call is promised to be that value's own.
#![tactic(auto)]

pub mod bits;
mod column;
mod limits;
mod memory;
mod name;
mod names;
mod op_set;
mod order;
mod pattern;
mod scenario;
mod status;

pub use column::Column;
pub use cpog_defs::types::{Bit3, OpId, ScenId};
pub use limits::{
    BIT_LIMIT, BUDGET_LIMIT, Counted, DEFAULT_BUDGET, GRAPH_LIMIT, INPUT_LIMIT, LONG_INPUT_LIMIT,
    NESTING_LIMIT, OPERATION_LIMIT, PARAM_LIMIT, SCENARIO_LIMIT, TEMPLATE_LIMIT, VARIABLE_LIMIT,
    limits_are_these,
};
pub use memory::Memory;
pub use name::Name;
pub use names::Names;
pub use op_set::{OpSet, empty_sets};
pub use order::Order;
pub use pattern::Pattern;
pub use scenario::Scenario;
pub use status::Status;

#[cfg(test)]
mod tests;
