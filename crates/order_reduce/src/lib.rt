//! The covering pairs of an order: the arcs of its transitive reduction, which say all that the order says. The
//! orders of `cpog_base` and the definitions of `cpog_defs` stand below. It promises the exact list of the covering
//! pairs, that their walks are the order again, that they are at most a quarter of the square of the operations, and
//! the scenario of an order whose arcs they are. What is covered is found once for each order, which keeps it.
#![tactic(auto)]

mod covered;
mod laws;
mod pairs;
mod scenarios;

pub use covered::{CoveredOrder, covered_orders};
pub use laws::{covering_is_covered, covers_are_few, covers_keep_walks};
pub use pairs::covers;
pub use scenarios::covering_scenario;
