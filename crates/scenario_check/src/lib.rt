//! What is asked of scenarios before they are encoded: that none has a cycle, and that no two are equal. The
//! scenarios and orders of `cpog_base` and the definitions of `cpog_defs` stand below. It promises that a scenario's
//! closure is its order, that a cycle is reported exactly where one is, with the first cyclic scenario and its least
//! cyclic operation, and which two equal scenarios come first. The walks of arcs that may be cyclic are given as well.
#![tactic(auto)]

mod equals;
mod laws;
mod orders;
mod rows;

pub use equals::first_equal;
pub use laws::{cyclic_or_orders, one_first_cyclic};
pub use orders::{CycleFault, OrderFault, closure, orders_of};
pub use rows::walks;
