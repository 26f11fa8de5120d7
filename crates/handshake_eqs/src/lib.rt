//! The controller of an encoding: its equations as a netlist, the outputs to which these settle, and the machine of
//! request and acknowledge events that the netlist serves. It stands on the gates and graphs of `gate_core`. It
//! promises that over every run of lawful events the netlist of an encoding that fits its scenarios requests exactly
//! the operations that are ready, and tells when all are done and when it is idle; and `is_netlist_of` says exactly
//! whether a netlist is that of an encoding.
#![tactic(auto)]

mod comparing;
mod encoded;
mod laws;
mod machine;
mod netlist;
mod settling;
mod steps;
#[cfg(test)]
mod tests;
mod wires;

pub use comparing::is_netlist_of;
pub use encoded::equations;
pub use laws::{netlist_agrees_over_runs, runs_keep, steps_are_unique};
pub use machine::{Event, Machine};
pub use netlist::Netlist;
pub use settling::settle;
pub use steps::step;
pub use wires::{Inputs, Outputs};
