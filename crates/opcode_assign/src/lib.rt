//! From the orders of scenarios to an encoding of them with few gates, and to a number of gates below which there is none.
//! The columns and classes of `cpog_merge`, the first encoding of these classes on the least codes that keep the given bits
//! of `gate_core`, the templates of `cnf_build` and the engine of `sat_engine` stand below. The first encoding bounds the
//! gates from above, and incompatible columns bound them from below. In between templates are asked, from below on, with
//! one gate more each time. It promises that the encoding has distinct codes with the given bits and fits the scenarios,
//! that the evidence shows the lower bound, what is left open where the bounds differ, and when there is no encoding.
#![tactic(auto)]

mod attempt;
mod bits;
mod counting;
mod laws;
mod minimum;
mod raising;
mod written;

pub use bits::default_bits;
pub use laws::first_assignments_agree;
pub use minimum::{Answer, AssignFault, assign};

#[cfg(test)]
mod tests;
