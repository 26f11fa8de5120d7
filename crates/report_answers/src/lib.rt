//! What is answered to the text of a report: whether it is good, or the module of a good one.
//!
//! A report is read exactly and judged part by part, whoever made it. The answers are promised to be those that the
//! definitions of this crate allow for the bytes read: a yes tells of the printed scenarios what the headline says, and a
//! no names the first part that fails. Below it stand `report_reader` and `report_judge`.
#![tactic(auto)]

mod check;
mod reasons;
mod reports;
mod verilog;

pub use check::answer_check;
pub use verilog::answer_verilog;
