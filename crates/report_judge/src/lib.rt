//! Whether a report is good. A good report needs no trust in whoever made it: its codes, conditions and module are
//! tested, and its evidence is followed line by line over a template that is made again.
//!
//! The report of `report_text`, the orders of `scenario_check`, the classes of `cpog_merge`, the templates of `cnf_build`
//! and the checker of `proof_check` stand below. It promises that a report is judged good exactly where each part that is
//! defined holds, that else the first part that fails is named with the first place where it does, and that a good report
//! is right in each sentence: distinct codes, fitting conditions, a netlist that requests what is ready, and a bound below
//! which no encoding has gates.
#![tactic(auto)]

mod basis;
mod codes;
mod evidence;
mod fault;
mod fitting;
mod judging;
mod laws;
mod left_open;
mod reason;
mod template;
#[cfg(test)]
mod tests;

pub use judging::judge;
pub use laws::{
    good_or_failing, good_reports_are_right, one_verdict, reports_of_searches_are_good,
};
pub use reason::{Reason, Verdict};
