//! Formulas in DIMACS CNF and logs after the proof format LRAT, as text.
//!
//! The readers give what the lines spell and nothing else, or the first bad line, by definitions that speak of lines
//! and words alone. A formula of too many variables is judged to its end before the limit is told. What the writers
//! give is read as the same value. Below it stand `proof_check` and `clause_arena` for the values, `text_rows` and
//! `line_text` for lines and words, and `cpog_base` for limits and want of memory.
#![tactic(auto)]

mod body;
mod cnf;
mod laws;
mod line_lits;
mod log;
mod writing;

pub use cnf::{CnfFault, read_cnf, read_joined};
pub use laws::bad_lines_are_told;
pub use line_lits::LineLits;
pub use log::{Entry, LogFault, read_entry, read_log};
pub use writing::{append_log, write_cnf, write_log};

#[cfg(test)]
mod tests;
