//! A report is read from its text.
//!
//! `read_report` is promised to answer a report exactly for the lines that spell one, and the number of the first bad line
//! for every other text. Its rows are read one behind another: the head, the scenarios up to the number of gates, the
//! gates, the conditions up to the bound, what is shown, and the module. Each row has a function of lists that reads it,
//! a law that this is exact, and a function that answers as it does.
//! Below it stand `line_rows` for rows of lines, `report_text`, which says what a report and its lines are, and
//! `evidence_reader` and `module_reader` for the rows of what is shown and of the module.
#![tactic(auto)]

mod codes;
mod gates;
mod graph;
mod head;
mod names;
mod operations;
mod references;
mod rows;
mod scenarios;
#[cfg(test)]
mod tests;
mod whole;

pub use gates::ArcLine;
pub use rows::Head;
pub use scenarios::Scenarios;
pub use whole::{ReportFault, Rows, read_report};
