//! The report of a synthesis, and its text.
//!
//! A report holds the scenarios with their names and given bits, an encoding of them, what is known of the least number of
//! gates and what shows it, and a module. Its type keeps what may be said and not whether it is right: the encoding need
//! not fit, and the module may be another one. Its text is a list of lines, `report_lines`, with a definition for each
//! kind of line, and ends with the module's; `write_report` is promised to give exactly that text, and no two reports
//! share one.
//! Names and lines are those of `line_text`, the values those of `cpog_base`, `gate_core` and `cnf_build`, the lines of
//! a log those of `dimacs_text`, and the netlist and its module those of `handshake_eqs` and `netlist_verilog`.
#![tactic(auto)]

mod bound;
mod given;
mod known;
mod laws;
mod parts;
mod report;
mod signals;
#[cfg(test)]
mod tests;
mod version;
mod writing;

pub use bound::Bound;
pub use laws::{
    end_closes_log, module_ends_report, spelling_tells_log, spelling_tells_report,
    text_tells_report, written_is_spelled,
};
pub use parts::ReportParts;
pub use report::Report;
pub use version::Version;
pub use writing::write_report;
