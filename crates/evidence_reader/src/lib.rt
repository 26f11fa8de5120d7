//! Readers of what a report shows of the least number of gates, and of what it leaves open.
//!
//! Both are read at a cursor, exactly: what is read is what the lines spell, and the fault is the first line that may not
//! stand there. The lines of a log go straight into the log. Below it stand `line_rows` for rows of lines, `dimacs_text`
//! for the words of a log's line, and `report_text` for what lines spell.
#![tactic(auto)]

mod heads;
mod log;
mod places;
mod shown;

pub use shown::{Shown, shown_rows};

#[cfg(test)]
mod tests;
