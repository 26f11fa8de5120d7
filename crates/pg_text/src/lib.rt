//! The graph text: from bytes to the file of statements that they spell, and from a file to its text (Mokhov and
//! Khomenko 2014 have the algebra that its expressions write). It stands on the trees of `pg_algebra` and on the lines
//! and words of `line_text`.
//!
//! Lines are split off the text (`lines`) and tokens are taken from the front of a line (`tokens`), so that no list of
//! either is built. Out of tokens conditions (`conditions`), expressions (`expressions`), statements (`statements`) and
//! the file (`reading`) are read, and `writing` goes the other way, out of the parts of `putting`. The grammar is a data
//! type of what stands in a line: a derivation of its rules, with its tokens, its levels and its tree as functions of it.
//! The crate promises that a file is read exactly where the grammar has one within the counts, and then that file; that
//! else the first bad line or the first count that passes its limit is told; and that what is written is read as the same
//! statements.
#![tactic(auto)]

mod conditions;
mod expressions;
mod fault;
mod file;
mod laws;
mod lines;
mod position;
mod putting;
mod reading;
mod sign;
mod statement;
mod statements;
#[cfg(test)]
mod tests;
mod tokens;
mod writing;

pub use fault::FileFault;
pub use file::File;
pub use laws::{file_has_no_fault, numbers_stand_for_names, one_fault, one_file};
pub use putting::{name_of, put, put_if, put_with};
pub use reading::read_file;
pub use statement::{Bindings, NameList, Numbered, Statement};
pub use writing::write_file;
