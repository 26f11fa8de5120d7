//! The program over any source and sink: the words name a command, the input is read whole, the answer (a status and an
//! output) is made of it, and the output is written once. The words are those of `command_words`; the answers stand in
//! `graph_answers` and `formula_answers`, a crate for each kind of input.
//! `run_cpog` promises that what is printed is what the words and the bytes read allow, for every source and sink, and for
//! every number of scenarios and of code bits within the limits.
#![tactic(auto)]

mod answer;
mod laws;
mod run;

pub use laws::{allowed_answers_agree, runs_are_complete};
pub use run::run_cpog;
