//! The words of the command line: which command they name, with its options.
//!
//! `read_words` is promised to give exactly the command that words name, by one definition that spells each command and
//! its options, and nothing where they name none. Below it stand `cpog_base` for the limits of numbers and `text_rows`
//! for numbers in decimal digits.
#![tactic(auto)]

mod words;

pub use words::{
    CNF_GATE_LIMIT, CnfOptions, Command, SaidOptions, SynthOptions, cnf_gate_limit_is_this,
    read_words,
};
