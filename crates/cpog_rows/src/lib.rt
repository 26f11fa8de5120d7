//! Whole runs of the program over a source and a sink in memory, as tests: a table for each subject, with what is
//! printed for each input. They show that runs succeed where memory is there, and that the printed texts are the ones
//! that the format promises. One caller is proved: over ends in memory a run fails only where its output has
//! no room. Every crate stands below; nothing is built on this one.
#![tactic(auto)]

mod in_memory;

pub use in_memory::run_in_memory;

#[cfg(test)]
mod arcs;
#[cfg(test)]
mod bad_lines;
#[cfg(test)]
mod failing;
#[cfg(test)]
mod forms;
#[cfg(test)]
mod formulas;
#[cfg(test)]
mod gates;
#[cfg(test)]
mod limits;
#[cfg(test)]
mod names;
#[cfg(test)]
mod one_bit;
#[cfg(test)]
mod refutations;
#[cfg(test)]
mod reports;
#[cfg(test)]
mod running;
#[cfg(test)]
mod searches;
#[cfg(test)]
mod words;
