//! Templates as formulas: how large one is, its clauses in order, and both ways between the assignments that satisfy it
//! and codes, gates and references. The definitions of `gate_template`, the clauses of `clause_arena` and the forms of
//! `gate_forms` stand below. It promises that `build` makes exactly the clauses that are defined, that `decode` reads a
//! solution from each assignment that satisfies them, and that `encode` makes such an assignment of each solution that
//! has no more gates. So the law of `gate_template` is about the formulas that are made here. What shows that no encoding
//! has fewer gates than a number is a value of its own, and it promises that such evidence bounds every encoding.
#![tactic(auto)]

mod building;
mod classes;
mod codes;
mod decoding;
mod encoding;
mod evidence;
mod further;
mod gates;
mod given;
mod laws;
mod numbers;
mod order;
mod reading;
mod rows;
mod size;
#[cfg(test)]
mod tests;
mod whole;
mod writing;

pub use building::build;
pub use decoding::{Decoded, decode};
pub use encoding::encode;
pub use evidence::{Evidence, OpenPart};
pub use gate_template::{Shape, Template};
pub use laws::evidence_bounds;
pub use order::decision_blocks;
pub use size::{GATE_LIMIT, TemplateSize, gate_limit_is_this, template_for, template_size};
