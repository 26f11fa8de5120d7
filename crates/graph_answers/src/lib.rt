//! What is answered to a graph text: its report, its normal forms, or the formula that asks for an encoding.
//!
//! Each step gives what the next one needs, or stops with the refusal of a cause. The answers are promised to be those
//! that the definitions of this crate allow for the bytes read: the headline of a report is the record `IsSound` there.
//! Below it stand the crates that read, order, encode and write.
#![tactic(auto)]

mod cnf;
mod encodable;
mod graph_text;
mod normal;
mod refusing;
mod synth;
mod synthesis;

pub use cnf::answer_cnf;
pub use encodable::CodeLength;
pub use normal::answer_normal;
pub use synth::answer_synth;
