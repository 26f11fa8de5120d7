use crate::Bound;
use cnf_build::{Evidence, OpenPart};
use cpog_base::{Names, Pattern, Scenario};
use gate_core::Encoding;
use netlist_verilog::Module;

/// What a report is made of.
#[derive(Drop)]
pub struct ReportParts {
    /// How many bits a code has.
    pub bits: u8,
    /// How many numbers a search may write to a log.
    pub budget: u32,
    /// The names of the operations, in number order.
    pub names: Names,
    /// The names of the scenarios, in number order.
    pub scenario_names: Names,
    /// The given bits of each scenario's code.
    pub given: Vec<Pattern>,
    /// The scenarios, in number order.
    pub scenarios: Vec<Scenario>,
    /// The codes, gates and conditions.
    pub encoding: Encoding,
    /// What is known of the least number of gates.
    pub bound: Bound,
    /// What shows that there are no fewer.
    pub evidence: Evidence,
    /// What is left open above that.
    pub open_part: OpenPart,
    /// A netlist with names of its own.
    pub design: Module,
}
