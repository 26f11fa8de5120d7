ghost use Rattle.std.specs.Prelude.{◌≡◌};
ghost use Rattle.cnf_build.specs.Evidence.{evidence_of, open_of};
ghost use Rattle.report_text.specs.Parts.{value_of};
ghost use Rattle.report_text.specs.Report.{IsReport};

use crate::{Bound, ReportParts, Version};
use cnf_build::{Evidence, OpenPart};
use cpog_base::{Names, Pattern, Scenario};
use gate_core::Encoding;
use netlist_verilog::Module;
use sqlite_items::Items;
use std::marker::Model;

/// The scenarios with their names and given bits, an encoding of them, what is known of the least number of gates and
/// what shows it, and a module. The type keeps the ranges of what a report may say, and not whether it is right.
#[derive(Drop)]
pub struct Report {
    version: Version,
    bits: u8,
    budget: u32,
    names: Names,
    scenario_names: Names,
    given: Items<Pattern>,
    scenarios: Items<Scenario>,
    encoding: Encoding,
    bound: Bound,
    evidence: Evidence,
    open_part: OpenPart,
    design: Module,
}

impl Model for Report {
    ghost use Rattle.cnf_build.specs.Evidence.{evidence_of, open_of};
    ghost use Rattle.report_text.specs.Report.{ReportValue, IsReport};
    ghost use Rattle.report_text.specs.Stored.{report_code};

    ghost Value = { ReportValue };

    ghost coded = { report_code };

    ghost view = { λ r. record { version = r.version; bits = r.bits; budget = r.budget; names = r.names; scenario_names = r.scenario_names; patterns = r.given; scenarios = r.scenarios; encoding = r.encoding; bound = r.bound; evidence = evidence_of r.evidence; open_part = open_of r.open_part; design = r.design } };

    ghost invariant = { λ r. IsReport (record { version = r.version; bits = r.bits; budget = r.budget; names = r.names; scenario_names = r.scenario_names; patterns = r.given; scenarios = r.scenarios; encoding = r.encoding; bound = r.bound; evidence = evidence_of r.evidence; open_part = open_of r.open_part; design = r.design }) };
}

impl Report {
    /// A report of these parts, of version 1.
    pub fn new(parts: ReportParts) -> Report
        requires { IsReport (value_of parts) }
        ensures { result ≡ value_of parts }
    {
        Report {
            version: Version::One,
            bits: parts.bits,
            budget: parts.budget,
            names: parts.names,
            scenario_names: parts.scenario_names,
            given: Items::from_vec(parts.given),
            scenarios: Items::from_vec(parts.scenarios),
            encoding: parts.encoding,
            bound: parts.bound,
            evidence: parts.evidence,
            open_part: parts.open_part,
            design: parts.design,
        }
    }

    /// The version of the format.
    pub fn version(&self) -> Version
        ensures version { result ≡ self.now.version }
        ensures report { IsReport self.now }
    {
        self.version
    }

    /// How many bits a code has.
    pub fn bits(&self) -> u8
        ensures bits { result ≡ self.now.bits }
        ensures report { IsReport self.now }
    {
        self.bits
    }

    /// How many numbers a search may write to a log.
    pub fn budget(&self) -> u32
        ensures { result ≡ self.now.budget }
    {
        self.budget
    }

    /// The names of the operations, in number order.
    pub fn names(&self) -> &Names
        ensures { result.now ≡ self.now.names }
    {
        &self.names
    }

    /// The names of the scenarios.
    pub fn scenario_names(&self) -> &Names
        ensures { result.now ≡ self.now.scenario_names }
    {
        &self.scenario_names
    }

    /// The given bits of each scenario's code.
    pub fn given(&self) -> &[Pattern]
        ensures { result.now ≡ self.now.patterns }
    {
        self.given.as_slice()
    }

    /// The scenarios.
    pub fn scenarios(&self) -> &[Scenario]
        ensures { result.now ≡ self.now.scenarios }
    {
        self.scenarios.as_slice()
    }

    /// The codes, gates and conditions.
    pub fn encoding(&self) -> &Encoding
        ensures { result.now ≡ self.now.encoding }
    {
        &self.encoding
    }

    /// What is known of the least number of gates.
    pub fn bound(&self) -> Bound
        ensures { result ≡ self.now.bound }
    {
        self.bound
    }

    /// What shows that there are no fewer gates.
    pub fn evidence(&self) -> &Evidence
        ensures { evidence_of result.now ≡ self.now.evidence }
    {
        &self.evidence
    }

    /// What is left open above that.
    pub fn open_part(&self) -> &OpenPart
        ensures { open_of result.now ≡ self.now.open_part }
    {
        &self.open_part
    }

    /// The module.
    pub fn design(&self) -> &Module
        ensures { result.now ≡ self.now.design }
    {
        &self.design
    }
}
