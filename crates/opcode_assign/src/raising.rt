//! The loop of a search: attempts with more and more gates.
ghost use Rattle.std.specs.Prelude.{◌≡◌, ℕ, ◌<◌, ◌≤◌, List, length, IfOk};
ghost use Rattle.std.specs.List.{All};
ghost use Rattle.gate_core.specs.Columns.{IsOpenColumn};
ghost use Rattle.cnf_build.specs.Sizes.{IsAsked};
ghost use Rattle.cnf_build.specs.Evidence.{evidence_of, HasWrittenEvidence};
ghost use Rattle.cnf_build.specs.declared.evidence.OpenPart.TheVariants.{Log as OpenLog, Size as OpenSize};
ghost use Rattle.opcode_assign.specs.declared.raising.End.TheVariants.{Left};
ghost use Rattle.opcode_assign.specs.Searches.{IsEnd, IsShownBy, Raises};

use crate::attempt::{Attempt, try_template};
use crate::counting::Bound;
use cnf_build::{Decoded, Evidence, OpenPart, Template, template_for};
use cpog_base::{BUDGET_LIMIT, Memory, Pattern};
use cpog_merge::ClassList;
use proof_check::Log;
use std::alloc::Global;

/// How the search ends at a bound.
#[derive(Drop)]
pub(crate) enum End {
    /// Codes, and as many gates as the bound says, that serve the classes and keep the given bits.
    Found(Decoded),
    /// What is left open between the bound and the gates of the first encoding.
    Left(OpenPart),
}

/// The bound at which the search ends, and how.
#[derive(Drop)]
pub(crate) struct Raised {
    pub bound: Bound,
    pub end: End,
}

impl Raised {
    fn at(lo: u32, evidence: Evidence, end: End) -> Raised
        ensures { result ≡ record { bound = record { lo = lo; evidence = evidence }; end = end } }
    {
        Raised {
            bound: Bound { lo, evidence },
            end,
        }
    }
}

fn left_open(template: Template, gates: u32, log: Log) -> End
    ensures { result ≡ Left (OpenLog template gates log) }
{
    End::Left(OpenPart::Log {
        template,
        gates,
        log,
    })
}

fn too_large(template: Template, gates: u32) -> End
    ensures { result ≡ Left (OpenSize template gates) }
{
    End::Left(OpenPart::Size { template, gates })
}

/// Raises a bound up to hi gates: while it is below, the template with so many gates as it says is tried.
pub(crate) fn raise(
    alloc: Global,
    classes: &ClassList,
    given: &[Pattern],
    bits: u8,
    bound: Bound,
    hi: u32,
    budget: u32,
) -> Result<Raised, Memory>
    requires few { length given.now ≤ 64 }
    requires entries { All (λ pattern. length pattern ≤ 8) given.now }
    requires below { bound.lo ≤ hi }
    requires asked { 0 < hi → IsAsked given.now bits hi classes.now.columns }
    requires two { 0 < hi → 2 ≤ length given.now }
    requires open_columns { All (IsOpenColumn (length given.now)) classes.now.columns }
    requires some_budget { 1 ≤ budget }
    requires few_budget { budget ≤ BUDGET_LIMIT }
    ensures above { IfOk result (λ r. bound.lo ≤ r.bound.lo) }
    ensures below { IfOk result (λ r. r.bound.lo ≤ hi) }
    ensures raises { IfOk result (λ r. Raises given.now bits classes.now.columns bound.lo (evidence_of bound.evidence) r.bound.lo (evidence_of r.bound.evidence)) }
    ensures shown { (taken : List ℕ) → IsShownBy classes.now given.now bits budget taken bound.lo (evidence_of bound.evidence) → IfOk result (λ r. IsShownBy classes.now given.now bits budget taken r.bound.lo (evidence_of r.bound.evidence)) }
    ensures written { HasWrittenEvidence (evidence_of bound.evidence) → IfOk result (λ r. HasWrittenEvidence (evidence_of r.bound.evidence)) }
    ensures end { IfOk result (λ r. IsEnd given.now bits classes.now.columns r.bound.lo hi budget r.end) }
{
    let kind = template_for(given);
    let lo = bound.lo;
    let mut evidence = bound.evidence;
    for gates in lo..hi {
        match try_template(alloc, kind, classes, given, bits, gates, budget)? {
            Attempt::Refuted(log) => {
                evidence = Evidence::Refutation {
                    template: kind,
                    gates,
                    log,
                };
            }
            Attempt::Found(decoded) => {
                return Ok(Raised::at(gates, evidence, End::Found(decoded)));
            }
            Attempt::Open(log) => {
                return Ok(Raised::at(gates, evidence, left_open(kind, gates, log)));
            }
            Attempt::TooLarge => {
                return Ok(Raised::at(gates, evidence, too_large(kind, gates)));
            }
        }
    }
    Ok(Raised::at(hi, evidence, End::Left(OpenPart::Closed)))
}
