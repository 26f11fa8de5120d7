//! The search for the fewest gates.
ghost use Rattle.std.specs.Prelude.{◌≡◌, ◌↔◌, ℕ, ◌<◌, ◌≤◌, ◌^◌, List, length, IfOk, IsErrOf};
ghost use Rattle.std.specs.List.{All};
ghost use Rattle.cpog_defs.specs.declared.types.Bit3.{Bit3};
ghost use Rattle.cpog_defs.specs.Codes.{AreCodes, KeepGivenBits};
ghost use Rattle.gate_core.specs.Columns.{IsOpenColumn};
ghost use Rattle.gate_core.specs.First.{IsFirstEncoding, HasFewGates};
ghost use Rattle.gate_core.specs.Least.{AreLeast, IsFirstClash};
ghost use Rattle.gate_template.specs.declared.types.Template.TheVariants.{Third};
ghost use Rattle.gate_template.specs.Templates.{ArePatterns};
ghost use Rattle.gate_template.specs.Values.{IsSolution};
ghost use Rattle.cpog_merge.specs.Columns.{count_of};
ghost use Rattle.cnf_build.specs.Decoded.{parts_of};
ghost use Rattle.cnf_build.specs.Evidence.{evidence_of, open_of};
ghost use Rattle.opcode_assign.specs.Assignments.{CanBeAssigned};
ghost use Rattle.opcode_assign.specs.Answers.{IsAnswer};
ghost use Rattle.opcode_assign.specs.Searches.{CanBeEncoded, IsEncodedBy};

use crate::counting::{Bound, counted_bound};
use crate::raising::{End, Raised, raise};
use cnf_build::{Decoded, Evidence, OpenPart};
use cpog_base::{
    BIT_LIMIT, BUDGET_LIMIT, Memory, OPERATION_LIMIT, Pattern, SCENARIO_LIMIT, ScenId,
};
use cpog_merge::{ClassList, classes, graph_by_class, merge};
use gate_core::{CodesFault, Encoding, FirstEncoding, first_encode, least_codes};
use order_reduce::CoveredOrder;
use std::alloc::Global;

/// An encoding, a number of gates below which there is none, what shows that, and what is left open between this number
/// and the gates of the encoding.
#[derive(Drop)]
pub struct Answer {
    pub encoding: Encoding,
    pub lo: u32,
    pub evidence: Evidence,
    pub open_part: OpenPart,
}

/// Why there is no assignment.
#[derive(Clone, Copy, Debug, PartialEq, Eq)]
pub enum AssignFault {
    /// There are more scenarios than words of so many bits.
    TooFewBits,
    /// The least scenario for which those up to it have no distinct words with the given bits.
    Clash(ScenId),
    /// No memory was left.
    Memory,
}

/// Codes, gates and references of the first encoding of classes on these codes.
fn first_parts(
    alloc: Global,
    classes: &ClassList,
    codes: &[u8],
    bits: u8,
) -> Result<Decoded, Memory>
    requires some_bit { 1 ≤ bits }
    requires few_bits { bits ≤ BIT_LIMIT }
    requires few { length codes.now ≤ SCENARIO_LIMIT }
    requires codes { AreCodes bits (length codes.now) codes.now }
    requires classes { All (IsOpenColumn (length codes.now)) classes.now.columns }
    ensures first { IfOk result (λ d. IsFirstEncoding codes.now bits classes.now.columns (record { codes = d.codes.items; gates = d.gates; refs = d.refs.items })) }
    ensures same { IfOk result (λ d. d.codes.items ≡ codes.now) }
    ensures few_gates { IfOk result (λ d. HasFewGates codes.now bits classes.now.columns (record { codes = d.codes.items; gates = d.gates; refs = d.refs.items })) }
    ensures solution { IfOk result (λ d. (patterns : List (List Bit3)) → length patterns ≡ length codes.now → KeepGivenBits patterns codes.now →
        IsSolution Third patterns bits classes.now.columns (parts_of d.codes.items d.gates d.refs.items)) }
{
    let FirstEncoding { codes, gates, refs } = first_encode(alloc, classes.columns(), codes, bits)?;
    Ok(Decoded { codes, gates, refs })
}

/// The encoding of codes, gates and references, with a bound and what is left open.
fn encoded(
    alloc: Global,
    classes: &ClassList,
    parts: Decoded,
    bound: Bound,
    open_part: OpenPart,
) -> Result<Answer, Memory>
    requires { CanBeEncoded classes.now (parts_of parts.codes.items parts.gates parts.refs.items) }
    ensures encoding { IfOk result (λ a. IsEncodedBy classes.now (parts_of parts.codes.items parts.gates parts.refs.items) a.encoding) }
    ensures lo { IfOk result (λ a. a.lo ≡ bound.lo) }
    ensures evidence { IfOk result (λ a. evidence_of a.evidence ≡ evidence_of bound.evidence) }
    ensures open_part { IfOk result (λ a. open_of a.open_part ≡ open_of open_part) }
{
    let graph = graph_by_class(alloc, classes, &parts.refs)?;
    Ok(Answer {
        encoding: Encoding::new(parts.codes, parts.gates, graph),
        lo: bound.lo,
        evidence: bound.evidence,
        open_part,
    })
}

/// The search on the least codes.
fn search(
    alloc: Global,
    orders: &[CoveredOrder],
    given: &[Pattern],
    codes: &[u8],
    bits: u8,
    budget: u32,
) -> Result<Answer, Memory>
    requires scenarios { CanBeAssigned orders.now bits }
    requires few_ops { count_of orders.now ≤ OPERATION_LIMIT }
    requires given { ArePatterns bits (length orders.now) given.now }
    requires least { AreLeast given.now (2 ^ bits) codes.now }
    requires codes { AreCodes bits (length given.now) codes.now }
    requires kept { KeepGivenBits given.now codes.now }
    requires some_budget { 1 ≤ budget }
    requires few_budget { budget ≤ BUDGET_LIMIT }
    ensures { IfOk result (IsAnswer orders.now given.now bits budget) }
{
    let columns = merge(alloc, orders)?;
    let list = classes(alloc, &columns)?;
    let first = first_parts(alloc, &list, codes, bits)?;
    let bound = counted_bound(alloc, &list, bits)?;
    let hi = first.gates.len();
    let Raised { bound, end } = raise(alloc, &list, given, bits, bound, hi, budget)?;
    match end {
        End::Found(found) => encoded(alloc, &list, found, bound, OpenPart::Closed),
        End::Left(open_part) => encoded(alloc, &list, first, bound, open_part),
    }
}

/// An encoding of 1 to 64 scenarios of one count of operations, over codes of so many bits that keep the given ones, and
/// a lower bound on the gates of every such encoding. The bound begins with the count of incompatible columns. While it
/// is below the gates of the encoding, which is at first the one that needs no search, the template with so many gates as
/// the bound says is tried with a budget of numbers in the log: a refutation raises the bound, and an assignment is an
/// encoding that attains it. What isn't decided within the budget, or is too large to be tried, is left open.
///
/// # Errors
///
/// `TooFewBits` where there are more scenarios than words, else `Clash` where no codes keep the given bits, and `Memory`
/// where none is left.
pub fn assign(
    alloc: Global,
    orders: &[CoveredOrder],
    given: &[Pattern],
    bits: u8,
    budget: u32,
) -> Result<Answer, AssignFault>
    requires scenarios { CanBeAssigned orders.now bits }
    requires few_ops { count_of orders.now ≤ OPERATION_LIMIT }
    requires given { ArePatterns bits (length orders.now) given.now }
    requires some_budget { 1 ≤ budget }
    requires few_budget { budget ≤ BUDGET_LIMIT }
    ensures ok { IfOk result (IsAnswer orders.now given.now bits budget) }
    ensures too_few_bits { IsErrOf result AssignFault.TooFewBits ↔ (2 ^ bits < length orders.now) }
    ensures clash { (k : ℕ) → IsErrOf result (AssignFault.Clash (record { 0 = k })) → IsFirstClash given.now (2 ^ bits) k }
{
    if orders.len() > 1 << bits {
        return Err(AssignFault::TooFewBits);
    }
    let codes = match least_codes(alloc, given, bits) {
        Ok(codes) => codes,
        Err(CodesFault::Clash(s)) => return Err(AssignFault::Clash(s)),
        Err(CodesFault::Memory) => return Err(AssignFault::Memory),
    };
    match search(alloc, orders, given, &codes, bits, budget) {
        Ok(answer) => Ok(answer),
        Err(_) => Err(AssignFault::Memory),
    }
}
