//! From what scenarios are encoded from to a report: an encoding with what is known of the least number of gates, its
//! netlist, and the record of all.
ghost use Rattle.std.specs.Prelude.{◌≡◌, ◌≤◌, ◌^◌, length, map, IfOk};
ghost use Rattle.cpog_base.specs.declared.limits.TheConstants.{BUDGET_LIMIT, OPERATION_LIMIT};
ghost use Rattle.cpog_merge.specs.Columns.{count_of};
ghost use Rattle.opcode_assign.specs.Answers.{IsAnswer};
ghost use Rattle.opcode_assign.specs.Assignments.{CanBeAssigned};
ghost use Rattle.graph_answers.specs.Bits.{synth_length};
ghost use Rattle.command_words.specs.Ranges.{MayBeAsked};
ghost use Rattle.graph_answers.specs.Encodable.{IsEncodable};
ghost use Rattle.order_reduce.specs.Scenarios.{covering_scenario};
ghost use Rattle.graph_answers.specs.Synthesis.{free_patterns, IsSynthesis};
ghost use Rattle.report_judge.specs.Known.{printed_lower, Attains};

use crate::encodable::Encodable;
use command_words::SynthOptions;
use cpog_base::{BUDGET_LIMIT, Memory, OPERATION_LIMIT, Pattern, Scenario};
use gate_core::free_patterns;
use handshake_eqs::equations;
use netlist_verilog::Module;
use opcode_assign::{Answer, AssignFault, assign};
use order_reduce::{CoveredOrder, covering_scenario};
use report_text::{Bound, Report, ReportParts};
use std::alloc::Global;

/// Each scenario with the covering pairs of its order as arcs.
fn covering_scenarios(alloc: Global, orders: &[CoveredOrder]) -> Result<Vec<Scenario>, Memory>
    ensures { IfOk result (λ scenarios. scenarios.items ≡ map covering_scenario orders.now) }
{
    let mut scenarios = Vec::new(alloc);
    for order in orders {
        scenarios.push(covering_scenario(alloc, order)?)?;
    }
    Ok(scenarios)
}

/// What a search finds over codes of which no bit is given, where there are enough.
fn open_assign(
    alloc: Global,
    orders: &[CoveredOrder],
    given: &[Pattern],
    bits: u8,
    budget: u32,
) -> Result<Answer, Memory>
    requires scenarios { CanBeAssigned orders.now bits }
    requires few_ops { count_of orders.now ≤ OPERATION_LIMIT }
    requires given { given.now ≡ free_patterns (length orders.now) bits }
    requires some_budget { 1 ≤ budget }
    requires few_budget { budget ≤ BUDGET_LIMIT }
    requires enough { length orders.now ≤ 2 ^ bits }
    ensures { IfOk result (IsAnswer orders.now given.now bits budget) }
{
    match assign(alloc, orders, given, bits, budget) {
        Ok(answer) => Ok(answer),
        Err(AssignFault::Memory) => Err(Memory),
        // There are enough codes, and any of them will do.
        Err(AssignFault::TooFewBits) => unreachable!(),
        Err(AssignFault::Clash(_)) => unreachable!(),
    }
}

/// What is known of the least number of gates, between a lower bound and the number of gates that an encoding has.
fn bound_of(lower: u32, gates: u32) -> Bound
    requires { lower ≤ gates }
    ensures lower { printed_lower result ≡ lower }
    ensures attained { Attains gates result }
{
    if lower == gates {
        Bound::Minimum(gates)
    } else {
        Bound::Between(lower, gates)
    }
}

/// The report of a file whose scenarios can be encoded.
pub(crate) fn report_of(
    alloc: Global,
    options: SynthOptions,
    encodable: Encodable,
) -> Result<Report, Memory>
    requires options { MayBeAsked options }
    requires encodable { IsEncodable (synth_length options) encodable.file encodable }
    ensures { IfOk result (IsSynthesis options encodable.file) }
{
    let Encodable {
        file,
        names: scenario_names,
        orders,
        bits,
    } = encodable;
    let budget = options.budget;
    let scenarios = covering_scenarios(alloc, &orders)?;
    let given = free_patterns(alloc, orders.as_slice().len(), bits)?;
    let Answer {
        encoding,
        lo,
        evidence,
        open_part,
    } = open_assign(alloc, &orders, &given, bits, budget)?;
    let bound = bound_of(lo, encoding.gates().gates().len() as u32);
    let netlist = equations(alloc, &encoding)?;
    let names = file.into_operations();
    let design = Module::new(names.try_clone(alloc)?, netlist);
    Ok(Report::new(ReportParts {
        bits,
        budget,
        names,
        scenario_names,
        given,
        scenarios,
        encoding,
        bound,
        evidence,
        open_part,
        design,
    }))
}
