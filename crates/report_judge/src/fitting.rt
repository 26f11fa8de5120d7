//! What each code leaves: the operations whose conditions are 1, and the order that the walks of the pairs make whose
//! conditions are 1.
ghost use Rattle.std.specs.Prelude.{◌≡◌, ◌+◌, ◌<◌, ◌≤◌, ◌++◌, ℕ, length, replicate, false, MatchOption, IfOk, OnOk, IfErr};
ghost use Rattle.std.specs.FinSet as set;
ghost use Rattle.cpog_base.specs.Rows.{row_has};
ghost use Rattle.cpog_defs.specs.Encodings.{FitsScenarios};
ghost use Rattle.cpog_defs.specs.Gates.{IsRefOver, ref_value};
ghost use Rattle.cpog_defs.specs.Graphs.{IsGraph, keeps, keeps_arc};
ghost use Rattle.cpog_defs.specs.Scenarios.{AreOrdersOf, IsOrderOfScenario};
ghost use Rattle.report_judge.specs.Fitting.{values_at, scenario_at, FitsAt};
ghost use Rattle.report_judge.specs.Parts.{Part};
ghost use Rattle.report_judge.specs.Steps.{kept_from, kept_pairs, IsFirstDifference, IsMisfit, IsMisfitAt, IsFaultAt};

use crate::fault::Fault;
use crate::reason::Reason;
use cpog_base::{Memory, OpId, OpSet, Order, ScenId, Scenario};
use gate_core::{ConditionalGraph, GateList, Ref};
use order_reduce::CoveredOrder;
use report_text::Report;
use scenario_check::walks;
use std::alloc::Global;

/// What tells that not exactly a scenario is left.
#[derive(Clone, Copy, Debug, PartialEq, Eq)]
pub enum Misfit {
    /// An operation that is left without being its own, or is its own without being left.
    Operation(OpId),
    /// Two operations of which the first is before the second either in what is left or in the scenario alone.
    Pair(OpId, OpId),
}

/// The value of a condition where the signals have these values.
fn value_of(values: &[bool], condition: Ref) -> bool
    requires { IsRefOver (length values.now) condition }
    ensures { result ≡ ref_value values.now condition }
{
    match condition {
        Ref::Const(value) => value,
        Ref::Signal {
            number,
            negated: false,
        } => values[number as usize],
        Ref::Signal {
            number,
            negated: true,
        } => !values[number as usize],
    }
}

/// The operations that are left.
fn kept_ops(graph: &ConditionalGraph, values: &[bool]) -> OpSet
    requires { IsGraph (length graph.now.ops) (length values.now) graph.now }
    ensures { (v : ℕ) → set.contains result v ≡ keeps graph.now values.now v }
{
    let mut kept = OpSet::empty();
    for v in 0..graph.count() {
        if value_of(values, graph.op(OpId(v))) {
            kept.insert(OpId(v));
        }
    }
    kept
}

/// Whether a pair is left, where these are the operations that are.
fn is_kept(graph: &ConditionalGraph, values: &[bool], kept: &OpSet, u: OpId, v: OpId) -> bool
    requires graph { IsGraph (length graph.now.ops) (length values.now) graph.now }
    requires kept { (w : ℕ) → set.contains kept.now w ≡ keeps graph.now values.now w }
    requires first { u.0 < length graph.now.ops }
    requires second { v.0 < length graph.now.ops }
    ensures { result ≡ keeps_arc graph.now values.now u.0 v.0 }
{
    u.0 != v.0 && (kept.contains(u) && (kept.contains(v) && value_of(values, graph.arc(u, v))))
}

/// Appends the pairs that are left whose first is u.
fn push_kept_from(
    arcs: &mut Vec<(OpId, OpId)>,
    graph: &ConditionalGraph,
    values: &[bool],
    kept: &OpSet,
    u: OpId,
) -> Result<(), Memory>
    requires graph { IsGraph (length graph.now.ops) (length values.now) graph.now }
    requires kept { (w : ℕ) → set.contains kept.now w ≡ keeps graph.now values.now w }
    requires first { u.0 < length graph.now.ops }
    ensures { OnOk result (arcs.new.items ≡ arcs.old.items ++ kept_from graph.now values.now (length graph.now.ops) u.0) }
{
    for v in 0..graph.count() {
        if is_kept(graph, values, kept, u, OpId(v)) {
            arcs.push((u, OpId(v)))?;
        }
    }
    Ok(())
}

/// The pairs that are left, by the first and then by the second.
fn kept_arcs(
    alloc: Global,
    graph: &ConditionalGraph,
    values: &[bool],
    kept: &OpSet,
) -> Result<Vec<(OpId, OpId)>, Memory>
    requires graph { IsGraph (length graph.now.ops) (length values.now) graph.now }
    requires kept { (w : ℕ) → set.contains kept.now w ≡ keeps graph.now values.now w }
    ensures { IfOk result (λ arcs. arcs.items ≡ kept_pairs graph.now values.now (length graph.now.ops)) }
{
    let mut arcs = Vec::new(alloc);
    for u in 0..graph.count() {
        push_kept_from(&mut arcs, graph, values, kept, OpId(u))?;
    }
    Ok(arcs)
}

/// The first operation that one set has and the other hasn't.
fn first_other(kept: &OpSet, ops: &OpSet) -> Option<OpId>
    ensures { MatchOption result ((v : ℕ) → set.contains kept.now v ≡ set.contains ops.now v)
        (λ v. (set.contains kept.now v.0 ≡ set.contains ops.now v.0 → ⊥) × ((w : ℕ) → w < v.0 → set.contains kept.now w ≡ set.contains ops.now w)) }
{
    kept.difference(ops).union(&ops.difference(kept)).first()
}

/// The first operation whose row has u where the other row hasn't, or hasn't where the other has.
fn first_difference_from(rows: &[OpSet], others: &[OpSet], u: OpId) -> Option<OpId>
    requires few { length rows.now ≤ 128 }
    requires alike { length others.now ≡ length rows.now }
    ensures { MatchOption result ((v : ℕ) → row_has rows.now u.0 v ≡ row_has others.now u.0 v)
        (λ v. (row_has rows.now u.0 v.0 ≡ row_has others.now u.0 v.0 → ⊥) × ((w : ℕ) → w < v.0 → row_has rows.now u.0 w ≡ row_has others.now u.0 w)) }
{
    for v in 0..rows.len() as u8 {
        if rows[usize::from(v)].contains(u) != others[usize::from(v)].contains(u) {
            return Some(OpId(v));
        }
    }
    None
}

/// The first pair, by the first operation and then by the second, of which one list of rows tells otherwise.
pub(crate) fn first_difference(rows: &[OpSet], others: &[OpSet]) -> Option<(OpId, OpId)>
    requires few { length rows.now ≤ 128 }
    requires alike { length others.now ≡ length rows.now }
    ensures { MatchOption result ((u v : ℕ) → u < length rows.now → row_has rows.now u v ≡ row_has others.now u v)
        (λ p. IsFirstDifference rows.now others.now p.0.0 p.1.0) }
{
    for u in 0..rows.len() as u8 {
        if let Some(v) = first_difference_from(rows, others, OpId(u)) {
            return Some((OpId(u), v));
        }
    }
    None
}

/// The first operation, or where there is none the first pair, that tells that not exactly the scenario is left.
fn first_misfit(
    alloc: Global,
    graph: &ConditionalGraph,
    values: &[bool],
    scenario: &Scenario,
    order: &Order,
) -> Result<Option<Misfit>, Memory>
    requires graph { IsGraph (length graph.now.ops) (length values.now) graph.now }
    requires order { IsOrderOfScenario scenario.now order.now }
    requires count { scenario.now.count ≡ length graph.now.ops }
    ensures { IfOk result (IsMisfit graph.now values.now scenario.now) }
{
    let kept = kept_ops(graph, values);
    if let Some(v) = first_other(&kept, &scenario.ops()) {
        return Ok(Some(Misfit::Operation(v)));
    }
    let arcs = kept_arcs(alloc, graph, values, &kept)?;
    let rows = walks(alloc, graph.count(), &arcs)?;
    match first_difference(&rows, order.rows()) {
        Some((u, v)) => Ok(Some(Misfit::Pair(u, v))),
        None => Ok(None),
    }
}

/// Room for the values of all signals.
fn value_room(alloc: Global, gates: &GateList) -> Result<Vec<bool>, Memory>
    ensures { IfOk result (λ values. length values.items ≡ gates.now.inputs + length gates.now.gates) }
{
    let signals = usize::from(gates.inputs()) + gates.len() as usize;
    Ok(vec![in alloc; false; signals]?)
}

/// What tells that the code at a place doesn't leave exactly its scenario.
fn misfit_at(
    alloc: Global,
    report: &Report,
    orders: &[CoveredOrder],
    values: &mut [bool],
    s: usize,
) -> Result<Option<Misfit>, Memory>
    requires orders { AreOrdersOf report.now.scenarios orders.now }
    requires room { length values.old ≡ report.now.encoding.gates.inputs + length report.now.encoding.gates.gates }
    requires within { s < length report.now.scenarios }
    ensures { IfOk result (IsMisfitAt report.now.encoding report.now.scenarios s) }
{
    // What is known of each report: a code for each scenario, and scenarios of as many operations as the graph has.
    let _version = report.version();
    let encoding = report.encoding();
    encoding.gates().eval(encoding.codes()[s], values);
    let scenario = &report.scenarios()[s];
    first_misfit(
        alloc,
        encoding.graph(),
        values,
        scenario,
        orders[s].as_order(),
    )
}

/// Tests that each code leaves exactly its scenario, in the time of the gates and of the pairs of operations for each.
pub(crate) fn check_fitting(
    alloc: Global,
    report: &Report,
    orders: &[CoveredOrder],
) -> Result<(), Fault>
    requires { AreOrdersOf report.now.scenarios orders.now }
    ensures ok { OnOk result (FitsScenarios report.now.encoding report.now.scenarios) }
    ensures err { IfErr result (IsFaultAt report.now Part.Fitting) }
{
    // That there are few scenarios is known of each report.
    let _version = report.version();
    let mut values = value_room(alloc, report.encoding().gates())?;
    for s in 0..report.scenarios().len() {
        match misfit_at(alloc, report, orders, &mut values, s)? {
            Some(Misfit::Operation(v)) => {
                return Err(Fault::Fails(Reason::Operation(ScenId(s as u8), v)));
            }
            Some(Misfit::Pair(u, v)) => {
                return Err(Fault::Fails(Reason::Order(ScenId(s as u8), u, v)));
            }
            None => {}
        }
    }
    Ok(())
}
