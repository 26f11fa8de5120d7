//! A scenario is the graph of its form where the bound parameters have their bits, which no other parameter may change.
ghost use Rattle.std.specs.Prelude.{◌≡◌, ◌^◌, ◌<◌, ◌≤◌, ◌⊎◌, ◌↔◌, ℕ, [], true, false, IfOk, IfErr, OnOk, MatchOption};
ghost use Rattle.std.specs.Bool.{MatchBool};
ghost use Rattle.std.specs.FinSet as set;
ghost use Rattle.cpog_base.specs.Arcs.{has_arc};
ghost use Rattle.cpog_defs.specs.Codes.{bit};
ghost use Rattle.pg_normal.specs.Forms.{vertex_table, arc_table, graph_at, sometimes};
ghost use Rattle.pg_normal.specs.Instances.{Agrees, IsInstance, IsInstanceFault, IsScenarioOf, IsUnbound};
ghost use Rattle.pg_normal.specs.Changes.{Differs, Keeps, KeepsVertices, KeepsArcs, KeepsGraph, VertexDiffers, ArcDiffers, IsBelow};
ghost use Rattle.pg_normal.specs.declared.instances.InstanceFault.TheVariants as fault;

use crate::{NormalForm, Partial};
use cpog_base::bits::has_bit;
use cpog_base::{Memory, OpId, PARAM_LIMIT, Scenario};
use pg_algebra::Table;
use std::alloc::Global;

/// Why a form under bindings is no scenario.
#[derive(Clone, Copy, Debug, PartialEq, Eq)]
pub enum InstanceFault {
    /// The least parameter that is not bound and changes the graph.
    Unbound(u8),
    /// No memory was left.
    Memory,
}

impl From<Memory> for InstanceFault {
    ghost from_gives = { λ _ e. e ≡ fault.Memory };

    fn from(_error: Memory) -> InstanceFault {
        InstanceFault::Memory
    }
}

/// Bit k of a mask, or of a valuation's number.
pub(crate) fn is_set(mask: u8, k: u8) -> bool
    ensures { result ≡ bit mask k }
{
    has_bit(u64::from(mask), k)
}

/// The value under valuation n.
pub(crate) fn value_at(table: Table, n: u8) -> bool
    ensures { result ≡ bit table.0 n }
{
    has_bit(table.0, n)
}

/// Whether the word is 1 under some valuation.
fn ever_holds(word: u64) -> bool
    ensures { result ≡ sometimes (bit word) }
{
    word != 0
}

/// The table of a parameter, or of its complement.
fn literal(k: u8, set: bool) -> Table
    requires { k < PARAM_LIMIT }
    ensures { (n : ℕ) → n < 64 → (bit result.0 n ≡ true) ↔ (bit n k ≡ set) }
{
    let own = Table::of_param(k);
    if set { own } else { own.not() }
}

/// The valuations that agree with the bindings.
fn agreeing(binding: Partial) -> Table
    ensures { (n : ℕ) → n < 64 → (bit result.0 n ≡ true) ↔ Agrees binding.fixed binding.values n }
{
    let mut all = Table::constant(true);
    'parameters: for k in 0..6 {
        if is_set(binding.fixed, k) {
            all = all.and(literal(k, is_set(binding.values, k)));
        }
    }
    all
}

/// Whether parameter k alone changes the table under some of these valuations.
fn changes(table: Table, k: u8, among: Table) -> bool
    requires { k < PARAM_LIMIT }
    ensures { MatchBool result (Differs table.0 k among.0) (Keeps table.0 k among.0) }
{
    let turned = table.fix(k, true).0 ^ table.fix(k, false).0;
    ever_holds(turned & among.0)
}

/// Whether parameter k alone changes which vertices there are.
fn vertices_change(form: &NormalForm, k: u8, among: Table) -> bool
    requires { k < PARAM_LIMIT }
    ensures { MatchBool result (VertexDiffers form.now k among.0) (KeepsVertices form.now k among.0) }
{
    'vertices: for i in 0..form.vertices() {
        let v = form.vertex(i);
        if changes(form.vertex_table(v), k, among) {
            return true;
        }
    }
    false
}

/// Whether parameter k alone changes which arcs there are.
fn arcs_change(form: &NormalForm, k: u8, among: Table) -> bool
    requires { k < PARAM_LIMIT }
    ensures { MatchBool result (ArcDiffers form.now k among.0) (KeepsArcs form.now k among.0) }
{
    'arcs: for i in 0..form.arcs() {
        let (u, v) = form.arc_ends(i);
        if changes(form.arc_table(u, v), k, among) {
            return true;
        }
    }
    false
}

/// Whether parameter k alone changes the graph under some of these valuations.
fn graph_changes(form: &NormalForm, k: u8, among: Table) -> bool
    requires { k < PARAM_LIMIT }
    ensures { MatchBool result (VertexDiffers form.now k among.0 ⊎ ArcDiffers form.now k among.0) (KeepsGraph form.now k among.0) }
{
    vertices_change(form, k, among) || arcs_change(form, k, among)
}

/// The least parameter that is not bound and changes the graph under some of these valuations.
fn first_unbound(form: &NormalForm, binding: Partial, among: Table) -> Option<u8>
    requires { (n : ℕ) → n < 64 → (bit among.0 n ≡ true) ↔ Agrees binding.fixed binding.values n }
    ensures { MatchOption result ((k : ℕ) → k < PARAM_LIMIT → bit binding.fixed k ≡ false → KeepsGraph form.now k among.0) (IsUnbound form.now binding.fixed binding.values) }
{
    'parameters: for k in 0..6 {
        if !is_set(binding.fixed, k) && graph_changes(form, k, among) {
            return Some(k);
        }
    }
    None
}

/// A scenario of the vertices under valuation n, without arcs.
fn with_vertices(alloc: Global, form: &NormalForm, n: u8, count: u8) -> Scenario
    requires valuation { n < 64 }
    requires few { count ≤ 128 }
    requires below { IsBelow count form.now }
    ensures size { result.count ≡ count }
    ensures ops { (v : ℕ) → set.contains result.ops v ≡ bit (vertex_table form.now v) n }
    ensures arcs { result.arcs ≡ [] }
{
    let mut scenario = Scenario::new(alloc, count);
    'vertices: for v in 0..count {
        if value_at(form.vertex_table(u32::from(v)), n) {
            scenario.add_op(OpId(v));
        }
    }
    scenario
}

/// Gives a scenario the arcs under valuation n.
fn add_arcs(scenario: &mut Scenario, form: &NormalForm, n: u8) -> Result<(), Memory>
    requires valuation { n < 64 }
    requires few { scenario.old.count ≤ 128 }
    requires below { IsBelow scenario.old.count form.now }
    requires ops { (v : ℕ) → set.contains scenario.old.ops v ≡ bit (vertex_table form.now v) n }
    requires none { scenario.old.arcs ≡ [] }
    ensures size { OnOk result (scenario.new.count ≡ scenario.old.count) }
    ensures ops { OnOk result (scenario.new.ops ≡ scenario.old.ops) }
    ensures arcs { OnOk result ((u v : ℕ) → has_arc scenario.new.arcs u v ≡ bit (arc_table form.now u v) n) }
{
    'arcs: for i in 0..form.arcs() {
        let (u, v) = form.arc_ends(i);
        if value_at(form.arc_table(u, v), n) {
            scenario.add_arc(OpId(u as u8), OpId(v as u8))?;
        }
    }
    Ok(())
}

/// The scenario of the graph under valuation n.
fn scenario_at(alloc: Global, form: &NormalForm, n: u8, count: u8) -> Result<Scenario, Memory>
    requires valuation { n < 64 }
    requires few { count ≤ 128 }
    requires below { IsBelow count form.now }
    ensures { IfOk result (IsScenarioOf count (graph_at form.now n)) }
{
    let mut scenario = with_vertices(alloc, form, n, count);
    add_arcs(&mut scenario, form, n)?;
    Ok(scenario)
}

/// The scenario of a form under bindings, of so many operations as there may be.
///
/// # Errors
///
/// `Unbound` where a parameter that is not bound changes the graph, with the least one. `Memory` where none is left.
pub fn instance(
    alloc: Global,
    form: &NormalForm,
    binding: Partial,
    count: u8,
) -> Result<Scenario, InstanceFault>
    requires few { count ≤ 128 }
    requires below { IsBelow count form.now }
    requires values { binding.values < 2 ^ PARAM_LIMIT }
    ensures ok { IfOk result (IsInstance form.now binding.fixed binding.values count) }
    ensures err { IfErr result (IsInstanceFault form.now binding.fixed binding.values) }
{
    if let Some(k) = first_unbound(form, binding, agreeing(binding)) {
        return Err(InstanceFault::Unbound(k));
    }
    let scenario = scenario_at(alloc, form, binding.values, count)?;
    Ok(scenario)
}
