//! The text of a report, line by line into one buffer.
ghost use Rattle.std.specs.Prelude.{◌≡◌, ◌∷◌, [], ◌<◌, ◌≤◌, length, map, if◌then◌else◌, OnOk, IfOk};
ghost use Rattle.std.specs.FinSet as set;
ghost use Rattle.cpog_defs.specs.Orders.{each_below};
ghost use Rattle.cpog_defs.specs.Scenarios.{IsScenario};
ghost use Rattle.line_text.specs.Lines.{text_of};
ghost use Rattle.netlist_verilog.specs.Wires.{name_of};
ghost use Rattle.netlist_verilog.specs.Writes.{Writes};
ghost use Rattle.report_text.specs.Report.{LogsFit};
ghost use Rattle.report_text.specs.Rows.{blank_names, scenario_row, has_row, arcs_row, scenario_lines, gates_row, gate_row, gate_lines, op_row, op_lines, arc_row, arc_lines_from, arc_lines, head_lines, netlist_lines, report_lines, line_unless_zero};

use crate::Report;
use crate::given::put_given;
use crate::known::{append_evidence, append_open, put_bound};
use crate::signals::{put_digits, put_ref};
use cpog_base::{BIT_LIMIT, Memory, Names, OpId, OpSet, Pattern, Scenario};
use cpog_defs::types::{Gate, Ref};
use gate_core::ConditionalGraph;
use netlist_verilog::{Module, SignalName, append_module};
use std::alloc::{AllocError, Global};
use std::fmt::Write;

/// The text of a report, in the time of its length and of the pairs of its operations. That the numbers of its logs are
/// words of 32 bits is known once each is written.
///
/// # Errors
///
/// `Memory` where none is left.
pub fn write_report(alloc: Global, report: &Report) -> Result<Vec<u8>, Memory>
    ensures text { IfOk result (λ text. text.items ≡ text_of (report_lines report.now)) }
    ensures fits { IfOk result (λ _. LogsFit report.now) }
{
    let mut out = String::new(alloc);
    put_head(&mut out, report)?;
    put_scenarios(&mut out, report)?;
    let bits = report.bits();
    let encoding = report.encoding();
    put_gates(&mut out, bits, encoding.gates().gates())?;
    put_ops(&mut out, bits, report.names(), encoding.graph())?;
    put_arcs(&mut out, bits, report.names(), encoding.graph())?;
    put_bound(&mut out, report.bound())?;
    let text = append_evidence(out, report.names(), report.evidence())?;
    let text = append_open(text, report.open_part())?;
    let text = append_netlist(text, report.design())?;
    Ok(text.into_bytes())
}

fn put_head(out: &mut String, report: &Report) -> Result<(), AllocError>
    ensures { OnOk result (Writes out.old out.new (text_of (head_lines report.now))) }
{
    write!(
        out,
        "cpog report {}\nbits {}\nbudget {}\noperations",
        report.version().number(),
        report.bits(),
        report.budget()
    )?;
    put_names(out, report.names())?;
    out.push_str("\n")?;
    Ok(())
}

/// Writes each name behind a blank.
fn put_names(out: &mut String, names: &Names) -> Result<(), AllocError>
    ensures { OnOk result (Writes out.old out.new (blank_names names.now)) }
{
    'names: for v in 0..names.len() {
        write!(out, " {}", names.get(v))?;
    }
    Ok(())
}

fn put_scenarios(out: &mut String, report: &Report) -> Result<(), AllocError>
    ensures { OnOk result (Writes out.old out.new (text_of (each_below (scenario_lines report.now) (length report.now.scenarios)))) }
{
    'scenarios: for s in 0..report.scenarios().len() {
        put_scenario(out, report, s)?;
    }
    Ok(())
}

fn put_scenario(out: &mut String, report: &Report, s: usize) -> Result<(), AllocError>
    requires { s < length report.now.scenarios }
    ensures { OnOk result (Writes out.old out.new (text_of (scenario_lines report.now s))) }
{
    let bits = report.bits();
    let name = scenario_name(report, s);
    let scenario = &report.scenarios()[s];
    let code = report.encoding().codes()[s];
    put_code(out, name, bits, code, &report.given()[s])?;
    put_members(out, report.names(), scenario)?;
    put_covers(out, report.names(), scenario)
}

/// The name of a scenario.
fn scenario_name(report: &Report, s: usize) -> &str
    requires { s < length report.now.scenario_names }
    ensures { result.now ≡ name_of report.now.scenario_names s }
{
    let names = report.scenario_names();
    // The place is below their number, which is a u32.
    let _count = names.len();
    names.get(s as u32)
}

pub(crate) fn put_code(
    out: &mut String,
    name: &str,
    bits: u8,
    code: u8,
    given: &Pattern,
) -> Result<(), AllocError>
    requires { bits ≤ BIT_LIMIT }
    ensures { OnOk result (Writes out.old out.new (text_of (scenario_row bits name.now code given.now ∷ []))) }
{
    write!(out, "scenario {name} ")?;
    put_digits(out, bits, code)?;
    put_given(out, given)?;
    out.push_str("\n")?;
    Ok(())
}

fn put_members(out: &mut String, names: &Names, scenario: &Scenario) -> Result<(), AllocError>
    requires { scenario.now.count ≡ length names.now }
    ensures { OnOk result (Writes out.old out.new (text_of (has_row names.now scenario.now ∷ []))) }
{
    out.push_str("has")?;
    let members = scenario.ops();
    'members: for v in 0..scenario.count() {
        put_member(out, names, members, OpId(v))?;
    }
    out.push_str("\n")?;
    Ok(())
}

/// Writes the operation's name behind a blank, where it is a member.
fn put_member(out: &mut String, names: &Names, members: OpSet, v: OpId) -> Result<(), AllocError>
    requires { v.0 < length names.now }
    ensures { OnOk result (Writes out.old out.new (blank_names (map (name_of names.now) (if set.contains members v.0 then v.0 ∷ [] else [])))) }
{
    if members.contains(v) {
        write!(out, " {}", names.get(u32::from(v.0)))?;
    }
    Ok(())
}

fn put_covers(out: &mut String, names: &Names, scenario: &Scenario) -> Result<(), AllocError>
    requires count { scenario.now.count ≡ length names.now }
    requires scenario { IsScenario scenario.now }
    ensures { OnOk result (Writes out.old out.new (text_of (arcs_row names.now scenario.now ∷ []))) }
{
    out.push_str("arcs")?;
    'arcs: for arc in scenario.arcs() {
        let first = names.get(u32::from(arc.0.0));
        let second = names.get(u32::from(arc.1.0));
        write!(out, " {first}>{second}")?;
    }
    out.push_str("\n")?;
    Ok(())
}

pub(crate) fn put_gates(out: &mut String, bits: u8, gates: &[Gate]) -> Result<(), AllocError>
    ensures { OnOk result (Writes out.old out.new (text_of (gates_row (length gates.now) ∷ gate_lines bits gates.now))) }
{
    let count = gates.len();
    write!(out, "gates {count}\n")?;
    'gates: for (g, gate) in gates.iter().enumerate() {
        put_gate(out, bits, g, gate)?;
    }
    Ok(())
}

fn put_gate(out: &mut String, bits: u8, g: usize, gate: &Gate) -> Result<(), AllocError>
    ensures { OnOk result (Writes out.old out.new (text_of (gate_row bits g gate.now ∷ []))) }
{
    let j = SignalName {
        inputs: bits,
        number: gate.j,
    };
    let k = SignalName {
        inputs: bits,
        number: gate.k,
    };
    write!(out, "g{g} {j} {k} ")?;
    put_digits(out, 4, gate.table)?;
    out.push_str("\n")?;
    Ok(())
}

fn put_ops(
    out: &mut String,
    bits: u8,
    names: &Names,
    graph: &ConditionalGraph,
) -> Result<(), AllocError>
    requires { length graph.now.ops ≡ length names.now }
    ensures { OnOk result (Writes out.old out.new (text_of (op_lines bits names.now graph.now))) }
{
    'ops: for v in 0..graph.count() {
        put_op(out, bits, names.get(u32::from(v)), graph.op(OpId(v)))?;
    }
    Ok(())
}

pub(crate) fn put_op(
    out: &mut String,
    bits: u8,
    name: &str,
    condition: Ref,
) -> Result<(), AllocError>
    ensures { OnOk result (Writes out.old out.new (text_of (op_row bits name.now condition ∷ []))) }
{
    write!(out, "op {name} ")?;
    put_ref(out, bits, condition)?;
    out.push_str("\n")?;
    Ok(())
}

fn put_arcs(
    out: &mut String,
    bits: u8,
    names: &Names,
    graph: &ConditionalGraph,
) -> Result<(), AllocError>
    requires { length graph.now.ops ≡ length names.now }
    ensures { OnOk result (Writes out.old out.new (text_of (arc_lines bits names.now graph.now))) }
{
    'firsts: for u in 0..graph.count() {
        put_arcs_from(out, bits, names, graph, OpId(u))?;
    }
    Ok(())
}

fn put_arcs_from(
    out: &mut String,
    bits: u8,
    names: &Names,
    graph: &ConditionalGraph,
    u: OpId,
) -> Result<(), AllocError>
    requires count { length graph.now.ops ≡ length names.now }
    requires within { u.0 < length names.now }
    ensures { OnOk result (Writes out.old out.new (text_of (arc_lines_from bits names.now graph.now u.0 (length names.now)))) }
{
    let first = names.get(u32::from(u.0));
    'seconds: for v in 0..graph.count() {
        put_arc(
            out,
            bits,
            first,
            names.get(u32::from(v)),
            graph.arc(u, OpId(v)),
        )?;
    }
    Ok(())
}

pub(crate) fn put_arc(
    out: &mut String,
    bits: u8,
    first: &str,
    second: &str,
    condition: Ref,
) -> Result<(), AllocError>
    ensures { OnOk result (Writes out.old out.new (text_of (line_unless_zero (arc_row bits first.now second.now condition) condition))) }
{
    if condition == Ref::Const(false) {
        return Ok(());
    }
    write!(out, "arc {first} {second} ")?;
    put_ref(out, bits, condition)?;
    out.push_str("\n")?;
    Ok(())
}

/// This text with the line `netlist` and the module behind it.
fn append_netlist(mut text: String, design: &Module) -> Result<String, Memory>
    ensures { IfOk result (λ whole. Writes text whole (text_of (netlist_lines design.now))) }
{
    text.push_str("netlist\n")?;
    append_module(text, design)
}
