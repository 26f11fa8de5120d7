//! A report as a whole.
ghost use Rattle.std.specs.Prelude.{◌≡◌, ◌<◌, ◌≤◌, ◌^◌, [], length, IfOk, IfErr};
ghost use Rattle.std.specs.List.{AllByRecursion};
ghost use Rattle.netlist_verilog.specs.Module.{AreNames};
ghost use Rattle.line_text.specs.Lines.{lines_of};
ghost use Rattle.line_rows.specs.Reading.{Gives, whole};
ghost use Rattle.report_text.specs.Report.{IsReport};
ghost use Rattle.report_text.specs.Spelling.{SpellsReport};
ghost use Rattle.report_reader.specs.Reading.{AreNext};
ghost use Rattle.report_reader.specs.Heads.{value_of, head_at};
ghost use Rattle.report_reader.specs.Columns.{columns_of};
ghost use Rattle.report_reader.specs.Scenarios.{columns_at};
ghost use Rattle.report_reader.specs.Gates.{ops_at, arcs_at};
ghost use Rattle.report_reader.specs.Entries.{EndsFit};
ghost use Rattle.report_reader.specs.Reports.{report_read};
ghost use Rattle.report_reader.specs.Wholes.{report_of_rows};
ghost use Rattle.report_reader.specs.Faults.{IsFaultOf};

use crate::gates::{ArcLine, arcs_of, gates_of, ops_of};
use crate::graph::graph_of;
use crate::rows::{Head, head_of};
use crate::scenarios::{Scenarios, scenarios_of};
use cpog_base::Names;
use cpog_defs::types::Ref;
use evidence_reader::{Shown, shown_rows};
use gate_core::{ConditionalGraph, Encoding, GateList};
use line_rows::{Cursor, ReadError};
use module_reader::module_rows;
use netlist_verilog::Module;
use report_text::{Bound, Report, ReportParts};
use std::alloc::Global;

/// Why a text is no report.
#[derive(Clone, Copy, Debug, PartialEq, Eq)]
pub enum ReportFault {
    /// The number of its first bad line.
    BadSection(u32),
    /// No memory was left.
    Memory,
}

/// What the rows of a report say.
#[derive(Drop)]
pub struct Rows {
    pub head: Head,
    pub scenarios: Scenarios,
    pub gates: GateList,
    pub graph: ConditionalGraph,
    pub bound: Bound,
    pub shown: Shown,
    pub design: Module,
}

/// The head of a report, and what holds of it.
fn checked_head(alloc: Global, cursor: &mut Cursor<'_>) -> Result<Head, ReadError>
    ensures value { Gives (λ h. (value_of h, cursor.new)) result (head_at cursor.old) }
    ensures some_bit { IfOk result (λ h. 1 ≤ h.bits) }
    ensures few_bits { IfOk result (λ h. h.bits ≤ 8) }
    ensures next { IfOk result (λ h. AreNext 64 [] h.names) }
    ensures names { IfOk result (λ h. AreNames h.names) }
    ensures few_names { IfOk result (λ h. length h.names ≤ 64) }
{
    head_of(alloc, cursor)
}

/// The scenarios, and a number of gates that is small.
fn checked_scenarios(
    alloc: Global,
    cursor: &mut Cursor<'_>,
    bits: u8,
    names: &Names,
) -> Result<(Scenarios, u32), ReadError>
    requires bits { bits ≤ 8 }
    requires known { AreNames names.now }
    requires few { length names.now ≤ 64 }
    requires next { AreNext 64 [] names.now }
    ensures value { Gives (λ x. ((columns_of x.0, x.1), cursor.new)) result (columns_at bits names.now cursor.old) }
    ensures small { IfOk result (λ x. x.1 < 65536) }
{
    scenarios_of(alloc, cursor, bits, names)
}

/// The conditions of the operations, one for each.
fn checked_ops(
    alloc: Global,
    cursor: &mut Cursor<'_>,
    inputs: u8,
    gates: u32,
    names: &Names,
) -> Result<Vec<Ref>, ReadError>
    requires { gates < 65536 }
    ensures value { Gives (λ refs. (refs.items, cursor.new)) result (ops_at inputs gates names.now cursor.old) }
    ensures count { IfOk result (λ refs. length refs.items ≡ length names.now) }
{
    ops_of(alloc, cursor, inputs, gates, names)
}

/// The conditions of arcs between different operations, and the bound.
fn checked_arcs(
    alloc: Global,
    cursor: &mut Cursor<'_>,
    inputs: u8,
    gates: u32,
    names: &Names,
) -> Result<(Vec<ArcLine>, Bound), ReadError>
    requires known { AreNames names.now }
    requires few { length names.now ≤ 64 }
    requires next { AreNext 64 [] names.now }
    requires small { gates < 65536 }
    ensures value { Gives (λ x. ((x.0.items, x.1), cursor.new)) result (arcs_at inputs gates names.now cursor.old) }
    ensures ends { IfOk result (λ x. AllByRecursion (EndsFit (length names.now)) x.0.items) }
{
    arcs_of(alloc, cursor, inputs, gates, names)
}

/// The rows of a report.
#[tactic(auto, unfolding(crate::specs::Reports::report_read))]
fn rows_of(alloc: Global, cursor: &mut Cursor<'_>) -> Result<Rows, ReadError>
    ensures { Gives (λ r. (report_of_rows r, cursor.new)) result (report_read cursor.old) }
{
    let head = checked_head(alloc, cursor)?;
    let (scenarios, count) = checked_scenarios(alloc, cursor, head.bits, &head.names)?;
    let gates = gates_of(alloc, cursor, head.bits, count)?;
    let ops = checked_ops(alloc, cursor, head.bits, count, &head.names)?;
    let (arcs, bound) = checked_arcs(alloc, cursor, head.bits, count, &head.names)?;
    let Ok(graph) = graph_of(alloc, head.names.len() as u8, &ops, &arcs) else {
        return Err(ReadError::Memory);
    };
    let shown = shown_rows(alloc, cursor, &head.names, 65536)?;
    cursor.exactly(b"netlist")?;
    let design = module_rows(alloc, cursor)?;
    Ok(Rows {
        head,
        scenarios,
        gates,
        graph,
        bound,
        shown,
        design,
    })
}

fn all_rows(alloc: Global, bytes: &[u8]) -> Result<Rows, ReadError>
    requires { length bytes.now < 2 ^ 31 }
    ensures { Gives report_of_rows result (whole report_read (lines_of bytes.now)) }
{
    let mut cursor = Cursor::new(bytes);
    let rows = rows_of(alloc, &mut cursor)?;
    cursor.ended()?;
    Ok(rows)
}

/// The report that the rows say.
fn report_of(rows: Rows) -> Report
    requires { IsReport (report_of_rows rows) }
    ensures { result ≡ report_of_rows rows }
{
    let head = rows.head;
    let scenarios = rows.scenarios;
    let shown = rows.shown;
    let encoding = Encoding::new(scenarios.codes, rows.gates, rows.graph);
    Report::new(ReportParts {
        bits: head.bits,
        budget: head.budget,
        names: head.names,
        scenario_names: scenarios.names,
        given: scenarios.given,
        scenarios: scenarios.scenarios,
        encoding,
        bound: rows.bound,
        evidence: shown.evidence,
        open_part: shown.open_part,
        design: rows.design,
    })
}

/// The report that the bytes are the text of.
///
/// # Errors
///
/// `BadSection` with the number of the first bad line, `Memory` where none is left.
pub fn read_report(alloc: Global, bytes: &[u8]) -> Result<Report, ReportFault>
    requires { length bytes.now < 2 ^ 31 }
    ensures found { IfOk result (λ r. SpellsReport r (lines_of bytes.now)) }
    ensures bad { IfErr result (IsFaultOf (lines_of bytes.now)) }
{
    match all_rows(alloc, bytes) {
        Err(ReadError::Memory) => Err(ReportFault::Memory),
        Err(ReadError::BadLine(number)) => Err(ReportFault::BadSection(number)),
        Ok(rows) => Ok(report_of(rows)),
    }
}
