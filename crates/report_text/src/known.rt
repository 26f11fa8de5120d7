//! The lines of what is known of the least number of gates: the bound, what shows it, and what is left open.
ghost use Rattle.std.specs.Prelude.{◌≡◌, ◌∷◌, [], List, length, map, IfOk, OnOk};
ghost use Rattle.std.specs.List.{All};
ghost use Rattle.cpog_defs.specs.declared.types.Place.{Place};
ghost use Rattle.cpog_defs.specs.Graphs.{IsPlace};
ghost use Rattle.line_text.specs.Lines.{text_of};
ghost use Rattle.netlist_verilog.specs.Writes.{Writes};
ghost use Rattle.cnf_build.specs.Evidence.{EvidenceValue, evidence_of, open_of};
ghost use Rattle.report_text.specs.Report.{LinesFit, EvidenceFits, OpenFits};
ghost use Rattle.report_text.specs.Rows as rows;
ghost use Rattle.report_text.specs.Rows.{bound_row, place_row, closed_log, evidence_lines, open_lines};

use crate::Bound;
use cnf_build::{Evidence, OpenPart, Template};
use cpog_base::{Memory, Names};
use cpog_defs::types::Place;
use dimacs_text::append_log;
use proof_check::Log;
use std::alloc::AllocError;
use std::fmt::Write;

pub(crate) fn put_bound(out: &mut String, bound: Bound) -> Result<(), AllocError>
    ensures { OnOk result (Writes out.old out.new (text_of (bound_row bound ∷ []))) }
{
    match bound {
        Bound::Minimum(count) => write!(out, "minimum {count}\n"),
        Bound::Between(lo, hi) => write!(out, "between {lo} {hi}\n"),
    }
}

/// This text with the lines of what shows that there are no fewer gates.
pub(crate) fn append_evidence(
    mut text: String,
    names: &Names,
    evidence: &Evidence,
) -> Result<String, Memory>
    requires { (places : List Place) → evidence_of evidence.now ≡ EvidenceValue.Count places → All (IsPlace (length names.now)) places }
    ensures text { IfOk result (λ whole. Writes text whole (text_of (evidence_lines names.now (evidence_of evidence.now)))) }
    ensures fits { OnOk result (EvidenceFits (evidence_of evidence.now)) }
{
    match evidence {
        Evidence::Zero => {
            text.push_str("evidence zero\n")?;
            Ok(text)
        }
        Evidence::Count(places) => {
            text.push_str("evidence count\n")?;
            put_places(&mut text, names, places)?;
            Ok(text)
        }
        Evidence::Refutation {
            template,
            gates,
            log,
        } => {
            let number = template_number(*template);
            write!(text, "evidence refutation {number} {gates}\n")?;
            append_closed_log(text, log)
        }
    }
}

/// This text with the lines of what is left open.
pub(crate) fn append_open(mut text: String, open_part: &OpenPart) -> Result<String, Memory>
    ensures text { IfOk result (λ whole. Writes text whole (text_of (open_lines (open_of open_part.now)))) }
    ensures fits { OnOk result (OpenFits (open_of open_part.now)) }
{
    match open_part {
        OpenPart::Closed => {
            text.push_str("open none\n")?;
            Ok(text)
        }
        OpenPart::Log {
            template,
            gates,
            log,
        } => {
            let number = template_number(*template);
            write!(text, "open log {number} {gates}\n")?;
            append_closed_log(text, log)
        }
        OpenPart::Size { template, gates } => {
            let number = template_number(*template);
            write!(text, "open size {number} {gates}\n")?;
            Ok(text)
        }
    }
}

fn put_places(out: &mut String, names: &Names, places: &[Place]) -> Result<(), AllocError>
    requires { All (IsPlace (length names.now)) places.now }
    ensures { OnOk result (Writes out.old out.new (text_of (map (place_row names.now) places.now))) }
{
    'places: for i in 0..places.len() {
        put_place(out, names, places[i])?;
    }
    Ok(())
}

fn put_place(out: &mut String, names: &Names, place: Place) -> Result<(), AllocError>
    requires { IsPlace (length names.now) place }
    ensures { OnOk result (Writes out.old out.new (text_of (place_row names.now place ∷ []))) }
{
    match place {
        Place::Op(v) => {
            let name = names.get(u32::from(v.0));
            write!(out, "op {name}\n")
        }
        Place::Arc(u, v) => {
            let first = names.get(u32::from(u.0));
            let second = names.get(u32::from(v.0));
            write!(out, "arc {first} {second}\n")
        }
    }
}

/// This text with the lines of a log and the line that ends it.
fn append_closed_log(text: String, log: &Log) -> Result<String, Memory>
    ensures text { IfOk result (λ whole. Writes text whole (text_of (closed_log log.now.lines))) }
    ensures fits { OnOk result (LinesFit log.now.lines) }
{
    let mut text = append_log(text, log)?;
    text.push_str("end\n")?;
    Ok(text)
}

fn template_number(kind: Template) -> u32
    ensures { result ≡ rows.template_number kind }
{
    match kind {
        Template::First => 1,
        Template::Second => 2,
        Template::Third => 3,
    }
}
