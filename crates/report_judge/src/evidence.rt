//! Evidence that no encoding has fewer gates than the lower bound.
ghost use Rattle.std.specs.Prelude.{◌≡◌, ◌↔◌, ◌<◌, ℕ, IsTrue, length, MatchOption, OnOk, IfErr};
ghost use Rattle.std.specs.List.{All};
ghost use Rattle.cpog_defs.specs.Graphs.{IsPlace};
ghost use Rattle.cpog_merge.specs.Columns.{AreColumnsOf, column_at, count_of};
ghost use Rattle.report_judge.specs.Known.{printed_lower, IsAboutFewer, SpeaksOf, IsShown, IsMember, IsFirstNoMember};
ghost use Rattle.report_judge.specs.Parts.{Part};
ghost use Rattle.report_judge.specs.Steps.{CanAsk, IsBasis, IsFaultAt};

use crate::basis::Basis;
use crate::fault::Fault;
use crate::reason::Reason;
use crate::template::{follow, is_small};
use cnf_build::{Evidence, Template};
use cpog_base::{Column, Pattern};
use cpog_merge::{ClassList, Columns, Place, incompatible};
use proof_check::LogVerdict;
use report_text::{Bound, Report};
use std::alloc::Global;

/// Whether a refutation for a number is about one gate fewer, and a template that is small enough.
fn is_about_fewer(
    classes: &ClassList,
    given: &[Pattern],
    bits: u8,
    lo: u32,
    kind: Template,
    gates: u32,
) -> bool
    requires few_gates { gates < 65536 }
    requires asked { CanAsk given.now bits classes.now.columns }
    ensures { IsTrue result ↔ IsAboutFewer given.now bits classes.now.columns lo kind gates }
{
    gates + 1 == lo && bits >= 2 && is_small(kind, classes, given, bits, gates)
}

/// The lower bound that is printed.
pub(crate) fn printed_lower(bound: Bound) -> u32
    ensures { result ≡ printed_lower bound }
{
    match bound {
        Bound::Minimum(gates) => gates,
        Bound::Between(lower, _) => lower,
    }
}

/// Whether the evidence speaks of the lower bound.
pub(crate) fn evidence_speaks(report: &Report, basis: &Basis) -> bool
    requires { IsBasis report.now.scenarios basis.now }
    ensures { IsTrue result ↔ SpeaksOf report.now.patterns report.now.bits basis.now.classes.columns (printed_lower report.now.bound) report.now.evidence }
{
    let lo = printed_lower(report.bound());
    let bits = report.bits();
    match report.evidence() {
        Evidence::Zero => lo == 0,
        Evidence::Count(places) => places.len() == lo as usize + usize::from(bits),
        Evidence::Refutation {
            template,
            gates,
            ..
        } => is_about_fewer(&basis.classes, report.given(), bits, lo, *template, *gates),
    }
}

/// The column of an operation or of a pair.
fn column_of(table: &Columns, place: Place) -> Column
    requires { IsPlace table.now.count place }
    ensures { result ≡ column_at table.now place }
{
    match place {
        Place::Op(v) => table.op(v),
        Place::Arc(u, v) => table.arc(u, v),
    }
}

/// Whether the column of a place of a count is open, and incompatible with that of each earlier one.
fn is_member(basis: &Basis, places: &[Place], i: usize) -> bool
    requires columns { AreColumnsOf basis.now.orders.items basis.now.table }
    requires places { All (IsPlace (count_of basis.now.orders.items)) places.now }
    requires within { i < length places.now }
    ensures { IsTrue result ↔ IsMember basis.now.orders.items places.now i }
{
    let column = column_of(&basis.table, places[i]);
    if !column.has_one() || !column.has_zero() {
        return false;
    }
    for j in 0..i {
        if !incompatible(&column_of(&basis.table, places[j]), &column) {
            return false;
        }
    }
    true
}

/// The first member of a count, from 1, that isn't such a one. No column is incompatible with itself, so a place that
/// stands twice ends the walk, and it isn't longer than the columns are many.
fn first_no_member(basis: &Basis, places: &[Place]) -> Option<u32>
    requires columns { AreColumnsOf basis.now.orders.items basis.now.table }
    requires places { All (IsPlace (count_of basis.now.orders.items)) places.now }
    requires few { length places.now < 4294967295 }
    ensures { MatchOption result ((i : ℕ) → i < length places.now → IsMember basis.now.orders.items places.now i) (λ i. IsFirstNoMember basis.now.orders.items places.now i) }
{
    for i in 0..places.len() {
        if !is_member(basis, places, i) {
            return Some(i as u32 + 1);
        }
    }
    None
}

/// Tests what shows the lower bound: a count member by member, and a refutation line by line.
pub(crate) fn check_shown(alloc: Global, report: &Report, basis: &Basis) -> Result<(), Fault>
    requires basis { IsBasis report.now.scenarios basis.now }
    requires speaks { SpeaksOf report.now.patterns report.now.bits basis.now.classes.columns (printed_lower report.now.bound) report.now.evidence }
    ensures ok { OnOk result (IsShown (length report.now.names) basis.now.orders.items report.now.patterns report.now.bits basis.now.classes.columns report.now.evidence) }
    ensures err { IfErr result (IsFaultAt report.now Part.Shown) }
{
    let bits = report.bits();
    match report.evidence() {
        Evidence::Zero => Ok(()),
        Evidence::Count(places) => match first_no_member(basis, places) {
            Some(member) => Err(Fault::Fails(Reason::EvidenceCondition(member))),
            None => Ok(()),
        },
        Evidence::Refutation {
            template,
            gates,
            log,
        } => {
            let verdict = follow(
                alloc,
                *template,
                &basis.classes,
                report.given(),
                bits,
                *gates,
                log,
            )?;
            match verdict {
                LogVerdict::Refuted => Ok(()),
                LogVerdict::NoEmptyClause => Err(Fault::Fails(Reason::RefutationNoEmptyClause)),
                LogVerdict::BadLine { line, hint } => {
                    Err(Fault::Fails(Reason::RefutationLine { line, hint }))
                }
            }
        }
    }
}
