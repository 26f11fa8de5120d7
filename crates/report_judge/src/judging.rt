//! The verdict on a report, part by part.
ghost use Rattle.std.specs.Prelude.{◌≡◌, ◌↔◌, IsTrue, length, IfOk, OnOk, IfErr};
ghost use Rattle.cpog_defs.specs.Scenarios.{AreOrdersOf};
ghost use Rattle.report_judge.specs.Good.{Holds, IsGood};
ghost use Rattle.report_judge.specs.Known.{Attains};
ghost use Rattle.report_judge.specs.Parts.{Part};
ghost use Rattle.report_judge.specs.Reasons.{HoldBelow, IsVerdict};
ghost use Rattle.report_judge.specs.Steps.{IsBasis, IsFirstFault};

use crate::basis::{Basis, basis_of};
use crate::codes::{first_lost, first_same};
use crate::evidence::{check_shown, evidence_speaks};
use crate::fault::Fault;
use crate::fitting::check_fitting;
use crate::left_open::{check_followed, is_open_between, reaches_budget};
use crate::reason::{Reason, Verdict};
use cpog_base::{Memory, Order};
use handshake_eqs::is_netlist_of;
use order_reduce::CoveredOrder;
use report_text::{Bound, Report};
use scenario_check::{OrderFault, first_equal, orders_of};
use std::alloc::Global;

/// The orders of the scenarios, none of which is cyclic and no two of which are equal.
fn check_scenarios(alloc: Global, report: &Report) -> Result<Vec<Order>, Fault>
    ensures orders { IfOk result (λ orders. AreOrdersOf report.now.scenarios orders.items) }
    ensures ok { OnOk result (HoldBelow report.now 2) }
    ensures err { IfErr result (IsFirstFault report.now) }
{
    // That there are few scenarios is known of each report.
    let _version = report.version();
    let orders = match orders_of(alloc, report.scenarios()) {
        Ok(orders) => orders,
        Err(OrderFault::Cyclic(s, v)) => return Err(Fault::Fails(Reason::Cyclic(s, v))),
        Err(OrderFault::Memory) => return Err(Fault::Memory),
    };
    match first_equal(&orders) {
        Some((later, earlier)) => Err(Fault::Fails(Reason::Equal(later, earlier))),
        None => Ok(orders),
    }
}

/// Tests the codes: that they differ, and that they have their given bits.
fn check_codes(report: &Report) -> Result<(), Fault>
    requires { HoldBelow report.now 2 }
    ensures ok { OnOk result (HoldBelow report.now 4) }
    ensures err { IfErr result (IsFirstFault report.now) }
{
    // That there are few codes, and a pattern for each, is known of each report.
    let _version = report.version();
    let codes = report.encoding().codes();
    if let Some((later, earlier)) = first_same(codes) {
        return Err(Fault::Fails(Reason::Codes(later, earlier)));
    }
    match first_lost(report.given(), codes) {
        Some(s) => Err(Fault::Fails(Reason::Given(s))),
        None => Ok(()),
    }
}

/// Whether the module is that of the names, gates and conditions.
fn is_own_module(report: &Report) -> bool
    ensures { IsTrue result ↔ Holds report.now Part.Netlist }
{
    let design = report.design();
    design.names().equals(report.names()) && is_netlist_of(report.encoding(), design.netlist())
}

/// Whether the bound fits so many gates.
pub(crate) fn attains(gates: u32, bound: Bound) -> bool
    ensures { IsTrue result ↔ Attains gates bound }
{
    match bound {
        Bound::Minimum(minimum) => gates == minimum,
        Bound::Between(lower, higher) => gates == higher && lower < higher,
    }
}

/// Tests the encoding: what each code leaves, the module, and the number of gates.
fn check_encoding(alloc: Global, report: &Report, orders: &[CoveredOrder]) -> Result<(), Fault>
    requires orders { AreOrdersOf report.now.scenarios orders.now }
    requires before { HoldBelow report.now 4 }
    ensures ok { OnOk result (HoldBelow report.now 7) }
    ensures err { IfErr result (IsFirstFault report.now) }
{
    check_fitting(alloc, report, orders)?;
    if !is_own_module(report) {
        return Err(Fault::Fails(Reason::Netlist));
    }
    if !attains(report.encoding().gates().len(), report.bound()) {
        return Err(Fault::Fails(Reason::Count));
    }
    Ok(())
}

/// Tests the evidence: that it speaks of the lower bound, and that it shows it.
fn check_evidence(alloc: Global, report: &Report, basis: &Basis) -> Result<(), Fault>
    requires basis { IsBasis report.now.scenarios basis.now }
    requires before { HoldBelow report.now 7 }
    ensures ok { OnOk result (HoldBelow report.now 9) }
    ensures err { IfErr result (IsFirstFault report.now) }
{
    if !evidence_speaks(report, basis) {
        return Err(Fault::Fails(Reason::Evidence));
    }
    check_shown(alloc, report, basis)
}

/// Tests the open part: that it is one between the bounds, that its lines follow, and that they spend the budget.
fn check_open(alloc: Global, report: &Report, basis: &Basis) -> Result<(), Fault>
    requires basis { IsBasis report.now.scenarios basis.now }
    requires before { HoldBelow report.now 9 }
    ensures ok { OnOk result (IsGood report.now) }
    ensures err { IfErr result (IsFirstFault report.now) }
{
    if !is_open_between(report, basis) {
        return Err(Fault::Fails(Reason::Open));
    }
    check_followed(alloc, report, basis)?;
    if !reaches_budget(report) {
        return Err(Fault::Fails(Reason::OpenShort));
    }
    Ok(())
}

/// Tests all parts in their order.
fn check(alloc: Global, report: &Report) -> Result<(), Fault>
    ensures ok { OnOk result (IsGood report.now) }
    ensures err { IfErr result (IsFirstFault report.now) }
{
    let orders = check_scenarios(alloc, report)?;
    check_codes(report)?;
    let basis = basis_of(alloc, report, orders)?;
    check_encoding(alloc, report, &basis.orders)?;
    check_evidence(alloc, report, &basis)?;
    check_open(alloc, report, &basis)
}

/// Whether a report is good; if not, the first of its parts that fails. The parts stand in one order, and those on the
/// scenarios are tested for all scenarios before the next part. Columns, classes and templates are those of the report's
/// own scenarios. Each formula is gone before another one is made.
///
/// # Errors
///
/// `Memory` where none is left.
pub fn judge(alloc: Global, report: &Report) -> Result<Verdict, Memory>
    ensures { IfOk result (IsVerdict report.now) }
{
    match check(alloc, report) {
        Ok(()) => Ok(Verdict::Yes),
        Err(Fault::Fails(reason)) => Ok(Verdict::No(reason)),
        Err(Fault::Memory) => Err(Memory),
    }
}
