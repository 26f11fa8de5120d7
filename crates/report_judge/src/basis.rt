//! What evidence is judged by: the orders of the scenarios, their columns, and the classes of these.
ghost use Rattle.std.specs.Prelude.{IfOk};
ghost use Rattle.cpog_defs.specs.Scenarios.{AreOrdersOf};
ghost use Rattle.report_judge.specs.Steps.{IsBasis};

use cpog_base::{Memory, Order};
use cpog_merge::{ClassList, Columns, classes, merge};
use order_reduce::{CoveredOrder, covered_orders};
use report_text::Report;
use std::alloc::Global;

/// The orders of scenarios, the columns of these orders, and the classes of these columns.
#[derive(Drop)]
pub struct Basis {
    pub orders: Vec<CoveredOrder>,
    pub table: Columns,
    pub classes: ClassList,
}

/// What the evidence of a report is judged by.
pub(crate) fn basis_of(alloc: Global, report: &Report, orders: Vec<Order>) -> Result<Basis, Memory>
    requires { AreOrdersOf report.now.scenarios orders.items }
    ensures { IfOk result (IsBasis report.now.scenarios) }
{
    // That there are some scenarios and few is known of each report.
    let _version = report.version();
    let orders = covered_orders(alloc, orders)?;
    let table = merge(alloc, &orders)?;
    let classes = classes(alloc, &table)?;
    Ok(Basis {
        orders,
        table,
        classes,
    })
}
