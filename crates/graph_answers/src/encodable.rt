//! What the scenarios of a file are encoded from, or why they can't be: each cause of a refusal in its turn.
ghost use Rattle.std.specs.Prelude.{◌≡◌, ◌<◌, ◌≤◌, ◌^◌, [], IfOk, IfErr, OnOk, length};
ghost use Rattle.cpog_base.specs.declared.status.Status.TheVariants as status;
ghost use Rattle.pg_normal.specs.Naming.{name_faults, IsScopeOf};
ghost use Rattle.graph_answers.specs.Bits.{IsBits, MayBeLength};
ghost use Rattle.pg_normal.specs.Denoting.{scenario_names_of, AreScenariosOf};
ghost use Rattle.graph_answers.specs.Ordered.{AreOrdersIn};
ghost use Rattle.graph_answers.specs.Encodable.{IsEncodable};
ghost use Rattle.refusal_lines.specs.Refusal.{At};
ghost use Rattle.graph_answers.specs.Refusals.{IsUnboundAnswer, IsCyclicAnswer, IsEqualAnswer, IsManyAnswer, IsOrdersRefusal, IsEncodingRefusal};
ghost use Rattle.refusal_lines.specs.Stops.{IsStop};
ghost use Rattle.scenario_check.specs.Equals.{AreDifferent};

use crate::graph_text::names_of;
use crate::refusing::{refuse_cycle, refuse_equal, refuse_unbound};
use cpog_base::{BIT_LIMIT, Counted, Names, Order, SCENARIO_LIMIT, Scenario, Status};
use opcode_assign::default_bits;
use order_reduce::{CoveredOrder, covered_orders};
use pg_normal::{DenotingFault, Scope, forms_in, scenarios_of};
use pg_text::File;
use refusal_lines::{Refusal, Stop, refuse};
use scenario_check::{OrderFault, first_equal, orders_of};
use std::alloc::Global;

/// A file with the names and orders of its scenarios, of which there are some and no two are equal, and a number of bits
/// that have a code for each.
#[derive(Drop)]
pub(crate) struct Encodable {
    pub(crate) file: File,
    pub(crate) names: Names,
    pub(crate) orders: Vec<CoveredOrder>,
    pub(crate) bits: u8,
}

/// The scenarios that a file denotes.
fn scenarios_in(alloc: Global, file: &File, scope: &Scope) -> Result<Vec<Scenario>, Stop>
    requires { IsScopeOf file.now scope.now }
    ensures scenarios { IfOk result (λ scenarios. AreScenariosOf file.now scenarios.items) }
    ensures few { IfOk result (λ scenarios. length scenarios.items ≤ SCENARIO_LIMIT) }
    ensures err { IfErr result (IsStop (At status.Names (IsUnboundAnswer file.now))) }
{
    let forms = forms_in(alloc, file, scope)?;
    match scenarios_of(alloc, file, &forms) {
        Ok(scenarios) => Ok(scenarios),
        Err(DenotingFault::Unbound { line, number }) => {
            let param = scope.params().get(u32::from(number));
            Err(refuse_unbound(alloc, line, param))
        }
        Err(DenotingFault::Memory) => Err(Stop::Memory),
    }
}

/// The orders of the scenarios that a file denotes.
fn orders_in(
    alloc: Global,
    file: &File,
    names: &Names,
    scenarios: &[Scenario],
) -> Result<Vec<Order>, Stop>
    requires named { name_faults file.now ≡ [] }
    requires names { names.now ≡ scenario_names_of file.now }
    requires scenarios { AreScenariosOf file.now scenarios.now }
    requires few { length scenarios.now ≤ SCENARIO_LIMIT }
    ensures orders { IfOk result (λ orders. AreOrdersIn file.now orders.items) }
    ensures few { IfOk result (λ orders. length orders.items ≤ SCENARIO_LIMIT) }
    ensures err { IfErr result (IsStop (At status.Cyclic (IsCyclicAnswer file.now))) }
{
    match orders_of(alloc, scenarios) {
        Ok(orders) => Ok(orders),
        Err(OrderFault::Cyclic(s, v)) => {
            let scenario = names.get(u32::from(s.0));
            let operation = file.operations().get(u32::from(v.0));
            Err(refuse_cycle(alloc, scenario, operation))
        }
        Err(OrderFault::Memory) => Err(Stop::Memory),
    }
}

/// Refuses equal scenarios.
fn check_different(alloc: Global, file: &File, names: &Names, orders: &[Order]) -> Result<(), Stop>
    requires names { names.now ≡ scenario_names_of file.now }
    requires orders { AreOrdersIn file.now orders.now }
    requires few { length orders.now ≤ SCENARIO_LIMIT }
    ensures ok { OnOk result (AreDifferent orders.now) }
    ensures err { IfErr result (IsStop (At status.Equal (IsEqualAnswer file.now))) }
{
    match first_equal(orders) {
        Some((later, earlier)) => {
            let later = names.get(u32::from(later.0));
            let earlier = names.get(u32::from(earlier.0));
            Err(refuse_equal(alloc, later, earlier))
        }
        None => Ok(()),
    }
}

/// How long codes are to be.
#[derive(Clone, Copy)]
pub struct CodeLength {
    /// The least number of bits, from 1 to 8, where none is said.
    pub least: u8,
    /// The number of bits that is said, from 1 to 8.
    pub said: Option<u8>,
}

/// How many bits the codes of so many scenarios have: as many as are said, or else as few as tell them apart.
fn bits_for(asked: CodeLength, scenarios: u8) -> u8
    requires asked { MayBeLength asked }
    requires some { 1 ≤ scenarios }
    requires few { scenarios ≤ SCENARIO_LIMIT }
    ensures bits { IsBits asked scenarios result }
    ensures some { 1 ≤ result }
    ensures least { asked.least ≤ result }
    ensures few { result ≤ BIT_LIMIT }
{
    match asked.said {
        Some(bits) => bits,
        None => default_bits(scenarios, asked.least),
    }
}

/// How many codes of so many bits there are.
fn code_count(bits: u8) -> usize
    requires { bits ≤ BIT_LIMIT }
    ensures { result ≡ 2 ^ bits }
{
    1 << bits
}

/// How many bits the codes of these scenarios have, where there is a code for each.
fn code_bits(alloc: Global, asked: CodeLength, file: &File, orders: &[Order]) -> Result<u8, Stop>
    requires asked { MayBeLength asked }
    requires some { 1 ≤ length orders.now }
    requires orders { AreOrdersIn file.now orders.now }
    requires different { AreDifferent orders.now }
    requires few { length orders.now ≤ SCENARIO_LIMIT }
    ensures bits { IfOk result (IsBits asked (length orders.now)) }
    ensures some { IfOk result (λ bits. 1 ≤ bits) }
    ensures least { IfOk result (λ bits. asked.least ≤ bits) }
    ensures few { IfOk result (λ bits. bits ≤ BIT_LIMIT) }
    ensures enough { IfOk result (λ bits. length orders.now ≤ 2 ^ bits) }
    ensures err { IfErr result (IsStop (At status.Limit (IsManyAnswer asked file.now))) }
{
    let bits = bits_for(asked, orders.len() as u8);
    if orders.len() > code_count(bits) {
        let refusal = Refusal::Limit {
            what: Counted::Bits,
            number: u32::from(bits),
        };
        return Err(refuse(alloc, Status::Limit, &refusal));
    }
    Ok(bits)
}

/// The orders of the scenarios that a file denotes, of which there are some and no two are equal.
fn different_orders(alloc: Global, file: &File, scope: &Scope) -> Result<Vec<Order>, Stop>
    requires scope { IsScopeOf file.now scope.now }
    requires names { scope.now.scenarios ≡ scenario_names_of file.now }
    ensures some { IfOk result (λ orders. 1 ≤ length orders.items) }
    ensures few { IfOk result (λ orders. length orders.items ≤ SCENARIO_LIMIT) }
    ensures orders { IfOk result (λ orders. AreOrdersIn file.now orders.items) }
    ensures different { IfOk result (λ orders. AreDifferent orders.items) }
    ensures err { IfErr result (IsStop (IsOrdersRefusal file.now)) }
{
    if scope.scenarios().is_empty() {
        return Err(refuse(alloc, Status::Names, &Refusal::NoScenario));
    }
    let scenarios = scenarios_in(alloc, file, scope)?;
    let orders = orders_in(alloc, file, scope.scenarios(), &scenarios)?;
    check_different(alloc, file, scope.scenarios(), &orders)?;
    Ok(orders)
}

/// What the scenarios of a file are encoded from, over as many bits as are said or as few as tell them apart.
pub(crate) fn encodable_of(alloc: Global, asked: CodeLength, file: File) -> Result<Encodable, Stop>
    requires { MayBeLength asked }
    ensures ok { IfOk result (λ e. IsEncodable asked file e) }
    ensures err { IfErr result (IsStop (IsEncodingRefusal asked file)) }
{
    let scope = names_of(alloc, &file)?;
    let orders = different_orders(alloc, &file, &scope)?;
    let bits = code_bits(alloc, asked, &file, &orders)?;
    Ok(Encodable {
        file,
        names: scope.into_scenarios(),
        orders: covered_orders(alloc, orders)?,
        bits,
    })
}
