//! What no clause says: that an encoding is made where memory is there, and that bounds are raised as far as the budget
//! goes. The numbers were worked out by hand.

ghost use Rattle.std.specs.Prelude.{◌≡◌, ◌<◌, ◌≤◌, length, IfOk};
ghost use Rattle.std.specs.List.{All};
ghost use Rattle.cpog_defs.specs.Orders.{IsOrderOf};
ghost use Rattle.gate_template.specs.Templates.{ArePatterns};

use super::*;
use cnf_build::{Evidence, OpenPart, Template};
use cpog_base::{BUDGET_LIMIT, DEFAULT_BUDGET, Memory, OpId, OpSet, Order, Pattern, empty_sets};
use gate_core::Ref;
use order_reduce::CoveredOrder;
use std::alloc::Global;
use std::test::Fail;

/// These operations of four, in any order.
fn together(alloc: Global, u: OpId, v: OpId, w: OpId) -> Result<CoveredOrder, Memory>
    requires first { u.0 < 4 }
    requires second { v.0 < 4 }
    requires third { w.0 < 4 }
    ensures { IfOk result (IsOrderOf 4) }
{
    let mut ops = OpSet::empty();
    ops.insert(u);
    ops.insert(v);
    ops.insert(w);
    let before = empty_sets(alloc, 4)?;
    CoveredOrder::new(alloc, Order::from_sets(ops, before))
}

/// One operation of so many.
fn alone(alloc: Global, count: u8, v: OpId) -> Result<CoveredOrder, Memory>
    requires few { count ≤ 4 }
    requires operation { v.0 < count }
    ensures { IfOk result (IsOrderOf count) }
{
    let mut ops = OpSet::empty();
    ops.insert(v);
    let before = empty_sets(alloc, count)?;
    CoveredOrder::new(alloc, Order::from_sets(ops, before))
}

/// So many scenarios, each of which has an operation of its own.
fn own_operations(alloc: Global, count: u8) -> Result<Vec<CoveredOrder>, Memory>
    requires few { count ≤ 4 }
    ensures one_each { IfOk result (λ orders. length orders.items ≡ count) }
    ensures alike { IfOk result (λ orders. All (IsOrderOf count) orders.items) }
{
    let mut orders = Vec::new(alloc);
    for v in 0..count {
        orders.push(alone(alloc, count, OpId(v))?)?;
    }
    Ok(orders)
}

/// The search over such scenarios and codes of two bits.
fn searched(alloc: Global, count: u8, given: &[Pattern], budget: u32) -> Result<Answer, AssignFault>
    requires some { 1 ≤ count }
    requires few { count ≤ 4 }
    requires given { ArePatterns 2 count given.now }
    requires some_budget { 1 ≤ budget }
    requires few_budget { budget ≤ BUDGET_LIMIT }
{
    match own_operations(alloc, count) {
        Ok(orders) => assign(alloc, &orders, given, 2, budget),
        Err(_) => Err(AssignFault::Memory),
    }
}

/// Whether this template with so many gates is refuted.
fn refutes(evidence: &Evidence, kind: Template, count: u32) -> bool {
    match evidence {
        Evidence::Refutation {
            template,
            gates,
            log: _,
        } => *template == kind && *gates == count,
        _ => false,
    }
}

/// A pattern that gives a 1 at both of two bits.
fn both_ones() -> Pattern
    ensures { length result ≡ 2 }
{
    Pattern::new(2, 3, 3)
}

/// How many places are counted.
fn counted(evidence: &Evidence) -> usize {
    match evidence {
        Evidence::Count(places) => places.len(),
        _ => 0,
    }
}

/// Whether the budget is spent on this template with so many gates.
fn is_left_open(open_part: &OpenPart, kind: Template, count: u32) -> bool {
    match open_part {
        OpenPart::Log {
            template,
            gates,
            log: _,
        } => *template == kind && *gates == count,
        _ => false,
    }
}

/// The operations are there as 101, 011, 100 and 111 in three scenarios. With codes 0, 3 and 2 each condition is a bit of
/// the code, so an assignment without gates is found.
#[test]
fn codes_are_chosen(rt: HostRuntime) -> Result<(), Fail> {
    let mut orders = Vec::new(rt.alloc());
    orders.push(together(rt.alloc(), OpId(0), OpId(2), OpId(3))?)?;
    orders.push(together(rt.alloc(), OpId(1), OpId(3), OpId(3))?)?;
    orders.push(together(rt.alloc(), OpId(0), OpId(1), OpId(3))?)?;
    let free = Pattern::free(2);
    let given = [free, free, free];
    let answer = assign(rt.alloc(), &orders, &given, 2, DEFAULT_BUDGET).expect(
        &rt,
        "there is memory",
    );
    assert_eq!(rt; answer.lo, 0);
    assert!(rt; answer.encoding.gates().gates().is_empty());
    assert_eq!(rt; answer.encoding.codes()[0], 0);
    assert_eq!(rt; answer.encoding.graph().op(OpId(3)), Ref::Const(true));
    assert!(rt; matches!(answer.evidence, Evidence::Zero));
    assert!(rt; matches!(answer.open_part, OpenPart::Closed));
    Ok(())
}

/// Three classes any two of which are incompatible need a signal more than two bits are, and the first encoding has one.
#[test]
fn three_classes_need_a_gate(rt: HostRuntime) {
    let free = Pattern::free(2);
    let given = [free, free, free];
    let answer = searched(rt.alloc(), 3, &given, DEFAULT_BUDGET).expect(&rt, "there is memory");
    assert_eq!(rt; answer.lo, 1);
    assert_eq!(rt; answer.encoding.codes(), [0, 1, 2].as_slice());
    assert_eq!(rt; answer.encoding.gates().len(), 1);
    assert_eq!(rt; counted(&answer.evidence), 3);
    assert!(rt; matches!(answer.open_part, OpenPart::Closed));
}

/// Four classes, each 1 in a scenario of its own, where every word is a code: no bit is such a class, so each needs a
/// gate. The count alone gives two, so two and three gates are refuted.
#[test]
fn four_classes_need_four_gates(rt: HostRuntime) {
    let free = Pattern::free(2);
    let given = [free, free, free, free];
    let answer = searched(rt.alloc(), 4, &given, DEFAULT_BUDGET).expect(&rt, "there is memory");
    assert_eq!(rt; answer.lo, 4);
    assert_eq!(rt; answer.encoding.codes(), [0, 1, 2, 3].as_slice());
    assert_eq!(rt; answer.encoding.gates().len(), 4);
    assert!(rt; refutes(&answer.evidence, Template::Second, 3));
    assert!(rt; matches!(answer.open_part, OpenPart::Closed));
}

/// The same where the first code is given: the third template is refuted.
#[test]
fn a_given_code_is_kept(rt: HostRuntime) {
    let free = Pattern::free(2);
    let given = [both_ones(), free, free, free];
    let answer = searched(rt.alloc(), 4, &given, DEFAULT_BUDGET).expect(&rt, "there is memory");
    assert_eq!(rt; answer.lo, 4);
    assert_eq!(rt; answer.encoding.codes(), [3, 0, 1, 2].as_slice());
    assert_eq!(rt; answer.encoding.gates().len(), 4);
    assert!(rt; refutes(&answer.evidence, Template::Third, 3));
    assert!(rt; matches!(answer.open_part, OpenPart::Closed));
}

/// With a budget of one number nothing is refuted: the count bounds from below, and the first encoding stays.
#[test]
fn a_spent_budget_leaves_the_rest_open(rt: HostRuntime) {
    let free = Pattern::free(2);
    let given = [free, free, free, free];
    let answer = searched(rt.alloc(), 4, &given, 1).expect(&rt, "there is memory");
    assert_eq!(rt; answer.lo, 2);
    assert_eq!(rt; answer.encoding.gates().len(), 4);
    assert_eq!(rt; counted(&answer.evidence), 4);
    assert!(rt; is_left_open(&answer.open_part, Template::Second, 2));
}
