//! What no clause says: that the calls that take memory succeed where memory is there. The numbers and the clauses were
//! worked out by hand.

ghost use Rattle.std.specs.Prelude.{◌≡◌, ◌≢◌, ◌<◌, ◌≤◌, pos, negsuc, length, IfOk};
ghost use Rattle.std.specs.List.{All};
ghost use Rattle.cpog_defs.specs.Orders.{IsOrderOf};
ghost use Rattle.clause_arena.specs.Arenas.{literals};
ghost use Rattle.gate_core.specs.Columns.{IsOpenColumn};
ghost use Rattle.gate_template.specs.declared.types.Template.TheVariants.{First};
ghost use Rattle.gate_template.specs.Templates.{template};
ghost use Rattle.gate_template.specs.Values.{IsSolution};
ghost use Rattle.cnf_build.specs.Sizes.{IsAsked};
ghost use Rattle.cnf_build.specs.Decoded.{parts_of};

use crate::{Decoded, Template, build, decode, encode, template_size};
use clause_arena::Lit;
use cpog_base::{Memory, OpId, OpSet, Order, Pattern, TEMPLATE_LIMIT, empty_sets};
use cpog_merge::{ClassList, classes, merge};
use gate_core::{CodesFault, Gate, Ref, first_encode, least_codes};
use order_reduce::covered_orders;
use std::alloc::Global;

/// One operation of so many.
fn alone(alloc: Global, count: u8, v: OpId) -> Result<Order, Memory>
    requires few { count ≤ 4 }
    requires operation { v.0 < count }
    ensures { IfOk result (IsOrderOf count) }
{
    let mut ops = OpSet::empty();
    ops.insert(v);
    let before = empty_sets(alloc, count)?;
    Ok(Order::from_sets(ops, before))
}

/// The classes of so many scenarios, each of which has an operation of its own.
fn classes_of(alloc: Global, count: u8) -> Result<ClassList, Memory>
    requires some { 1 ≤ count }
    requires few { count ≤ 4 }
    ensures { IfOk result (λ list. All (IsOpenColumn count) list.columns) }
{
    let mut orders = Vec::new(alloc);
    for v in 0..count {
        orders.push(alone(alloc, count, OpId(v))?)?;
    }
    let columns = merge(alloc, &covered_orders(alloc, orders)?)?;
    classes(alloc, &columns)
}

#[test]
fn two_scenarios_have_one_class(rt: HostRuntime) {
    let list = classes_of(rt.alloc(), 2).expect(&rt, "there is memory");
    let given = [Pattern::free(2), Pattern::free(2)];
    let first = template_size(Template::First, &list, &given, 2, 0);
    assert_eq!(rt; (first.variables, first.clauses), (9, 14));
    let second = template_size(Template::Second, &list, &given, 2, 0);
    assert_eq!(rt; (second.variables, second.clauses), (9, 16));
}

#[test]
fn four_scenarios_have_four_classes(rt: HostRuntime) {
    let list = classes_of(rt.alloc(), 4).expect(&rt, "there is memory");
    let free = Pattern::free(2);
    let given = [free, free, free, free];
    let first = template_size(Template::First, &list, &given, 2, 3);
    assert_eq!(rt;
        (first.variables, first.clauses, first.literals),
        (75, 477, 1954)
    );
    let second = template_size(Template::Second, &list, &given, 2, 3);
    assert_eq!(rt;
        (second.variables, second.clauses, second.literals),
        (75, 479, 1956)
    );
}

/// The variable of a literal's number, complemented where the number is negative.
fn lit(number: i32) -> Lit
    requires some { number ≢ pos 0 }
    requires few { number ≢ negsuc 2147483647 }
{
    match Lit::new(number) {
        Some(lit) => lit,
        None => unreachable!(),
    }
}

/// A pattern that gives a 1 at the second of two bits.
fn one_at_1() -> Pattern
    ensures { length result ≡ 2 }
{
    Pattern::new(2, 2, 2)
}

#[test]
fn clauses_come_family_by_family(rt: HostRuntime) {
    let list = classes_of(rt.alloc(), 2).expect(&rt, "there is memory");
    let given = [one_at_1(), Pattern::free(2)];
    let size = template_size(Template::Third, &list, &given, 2, 0);
    assert!(rt; size.literals <= u64::from(TEMPLATE_LIMIT));
    let cnf = build(rt.alloc(), Template::Third, &list, &given, 2, 0).expect(
        &rt,
        "there is memory",
    );
    assert_eq!(rt; cnf.variables, 9);
    assert_eq!(rt; cnf.clauses.len(), 16);
    assert!(rt; cnf.clauses.clause(0) == [lit(-5), lit(1), lit(3)].as_slice());
    assert!(rt; cnf.clauses.clause(4) == [lit(5), lit(6)].as_slice());
    assert!(rt; cnf.clauses.clause(5) == [lit(7), lit(8)].as_slice());
    assert!(rt; cnf.clauses.clause(9) == [lit(-7), lit(3), lit(-9)].as_slice());
    assert!(rt; cnf.clauses.clause(14) == [lit(2)].as_slice());
    assert!(rt; cnf.clauses.clause(15) == [lit(-1)].as_slice());
}

/// The first encoding of classes on the least codes.
fn first_solution(alloc: Global, list: &ClassList, given: &[Pattern]) -> Result<Decoded, CodesFault>
    requires few { length given.now ≤ 4 }
    requires columns { All (IsOpenColumn (length given.now)) list.now.columns }
    ensures { IfOk result
        (λ d. IsSolution First given.now 2 list.now.columns (parts_of d.codes.items d.gates d.refs.items)) }
{
    let codes = least_codes(alloc, given, 2)?;
    match first_encode(alloc, list.columns(), &codes, 2) {
        Ok(e) => Ok(Decoded {
            codes: e.codes,
            gates: e.gates,
            refs: e.refs,
        }),
        Err(_) => Err(CodesFault::Memory),
    }
}

/// What is read from the assignment of a solution.
fn there_and_back(
    alloc: Global,
    list: &ClassList,
    given: &[Pattern],
    gates: u32,
    solution: &Decoded,
) -> Result<Decoded, Memory>
    requires asked { IsAsked given.now 2 gates list.now.columns }
    requires size { literals (template First given.now 2 gates list.now.columns) ≤ TEMPLATE_LIMIT }
    requires solution { IsSolution First given.now 2 list.now.columns
        (parts_of solution.now.codes.items solution.now.gates solution.now.refs.items) }
    requires few { length solution.now.gates.gates ≤ gates }
    requires columns { All (IsOpenColumn (length given.now)) list.now.columns }
{
    let values = encode(alloc, Template::First, list, given, gates, solution)?;
    decode(alloc, Template::First, list, given, 2, gates, &values)
}

fn gate(table: u8) -> Gate {
    Gate { j: 0, k: 1, table }
}

fn signal(number: u32, negated: bool) -> Ref {
    Ref::Signal { number, negated }
}

/// Each of four scenarios takes a gate that is 1 on its code alone. What comes back is normal, so the gate of the code
/// 0 is complemented, and an idle gate makes them five.
#[test]
fn a_solution_comes_back_normal(rt: HostRuntime) {
    let list = classes_of(rt.alloc(), 4).expect(&rt, "there is memory");
    let free = Pattern::free(2);
    let given = [free, free, free, free];
    let solution = first_solution(rt.alloc(), &list, &given).expect(&rt, "there are codes");
    assert_eq!(rt; solution.gates.len(), 4);
    let size = template_size(Template::First, &list, &given, 2, 5);
    assert!(rt; size.literals <= u64::from(TEMPLATE_LIMIT));
    let back = there_and_back(rt.alloc(), &list, &given, 5, &solution).expect(
        &rt,
        "there is memory",
    );
    assert!(rt; back.codes.as_slice() == [0, 1, 2, 3].as_slice());
    let gates = [gate(14), gate(4), gate(2), gate(8), gate(0)];
    assert!(rt; back.gates.gates() == gates.as_slice());
    let refs = [
        signal(2, true),
        signal(3, false),
        signal(4, false),
        signal(5, false),
    ];
    assert!(rt; back.refs.as_slice() == refs.as_slice());
}
