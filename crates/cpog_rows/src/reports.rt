//! Whether a report is good, and the module of a good one. Each report is that of a search, in which a text is replaced.

use crate::running::{Ending, run};
use cpog_base::Status;
use std::alloc::Global;
use std::test::Fail;

const TWO: &[u8] = b"scenario A = a -> b\nscenario B = a -> c\n";

const THREE: &[u8] = b"scenario A = a\nscenario B = b\nscenario C = c\n";

const FOUR: &[u8] = b"scenario A = a\nscenario B = b\nscenario C = c\nscenario D = d\n";

/// The report of these scenarios within the budget, with the first text in it made the second.
fn replaced(
    alloc: Global,
    scenarios: &[u8],
    budget: &str,
    old: &str,
    new: &str,
) -> Result<String, Fail> {
    let printed = run(alloc, &["synth", "--budget", budget], scenarios)?;
    let report = String::from_utf8(printed.taken)?;
    Ok(report.as_str().replacen(alloc, old, new, 1)?)
}

/// What is said of the report of these scenarios, with the first text in it made the second.
fn judged(
    alloc: Global,
    scenarios: &[u8],
    budget: &str,
    old: &str,
    new: &str,
) -> Result<Ending, Fail> {
    let report = replaced(alloc, scenarios, budget, old, new)?;
    run(alloc, &["check"], report.as_bytes())
}

#[test]
fn reports_of_two_scenarios_are_judged(rt: HostRuntime) -> Result<(), Fail> {
    let table: [(&str, &str, Status, &[u8]); 9] = [
        ("", "", Status::Ok, b"cpog: yes\n"),
        (
            "op b !x0",
            "op b 1",
            Status::No,
            b"cpog: no: operation B b\n",
        ),
        ("arc a b 1\n", "", Status::No, b"cpog: no: order A a b\n"),
        (
            "arcs a>b",
            "arcs b>a",
            Status::No,
            b"cpog: no: order A a b\n",
        ),
        (
            "arcs a>b",
            "arcs a>b b>a",
            Status::No,
            b"cpog: no: cyclic A a\n",
        ),
        (
            "has a c\narcs a>c",
            "has a b\narcs a>b",
            Status::No,
            b"cpog: no: equal B A\n",
        ),
        (
            "assign e0_1 = 1'b1",
            "assign e0_1 = 1'b0",
            Status::No,
            b"cpog: no: netlist\n",
        ),
        ("netlist\n", "", Status::Text, b"cpog: text: line 20\n"),
        (
            "cpog report 1",
            "cpog report 9",
            Status::Text,
            b"cpog: text: line 1\n",
        ),
    ];
    for (old, new, status, want) in table {
        let ending = judged(rt.alloc(), TWO, "2000000", old, new)?;
        assert_eq!(rt; ending.status, status);
        assert_eq!(rt; ending.taken.as_slice(), want);
    }
    Ok(())
}

#[test]
fn evidence_and_open_parts_are_judged(rt: HostRuntime) -> Result<(), Fail> {
    let table: [(&[u8], &str, &str, &str, &[u8]); 7] = [
        (
            THREE,
            "2000000",
            "op a\nop b\nop c\nopen",
            "op a\nop b\nop b\nopen",
            b"cpog: no: evidence condition 3\n",
        ),
        (
            FOUR,
            "2000000",
            "evidence refutation 2 3",
            "evidence refutation 2 2",
            b"cpog: no: evidence\n",
        ),
        (
            FOUR,
            "2000000",
            "minimum 4",
            "minimum 3",
            b"cpog: no: count\n",
        ),
        (
            FOUR,
            "1",
            "between 2 4",
            "between 3 4",
            b"cpog: no: evidence\n",
        ),
        (
            FOUR,
            "1",
            "between 2 4",
            "between 4 4",
            b"cpog: no: count\n",
        ),
        (
            FOUR,
            "1",
            "open log 2 2",
            "open log 2 3",
            b"cpog: no: open\n",
        ),
        (
            FOUR,
            "1",
            "budget 1\n",
            "budget 8388608\n",
            b"cpog: no: open short\n",
        ),
    ];
    for (scenarios, budget, old, new, want) in table {
        let ending = judged(rt.alloc(), scenarios, budget, old, new)?;
        assert_eq!(rt; ending.status, Status::No);
        assert_eq!(rt; ending.taken.as_slice(), want);
    }
    Ok(())
}

#[test]
fn the_module_of_a_good_report_is_printed(rt: HostRuntime) -> Result<(), Fail> {
    let report = replaced(rt.alloc(), FOUR, "1", "", "")?;
    let (_, module) = report
        .as_str()
        .split_once("netlist\n")
        .ok_or("a report has a module")?;
    let ending = run(rt.alloc(), &["verilog"], report.as_bytes())?;
    assert_eq!(rt; ending.status, Status::Ok);
    assert_eq!(rt; ending.taken.as_slice(), module.as_bytes());
    let bad = replaced(rt.alloc(), FOUR, "1", "op a", "op b")?;
    let ending = run(rt.alloc(), &["verilog"], bad.as_bytes())?;
    assert_eq!(rt; ending.status, Status::Text);
    Ok(())
}
