//! Whether a log refutes a formula.

use crate::running::run;
use cpog_base::Status;
use std::alloc::Global;
use std::test::Fail;

const TWO_CLAUSES: &[u8] = b"p cnf 1 2\n1 0\n-1 0\nlrat\n";

const THREE_CLAUSES: &[u8] = b"p cnf 2 3\n1 0\n-1 2 0\n-2 0\nlrat\n";

/// A log behind the formula that it is of.
fn joined(alloc: Global, formula: &[u8], log: &[u8]) -> Result<Vec<u8>, Fail> {
    let mut text = Vec::from_slice(alloc, formula)?;
    text.extend_from_slice(log)?;
    Ok(text)
}

#[test]
fn logs_of_three_clauses_are_judged(rt: HostRuntime) -> Result<(), Fail> {
    let table: [(&[u8], Status, &[u8]); 9] = [
        (b"4 2 0 1 2 0\n5 0 4 3 0\n", Status::Ok, b"cpog: refuted\n"),
        (
            b"4 2 0 1 2 0\n5 0 2 3 0\n",
            Status::No,
            b"cpog: no: line 2 hint 1\n",
        ),
        (b"4 2 0 1 1 2 0\n", Status::No, b"cpog: no: line 1 hint 2\n"),
        (b"4 2 -2 0 1 0\n", Status::No, b"cpog: no: line 1 hint 0\n"),
        (b"4 0 4 0\n", Status::No, b"cpog: no: line 1 hint 1\n"),
        (
            b"4 d 1 0\n5 2 0 1 2 0\n",
            Status::No,
            b"cpog: no: line 2 hint 1\n",
        ),
        (
            b"4 2 0 1 2 0\n4 d 4 0\n5 0 4 3 0\n",
            Status::No,
            b"cpog: no: line 3 hint 1\n",
        ),
        (b"4 3 0 1 2 0\n", Status::Text, b"cpog: text: line 6\n"),
        (b"3 2 0 1 2 0\n", Status::Text, b"cpog: text: line 6\n"),
    ];
    for (log, status, want) in table {
        let input = joined(rt.alloc(), THREE_CLAUSES, log)?;
        let ending = run(rt.alloc(), &["lrat"], input.as_slice())?;
        assert_eq!(rt; ending.status, status);
        assert_eq!(rt; ending.taken.as_slice(), want);
    }
    Ok(())
}

#[test]
fn logs_of_two_units_are_judged(rt: HostRuntime) -> Result<(), Fail> {
    let table: [(&[u8], Status, &[u8]); 10] = [
        (b"3 0 1 2 0\n", Status::Ok, b"cpog: refuted\n"),
        (b"3 0 1 2 0\n7 1 0 1 0\n", Status::Ok, b"cpog: refuted\n"),
        (b"1 d 77 9 0\n3 0 1 2 0\n", Status::Ok, b"cpog: refuted\n"),
        (
            b"c a comment\r\n\n\t3  0 1 2 0 \r\nc the end",
            Status::Ok,
            b"cpog: refuted\n",
        ),
        (b"", Status::No, b"cpog: no: no empty clause\n"),
        (b"3 0 1 0\n", Status::No, b"cpog: no: line 1 hint 1\n"),
        (b"3 0 0\n", Status::No, b"cpog: no: line 1 hint 0\n"),
        (b"3 0 1 2 1 0\n", Status::No, b"cpog: no: line 1 hint 2\n"),
        (
            b"3 0 1 2 0\n4 0 9 0\n",
            Status::No,
            b"cpog: no: line 2 hint 1\n",
        ),
        (
            b"3 d 1 0\n4 0 1 2 0\n",
            Status::No,
            b"cpog: no: line 2 hint 1\n",
        ),
    ];
    for (log, status, want) in table {
        let input = joined(rt.alloc(), TWO_CLAUSES, log)?;
        let ending = run(rt.alloc(), &["lrat"], input.as_slice())?;
        assert_eq!(rt; ending.status, status);
        assert_eq!(rt; ending.taken.as_slice(), want);
    }
    Ok(())
}

#[test]
fn the_first_bad_line_of_a_log_is_told(rt: HostRuntime) -> Result<(), Fail> {
    let table: [(&[u8], &[u8]); 11] = [
        (b"5 1 0 1 0\n5 0 1 2 0\n", b"cpog: text: line 6\n"),
        (b"c\n\n3 0 1 x 0\n", b"cpog: text: line 7\n"),
        (b"3 0 -1 2 0\n", b"cpog: text: line 5\n"),
        (b"3 0 1 2\n", b"cpog: text: line 5\n"),
        (b"3 0 1 2 0 4\n", b"cpog: text: line 5\n"),
        (b"03 0 1 2 0\n", b"cpog: text: line 5\n"),
        (b"4294967296 0 1 2 0\n", b"cpog: text: line 5\n"),
        (b"0 d 1 0\n", b"cpog: text: line 5\n"),
        (b"3 d 1\n", b"cpog: text: line 5\n"),
        (b"3 d -1 0\n", b"cpog: text: line 5\n"),
        (b"lrat\n", b"cpog: text: line 5\n"),
    ];
    for (log, want) in table {
        let input = joined(rt.alloc(), TWO_CLAUSES, log)?;
        let ending = run(rt.alloc(), &["lrat"], input.as_slice())?;
        assert_eq!(rt; ending.status, Status::Text);
        assert_eq!(rt; ending.taken.as_slice(), want);
    }
    Ok(())
}

#[test]
fn other_formulas_with_logs_are_judged(rt: HostRuntime) -> Result<(), Fail> {
    let table: [(&[u8], Status, &[u8]); 5] = [
        (
            b"p cnf 1 2\n1 0\n0\nlrat\n3 0 2 0\n",
            Status::Ok,
            b"cpog: refuted\n",
        ),
        (
            b"p cnf 0 1\n0\nlrat\n",
            Status::No,
            b"cpog: no: no empty clause\n",
        ),
        (
            b"p cnf 2 3\n1 1 0\n-1 2 -1 2 0\n-2 -2 -2 0\nlrat\n4 2 2 0 1 2 0\n5 0 4 3 0\n",
            Status::Ok,
            b"cpog: refuted\n",
        ),
        (
            b"p cnf 1 3\n1 -1 0\n1 0\n-1 0\nlrat\n4 0 1 0\n",
            Status::No,
            b"cpog: no: line 1 hint 1\n",
        ),
        (
            b"p cnf 16777217 0\nlrat\n",
            Status::Limit,
            b"cpog: limit: variables 16777216\n",
        ),
    ];
    for (input, status, want) in table {
        let ending = run(rt.alloc(), &["lrat"], input)?;
        assert_eq!(rt; ending.status, status);
        assert_eq!(rt; ending.taken.as_slice(), want);
    }
    Ok(())
}

#[test]
fn the_first_bad_line_behind_a_formula_is_told(rt: HostRuntime) -> Result<(), Fail> {
    let table: [(&[u8], &[u8]); 7] = [
        (b"", b"cpog: text: line 1\n"),
        (b"p cnf 0 0\n", b"cpog: text: line 2\n"),
        (
            b"p cnf 1 2\n1 0\n-2 0\nlrat\n3 0 1 2 0\n",
            b"cpog: text: line 3\n",
        ),
        (
            b"p cnf 1 2\n1 0\n-1 0\nlrat \n3 0 1 2 0\n",
            b"cpog: text: line 4\n",
        ),
        (
            b"p cnf 1 2\n1 0\n-1 0\n3 0 1 2 0\n",
            b"cpog: text: line 4\n",
        ),
        (
            b"p cnf 1 2\n1 0\nlrat\n-1 0\n3 0 1 2 0\n",
            b"cpog: text: line 3\n",
        ),
        (b"p cnf 16777217 0\nlrat\n1\n", b"cpog: text: line 3\n"),
    ];
    for (input, want) in table {
        let ending = run(rt.alloc(), &["lrat"], input)?;
        assert_eq!(rt; ending.status, Status::Text);
        assert_eq!(rt; ending.taken.as_slice(), want);
    }
    Ok(())
}
