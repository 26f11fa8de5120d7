//! What a search finds of formulas, and the refusals that `solve` has.

use crate::running::run;
use cpog_base::Status;
use std::test::Fail;

#[test]
fn formulas_are_decided(rt: HostRuntime) -> Result<(), Fail> {
    let table: [(&[u8], Status, &[u8]); 5] = [
        (b"p cnf 0 0\n", Status::Ok, b"s SATISFIABLE\nv 0\n"),
        (
            b"p cnf 2 2\n-1 0\n1 2 0\n",
            Status::Ok,
            b"s SATISFIABLE\nv -1 2 0\n",
        ),
        (
            b"p cnf 1 2\n1 0\n-1 0\n",
            Status::Ok,
            b"s UNSATISFIABLE\n3 0 1 2 0\n",
        ),
        (b"p cnf 2 1\n1 -2\n", Status::Text, b"cpog: text: line 3\n"),
        (
            b"p cnf 16777217 0\n",
            Status::Limit,
            b"cpog: limit: variables 16777216\n",
        ),
    ];
    for (input, status, want) in table {
        let ending = run(rt.alloc(), &["solve"], input)?;
        assert_eq!(rt; ending.status, status);
        assert_eq!(rt; ending.taken.as_slice(), want);
    }
    Ok(())
}

#[test]
fn a_spent_budget_leaves_a_formula_open(rt: HostRuntime) -> Result<(), Fail> {
    let formula = b"p cnf 2 4\n1 2 0\n1 -2 0\n-1 2 0\n-1 -2 0\n";
    let table: [(&[&str], &[u8]); 2] = [
        (&["solve", "--budget", "1"], b"s UNKNOWN\n"),
        (&["solve"], b"s UNSATISFIABLE\n"),
    ];
    for (words, want) in table {
        let ending = run(rt.alloc(), words, formula)?;
        assert_eq!(rt; ending.status, Status::Ok);
        assert!(rt; ending.taken.as_slice().starts_with(want));
    }
    Ok(())
}
