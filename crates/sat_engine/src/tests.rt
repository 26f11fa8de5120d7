use super::*;
use clause_arena::{ClauseArena, Cnf, Lit};
use proof_check::{LogVerdict, check_log};
use std::alloc::Global;
use std::test::Fail;

// Over two variables each of the four clauses of both: 1 2, 1 -2, -1 2, -1 -2.
fn all_four(alloc: Global) -> Result<Cnf, Fail> {
    let (a, b) = (Lit::from_var(1, false), Lit::from_var(2, false));
    let mut clauses = ClauseArena::new(alloc);
    clauses.push(&[a, b])?;
    clauses.push(&[a, b.negated()])?;
    clauses.push(&[a.negated(), b])?;
    clauses.push(&[a.negated(), b.negated()])?;
    Ok(Cnf {
        variables: 2,
        clauses,
    })
}

// A clause in both signs, a repeated literal and a unit, of which the second variable and then the third follow: 1 -1,
// 2 2, -2 3 -2.
fn forced(alloc: Global) -> Result<Cnf, Fail> {
    let (a, b, c) = (
        Lit::from_var(1, false),
        Lit::from_var(2, false),
        Lit::from_var(3, false),
    );
    let mut clauses = ClauseArena::new(alloc);
    clauses.push(&[a, a.negated()])?;
    clauses.push(&[b, b])?;
    clauses.push(&[b.negated(), c, b.negated()])?;
    Ok(Cnf {
        variables: 3,
        clauses,
    })
}

#[test]
fn a_refutation_passes_the_check(rt: HostRuntime) -> Result<(), Fail> {
    let formula = all_four(rt.alloc())?;
    assert!(rt; formula.variables <= 16777216);
    assert!(rt; formula.clauses.literal_count() <= 1000);
    assert!(rt; formula.clauses.len() <= 1000);
    let Outcome::Refuted(log) = solve(rt.alloc(), &formula, 1000)? else {
        assert!(rt; false, "the formula has no solution");
        return Ok(());
    };
    assert_eq!(rt; check_log(rt.alloc(), &formula, &log)?, LogVerdict::Refuted);
    Ok(())
}

#[test]
fn a_spent_budget_leaves_the_formula_open(rt: HostRuntime) -> Result<(), Fail> {
    let formula = all_four(rt.alloc())?;
    assert!(rt; formula.variables <= 16777216);
    assert!(rt; formula.clauses.literal_count() <= 1000);
    assert!(rt; formula.clauses.len() <= 1000);
    let Outcome::Open(log) = solve(rt.alloc(), &formula, 1)? else {
        assert!(rt; false, "one number is spent at the first conflict");
        return Ok(());
    };
    assert_eq!(rt; log.len(), 1);
    assert_eq!(rt;
        check_log(rt.alloc(), &formula, &log)?,
        LogVerdict::NoEmptyClause
    );
    Ok(())
}

#[test]
fn an_assignment_gives_what_follows(rt: HostRuntime) -> Result<(), Fail> {
    let formula = forced(rt.alloc())?;
    assert!(rt; formula.variables <= 16777216);
    assert!(rt; formula.clauses.literal_count() <= 1000);
    assert!(rt; formula.clauses.len() <= 1000);
    let mut preferences = Preferences::of_blocks(rt.alloc(), 3, &[vec![in rt.alloc(); 3, 1]?])?;
    preferences.phases = vec![in rt.alloc(); false, false, false]?;
    let Outcome::Sat(values) = solve_in_blocks(rt.alloc(), &formula, 1000, &preferences)? else {
        assert!(rt; false, "the formula has a solution");
        return Ok(());
    };
    assert_eq!(rt; values.as_slice(), [false, true, true].as_slice());
    Ok(())
}
