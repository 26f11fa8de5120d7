use super::*;
use clause_arena::{ClauseArena, Cnf, Lit};
use std::alloc::Global;
use std::test::Fail;

// Over two variables each of the four clauses of both: 1 2, 1 -2, -1 2, -1 -2.
fn all_four(alloc: Global) -> Result<Cnf, Fail> {
    let (a, b) = (Lit::from_var(1, false), Lit::from_var(2, false));
    let mut clauses = ClauseArena::new(alloc);
    clauses.push(&[a, b])?;
    clauses.push(&[a, b.negated()])?;
    clauses.push(&[a.negated(), b])?;
    clauses.push(&[a.negated(), b.negated()])?;
    Ok(Cnf {
        variables: 2,
        clauses,
    })
}

#[test]
fn a_refutation_is_told(rt: HostRuntime) -> Result<(), Fail> {
    let formula = all_four(rt.alloc())?;
    let mut log = Log::new(rt.alloc(), 4);
    log.push_add(5, &[Lit::from_var(1, false)], &[1, 2])?;
    assert_eq!(rt;
        check_log(rt.alloc(), &formula, &log)?,
        LogVerdict::NoEmptyClause
    );
    log.push_del(&[1, 2, 9])?;
    log.reserve(1, 3)?;
    log.push_add_reserved(6, &[], &[5, 3, 4]);
    assert_eq!(rt; log.len(), 3);
    assert_eq!(rt; log.numbers(), 9);
    assert_eq!(rt; check_log(rt.alloc(), &formula, &log)?, LogVerdict::Refuted);
    Ok(())
}

#[test]
fn the_first_bad_hint_is_told(rt: HostRuntime) -> Result<(), Fail> {
    let formula = all_four(rt.alloc())?;
    let mut log = Log::new(rt.alloc(), 4);
    log.push_add(7, &[Lit::from_var(1, false)], &[1, 3, 2])?;
    let mut scratch = Scratch::new(rt.alloc(), &formula, &log)?;
    assert_eq!(rt;
        check_line(&formula, &log, &mut scratch, 0),
        LineVerdict::Refused(2)
    );
    assert_eq!(rt;
        check_log(rt.alloc(), &formula, &log)?,
        LogVerdict::BadLine { line: 1, hint: 2 }
    );
    Ok(())
}
