ghost use Rattle.std.specs.Prelude.{◌≤◌, length};

use super::*;
use proof_check::{LogVerdict, check_log};
use std::test::Fail;

const REFUTED: &str =
    "c all four clauses over two variables\np cnf 2 4\n1 2 0 1 -2\n 0\r\n\n-1 2 0 -1 -2 0\nlrat\n5 1 0 1 2 0\n5 d 1 2 0\n6 0 5 3 4 0\n";

#[test]
fn a_formula_and_a_log_are_read(rt: HostRuntime) -> Result<(), Fail> {
    let (formula, log) = read_joined(rt.alloc(), REFUTED.as_bytes())?;
    assert_eq!(rt; formula.variables, 2);
    assert_eq!(rt; formula.clauses.len(), 4);
    assert_eq!(rt; log.len(), 3);
    assert_eq!(rt; check_log(rt.alloc(), &formula, &log)?, LogVerdict::Refuted);
    let text = write_cnf(rt.alloc(), "small", &formula)?;
    assert!(rt;
        text.as_slice() == b"c small\np cnf 2 4\n1 2 0\n1 -2 0\n-1 2 0\n-1 -2 0\n".as_slice()
    );
    let lines = write_log(rt.alloc(), &log)?;
    assert!(rt; lines.as_slice() == b"5 1 0 1 2 0\n5 d 1 2 0\n6 0 5 3 4 0\n".as_slice());
    Ok(())
}

fn formula_fault(rt: &HostRuntime, text: &str) -> Option<CnfFault>
    requires { length text.now ≤ 100 }
{
    match read_cnf(rt.alloc(), text.as_bytes()) {
        Ok(_) => None,
        Err(fault) => Some(fault),
    }
}

#[test]
fn the_first_bad_line_of_a_formula_is_told(rt: HostRuntime) -> Result<(), Fail> {
    assert_eq!(rt; formula_fault(&rt, "p cnf 3 2\n1 -3 0\n2 3 -1 0\n"), None);
    assert_eq!(rt; formula_fault(&rt, ""), Some(CnfFault::BadLine(1)));
    assert_eq!(rt;
        formula_fault(&rt, "c\n\np cnf 1 1\n2 0\n"),
        Some(CnfFault::BadLine(4))
    );
    assert_eq!(rt;
        formula_fault(&rt, "p cnf 1 1\n1 0 1 0\n"),
        Some(CnfFault::BadLine(2))
    );
    assert_eq!(rt;
        formula_fault(&rt, "p cnf 1 1\n1\n"),
        Some(CnfFault::BadLine(3))
    );
    assert_eq!(rt;
        formula_fault(&rt, "p cnf 01 0\n"),
        Some(CnfFault::BadLine(1))
    );
    assert_eq!(rt;
        formula_fault(&rt, "p cnf 16777217 1\n16777217 0\n"),
        Some(CnfFault::Limit)
    );
    assert_eq!(rt;
        formula_fault(&rt, "p cnf 16777217 1\n16777218 0\n"),
        Some(CnfFault::BadLine(2))
    );
    Ok(())
}

#[test]
fn the_first_bad_line_of_a_log_is_told(rt: HostRuntime) -> Result<(), Fail> {
    let good = read_log(rt.alloc(), b"c\n9 1 0 3 0\n\n9 d 0\n12 -1 0 9 1 0", 1, 8);
    assert!(rt; good.is_ok());
    let fault = match read_log(rt.alloc(), b"9 1 0 3 0\nc\n9 1 0 3 0\n", 1, 8) {
        Ok(_) => None,
        Err(fault) => Some(fault),
    };
    assert_eq!(rt; fault, Some(LogFault::BadLine(3)));
    Ok(())
}
