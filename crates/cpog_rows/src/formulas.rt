//! The formula that asks for an encoding: its text, its size, and the refusals that `cnf` has beside those of `synth`.

use crate::running::run;
use cpog_base::Status;
use std::test::Fail;

const TWO_SCENARIOS: &[u8] = b"c cpog template 2 scenarios 2 bits 2 gates 0 classes 1
p cnf 9 16
-5 1 3 0
-5 -1 -3 0
-6 2 4 0
-6 -2 -4 0
5 6 0
7 8 0
-7 1 9 0
-7 -1 -9 0
-7 -3 9 0
-7 3 -9 0
-8 2 9 0
-8 -2 -9 0
-8 -4 9 0
-8 4 -9 0
-1 0
-2 0
";

const FOUR_SCENARIOS: &[u8] = b"scenario A = a\nscenario B = b\nscenario C = c\nscenario D = d\n";

#[test]
fn a_formula_without_a_gate_is_printed(rt: HostRuntime) -> Result<(), Fail> {
    let ending = run(
        rt.alloc(),
        &["cnf", "0"],
        b"scenario A = a\nscenario B = b\n",
    )?;
    assert_eq!(rt; ending.status, Status::Ok);
    assert_eq!(rt; ending.taken.as_slice(), TWO_SCENARIOS);
    Ok(())
}

#[test]
fn formulas_say_their_size(rt: HostRuntime) -> Result<(), Fail> {
    let table: [(&[&str], Status, &[u8]); 4] = [
        (
            &["cnf", "3"],
            Status::Ok,
            b"c cpog template 2 scenarios 4 bits 2 gates 3 classes 4\np cnf 75 479\n",
        ),
        (
            &["cnf", "3", "--bits", "2"],
            Status::Ok,
            b"c cpog template 2 scenarios 4 bits 2 gates 3 classes 4\np cnf 75 479\n",
        ),
        (
            &["cnf", "4096"],
            Status::Limit,
            b"cpog: limit: template 16777216\n",
        ),
        (
            &["cnf", "4096", "--bits", "8"],
            Status::Limit,
            b"cpog: limit: template 16777216\n",
        ),
    ];
    for (words, status, want) in table {
        let ending = run(rt.alloc(), words, FOUR_SCENARIOS)?;
        assert_eq!(rt; ending.status, status);
        assert!(rt; ending.taken.as_slice().starts_with(want));
    }
    Ok(())
}

#[test]
fn what_can_not_be_encoded_has_no_formula(rt: HostRuntime) -> Result<(), Fail> {
    let table: [(&[u8], Status, &[u8]); 4] = [
        (b"", Status::Names, b"cpog: names: no scenario\n"),
        (
            b"scenario A = a -> a\n",
            Status::Cyclic,
            b"cpog: cyclic: scenario A: operation a\n",
        ),
        (
            b"scenario A = a\nscenario B = a\n",
            Status::Equal,
            b"cpog: equal: scenario B: scenario A\n",
        ),
        (
            b"scenario A = a ->\n",
            Status::Text,
            b"cpog: text: line 1\n",
        ),
    ];
    for (input, status, want) in table {
        let ending = run(rt.alloc(), &["cnf", "0"], input)?;
        assert_eq!(rt; ending.status, status);
        assert_eq!(rt; ending.taken.as_slice(), want);
    }
    Ok(())
}
