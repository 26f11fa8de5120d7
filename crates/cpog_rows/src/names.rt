//! Faults of names.

use crate::running::run;
use cpog_base::Status;
use std::test::Fail;

#[test]
fn names_that_are_not_in_order(rt: HostRuntime) -> Result<(), Fail> {
    let table: [(&[u8], &[u8]); 6] = [
        (
            b"params x, y, x\nscenario A = a\n",
            b"cpog: names: line 1: duplicate x\n",
        ),
        (
            b"scenario A = a\nscenario A = b\n",
            b"cpog: names: line 2: duplicate A\n",
        ),
        (
            b"params x\nscenario A = [x] a with x = 0, x = 0\n",
            b"cpog: names: line 2: duplicate x\n",
        ),
        (
            b"graph g = a + @g\nscenario A = a\n",
            b"cpog: names: line 1: unknown graph g\n",
        ),
        (
            b"scenario A = [x] a with x = 1\nparams x\n",
            b"cpog: names: line 1: unknown parameter x\n",
        ),
        (
            b"graph g = [x] a\n",
            b"cpog: names: line 1: unknown parameter x\n",
        ),
    ];
    for (input, want) in table {
        for word in ["synth", "normal"] {
            let ending = run(rt.alloc(), &[word], input)?;
            assert_eq!(rt; ending.status, Status::Names);
            assert_eq!(rt; ending.taken.as_slice(), want);
        }
    }
    Ok(())
}

#[test]
fn parameters_that_are_left_open(rt: HostRuntime) -> Result<(), Fail> {
    let table: [(&[u8], &[u8]); 4] = [
        (
            b"params x\nscenario A = [x] a\n",
            b"cpog: names: line 2: unbound parameter x\n",
        ),
        (
            b"params x, y, z\nscenario A = [z & y] a\n",
            b"cpog: names: line 2: unbound parameter y\n",
        ),
        (
            b"params x\nscenario A = a + b + [x] (a -> b)\n",
            b"cpog: names: line 2: unbound parameter x\n",
        ),
        (
            b"params x, y\nscenario A = [x] a with x = 1\nscenario B = [y] a\nscenario C = b -> b\n",
            b"cpog: names: line 3: unbound parameter y\n",
        ),
    ];
    for (input, want) in table {
        let ending = run(rt.alloc(), &["synth"], input)?;
        assert_eq!(rt; ending.status, Status::Names);
        assert_eq!(rt; ending.taken.as_slice(), want);
    }
    Ok(())
}
