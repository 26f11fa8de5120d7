//! The first line that is outside the grammar.

use crate::running::run;
use cpog_base::Status;
use std::test::Fail;

#[test]
fn the_first_bad_line_is_named(rt: HostRuntime) -> Result<(), Fail> {
    let table: [(&[u8], &[u8]); 11] = [
        (
            b"# a comment\nscenario B = b\nscenario A = a ->\n",
            b"cpog: text: line 3\n",
        ),
        (
            b"scenario A = a\nscenario B =\nscenario C\n",
            b"cpog: text: line 2\n",
        ),
        (
            b"scenario A = abcdefghijklmnopqrstuvwxyz1234567\n",
            b"cpog: text: line 1\n",
        ),
        (b"scenario A = a + code\n", b"cpog: text: line 1\n"),
        (b"scenarioA = a\n", b"cpog: text: line 1\n"),
        (b"scenario A = a - > b\n", b"cpog: text: line 1\n"),
        (
            b"scenario A = a\nscenario B = b\r\r\n",
            b"cpog: text: line 2\n",
        ),
        (b"scenario A = (a\n", b"cpog: text: line 1\n"),
        (b"graph g = @ + a\n", b"cpog: text: line 1\n"),
        (
            b"params x\nscenario A = [x] a with x = 2\n",
            b"cpog: text: line 2\n",
        ),
        (
            b"scenario A = a\n\nscenario B = b +",
            b"cpog: text: line 3\n",
        ),
    ];
    for (input, want) in table {
        let ending = run(rt.alloc(), &["synth"], input)?;
        assert_eq!(rt; ending.status, Status::Text);
        assert_eq!(rt; ending.taken.as_slice(), want);
    }
    Ok(())
}
