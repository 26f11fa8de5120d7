//! The normal forms of a text.

use crate::running::run;
use cpog_base::Status;
use std::test::Fail;

#[test]
fn normal_forms(rt: HostRuntime) -> Result<(), Fail> {
    let table: [(&[u8], &[u8]); 7] = [
        (b"", b""),
        (b"params x, y\nparams z\n", b"params x, y, z\n"),
        (
            b"params x\ngraph g = [x](a -> b) + [!x](a -> b)\ngraph h = [x] a -> b\n",
            b"params x\ngraph g = a + b + (a -> b)\ngraph h = [x] a + b + [x] (a -> b)\n",
        ),
        (
            b"params x, y\ngraph g = [x | y] a\n",
            b"params x, y\ngraph g = [x & !y | !x & y | x & y] a\n",
        ),
        (b"graph g = [0] a + b + a\n", b"graph g = a + b\n"),
        (
            b"params x\nparams y\ngraph g = [x] a -> b\nscenario A = @g + [y] c with y = 1, x = 0\n",
            b"params x, y\ngraph g = [x] a + b + [x] (a -> b)\nscenario A = [x] a + b + [y] c + [x] (a -> b) with y = 1, x = 0\n",
        ),
        (
            b"params x\nscenario A = [x] a\nscenario B = b -> b\nscenario C = b -> b\n",
            b"params x\nscenario A = [x] a\nscenario B = b + (b -> b)\nscenario C = b + (b -> b)\n",
        ),
    ];
    for (input, want) in table {
        let ending = run(rt.alloc(), &["normal"], input)?;
        assert_eq!(rt; ending.status, Status::Ok);
        assert_eq!(rt; ending.taken.as_slice(), want);
    }
    Ok(())
}
