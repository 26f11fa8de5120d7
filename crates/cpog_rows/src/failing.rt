//! A source that fails in mid-stream, and sinks that fail or are full.

use crate::running::run_failing;
use cpog_base::Status;
use std::test::Fail;

#[test]
fn a_read_that_fails_is_told(rt: HostRuntime) -> Result<(), Fail> {
    let alloc = rt.alloc();
    let ending = run_failing(
        alloc,
        &["synth"],
        b"scenario A = a\n",
        vec![in alloc; 2]?,
        100,
        Vec::new(alloc),
    )?;
    assert_eq!(rt; ending.status, Status::ReadFault);
    assert_eq!(rt; ending.taken.as_slice(), b"cpog: read fault\n".as_slice());
    Ok(())
}

#[test]
fn a_write_that_fails_leaves_a_front(rt: HostRuntime) -> Result<(), Fail> {
    let alloc = rt.alloc();
    let table: [(usize, u32, &[u8]); 3] = [(100, 1, b""), (100, 2, b"cpog "), (8, 99, b"cpog rep")];
    for (room, failing, want) in table {
        let ending = run_failing(
            alloc,
            &["synth"],
            b"scenario A = a\n",
            Vec::new(alloc),
            room,
            vec![in alloc; failing]?,
        )?;
        assert_eq!(rt; ending.status, Status::WriteFault);
        assert_eq!(rt; ending.taken.as_slice(), want);
    }
    Ok(())
}
