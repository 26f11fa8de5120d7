//! What there may be too much or too little of.

use crate::running::run;
use cpog_base::Status;
use std::alloc::Global;
use std::fmt::Write;
use std::test::Fail;

/// A scenario of so many operations side by side.
fn wide_scenario(alloc: Global, operations: u32) -> Result<String, Fail> {
    let mut text = String::from_str(alloc, "scenario A = v")?;
    for v in 0..operations {
        write!(text, " + v{v}")?;
    }
    Ok(text)
}

/// So many scenarios of one operation each, any two different.
fn many_scenarios(alloc: Global, scenarios: u32) -> Result<String, Fail> {
    let mut text = String::new(alloc);
    for s in 0..scenarios {
        write!(text, "scenario s{s} = v{s}\n")?;
    }
    Ok(text)
}

/// So many graphs.
fn many_graphs(alloc: Global, graphs: u32) -> Result<String, Fail> {
    let mut text = String::new(alloc);
    for g in 0..graphs {
        write!(text, "graph g{g} = a\n")?;
    }
    Ok(text)
}

#[test]
fn counts_and_their_limits(rt: HostRuntime) -> Result<(), Fail> {
    let alloc = rt.alloc();
    let table: [(String, Status, &[u8]); 6] = [
        (
            String::from_str(alloc, "params a, b, c, d\nparams a, b, c\n")?,
            Status::Limit,
            b"cpog: limit: params 6\n",
        ),
        (
            many_graphs(alloc, 257)?,
            Status::Limit,
            b"cpog: limit: graphs 256\n",
        ),
        (
            many_graphs(alloc, 256)?,
            Status::Names,
            b"cpog: names: no scenario\n",
        ),
        (
            wide_scenario(alloc, 64)?,
            Status::Limit,
            b"cpog: limit: operations 64\n",
        ),
        (
            many_scenarios(alloc, 65)?,
            Status::Limit,
            b"cpog: limit: scenarios 64\n",
        ),
        (
            String::from_str(alloc, "# nothing\n\n  # here\n")?,
            Status::Names,
            b"cpog: names: no scenario\n",
        ),
    ];
    for (input, status, want) in table {
        let ending = run(alloc, &["synth"], input.as_bytes())?;
        assert_eq!(rt; ending.status, status);
        assert_eq!(rt; ending.taken.as_slice(), want);
    }
    Ok(())
}

#[test]
fn sixty_four_operations_are_taken(rt: HostRuntime) -> Result<(), Fail> {
    let alloc = rt.alloc();
    let input = wide_scenario(alloc, 63)?;
    let ending = run(alloc, &["synth"], input.as_bytes())?;
    assert_eq!(rt; ending.status, Status::Ok);
    assert!(rt;
        ending
            .taken
            .as_slice()
            .ends_with(b" & ~a_v61 & ~a_v62;\nendmodule\n")
    );
    Ok(())
}

#[test]
fn a_text_too_long_is_told(rt: HostRuntime) -> Result<(), Fail> {
    let alloc = rt.alloc();
    let table: [(usize, Status, &[u8]); 3] = [
        (0, Status::Names, b"cpog: names: no scenario\n"),
        (1048576, Status::Names, b"cpog: names: no scenario\n"),
        (1048577, Status::Limit, b"cpog: limit: input 1048576\n"),
    ];
    for (length, status, want) in table {
        let input = Vec::from_elem(alloc, b' ', length)?;
        let ending = run(alloc, &["synth"], input.as_slice())?;
        assert_eq!(rt; ending.status, status);
        assert_eq!(rt; ending.taken.as_slice(), want);
    }
    Ok(())
}

#[test]
fn too_few_bits_are_told(rt: HostRuntime) -> Result<(), Fail> {
    let alloc = rt.alloc();
    let table: [(u32, &str, &[u8]); 4] = [
        (64, "1", b"cpog: limit: bits 1\n"),
        (3, "1", b"cpog: limit: bits 1\n"),
        (9, "3", b"cpog: limit: bits 3\n"),
        (33, "5", b"cpog: limit: bits 5\n"),
    ];
    for (scenarios, bits, want) in table {
        let input = many_scenarios(alloc, scenarios)?;
        let ending = run(alloc, &["synth", "--bits", bits], input.as_bytes())?;
        assert_eq!(rt; ending.status, Status::Limit);
        assert_eq!(rt; ending.taken.as_slice(), want);
    }
    Ok(())
}
