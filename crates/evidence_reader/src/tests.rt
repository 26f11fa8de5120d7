ghost use Rattle.std.specs.Prelude.{◌≤◌, length, IfOk};

use super::*;
use cnf_build::{Evidence, OpenPart};
use cpog_base::{Memory, Names};
use gate_template::Template;
use line_rows::{Cursor, ReadError};
use std::test::Fail;

fn two_names(rt: &HostRuntime) -> Result<Names, Memory>
    ensures { IfOk result (λ n. length n ≤ 2) }
{
    let mut names = Names::new(rt.alloc());
    names.insert("load")?;
    names.insert("add")?;
    Ok(names)
}

#[test]
fn places_and_a_size_are_read(rt: HostRuntime) -> Result<(), Fail> {
    let names = two_names(&rt)?;
    let text = b"evidence count\nop add\narc load add\nopen size 3 65535\nnetlist\n";
    let mut cursor = Cursor::new(text);
    let shown = shown_rows(rt.alloc(), &mut cursor, &names, 65536)
        .ok()
        .ok_or("it is spelled")?;
    let Evidence::Count(places) = &shown.evidence else {
        return Err("it is a count".into());
    };
    assert_eq!(rt; places.len(), 2);
    let OpenPart::Size { template, gates } = &shown.open_part else {
        return Err("it is a size".into());
    };
    assert_eq!(rt; *template, Template::Third);
    assert_eq!(rt; *gates, 65535);
    assert_eq!(rt; cursor.exactly(b"netlist"), Ok(()));
    assert_eq!(rt; cursor.ended(), Ok(()));
    Ok(())
}

#[test]
fn logs_are_read_up_to_their_ends(rt: HostRuntime) -> Result<(), Fail> {
    let names = two_names(&rt)?;
    let text =
        b"evidence refutation 2 3\n5 -1 16777216 0 4 0\n4294967295 d 5 0\n6 0 5 0\nend\nopen log 2 4\nend\n";
    let mut cursor = Cursor::new(text);
    let shown = shown_rows(rt.alloc(), &mut cursor, &names, 65536)
        .ok()
        .ok_or("it is spelled")?;
    let Evidence::Refutation {
        template,
        gates,
        log,
    } = &shown.evidence
    else {
        return Err("it is a refutation".into());
    };
    assert_eq!(rt; *template, Template::Second);
    assert_eq!(rt; *gates, 3);
    assert_eq!(rt; log.len(), 3);
    assert_eq!(rt; log.numbers(), 5);
    let OpenPart::Log { log, .. } = &shown.open_part else {
        return Err("it is a log".into());
    };
    assert_eq!(rt; log.len(), 0);
    Ok(())
}

/// The first bad line, or none where all are spelled.
fn bad_line(rt: &HostRuntime, text: &str) -> Result<Option<u32>, Fail>
    requires { length text.now ≤ 200 }
{
    let names = two_names(rt)?;
    let mut cursor = Cursor::new(text.as_bytes());
    match shown_rows(rt.alloc(), &mut cursor, &names, 65536) {
        Ok(_) => Ok(None),
        Err(ReadError::BadLine(line)) => Ok(Some(line)),
        Err(ReadError::Memory) => Err("no memory".into()),
    }
}

#[test]
fn first_bad_lines_are_told(rt: HostRuntime) -> Result<(), Fail> {
    assert_eq!(rt; bad_line(&rt, "evidence zero\nopen none\n")?, None);
    assert_eq!(rt; bad_line(&rt, "evidence zero\n")?, Some(2));
    assert_eq!(rt; bad_line(&rt, "evidence zero \nopen none\n")?, Some(1));
    assert_eq!(rt;
        bad_line(&rt, "evidence zero\nopen log 4 1\nend\n")?,
        Some(2)
    );
    assert_eq!(rt;
        bad_line(&rt, "evidence zero\nopen size 1 65536\n")?,
        Some(2)
    );
    assert_eq!(rt;
        bad_line(&rt, "evidence count\nop sub\nopen none\n")?,
        Some(2)
    );
    assert_eq!(rt;
        bad_line(&rt, "evidence count\narc add add\nopen none\n")?,
        Some(2)
    );
    assert_eq!(rt; bad_line(&rt, "evidence count\nop add\n")?, Some(3));
    Ok(())
}

#[test]
fn first_bad_lines_of_logs_are_told(rt: HostRuntime) -> Result<(), Fail> {
    assert_eq!(rt;
        bad_line(&rt, "evidence zero\nopen log 1 0\n1  0 0\nend\n")?,
        Some(3)
    );
    assert_eq!(rt;
        bad_line(&rt, "evidence zero\nopen log 1 0\n1 0 0 \nend\n")?,
        Some(3)
    );
    assert_eq!(rt;
        bad_line(&rt, "evidence zero\nopen log 1 0\n1\t0 0\nend\n")?,
        Some(3)
    );
    assert_eq!(rt;
        bad_line(&rt, "evidence zero\nopen log 1 0\n1 0 0\nc\nend\n")?,
        Some(4)
    );
    assert_eq!(rt;
        bad_line(&rt, "evidence zero\nopen log 1 0\n1 0 0\n\nend\n")?,
        Some(4)
    );
    assert_eq!(rt;
        bad_line(&rt, "evidence zero\nopen log 1 0\n2 0 0\n2 0 0\nend\n")?,
        Some(4)
    );
    assert_eq!(rt;
        bad_line(&rt, "evidence zero\nopen log 1 0\n0 d 0\nend\n")?,
        Some(3)
    );
    assert_eq!(rt;
        bad_line(&rt, "evidence zero\nopen log 1 0\n1 16777217 0 0\nend\n")?,
        Some(3)
    );
    assert_eq!(rt;
        bad_line(&rt, "evidence zero\nopen log 1 0\n1 0 0\r\nend\n")?,
        Some(3)
    );
    assert_eq!(rt;
        bad_line(&rt, "evidence zero\nopen log 1 0\n1 0 0\n")?,
        Some(4)
    );
    Ok(())
}
