use crate::{File, FileFault, Statement, put_with, read_file, write_file};
use cpog_base::{Counted, Memory};
use pg_algebra::{Cond, Expr};
use std::alloc::Global;
use std::process::Abort;

/// `front`, then so many times `piece`, then `middle`, then so many times `back`.
fn nested(
    alloc: Global,
    front: &str,
    piece: &str,
    times: u32,
    middle: &str,
    back: &str,
) -> Result<String, Memory> {
    let mut text = String::from_str(alloc, front)?;
    for _ in 0..times {
        text.push_str(piece)?;
    }
    text.push_str(middle)?;
    for _ in 0..times {
        text.push_str(back)?;
    }
    Ok(text)
}

/// What is read of a text of at most a megabyte.
fn read(alloc: Global, text: &str) -> Result<File, FileFault> {
    if text.len() > 1100000 {
        return Err(FileFault::Memory);
    }
    read_file(alloc, text.as_bytes())
}

/// The fault of a text.
fn fault_of(alloc: Global, text: &str) -> Option<FileFault> {
    match read(alloc, text) {
        Ok(_) => None,
        Err(fault) => Some(fault),
    }
}

#[test]
fn each_construct_has_its_tree(rt: HostRuntime) -> Result<(), FileFault> {
    let text =
        "params x, y # two\n\ngraph g = a -> [x & !y | 0] (b + empty)\r\nscenario A = @ g + a with y = 1, x = 0";
    let file = read(rt.alloc(), text)?;
    assert_eq!(rt; file.len(), 3);
    assert_eq!(rt; file.line(1), 3);
    assert_eq!(rt; file.operations().find("b"), Some(1));
    match file.statement(0) {
        Statement::Params { names } => assert_eq!(rt; names.as_slice().len(), 2),
        _ => assert!(rt; false, "parameters"),
    }
    match file.statement(1) {
        Statement::Graph {
            name,
            expr: Expr::Sequence(list),
        } => {
            assert_eq!(rt; name.as_str(), "g");
            assert!(rt; matches!(list.members().first(), Some(Expr::Op(0))));
            match list.members().last() {
                Some(Expr::When(condition, governed)) => {
                    assert!(rt; matches!(condition.get(), Cond::Or(_)));
                    assert!(rt; matches!(governed.get(), Expr::Overlay(_)));
                }
                _ => assert!(rt; false, "a prefix"),
            }
        }
        _ => assert!(rt; false, "a graph"),
    }
    match file.statement(2) {
        Statement::Scenario {
            name,
            expr: Expr::Overlay(_),
            bindings,
        } => {
            assert_eq!(rt; name.as_str(), "A");
            let mut written = Vec::new(rt.alloc());
            put_with(&mut written, bindings.as_slice())?;
            assert_eq!(rt; written.as_slice(), b" with y = 1, x = 0".as_slice());
        }
        _ => assert!(rt; false, "a scenario"),
    }
    Ok(())
}

#[test]
fn nesting_ends_at_100_levels(rt: HostRuntime) -> Result<(), Memory> {
    for (front, piece, middle, back) in [
        ("scenario A = ", "(", "a", ")"),
        ("scenario A = ", "[x]", "a", ""),
        ("scenario A = [", "(", "x", ")"),
        ("scenario A = [", "!", "x", ""),
    ] {
        let end = if front.len() == 14 { "] a" } else { "" };
        let most = if front.len() == 14 { 99 } else { 100 };
        let mut good = nested(rt.alloc(), front, piece, most, middle, back)?;
        good.push_str(end)?;
        assert_eq!(rt; fault_of(rt.alloc(), good.as_str()), None);
        let mut bad = nested(rt.alloc(), front, piece, most + 1, middle, back)?;
        bad.push_str(end)?;
        assert_eq!(rt;
            fault_of(rt.alloc(), bad.as_str()),
            Some(FileFault::BadLine(1))
        );
        let most = (1048576 - front.len() - end.len()) / piece.len();
        let mut deep = nested(rt.alloc(), front, piece, most as u32, "", "")?;
        deep.push_str(end)?;
        assert_eq!(rt;
            fault_of(rt.alloc(), deep.as_str()),
            Some(FileFault::BadLine(1))
        );
    }
    Ok(())
}

/// Each line is bad on its own, and stands behind one that is good.
fn are_bad(rt: &impl Abort, alloc: Global, lines: &[&str]) -> Result<(), Memory> {
    for line in lines {
        let text = nested(alloc, "params x, y\n", *line, 1, "\n", "")?;
        assert_eq!(rt; fault_of(alloc, text.as_str()), Some(FileFault::BadLine(2)));
    }
    Ok(())
}

#[test]
fn the_first_bad_line_is_told(rt: HostRuntime) {
    for (text, want) in [
        ("scenario A = a\n\nscenario A = a ->\nparams\n", 3),
        ("# a comment\nscenario B = b\nscenario A = a ->", 3),
        ("scenario A = a\nscenario B =\nscenario C\n", 2),
        ("scenario A = a -> a\nnothing\n", 2),
        ("scenario A = a\n\nscenario B = b +", 3),
    ] {
        assert_eq!(rt; fault_of(rt.alloc(), text), Some(FileFault::BadLine(want)));
    }
}

#[test]
fn bad_statements_are_told(rt: HostRuntime) -> Result<(), Memory> {
    are_bad(
        &rt,
        rt.alloc(),
        &[
            "nothing",
            "Scenario A = a",
            "scenarioA = a",
            "scenario A a",
            "scenario A == a",
            "scenario A = ",
            "scenario A = # a",
            "scenario with = a",
            "scenario empty = b",
            "graph graph = a",
            "code A = 1",
            "params",
            "params x y",
            "params x,",
            "params = x",
            "graph g = [x] a with x = 0",
            "scenario A = [x] a with",
            "scenario A = [x] a with x = 2",
            "scenario A = [x] a with x = y",
            "scenario A = [x & y] a with x = 1 y = 1",
        ],
    )
}

#[test]
fn bad_expressions_are_told(rt: HostRuntime) -> Result<(), Memory> {
    are_bad(
        &rt,
        rt.alloc(),
        &[
            "scenario A = a b",
            "scenario A = a - > b",
            "scenario A = a-b",
            "scenario A = + a",
            "scenario A = a +",
            "scenario A = a + -> b",
            "scenario A = (a + b",
            "scenario A = a + b)",
            "scenario A = ()",
            "scenario A = a + code",
            "scenario A = scenario",
            "scenario A = 1",
            "scenario A = @ + a",
            "scenario A = @empty",
        ],
    )
}

#[test]
fn bad_conditions_are_told(rt: HostRuntime) -> Result<(), Memory> {
    are_bad(
        &rt,
        rt.alloc(),
        &[
            "scenario A = [x]",
            "scenario A = [] a",
            "scenario A = [x a",
            "scenario A = [x -> y] a",
            "scenario A = [x & | y] a",
            "scenario A = [x | y & ] a",
            "scenario A = [x!] a",
            "scenario A = [2] a",
            "scenario A = [empty] a",
        ],
    )
}

#[test]
fn bad_bytes_and_long_names_are_told(rt: HostRuntime) -> Result<(), Memory> {
    are_bad(
        &rt,
        rt.alloc(),
        &[
            "scenario A = a;",
            "scenario A = 1a",
            "scenario A = n23456789012345678901234567890123",
            "scenario n23456789012345678901234567890123 = a",
            "scenario A = a\r\r",
            "scenario A =\ra",
            "scenario A = a\rscenario B = b",
            "scenario A = \u{e4}",
            "scenario A = a\0",
            "scenario A = a \u{c}",
        ],
    )
}

#[test]
fn the_first_count_that_passes_is_told(rt: HostRuntime) -> Result<(), Memory> {
    let params = "params x, x, x\nparams x, x, x";
    assert_eq!(rt; fault_of(rt.alloc(), params), None);
    let graphs = nested(rt.alloc(), params, "\ngraph g = a", 256, "", "")?;
    assert_eq!(rt; fault_of(rt.alloc(), graphs.as_str()), None);
    let scenarios = nested(rt.alloc(), graphs.as_str(), "\nscenario A = a", 64, "", "")?;
    assert_eq!(rt; fault_of(rt.alloc(), scenarios.as_str()), None);
    let more = nested(
        rt.alloc(),
        scenarios.as_str(),
        "\nscenario A = a",
        1,
        "",
        "",
    )?;
    assert_eq!(rt;
        fault_of(rt.alloc(), more.as_str()),
        Some(FileFault::Limit(Counted::Scenarios, 64))
    );
    let more = nested(rt.alloc(), more.as_str(), "\ngraph g = a", 1, "", "")?;
    assert_eq!(rt;
        fault_of(rt.alloc(), more.as_str()),
        Some(FileFault::Limit(Counted::Graphs, 256))
    );
    let more = nested(rt.alloc(), more.as_str(), "\nparams x", 1, "", "")?;
    assert_eq!(rt;
        fault_of(rt.alloc(), more.as_str()),
        Some(FileFault::Limit(Counted::Params, 6))
    );
    Ok(())
}

#[test]
fn no_parentheses_are_written_but_those_that_are_needed(rt: HostRuntime) -> Result<(), FileFault> {
    let text =
        "# three statements\nparams x,y\n graph g=(([x] (a->b)))+ [!(x)]((a)->b)\n\ngraph h=[x](a)->b # the end\nscenario A=@ g->([(x|0)&!(y|1)]a+empty)with x=0,y=1";
    let want =
        "params x, y\ngraph g = [x] (a -> b) + [!x] (a -> b)\ngraph h = [x] a -> b\nscenario A = @g -> ([(x | 0) & !(y | 1)] a + empty) with x = 0, y = 1\n";
    let file = read(rt.alloc(), text)?;
    let written = write_file(rt.alloc(), &file)?;
    assert_eq!(rt; written.as_slice(), want.as_bytes());
    Ok(())
}
