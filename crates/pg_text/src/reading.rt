//! A text is read line by line, to its end, before anything is counted: a bad line is told before a limit.
ghost use Rattle.std.specs.Prelude.{◌≡◌, ◌<◌, ◌≤◌, ◌++◌, [], length, IfOk, IfErr, OnOk};
ghost use Rattle.std.specs.Bool.{MatchBool};
ghost use Rattle.pg_text.specs.Text.{IsReadAs, IsFileOf, IsFileFault, put_statement, count_in, count_of};

use crate::fault::{FileFault, LineFault};
use crate::file::File;
use crate::lines::next_graph_line;
use crate::statement::{Numbered, Statement};
use crate::statements::read_line;
use cpog_base::{
    Counted, GRAPH_LIMIT, LONG_INPUT_LIMIT, Memory, Names, OPERATION_LIMIT, PARAM_LIMIT,
    SCENARIO_LIMIT,
};
use std::alloc::Global;

/// Puts the statement of a line last, if the line has one.
fn keep(
    statements: &mut Vec<Numbered>,
    line: u32,
    statement: Option<Statement>,
) -> Result<(), Memory>
    ensures { OnOk result (statements.new.items ≡ statements.old.items ++ put_statement line statement []) }
{
    if let Some(statement) = statement {
        statements.push(Numbered { line, statement })?;
    }
    Ok(())
}

/// The statements of all lines, and the names of the operations.
fn read_lines(alloc: Global, bytes: &[u8]) -> Result<(Vec<Numbered>, Names), FileFault>
    requires { length bytes.now ≤ LONG_INPUT_LIMIT }
    ensures ok { IfOk result (λ p. IsReadAs bytes.now (record { statements = p.0.items; operations = p.1 })) }
    ensures err { IfErr result (IsFileFault bytes.now) }
{
    let mut statements = Vec::new(alloc);
    let mut operations = Names::new(alloc);
    let mut rest = bytes;
    let mut number = 0u32;
    'lines: while let Some((line, after)) = next_graph_line(rest) {
        number += 1;
        let statement = match read_line(alloc, &mut operations, line) {
            Ok(statement) => statement,
            Err(LineFault::Bad) => return Err(FileFault::BadLine(number)),
            Err(LineFault::Memory) => return Err(FileFault::Memory),
        };
        keep(&mut statements, number, statement)?;
        rest = after;
    }
    statements.shrink_to_fit();
    Ok((statements, operations))
}

/// How many of a thing a statement states.
fn count_in(what: Counted, statement: &Statement) -> usize
    ensures { result ≡ count_in what statement.now }
{
    match (what, statement) {
        (Counted::Params, Statement::Params { names }) => names.as_slice().len(),
        (Counted::Graphs, Statement::Graph { .. }) => 1,
        (Counted::Scenarios, Statement::Scenario { .. }) => 1,
        _ => 0,
    }
}

/// Whether there are more of a thing than the limit.
fn is_over(statements: &[Numbered], what: Counted, limit: u32) -> bool
    ensures { MatchBool result (limit < count_of what statements.now) (count_of what statements.now ≤ limit) }
{
    let mut left = limit as usize;
    'statements: for numbered in statements {
        let count = count_in(what, &numbered.statement);
        if count > left {
            return true;
        }
        left -= count;
    }
    false
}

/// The file that a graph text spells.
///
/// # Errors
///
/// `BadLine` with the number of the first line that is outside the grammar; `Limit` where every line is good, with the
/// first count that passes its limit and that limit, for the parameters, the graphs, the scenarios and the operations
/// in this order; `Memory` where none is left.
pub fn read_file(alloc: Global, bytes: &[u8]) -> Result<File, FileFault>
    requires { length bytes.now ≤ LONG_INPUT_LIMIT }
    ensures ok { IfOk result (IsFileOf bytes.now) }
    ensures err { IfErr result (IsFileFault bytes.now) }
{
    let (statements, operations) = read_lines(alloc, bytes)?;
    if is_over(&statements, Counted::Params, PARAM_LIMIT) {
        return Err(FileFault::Limit(Counted::Params, PARAM_LIMIT));
    }
    if is_over(&statements, Counted::Graphs, GRAPH_LIMIT) {
        return Err(FileFault::Limit(Counted::Graphs, GRAPH_LIMIT));
    }
    if is_over(&statements, Counted::Scenarios, SCENARIO_LIMIT) {
        return Err(FileFault::Limit(Counted::Scenarios, SCENARIO_LIMIT));
    }
    if operations.len() > OPERATION_LIMIT {
        return Err(FileFault::Limit(Counted::Operations, OPERATION_LIMIT));
    }
    Ok(File::new(statements, operations))
}
