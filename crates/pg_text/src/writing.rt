//! A file is written as one line for each statement, with single blanks and no parentheses but those that are needed.
ghost use Rattle.std.specs.Prelude.{◌≡◌, ◌++◌, codes, map, IfOk, OnOk};
ghost use Rattle.pg_text.specs.declared.position.Position.TheVariants as position;
ghost use Rattle.pg_text.specs.Text.{IsFileOf};
ghost use Rattle.pg_text.specs.Writing.{cond_text, expr_text, statement_text, file_text, renumbered, row_text};

use crate::file::File;
use crate::position::Position;
use crate::putting::{name_of, put, put_if, put_with, text_of_bit};
use crate::statement::Statement;
use cpog_base::{Memory, Name, Names};
use pg_algebra::{Cond, Expr};
use std::alloc::Global;

/// Puts the conditions last, each as its position wants it, with the sign between them.
#[cycle(condition)]
fn put_conditions(
    out: &mut Vec<u8>,
    conditions: &[Cond],
    position: Position,
    sign: &[u8],
) -> Result<(), Memory>
    ensures { OnOk result (out.new.items ≡ out.old.items ++ row_text sign.now (map (cond_text position) conditions.now)) }
{
    'conditions: for (i, condition) in conditions.iter().enumerate() {
        put_if(out, i > 0, sign)?;
        put_condition(out, condition, position)?;
    }
    Ok(())
}

/// Puts the condition last.
#[cycle(condition)]
fn put_condition(out: &mut Vec<u8>, condition: &Cond, position: Position) -> Result<(), Memory>
    ensures { OnOk result (out.new.items ≡ out.old.items ++ cond_text position condition.now) }
{
    match condition {
        Cond::Bit(bit) => put(out, text_of_bit(*bit)),
        Cond::Param(name) => put(out, name.as_str().as_bytes()),
        Cond::Not(negated) => {
            put(out, b"!")?;
            put_condition(out, negated.get(), Position::Factor)
        }
        Cond::And(list) => {
            put_if(out, position.encloses_product(), b"(")?;
            put_conditions(out, list.members(), Position::Factor, b" & ")?;
            put_if(out, position.encloses_product(), b")")
        }
        Cond::Or(list) => {
            put_if(out, position.encloses_sum(), b"(")?;
            put_conditions(out, list.members(), Position::Product, b" | ")?;
            put_if(out, position.encloses_sum(), b")")
        }
    }
}

/// Puts the expressions last, each as its position wants it, with the sign between them.
#[cycle(expression)]
fn put_expressions(
    out: &mut Vec<u8>,
    names: &Names,
    exprs: &[Expr],
    position: Position,
    sign: &[u8],
) -> Result<(), Memory>
    ensures { OnOk result (out.new.items ≡ out.old.items ++ row_text sign.now (map (expr_text names.now position) exprs.now)) }
{
    'expressions: for (i, expr) in exprs.iter().enumerate() {
        put_if(out, i > 0, sign)?;
        put_expression(out, names, expr, position)?;
    }
    Ok(())
}

/// Puts the expression last, its operations by their names.
#[cycle(expression)]
fn put_expression(
    out: &mut Vec<u8>,
    names: &Names,
    expr: &Expr,
    position: Position,
) -> Result<(), Memory>
    ensures { OnOk result (out.new.items ≡ out.old.items ++ expr_text names.now position expr.now) }
{
    match expr {
        Expr::Empty => put(out, b"empty"),
        Expr::Op(operation) => put(out, name_of(names, *operation).as_bytes()),
        Expr::Graph(name) => {
            put(out, b"@")?;
            put(out, name.as_str().as_bytes())
        }
        Expr::When(condition, governed) => {
            put(out, b"[")?;
            put_condition(out, condition.get(), Position::Sum)?;
            put(out, b"] ")?;
            put_expression(out, names, governed.get(), Position::Factor)
        }
        Expr::Overlay(list) => {
            put_if(out, position.encloses_sum(), b"(")?;
            put_expressions(out, names, list.members(), Position::Product, b" + ")?;
            put_if(out, position.encloses_sum(), b")")
        }
        Expr::Sequence(list) => {
            put_if(out, position.encloses_product(), b"(")?;
            put_expressions(out, names, list.members(), Position::Factor, b" -> ")?;
            put_if(out, position.encloses_product(), b")")
        }
    }
}

/// Puts the names last with commas between them.
fn put_names(out: &mut Vec<u8>, names: &[Name]) -> Result<(), Memory>
    ensures { OnOk result (out.new.items ≡ out.old.items ++ row_text (codes ", ") names.now) }
{
    'names: for (i, name) in names.iter().enumerate() {
        put_if(out, i > 0, b", ")?;
        put(out, name.as_str().as_bytes())?;
    }
    Ok(())
}

/// Puts a keyword, a name, the sign of equality and an expression last.
fn put_definition(
    out: &mut Vec<u8>,
    names: &Names,
    keyword: &[u8],
    name: &Name,
    expr: &Expr,
) -> Result<(), Memory>
    ensures { OnOk result (out.new.items ≡ out.old.items ++ (keyword.now ++ (name.now ++ (codes " = " ++ expr_text names.now position.Sum expr.now)))) }
{
    put(out, keyword)?;
    put(out, name.as_str().as_bytes())?;
    put(out, b" = ")?;
    put_expression(out, names, expr, Position::Sum)
}

/// Puts the statement last.
fn put_statement(out: &mut Vec<u8>, names: &Names, statement: &Statement) -> Result<(), Memory>
    ensures { OnOk result (out.new.items ≡ out.old.items ++ statement_text names.now statement.now) }
{
    match statement {
        Statement::Params { names } => {
            put(out, b"params ")?;
            put_names(out, names.as_slice())
        }
        Statement::Graph { name, expr } => put_definition(out, names, b"graph ", name, expr),
        Statement::Scenario {
            name,
            expr,
            bindings,
        } => {
            put_definition(out, names, b"scenario ", name, expr)?;
            put_with(out, bindings.as_slice())
        }
    }
}

/// The text of a file: a line for each statement, with single blanks and no parentheses but those that are needed.
pub fn write_file(alloc: Global, file: &File) -> Result<Vec<u8>, Memory>
    ensures text { IfOk result (λ bytes. bytes.items ≡ file_text file.now) }
    ensures read { IfOk result (λ bytes. IsFileOf bytes.items (renumbered file.now)) }
{
    let mut out = Vec::new(alloc);
    'statements: for i in 0..file.len() {
        put_statement(&mut out, file.operations(), file.statement(i))?;
        put(&mut out, b"\n")?;
    }
    Ok(out)
}
