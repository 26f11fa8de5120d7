//! The forms of a file are written a line for each graph and scenario, behind the line of the parameters.
ghost use Rattle.std.specs.Prelude.{◌≡◌, ◌++◌, codes, IfOk, OnOk};
ghost use Rattle.line_text.specs.Lines.{text_of};
ghost use Rattle.pg_text.specs.Writing.{row_text};
ghost use Rattle.pg_normal.specs.Listing.{params_lines, definition_text, form_lines, normal_text};
ghost use Rattle.pg_normal.specs.Naming.{IsScopeOf};
ghost use Rattle.pg_normal.specs.Normals.{AreNormalsOf};
ghost use Rattle.pg_normal.specs.Writing.{form_text};

use crate::naming::scope_of;
use crate::writing::put_form;
use crate::{NormalForm, NormalList, Scope};
use cpog_base::{Memory, Name, Names};
use pg_text::{File, Statement, name_of, put, put_if, put_with};
use std::alloc::Global;

/// Puts names last with commas between them.
fn put_names(out: &mut Vec<u8>, names: &Names) -> Result<(), Memory>
    ensures { OnOk result (out.new.items ≡ out.old.items ++ row_text (codes ", ") names.now) }
{
    'names: for i in 0..names.len() {
        put_if(out, i > 0, b", ")?;
        put(out, name_of(names, i).as_bytes())?;
    }
    Ok(())
}

/// Puts the line of the parameters last, where there is one.
fn put_params(out: &mut Vec<u8>, params: &Names) -> Result<(), Memory>
    ensures { OnOk result (out.new.items ≡ out.old.items ++ text_of (params_lines params.now)) }
{
    if params.len() == 0 {
        return Ok(());
    }
    put(out, b"params ")?;
    put_names(out, params)?;
    put(out, b"\n")
}

/// Puts a keyword, a name, the sign of equality and a form last.
fn put_definition(
    alloc: Global,
    out: &mut Vec<u8>,
    keyword: &[u8],
    name: &Name,
    form: &NormalForm,
    names: &Names,
    params: &Names,
) -> Result<(), Memory>
    ensures { OnOk result (out.new.items ≡ out.old.items ++ definition_text keyword.now name.now (form_text form.now names.now params.now)) }
{
    put(out, keyword)?;
    put(out, name.as_str().as_bytes())?;
    put(out, b" = ")?;
    put_form(alloc, out, form, names, params)
}

/// Puts the line of a form last, which its statement begins.
fn put_line(
    alloc: Global,
    out: &mut Vec<u8>,
    statement: &Statement,
    form: &NormalForm,
    names: &Names,
    params: &Names,
) -> Result<(), Memory>
    ensures { OnOk result (out.new.items ≡ out.old.items ++ text_of (form_lines names.now params.now statement.now form.now)) }
{
    match statement {
        Statement::Params { .. } => Ok(()),
        Statement::Graph { name, .. } => {
            put_definition(alloc, out, b"graph ", name, form, names, params)?;
            put(out, b"\n")
        }
        Statement::Scenario { name, bindings, .. } => {
            put_definition(alloc, out, b"scenario ", name, form, names, params)?;
            put_with(out, bindings.as_slice())?;
            put(out, b"\n")
        }
    }
}

/// The text of the forms of a file: the line of its parameters, and the line of each graph and scenario with its form.
///
/// # Errors
///
/// `Memory` where none is left.
pub fn write_forms(
    alloc: Global,
    file: &File,
    scope: &Scope,
    normals: &NormalList,
) -> Result<Vec<u8>, Memory>
    requires scope { IsScopeOf file.now scope.now }
    requires forms { AreNormalsOf file.now normals.now.normals }
    ensures { IfOk result (λ text. text.items ≡ normal_text file.now normals.now.normals) }
{
    let names = file.operations();
    let mut out = Vec::new(alloc);
    put_params(&mut out, &scope.params)?;
    'forms: for normal in normals.as_slice() {
        let statement = file.statement(normal.origin.statement);
        put_line(
            alloc,
            &mut out,
            statement,
            &normal.form,
            names,
            &scope.params,
        )?;
    }
    Ok(out)
}

/// The text of the forms of a file: the line of its parameters, and the line of each graph and scenario with its form.
///
/// # Errors
///
/// `Memory` where none is left.
pub fn write_normal(alloc: Global, file: &File, normals: &NormalList) -> Result<Vec<u8>, Memory>
    requires { AreNormalsOf file.now normals.now.normals }
    ensures { IfOk result (λ text. text.items ≡ normal_text file.now normals.now.normals) }
{
    match scope_of(alloc, file) {
        Ok(scope) => write_forms(alloc, file, &scope, normals),
        // Where names are in order only memory can be wanting.
        Err(_) => Err(Memory),
    }
}
