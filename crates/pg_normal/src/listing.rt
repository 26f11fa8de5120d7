//! The forms of a file are made statement by statement, once its names are known to be in order: all parameters are
//! numbered first, and a graph is kept for the lines that follow.
ghost use Rattle.std.specs.Prelude.{◌≡◌, [], ◌∷◌, ◌++◌, IfOk, IfErr, OnOk};
ghost use Rattle.pg_normal.specs.Naming.{IsNameFault, IsScopeOf};
ghost use Rattle.pg_normal.specs.Normals.{AreNormalsOf};

use crate::binding::{binding_of, no_binding};
use crate::naming::scope_of;
use crate::{
    Kind, Known, NameFault, Normal, NormalForm, NormalList, Origin, Partial, Scope, form_of,
    with_graph,
};
use cpog_base::Memory;
use pg_text::{File, Statement};
use std::alloc::Global;

/// Puts a form last, with the parameters that its statement binds and where it comes from.
fn put_normal(
    normals: &mut Vec<Normal>,
    form: NormalForm,
    binding: Partial,
    origin: Origin,
) -> Result<(), Memory>
    ensures { OnOk result (normals.new.items ≡ normals.old.items ++ record { form = form; binding = binding; origin = origin } ∷ []) }
{
    normals.push(Normal {
        form,
        binding,
        origin,
    })?;
    Ok(())
}

/// The normal forms of the graphs and scenarios of a file whose names are in order, and the parameters that each binds.
///
/// # Errors
///
/// `Memory` where none is left.
pub fn forms_in(alloc: Global, file: &File, scope: &Scope) -> Result<NormalList, Memory>
    requires { IsScopeOf file.now scope.now }
    ensures { IfOk result (λ list. AreNormalsOf file.now list.normals) }
{
    let count = file.operations().len();
    let mut known = Known::new(alloc, scope.params.try_clone(alloc)?);
    let mut normals = Vec::new(alloc);
    'statements: for i in 0..file.len() {
        let line = file.line(i);
        match file.statement(i) {
            Statement::Params { .. } => {}
            Statement::Graph { name, expr } => {
                let (more, form) = with_graph(alloc, known, name.as_str(), expr, count)?;
                known = more;
                let origin = Origin {
                    statement: i,
                    line,
                    kind: Kind::Graph,
                };
                put_normal(&mut normals, form, no_binding(), origin)?;
            }
            Statement::Scenario { expr, bindings, .. } => {
                let form = form_of(alloc, expr, &known, count)?;
                let binding = binding_of(&known.params, bindings.as_slice());
                let origin = Origin {
                    statement: i,
                    line,
                    kind: Kind::Scenario,
                };
                put_normal(&mut normals, form, binding, origin)?;
            }
        }
    }
    Ok(NormalList::new(normals))
}

/// The normal forms of the graphs and scenarios of a file, and the parameters that each binds.
///
/// # Errors
///
/// `Duplicate`, `UnknownGraph` or `UnknownParam` with the number of the line and the name, of the first fault of names
/// in the file, by line, and within a line by place; `Memory` where none is left.
pub fn normals(alloc: Global, file: &File) -> Result<NormalList, NameFault>
    ensures ok { IfOk result (λ list. AreNormalsOf file.now list.normals) }
    ensures err { IfErr result (IsNameFault file.now) }
{
    let scope = scope_of(alloc, file)?;
    let list = forms_in(alloc, file, &scope)?;
    Ok(list)
}
