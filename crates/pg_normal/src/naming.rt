//! Names are checked line by line, and within a line as they are written: what a line uses is looked up among the names
//! of the lines before, and what it defines must be new.
ghost use Rattle.std.specs.Prelude.{◌≡◌, ◌++◌, ◌∷◌, [], IfErr, IfOk, OnOk};
ghost use Rattle.std.specs.List.{flat_map};
ghost use Rattle.cpog_base.specs.Names.{has_text, with_text};
ghost use Rattle.pg_algebra.specs.Conditions.{params_of};
ghost use Rattle.pg_normal.specs.declared.naming.NameFault.TheVariants as fault;
ghost use Rattle.pg_normal.specs.Naming.{again, all_again, unknown_param, unknown_graph, expr_faults, binding_faults, statement_faults, scope_after, IsFirst, IsNameFault, IsScopeOf};
ghost use Rattle.pg_normal.specs.Denoting.{scenario_names_of};

use crate::Scope;
use cpog_base::{Memory, Name, Names};
use pg_algebra::{Cond, Expr};
use pg_text::{File, Statement};
use std::alloc::{AllocFailed, Global};

/// Why the names of a file are not in order.
#[derive(Debug, Drop)]
pub enum NameFault {
    /// A parameter, graph or scenario that is defined already, or a parameter that the statement binds already.
    Duplicate { line: u32, name: Name },
    /// A graph that no earlier line defines.
    UnknownGraph { line: u32, name: Name },
    /// A parameter that no earlier line defines.
    UnknownParam { line: u32, name: Name },
    /// No memory was left.
    Memory,
}

impl<T: Drop> From<AllocFailed<T>> for NameFault {
    ghost from_gives = { λ _ e. e ≡ fault.Memory };

    fn from(_error: AllocFailed<T>) -> NameFault {
        NameFault::Memory
    }
}

impl From<Memory> for NameFault {
    ghost from_gives = { λ _ e. e ≡ fault.Memory };

    fn from(_error: Memory) -> NameFault {
        NameFault::Memory
    }
}

/// Whether the name is there.
fn has(names: &Names, name: &str) -> bool
    ensures { result ≡ has_text names.now name.now }
{
    names.find(name).is_some()
}

/// Tells a parameter that is not known.
fn check_param(alloc: Global, line: u32, params: &Names, name: &Name) -> Result<(), NameFault>
    ensures ok { OnOk result (unknown_param line params.now name.now ≡ []) }
    ensures err { IfErr result (IsFirst (unknown_param line params.now name.now)) }
{
    if has(params, name.as_str()) {
        return Ok(());
    }
    let name = Name::new(alloc, name.as_str())?;
    Err(NameFault::UnknownParam { line, name })
}

/// Tells a graph that is not known.
fn check_graph(alloc: Global, line: u32, graphs: &Names, name: &Name) -> Result<(), NameFault>
    ensures ok { OnOk result (unknown_graph line graphs.now name.now ≡ []) }
    ensures err { IfErr result (IsFirst (unknown_graph line graphs.now name.now)) }
{
    if has(graphs, name.as_str()) {
        return Ok(());
    }
    let name = Name::new(alloc, name.as_str())?;
    Err(NameFault::UnknownGraph { line, name })
}

/// Tells a name that is there already.
fn check_new(alloc: Global, line: u32, names: &Names, name: &Name) -> Result<(), NameFault>
    ensures ok { OnOk result (again line names.now name.now ≡ []) }
    ensures err { IfErr result (IsFirst (again line names.now name.now)) }
{
    if !has(names, name.as_str()) {
        return Ok(());
    }
    let name = Name::new(alloc, name.as_str())?;
    Err(NameFault::Duplicate { line, name })
}

/// Puts a name last, where it is new.
fn put(names: &mut Names, name: &Name) -> Result<(), Memory>
    ensures { OnOk result (names.new ≡ with_text names.old name.now) }
{
    if names.len() == u32::MAX {
        return Err(Memory);
    }
    names.insert(name.as_str())?;
    Ok(())
}

/// Puts a name last, or tells that it is there already.
fn define(alloc: Global, line: u32, names: &mut Names, name: &Name) -> Result<(), NameFault>
    ensures ok { OnOk result (again line names.old name.now ≡ []) }
    ensures names { OnOk result (names.new ≡ names.old ++ name.now ∷ []) }
    ensures err { IfErr result (IsFirst (again line names.old name.now)) }
{
    check_new(alloc, line, names, name)?;
    put(names, name)?;
    Ok(())
}

/// Tells the first parameter of a condition that is not known.
#[cycle(condition)]
fn check_condition(alloc: Global, line: u32, params: &Names, cond: &Cond) -> Result<(), NameFault>
    ensures ok { OnOk result (flat_map (unknown_param line params.now) (params_of cond.now) ≡ []) }
    ensures err { IfErr result (IsFirst (flat_map (unknown_param line params.now) (params_of cond.now))) }
{
    match cond {
        Cond::Bit(_) => Ok(()),
        Cond::Param(name) => check_param(alloc, line, params, name),
        Cond::Not(inner) => check_condition(alloc, line, params, inner.get()),
        Cond::And(list) | Cond::Or(list) => check_conditions(alloc, line, params, list.members()),
    }
}

/// Tells the first parameter of conditions that is not known.
#[cycle(condition)]
fn check_conditions(
    alloc: Global,
    line: u32,
    params: &Names,
    members: &[Cond],
) -> Result<(), NameFault>
    ensures ok { OnOk result (flat_map (unknown_param line params.now) (flat_map params_of members.now) ≡ []) }
    ensures err { IfErr result (IsFirst (flat_map (unknown_param line params.now) (flat_map params_of members.now))) }
{
    'members: for member in members {
        check_condition(alloc, line, params, member)?;
    }
    Ok(())
}

/// Tells the first use in an expression that is not known.
#[cycle(expression)]
fn check_expression(alloc: Global, line: u32, scope: &Scope, expr: &Expr) -> Result<(), NameFault>
    ensures ok { OnOk result (expr_faults line scope.now expr.now ≡ []) }
    ensures err { IfErr result (IsFirst (expr_faults line scope.now expr.now)) }
{
    match expr {
        Expr::Empty => Ok(()),
        Expr::Op(_) => Ok(()),
        Expr::Graph(name) => check_graph(alloc, line, &scope.graphs, name),
        Expr::When(cond, inner) => {
            check_condition(alloc, line, &scope.params, cond.get())?;
            check_expression(alloc, line, scope, inner.get())
        }
        Expr::Overlay(list) | Expr::Sequence(list) => {
            check_expressions(alloc, line, scope, list.members())
        }
    }
}

/// Tells the first use in expressions that is not known.
#[cycle(expression)]
fn check_expressions(
    alloc: Global,
    line: u32,
    scope: &Scope,
    members: &[Expr],
) -> Result<(), NameFault>
    ensures ok { OnOk result (flat_map (expr_faults line scope.now) members.now ≡ []) }
    ensures err { IfErr result (IsFirst (flat_map (expr_faults line scope.now) members.now)) }
{
    'members: for member in members {
        check_expression(alloc, line, scope, member)?;
    }
    Ok(())
}

/// Puts names last, or tells the first that is there already.
fn define_all(alloc: Global, line: u32, names: &mut Names, more: &[Name]) -> Result<(), NameFault>
    ensures ok { OnOk result (all_again line names.old more.now ≡ []) }
    ensures names { OnOk result (names.new ≡ names.old ++ more.now) }
    ensures err { IfErr result (IsFirst (all_again line names.old more.now)) }
{
    'names: for name in more {
        define(alloc, line, names, name)?;
    }
    Ok(())
}

/// Tells the first binding of a parameter that is not known or that is bound in front.
fn check_bindings(
    alloc: Global,
    line: u32,
    params: &Names,
    bindings: &[(Name, bool)],
) -> Result<(), NameFault>
    ensures ok { OnOk result (binding_faults line params.now [] bindings.now ≡ []) }
    ensures err { IfErr result (IsFirst (binding_faults line params.now [] bindings.now)) }
{
    let mut bound = Names::new(alloc);
    'bindings: for (name, _) in bindings {
        check_param(alloc, line, params, name)?;
        define(alloc, line, &mut bound, name)?;
    }
    Ok(())
}

/// Takes up what a statement defines, or tells its first fault.
fn enter(
    alloc: Global,
    line: u32,
    scope: &mut Scope,
    statement: &Statement,
) -> Result<(), NameFault>
    ensures ok { OnOk result (statement_faults line scope.old statement.now ≡ []) }
    ensures scope { OnOk result (scope.new ≡ scope_after scope.old statement.now) }
    ensures err { IfErr result (IsFirst (statement_faults line scope.old statement.now)) }
{
    match statement {
        Statement::Params { names } => {
            define_all(alloc, line, &mut scope.params, names.as_slice())
        }
        Statement::Graph { name, expr } => {
            check_new(alloc, line, &scope.graphs, name)?;
            check_expression(alloc, line, scope, expr)?;
            put(&mut scope.graphs, name)?;
            Ok(())
        }
        Statement::Scenario {
            name,
            expr,
            bindings,
        } => {
            define(alloc, line, &mut scope.scenarios, name)?;
            check_expression(alloc, line, scope, expr)?;
            check_bindings(alloc, line, &scope.params, bindings.as_slice())
        }
    }
}

/// The names that a file defines.
///
/// # Errors
///
/// `Duplicate`, `UnknownGraph` or `UnknownParam` with the number of the line and the name, of the first fault of names
/// in the file, by line, and within a line by place; `Memory` where none is left.
pub fn scope_of(alloc: Global, file: &File) -> Result<Scope, NameFault>
    ensures ok { IfOk result (IsScopeOf file.now) }
    ensures scenarios { IfOk result (λ scope. scope.scenarios ≡ scenario_names_of file.now) }
    ensures err { IfErr result (IsNameFault file.now) }
{
    let mut scope = Scope {
        params: Names::new(alloc),
        graphs: Names::new(alloc),
        scenarios: Names::new(alloc),
    };
    'statements: for numbered in file.statements() {
        enter(alloc, numbered.line, &mut scope, &numbered.statement)?;
    }
    Ok(scope)
}
