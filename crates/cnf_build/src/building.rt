//! The clauses of a template, in order. Each loop appends what one definition says, so that the whole is the template.

ghost use Rattle.std.specs.Prelude.{◌≡◌, ◌+◌, ◌<◌, ◌≤◌, ◌++◌, ◌∷◌, [], length, IfOk, OnOk};
ghost use Rattle.std.specs.List.{All};
ghost use Rattle.gate_template.specs.Variables.{variables};
ghost use Rattle.clause_arena.specs.Arenas.{literals};
ghost use Rattle.cnf_build.specs.Sizes.{IsAsked};
ghost use Rattle.gate_template.specs.Families.{as_clauses};
ghost use Rattle.gate_template.specs.Templates.{template, shape_of, named_template, further_clauses};

use crate::classes::push_classes;
use crate::codes::push_codes;
use crate::further::{push_all_zeros, push_given, push_zeros};
use crate::gates::push_gates;
use crate::numbers::Numbers;
use crate::size::template_size;
use clause_arena::{ClauseArena, Cnf};
use cpog_base::{Column, Memory, Pattern, TEMPLATE_LIMIT};
use cpog_merge::ClassList;
use gate_template::{Shape, Template};
use std::alloc::Global;

fn push_further(
    clauses: &mut ClauseArena,
    numbers: &Numbers,
    kind: Template,
    given: &[Pattern],
) -> Result<(), Memory>
    requires some { 1 ≤ numbers.now.scenarios }
    requires one_each { length given.now ≡ numbers.now.scenarios }
    requires entries { All (λ pattern. length pattern ≡ numbers.now.bits) given.now }
    ensures { OnOk result (clauses.new.clauses ≡ clauses.old.clauses ++
        as_clauses numbers.now (further_clauses kind numbers.now given.now)) }
{
    match kind {
        Template::First => Ok(()),
        Template::Second => {
            push_all_zeros(clauses, numbers)?;
            Ok(())
        }
        Template::Third => {
            push_given(clauses, numbers, given)?;
            push_zeros(clauses, numbers, given)?;
            Ok(())
        }
    }
}

fn push_template(
    alloc: Global,
    clauses: &mut ClauseArena,
    numbers: &Numbers,
    kind: Template,
    columns: &[Column],
    given: &[Pattern],
) -> Result<(), Memory>
    requires some { 1 ≤ numbers.now.scenarios }
    requires class_each { length columns.now ≡ numbers.now.classes }
    requires columns { All (λ column. length column ≡ numbers.now.scenarios) columns.now }
    requires one_each { length given.now ≡ numbers.now.scenarios }
    requires patterns { All (λ pattern. length pattern ≡ numbers.now.bits) given.now }
    ensures { OnOk result (clauses.new.clauses ≡ clauses.old.clauses ++
        as_clauses numbers.now (named_template kind numbers.now given.now columns.now)) }
{
    push_codes(alloc, clauses, numbers)?;
    push_gates(alloc, clauses, numbers)?;
    push_classes(alloc, clauses, numbers, columns)?;
    push_further(clauses, numbers, kind, given)?;
    Ok(())
}

/// The shape of a template that is asked for.
pub(crate) fn shape_asked(classes: &ClassList, given: &[Pattern], bits: u8, gates: u32) -> Shape
    requires { length given.now ≤ 64 }
    ensures { result ≡ shape_of given.now bits gates classes.now.columns }
{
    Shape {
        scenarios: given.len() as u32,
        bits: u32::from(bits),
        gates,
        classes: classes.count(),
    }
}

/// The formula of a template (DIMACS CNF): its variables by their places from 1, and its clauses family by family. By the
/// law `template_lifts` of `gate_template` it is satisfiable exactly where the scenarios of the classes have an encoding
/// of so many bits and at most so many gates, which under `Third` keeps the given bits. Room is made for it once.
///
/// # Errors
///
/// `Memory` where none is left.
pub fn build(
    alloc: Global,
    kind: Template,
    classes: &ClassList,
    given: &[Pattern],
    bits: u8,
    gates: u32,
) -> Result<Cnf, Memory>
    requires asked { IsAsked given.now bits gates classes.now.columns }
    requires size { literals (template kind given.now bits gates classes.now.columns) ≤ TEMPLATE_LIMIT }
    ensures variables { IfOk result (λ cnf. cnf.variables ≡
        length (variables (shape_of given.now bits gates classes.now.columns))) }
    ensures clauses { IfOk result (λ cnf. cnf.clauses.clauses ≡
        template kind given.now bits gates classes.now.columns) }
{
    let size = template_size(kind, classes, given, bits, gates);
    let numbers = Numbers::new(shape_asked(classes, given, bits, gates));
    let mut clauses = ClauseArena::new(alloc);
    clauses.reserve(size.clauses as u32, size.literals as u32)?;
    push_template(
        alloc,
        &mut clauses,
        &numbers,
        kind,
        classes.columns(),
        given,
    )?;
    Ok(Cnf {
        variables: size.variables as u32,
        clauses,
    })
}
