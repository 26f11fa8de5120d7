//! From an assignment to codes, gates and references.

ghost use Rattle.std.specs.Prelude.{◌≡◌, ◌≤◌, length, IfOk};
ghost use Rattle.clause_arena.specs.Clauses.{Satisfies, by_place};
ghost use Rattle.gate_template.specs.Templates.{template, shape_of};
ghost use Rattle.gate_template.specs.Values.{IsSolution};
ghost use Rattle.clause_arena.specs.Arenas.{literals};
ghost use Rattle.cnf_build.specs.Sizes.{IsAsked};
ghost use Rattle.cnf_build.specs.Decoded.{parts_of, value_in, IsDecoded};

use crate::building::shape_asked;
use crate::numbers::Numbers;
use crate::reading::{codes_read, gates_read, refs_read};
use cpog_base::{Memory, Pattern, TEMPLATE_LIMIT};
use cpog_merge::ClassList;
use gate_core::{GateList, Ref};
use gate_template::Template;
use std::alloc::Global;

/// A code for each scenario, gates over the bits of the codes, and a reference for each class.
#[derive(Debug, Drop)]
pub struct Decoded {
    pub codes: Vec<u8>,
    pub gates: GateList,
    pub refs: Vec<Ref>,
}

/// The codes, the gates and the references of an assignment that satisfies a template. A gate reads the first pair of
/// signals that is selected for it, and a class is taken from the first signal that is chosen for it.
///
/// # Errors
///
/// `Memory` where none is left.
pub fn decode(
    alloc: Global,
    kind: Template,
    classes: &ClassList,
    given: &[Pattern],
    bits: u8,
    gates: u32,
    assignment: &[bool],
) -> Result<Decoded, Memory>
    requires asked { IsAsked given.now bits gates classes.now.columns }
    requires size { literals (template kind given.now bits gates classes.now.columns) ≤ TEMPLATE_LIMIT }
    requires satisfies { Satisfies (by_place assignment.now) (template kind given.now bits gates classes.now.columns) }
    ensures serves { IfOk result (λ d.
        IsSolution kind given.now bits classes.now.columns (parts_of d.codes.items d.gates d.refs.items)) }
    ensures gates { IfOk result (λ d. length d.gates.gates ≡ gates) }
    ensures first { IfOk result (λ d.
        IsDecoded (value_in assignment.now (shape_of given.now bits gates classes.now.columns))
        (shape_of given.now bits gates classes.now.columns) (parts_of d.codes.items d.gates d.refs.items)) }
{
    let numbers = Numbers::new(shape_asked(classes, given, bits, gates));
    let codes = codes_read(alloc, &numbers, assignment)?;
    let list = gates_read(alloc, &numbers, assignment)?;
    let refs = refs_read(alloc, &numbers, assignment)?;
    Ok(Decoded {
        codes,
        gates: list,
        refs,
    })
}
