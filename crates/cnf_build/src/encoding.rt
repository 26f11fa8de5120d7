//! From codes, gates and references to an assignment.

ghost use Rattle.std.specs.Prelude.{◌≡◌, ◌≤◌, length, IfOk};
ghost use Rattle.std.specs.List.{All};
ghost use Rattle.gate_core.specs.Columns.{IsOpenColumn};
ghost use Rattle.clause_arena.specs.Clauses.{Satisfies, by_place};
ghost use Rattle.gate_template.specs.Variables.{variables};
ghost use Rattle.gate_template.specs.Templates.{template, shape_of};
ghost use Rattle.gate_template.specs.Values.{IsSolution, HasZeros};
ghost use Rattle.clause_arena.specs.Arenas.{literals};
ghost use Rattle.cnf_build.specs.Sizes.{IsAsked};
ghost use Rattle.cnf_build.specs.Decoded.{parts_of};

use crate::building::shape_asked;
use crate::decoding::Decoded;
use crate::whole::Whole;
use crate::writing::values_in_order;
use cpog_base::{Memory, Pattern, TEMPLATE_LIMIT};
use cpog_merge::ClassList;
use gate_forms::{normalise, pad};
use gate_template::Template;
use std::alloc::Global;

/// An assignment that satisfies a template, from codes, gates and references that serve its classes. The gates are made
/// normal and as many as the template has.
///
/// # Errors
///
/// `Memory` where none is left.
pub fn encode(
    alloc: Global,
    kind: Template,
    classes: &ClassList,
    given: &[Pattern],
    gates: u32,
    decoded: &Decoded,
) -> Result<Vec<bool>, Memory>
    requires asked { IsAsked given.now decoded.now.gates.inputs gates classes.now.columns }
    requires size { literals (template kind given.now decoded.now.gates.inputs gates classes.now.columns) ≤ TEMPLATE_LIMIT }
    requires serves { IsSolution kind given.now decoded.now.gates.inputs classes.now.columns
        (parts_of decoded.now.codes.items decoded.now.gates decoded.now.refs.items) }
    requires zeros { HasZeros kind given.now decoded.now.gates.inputs decoded.now.codes.items }
    requires few { length decoded.now.gates.gates ≤ gates }
    requires open_columns { All (IsOpenColumn (length given.now)) classes.now.columns }
    ensures satisfies { IfOk result (λ values. Satisfies (by_place values.items)
        (template kind given.now decoded.now.gates.inputs gates classes.now.columns)) }
    ensures one_each { IfOk result (λ values. length values.items ≡
        length (variables (shape_of given.now decoded.now.gates.inputs gates classes.now.columns))) }
{
    let (list, refs) = normalise(alloc, &decoded.gates, &decoded.refs)?;
    // What makes it a list of gates is known once they are lent.
    let _all = list.gates();
    let full = pad(alloc, &list, gates)?;
    let shape = shape_asked(classes, given, decoded.gates.inputs(), gates);
    let codes = Vec::from_slice(alloc, &decoded.codes)?;
    let whole = Whole::new(codes, full, refs);
    let values = values_in_order(alloc, &whole, shape)?;
    Ok(values)
}
