//! Which variables of a template are decided first. From which signal each class is taken decides the rest: decided
//! first, and gates before code bits, a search refutes templates with fewer numbers than by any other order that was
//! measured.

ghost use Rattle.std.specs.Prelude.{◌+◌, ◌<◌, ◌≤◌, length};
ghost use Rattle.gate_template.specs.Templates.{shape_of};
ghost use Rattle.cnf_build.specs.Placed.{IsShape};

use crate::building::shape_asked;
use crate::numbers::Numbers;
use cpog_base::{Memory, Pattern};
use cpog_merge::ClassList;
use std::alloc::Global;

/// The variables that say that class c is taken from one of these signals.
fn push_class(
    variables: &mut Vec<u32>,
    numbers: &Numbers,
    c: u32,
    first: u32,
    end: u32,
) -> Result<(), Memory>
    requires class { c < numbers.now.classes }
    requires signals { end ≤ numbers.now.bits + numbers.now.gates }
{
    for n in first..end {
        variables.push(numbers.o(c, n).var())?;
    }
    Ok(())
}

/// The same of all classes.
fn class_variables(
    alloc: Global,
    numbers: &Numbers,
    first: u32,
    end: u32,
) -> Result<Vec<u32>, Memory>
    requires { end ≤ numbers.now.bits + numbers.now.gates }
{
    let mut variables = Vec::new(alloc);
    for c in 0..numbers.shape().classes {
        push_class(&mut variables, numbers, c, first, end)?;
    }
    Ok(variables)
}

/// The variables of a template that are decided first, block by block: those that say which class is taken from a gate,
/// and then those that say which is taken from a code bit. No clause speaks of them, since any order gives a right answer.
///
/// # Errors
///
/// `Memory` where none is left.
pub fn decision_blocks(
    alloc: Global,
    classes: &ClassList,
    given: &[Pattern],
    bits: u8,
    gates: u32,
) -> Result<Vec<Vec<u32>>, Memory>
    requires few { length given.now ≤ 64 }
    requires shape { IsShape (shape_of given.now bits gates classes.now.columns) }
{
    let numbers = Numbers::new(shape_asked(classes, given, bits, gates));
    let inputs = u32::from(bits);
    let mut blocks = Vec::new(alloc);
    blocks.push(class_variables(alloc, &numbers, inputs, inputs + gates)?)?;
    blocks.push(class_variables(alloc, &numbers, 0, inputs)?)?;
    Ok(blocks)
}
