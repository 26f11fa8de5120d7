//! The header and the two lines behind it.
ghost use Rattle.std.specs.Prelude.{◌≡◌, ◌≤◌, IfOk};
ghost use Rattle.std.specs.Option.{option_map};
ghost use Rattle.line_rows.specs.Reading.{Gives, row};
ghost use Rattle.module_reader.specs.Modules.{IsPorts, header_in, ports_at};
ghost use Rattle.module_reader.specs.Modules as modules;
ghost use Rattle.module_reader.specs.Values.{ports_value};

use crate::lists::{items_of, names_of};
use crate::printed::{header_end, inputs_line, outputs_line};
use cpog_base::{Memory, Names};
use line_rows::{Cursor, ReadError, behind};
use std::alloc::Global;

/// How many inputs the gates of a module have, and the names of its operations.
#[derive(Drop)]
pub struct Ports {
    pub inputs: u8,
    pub names: Names,
}

/// The ports, where the header goes on as their outputs say.
fn header_from(
    alloc: Global,
    inputs: u32,
    names: Names,
    rest: &[u8],
) -> Result<Option<Ports>, Memory>
    requires { inputs ≤ 8 }
    ensures { IfOk result (λ o. option_map ports_value o ≡ modules.header_from inputs (names, rest.now)) }
{
    if inputs == 0 {
        return Ok(None);
    }
    let end = header_end(alloc, &names)?;
    if rest != end.as_bytes() {
        return Ok(None);
    }
    Ok(Some(Ports {
        inputs: inputs as u8,
        names,
    }))
}

/// The ports, where so many inputs were read.
fn header_names(alloc: Global, inputs: u32, rest: &[u8]) -> Result<Option<Ports>, Memory>
    requires { inputs ≤ 8 }
    ensures { IfOk result (λ o. option_map ports_value o ≡ modules.header_names (inputs, rest.now)) }
{
    let Some(rest) = behind(rest, b", go") else {
        return Ok(None);
    };
    let (names, rest) = names_of(alloc, rest)?;
    header_from(alloc, inputs, names, rest)
}

/// What the header says.
#[tactic(auto, unfolding(crate::specs::Modules::header_in))]
fn header_of(alloc: Global, line: &[u8]) -> Result<Option<Ports>, Memory>
    ensures { IfOk result (λ o. option_map ports_value o ≡ header_in line.now) }
{
    let Some(rest) = behind(line, b"module cpog(") else {
        return Ok(None);
    };
    let (inputs, rest) = items_of(alloc, "x", 8, rest)?;
    header_names(alloc, inputs, rest)
}

fn header_row(alloc: Global, cursor: &mut Cursor<'_>) -> Result<Ports, ReadError>
    ensures read { Gives (λ p. (ports_value p, cursor.new)) result (row header_in cursor.old) }
    ensures ports { IfOk result (λ p. IsPorts (ports_value p)) }
{
    let line = cursor.line()?;
    let Ok(found) = header_of(alloc, line) else {
        return Err(ReadError::Memory);
    };
    let Some(ports) = found else {
        return Err(cursor.bad());
    };
    Ok(ports)
}

/// The three lines of the ports.
#[tactic(auto, unfolding(crate::specs::Modules::ports_at))]
pub(crate) fn ports_rows(alloc: Global, cursor: &mut Cursor<'_>) -> Result<Ports, ReadError>
    ensures read { Gives (λ p. (ports_value p, cursor.new)) result (ports_at cursor.old) }
    ensures ports { IfOk result (λ p. IsPorts (ports_value p)) }
{
    let ports = header_row(alloc, cursor)?;
    let Ok(text) = inputs_line(alloc, &ports) else {
        return Err(ReadError::Memory);
    };
    cursor.exactly(text.as_bytes())?;
    let Ok(text) = outputs_line(alloc, &ports) else {
        return Err(ReadError::Memory);
    };
    cursor.exactly(text.as_bytes())?;
    Ok(ports)
}
