//! The last lines.
ghost use Rattle.std.specs.Prelude.{◌≡◌};
ghost use Rattle.line_rows.specs.Reading.{Gives};
ghost use Rattle.module_reader.specs.Modules.{last_at, ends_at};

use crate::ports::Ports;
use crate::printed::{done_line, idle_line};
use line_rows::{Cursor, ReadError};
use std::alloc::Global;

/// The line of idle, and the last.
#[tactic(auto, unfolding(crate::specs::Modules::last_at))]
pub(crate) fn last_rows(
    alloc: Global,
    cursor: &mut Cursor<'_>,
    ports: &Ports,
) -> Result<(), ReadError>
    ensures { Gives (λ u. (u, cursor.new)) result (last_at ports.now.inputs ports.now.names cursor.old) }
{
    let Ok(text) = idle_line(alloc, ports) else {
        return Err(ReadError::Memory);
    };
    cursor.exactly(text.as_bytes())?;
    cursor.exactly(b"endmodule")?;
    Ok(())
}

/// The line of done, and those behind it.
#[tactic(auto, unfolding(crate::specs::Modules::ends_at))]
pub(crate) fn ends_rows(
    alloc: Global,
    cursor: &mut Cursor<'_>,
    ports: &Ports,
) -> Result<(), ReadError>
    ensures { Gives (λ u. (u, cursor.new)) result (ends_at ports.now.inputs ports.now.names cursor.old) }
{
    let Ok(text) = done_line(alloc, ports) else {
        return Err(ReadError::Memory);
    };
    cursor.exactly(text.as_bytes())?;
    last_rows(alloc, cursor, ports)?;
    Ok(())
}
