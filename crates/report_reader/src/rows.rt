ghost use Rattle.std.specs.Prelude.{◌≡◌, ◌<◌, ◌^◌, length, IfOk, Ok};
ghost use Rattle.line_text.specs.Lines.{lines_of};
ghost use Rattle.line_rows.specs.Reading.{Gives, whole};
ghost use Rattle.line_rows.specs.FirstBad.{BadIsFirst};
ghost use Rattle.report_reader.specs.Heads.{HeadValue, value_of, head_at, IsHead, lines_of_head};

use crate::head::{bits_of, budget_of};
use crate::names::operations_of;
use cpog_base::Names;
use line_rows::{Cursor, ReadError};
use std::alloc::Global;

/// What the head of a report says.
#[derive(Drop)]
pub struct Head {
    pub bits: u8,
    pub budget: u32,
    pub names: Names,
}

/// The head of a report.
#[tactic(auto, unfolding(crate::specs::Heads::head_at))]
pub fn head_of(alloc: Global, cursor: &mut Cursor<'_>) -> Result<Head, ReadError>
    ensures { Gives (λ h. (value_of h, cursor.new)) result (head_at cursor.old) }
{
    cursor.exactly(b"cpog report 1")?;
    let line = cursor.line()?;
    let Some(bits) = bits_of(line) else {
        return Err(cursor.bad());
    };
    let line = cursor.line()?;
    let Some(budget) = budget_of(line) else {
        return Err(cursor.bad());
    };
    let line = cursor.line()?;
    let Ok(found) = operations_of(alloc, line) else {
        return Err(ReadError::Memory);
    };
    let Some(names) = found else {
        return Err(cursor.bad());
    };
    Ok(Head {
        bits,
        budget,
        names,
    })
}

fn all(alloc: Global, text: &[u8]) -> Result<Head, ReadError>
    requires { length text.now < 2 ^ 30 }
    ensures { Gives value_of result (whole head_at (lines_of text.now)) }
{
    let mut cursor = Cursor::new(text);
    let head = head_of(alloc, &mut cursor)?;
    cursor.ended()?;
    Ok(head)
}

/// The head that the text spells.
pub fn read_head(alloc: Global, text: &[u8]) -> Result<Head, ReadError>
    requires { length text.now < 2 ^ 30 }
    ensures found { IfOk result (λ h. IsHead (value_of h) × (lines_of text.now ≡ lines_of_head (value_of h))) }
    ensures only { (v : HeadValue) → IsHead v → lines_of text.now ≡ lines_of_head v → Gives value_of result (Ok v) }
    ensures bad { BadIsFirst IsHead lines_of_head (lines_of text.now) result }
{
    all(alloc, text)
}
