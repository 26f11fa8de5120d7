ghost use Rattle.std.specs.Prelude.{◌≡◌, ◌==◌, ◌∷◌, [], MatchOption, IfSome, length};
ghost use Rattle.std.specs.List.{position_or_len};
ghost use Rattle.std.specs.Prelude.{◌+◌, ◌<◌, ◌≤◌, ◌^◌, List};
ghost use Rattle.line_text.specs.Lines.{lines_of};
ghost use Rattle.line_rows.specs.Reading.{Gives, line_at, none_left, row, exactly};

use crate::fault::ReadError;
use crate::line::next_line;
use std::marker::Model;

/// The lines of a text, one after another.
#[derive(Drop)]
pub struct Cursor<'a> {
    rest: &'a [u8],
    number: u32,
}

impl<'a> Model for Cursor<'a> {
    ghost use Rattle.std.specs.Prelude.{◌+◌, ◌<◌, ◌^◌, length};
    ghost use Rattle.line_text.specs.Lines.{lines_of};
    ghost use Rattle.line_rows.specs.Position.{Position};

    ghost Value = { Position };

    ghost view = { λ c. record { lines = lines_of c.rest.now; number = c.number } };

    ghost invariant = { λ c. c.number + length c.rest.now < 2 ^ 31 };
}

impl<'a> Cursor<'a> {
    pub fn new(text: &'a [u8]) -> Self
        requires { length text.now < 2 ^ 31 }
        ensures { result ≡ record { lines = lines_of text.now; number = 0 } }
    {
        Cursor {
            rest: text,
            number: 0,
        }
    }

    /// The next line. Where none is left, it is the fault that one is missing.
    pub fn line(&mut self) -> Result<&'a [u8], ReadError>
        ensures { Gives (λ l. (l.now, self.new)) result (line_at self.old) }
    {
        match next_line(self.rest) {
            None => Err(ReadError::BadLine(self.number + 1)),
            Some((line, rest)) => {
                self.rest = rest;
                self.number += 1;
                Ok(line)
            }
        }
    }

    /// The fault that the line just read isn't its row.
    pub fn bad(&self) -> ReadError
        ensures { result ≡ ReadError.BadLine self.now.number }
    {
        ReadError::BadLine(self.number)
    }

    /// No line is left.
    pub fn ended(&mut self) -> Result<(), ReadError>
        ensures { Gives (λ u. u) result (none_left {A = Unit {0}} tt self.old.lines self.old.number) }
    {
        match next_line(self.rest) {
            None => Ok(()),
            Some(_) => Err(ReadError::BadLine(self.number + 1)),
        }
    }

    /// The next line is this one.
    pub fn exactly(&mut self, text: &[u8]) -> Result<(), ReadError>
        ensures { Gives (λ u. (u, self.new)) result (row (exactly text.now) self.old) }
    {
        let line = self.line()?;
        if line == text {
            Ok(())
        } else {
            Err(self.bad())
        }
    }
}
