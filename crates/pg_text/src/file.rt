ghost use Rattle.std.specs.Prelude.{◌≡◌, ◌<◌, length, slice_get};
ghost use Rattle.std.specs.List.{AllByRecursion};
ghost use Rattle.std.specs.Option.{IsSomeAnd};
ghost use Rattle.pg_text.specs.Numbers.{statement_numbers};
ghost use Rattle.pg_text.specs.Text.{IsFile};

use crate::{Numbered, Statement};
use cpog_base::Names;
use sqlite_items::Items;
use std::marker::Model;

/// The statements of a graph text with the numbers of their lines, and the names of its operations.
///
/// It is what some text says, and none of its counts passes its limit.
#[derive(Drop)]
pub struct File {
    statements: Items<Numbered>,
    operations: Names,
}

impl Model for File {
    ghost use Rattle.pg_text.specs.Contents.{Contents};
    ghost use Rattle.pg_text.specs.Stored.{contents_code};

    ghost Value = { Contents };

    ghost coded = { contents_code };

    ghost use Rattle.pg_text.specs.Text.{IsFile};

    ghost view = { λ f. record { statements = f.statements; operations = f.operations } };

    ghost invariant = { λ f. IsFile (record { statements = f.statements; operations = f.operations }) };
}

impl File {
    /// The file of these statements over these operations.
    pub(crate) fn new(statements: Vec<Numbered>, operations: Names) -> File
        requires { IsFile (record { statements = statements.items; operations = operations }) }
        ensures { result ≡ record { statements = statements.items; operations = operations } }
    {
        File {
            statements: Items::from_vec(statements),
            operations,
        }
    }

    /// How many statements there are.
    pub fn len(&self) -> u32
        ensures len { result ≡ length self.now.statements }
        ensures file { IsFile self.now }
    {
        self.statements.len() as u32
    }

    /// The statements with the numbers of their lines, in the order of the text.
    pub fn statements(&self) -> &[Numbered]
        ensures { result.now ≡ self.now.statements }
    {
        self.statements.as_slice()
    }

    /// A statement, by its place.
    pub fn statement(&self, i: u32) -> &Statement
        requires { i < length self.now.statements }
        ensures statement { IsSomeAnd (slice_get self.now.statements i) (λ s. result.now ≡ s.statement) }
        ensures numbers { AllByRecursion (λ n. n < length self.now.operations) (statement_numbers result.now) }
    {
        &self.statements.as_slice()[i as usize].statement
    }

    /// The number of a statement's line, from 1.
    pub fn line(&self, i: u32) -> u32
        requires { i < length self.now.statements }
        ensures { IsSomeAnd (slice_get self.now.statements i) (λ s. result ≡ s.line) }
    {
        self.statements.as_slice()[i as usize].line
    }

    /// Gives up the statements and hands out the names of the operations.
    pub fn into_operations(self) -> Names
        ensures { result ≡ self.operations }
    {
        let File {
            statements: _,
            operations,
        } = self;
        operations
    }

    /// The names of the operations, by their numbers.
    pub fn operations(&self) -> &Names
        ensures { result.now ≡ self.now.operations }
    {
        &self.operations
    }
}
