//! What the scenarios ask of one condition, one entry a scenario. Two words of bits say where the entry is One and
//! where it is Zero, so a question about a whole column is a few steps.

ghost use Rattle.std.specs.Prelude.{◌≡◌, ◌↔◌, ◌<◌, ◌≤◌, IsTrue, length, replicate, slice_get, slice_set, Some};
ghost use Rattle.std.specs.List.{list_any};
ghost use Rattle.cpog_base.specs.Column.{is_one, is_zero, Serves, Opposes, AgreesSomewhere, DiffersSomewhere};
ghost use Rattle.cpog_defs.specs.declared.types.Bit3.TheVariants.{Free};

use crate::bits::{has_bit, is_within, share_bit, with_bit};
use cpog_defs::types::{Bit3, ScenId};
use std::marker::Model;

/// One entry for each of at most 64 scenarios.
#[derive(Clone, Copy, Debug)]
pub struct Column {
    ones: u64,
    zeros: u64,
    len: u8,
}

impl Model for Column {
    ghost use Rattle.std.specs.Prelude.{List, length};
    ghost use Rattle.cpog_defs.specs.declared.types.Bit3.{Bit3};
    ghost use Rattle.cpog_base.specs.Column.{is_one, is_zero, entries, word_where, AreWords};
    ghost use Rattle.cpog_base.specs.ColumnLaws.{words_back};

    ghost Value = { List Bit3 };

    ghost view = { λ c. entries c.len c.ones c.zeros };

    ghost invariant = { λ c. AreWords c.len c.ones c.zeros };

    ghost inverse = { λ xs. record { ones = word_where is_one (length xs) xs; zeros = word_where is_zero (length xs) xs; len = length xs } };

    ghost inverse_ok = { λ c h. words_back c.len c.ones c.zeros h (λ n a b. record { ones = a; zeros = b; len = n }) };
}

impl Column {
    /// A column that asks nothing of so many scenarios.
    pub fn new(n: u8) -> Column
        requires { n ≤ 64 }
        ensures { result ≡ replicate n Free }
    {
        Column {
            ones: 0,
            zeros: 0,
            len: n,
        }
    }

    /// How many entries there are.
    pub fn len(&self) -> u8
        ensures len { result ≡ length self.now }
        ensures few { length self.now ≤ 64 }
    {
        self.len
    }

    /// What is asked at a scenario.
    pub fn get(&self, s: ScenId) -> Bit3
        requires { s.0 < length self.now }
        ensures { slice_get self.now s.0 ≡ Some result }
    {
        if has_bit(self.ones, s.0) {
            Bit3::One
        } else if has_bit(self.zeros, s.0) {
            Bit3::Zero
        } else {
            Bit3::Free
        }
    }

    /// Asks this at a scenario.
    pub fn set(&mut self, s: ScenId, b: Bit3)
        requires { s.0 < length self.old }
        ensures { self.new ≡ slice_set self.old s.0 b }
    {
        self.ones = with_bit(self.ones, s.0, b == Bit3::One);
        self.zeros = with_bit(self.zeros, s.0, b == Bit3::Zero);
    }

    /// Whether 1 is asked at some scenario.
    pub fn has_one(&self) -> bool
        ensures { result ≡ list_any is_one self.now }
    {
        self.ones != 0
    }

    /// Whether 0 is asked at some scenario.
    pub fn has_zero(&self) -> bool
        ensures { result ≡ list_any is_zero self.now }
    {
        self.zeros != 0
    }

    /// Whether whatever meets this column meets the other: wherever the other asks for a bit, this asks for the same.
    pub fn serves(&self, other: &Column) -> bool
        ensures { IsTrue result ↔ Serves self.now other.now }
    {
        is_within(other.ones, self.ones) & is_within(other.zeros, self.zeros)
    }

    /// Whether the complement of whatever meets this column meets the other: wherever the other asks for a bit, this
    /// asks for the opposite.
    pub fn opposes(&self, other: &Column) -> bool
        ensures { IsTrue result ↔ Opposes self.now other.now }
    {
        is_within(other.ones, self.zeros) & is_within(other.zeros, self.ones)
    }

    /// Whether both columns ask for a bit, and for the same one, at some scenario. Two columns that agree somewhere and
    /// differ somewhere are incompatible: no one signal, nor its complement, meets both.
    pub fn agrees_somewhere(&self, other: &Column) -> bool
        ensures { IsTrue result ↔ AgreesSomewhere self.now other.now }
    {
        share_bit(self.ones, other.ones) | share_bit(self.zeros, other.zeros)
    }

    /// Whether both columns ask for a bit, and for opposite ones, at some scenario.
    pub fn differs_somewhere(&self, other: &Column) -> bool
        ensures { IsTrue result ↔ DiffersSomewhere self.now other.now }
    {
        share_bit(self.ones, other.zeros) | share_bit(self.zeros, other.ones)
    }
}
