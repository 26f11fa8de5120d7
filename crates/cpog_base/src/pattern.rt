//! What is asked of the code of one scenario.
ghost use Rattle.std.specs.Prelude.{◌≡◌, ◌↔◌, ◌≤◌, IsTrue, length, replicate};
ghost use Rattle.cpog_base.specs.Pattern.{HasGivenBits, IsGiven, given_entries};
ghost use Rattle.cpog_defs.specs.declared.types.Bit3.TheVariants.{Free};

use crate::limits::BIT_LIMIT;
use std::marker::Model;

/// The given bits of a code: one entry for each bit, that of weight 1 first.
#[derive(Clone, Copy, Debug)]
pub struct Pattern {
    len: u8,
    // The bits that are given, and which of them are 1.
    mask: u8,
    value: u8,
}

impl Model for Pattern {
    ghost use Rattle.std.specs.Prelude.{List, length};
    ghost use Rattle.cpog_defs.specs.declared.types.Bit3.{Bit3};
    ghost use Rattle.cpog_base.specs.Column.{is_one, word_where};
    ghost use Rattle.cpog_base.specs.Pattern.{given_entries, is_given, IsGiven};
    ghost use Rattle.cpog_base.specs.PatternLaws.{given_back};

    ghost Value = { List Bit3 };

    ghost view = { λ p. given_entries p.len p.mask p.value };

    ghost invariant = { λ p. IsGiven p.len p.mask p.value };

    ghost inverse = { λ xs. record { len = length xs; mask = word_where is_given (length xs) xs; value = word_where is_one (length xs) xs } };

    ghost inverse_ok = { λ p h. given_back p.len p.mask p.value h (λ n m v. record { len = n; mask = m; value = v }) };
}

impl Pattern {
    /// No bit is given.
    pub fn free(length: u8) -> Pattern
        requires { length ≤ BIT_LIMIT }
        ensures { result ≡ replicate length Free }
    {
        Pattern {
            len: length,
            mask: 0,
            value: 0,
        }
    }

    /// The bits of the mask are given, each as it is in the value.
    pub fn new(length: u8, mask: u8, value: u8) -> Pattern
        requires { IsGiven length mask value }
        ensures { result ≡ given_entries length mask value }
    {
        Pattern {
            len: length,
            mask,
            value,
        }
    }

    /// How many bits a code has.
    pub fn len(&self) -> u8
        ensures len { result ≡ length self.now }
        ensures few { length self.now ≤ BIT_LIMIT }
    {
        self.len
    }

    /// Whether a word has the given bits.
    pub fn agrees(&self, word: u8) -> bool
        ensures { IsTrue result ↔ HasGivenBits self.now word }
    {
        word & self.mask == self.value
    }
}
