//! The given bits of patterns, read one by one. A pattern tells only whether a word has its given bits, so what it asks
//! of a bit is told by the words that have them: whether some have a 0 there, and whether some have a 1.

ghost use Rattle.std.specs.Prelude.{◌≡◌, ◌↔◌, ◌<◌, IsTrue, length};
ghost use Rattle.std.specs.List.{All};
ghost use Rattle.cpog_defs.specs.Codes.{bit};
ghost use Rattle.cpog_defs.specs.Entries.{entry_at};
ghost use Rattle.cpog_base.specs.Pattern.{is_given, HasGivenBits};
ghost use Rattle.gate_template.specs.Families.{gives};
ghost use Rattle.cnf_build.specs.Given.{allows};

use cpog_base::bits::has_bit;
use cpog_base::{Bit3, Pattern};

/// Whether a word has the given bits, and this value at bit i.
fn is_example(pattern: &Pattern, i: u8, value: bool, word: u8) -> bool
    ensures { IsTrue result ↔ ((bit word i ≡ value) × HasGivenBits pattern.now word) }
{
    has_bit(u64::from(word), i) == value && pattern.agrees(word)
}

/// Whether some word with the given bits has this value at bit i.
fn allows_at(pattern: &Pattern, i: u8, value: bool) -> bool
    requires { i < length pattern.now }
    ensures { result ≡ allows value (entry_at pattern.now i) }
{
    // That a pattern has few bits is known once they are counted.
    let _bits = pattern.len();
    for word in 0..256u16 {
        if is_example(pattern, i, value, word as u8) {
            return true;
        }
    }
    false
}

/// What a pattern asks of bit i.
pub(crate) fn given_at(pattern: &Pattern, i: u8) -> Bit3
    requires { i < length pattern.now }
    ensures { result ≡ entry_at pattern.now i }
{
    match (allows_at(pattern, i, false), allows_at(pattern, i, true)) {
        (true, false) => Bit3::Zero,
        (false, _) => Bit3::One,
        (true, true) => Bit3::Free,
    }
}

/// Whether an entry gives a bit.
pub(crate) fn is_defined(entry: Bit3) -> bool
    ensures { result ≡ is_given entry }
{
    entry != Bit3::Free
}

/// Whether some pattern gives bit i.
pub(crate) fn is_given_by_some(patterns: &[Pattern], i: u8) -> bool
    requires { All (λ pattern. i < length pattern) patterns.now }
    ensures { result ≡ gives patterns.now i }
{
    for k in 0..patterns.len() {
        if is_defined(given_at(&patterns[k], i)) {
            return true;
        }
    }
    false
}
