//! The given bits of a pattern. A pattern tells only whether a word has its given bits, so what it asks of a bit is told
//! by the words that have them: whether some have a 0 there, and whether some have a 1.
ghost use Rattle.std.specs.Prelude.{◌≡◌, ◌↔◌, ◌∷◌, [], ◌<◌, IsTrue, length, OnOk};
ghost use Rattle.std.specs.List.{list_any};
ghost use Rattle.cpog_defs.specs.Codes.{bit};
ghost use Rattle.cpog_defs.specs.Entries.{entry_at};
ghost use Rattle.cpog_base.specs.Pattern.{is_given, HasGivenBits};
ghost use Rattle.cnf_build.specs.Given.{allows};
ghost use Rattle.netlist_verilog.specs.Writes.{Writes};
ghost use Rattle.report_text.specs.Rows.{entry_digit, given_text};

use cpog_base::bits::has_bit;
use cpog_base::{Bit3, Pattern};
use std::alloc::AllocError;

/// Whether a word has the given bits, and this value at bit i.
fn is_example(pattern: &Pattern, i: u8, value: bool, word: u8) -> bool
    ensures { IsTrue result ↔ ((bit word i ≡ value) × HasGivenBits pattern.now word) }
{
    has_bit(u64::from(word), i) == value && pattern.agrees(word)
}

/// Whether some word with the given bits has this value at bit i.
fn allows_at(pattern: &Pattern, i: u8, value: bool) -> bool
    requires { i < length pattern.now }
    ensures { result ≡ allows value (entry_at pattern.now i) }
{
    // That a pattern has few bits is known once they are counted.
    let _bits = pattern.len();
    for word in 0..256u16 {
        if is_example(pattern, i, value, word as u8) {
            return true;
        }
    }
    false
}

/// What a pattern asks of bit i.
fn given_at(pattern: &Pattern, i: u8) -> Bit3
    requires { i < length pattern.now }
    ensures { result ≡ entry_at pattern.now i }
{
    match (allows_at(pattern, i, false), allows_at(pattern, i, true)) {
        (true, false) => Bit3::Zero,
        (false, _) => Bit3::One,
        (true, true) => Bit3::Free,
    }
}

fn is_defined(entry: Bit3) -> bool
    ensures { result ≡ is_given entry }
{
    entry != Bit3::Free
}

/// Whether a bit is given.
fn gives_some(pattern: &Pattern) -> bool
    ensures { result ≡ list_any is_given pattern.now }
{
    'bits: for i in 0..pattern.len() {
        if is_defined(given_at(pattern, i)) {
            return true;
        }
    }
    false
}

fn entry_text(entry: Bit3) -> &'static str
    ensures { result.now ≡ entry_digit entry ∷ [] }
{
    match entry {
        Bit3::Zero => "0",
        Bit3::One => "1",
        Bit3::Free => "-",
    }
}

/// Writes what is asked of each bit behind a blank, and nothing where no bit is given.
pub(crate) fn put_given(out: &mut String, pattern: &Pattern) -> Result<(), AllocError>
    ensures { OnOk result (Writes out.old out.new (given_text pattern.now)) }
{
    if !gives_some(pattern) {
        return Ok(());
    }
    out.push_str(" ")?;
    'bits: for i in 0..pattern.len() {
        out.push_str(entry_text(given_at(pattern, i)))?;
    }
    Ok(())
}
