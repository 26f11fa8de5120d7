//! Codes of scenarios, and what is given of them.
ghost use Rattle.std.specs.Prelude.{◌≡◌, true, false, ◌<◌, ◌≤◌, ◌+◌, ◌^◌, ℕ, Option, length, IfSome, IfNone, get_or, IsTrue, None, Some};
ghost use Rattle.std.specs.List.{list_any};
ghost use Rattle.cpog_base.specs.Bits.{IsWithin};
ghost use Rattle.cpog_base.specs.Pattern.{given_at, given_entries, is_given};
ghost use Rattle.report_reader.specs.Codes.{digit_in, digits_in, entry_in, entries_in, given_in, pattern_in, split_of};
ghost use Rattle.report_reader.specs.Scenarios.{code_in};

use cpog_base::bits::with_bit;
use cpog_base::{Bit3, Pattern};
use line_rows::behind;

fn digit_of(byte: u8) -> Option<u8>
    ensures value { result ≡ digit_in byte }
    ensures small { IfSome result (λ d. d < 2) }
{
    match byte {
        b'0' => Some(0),
        b'1' => Some(1),
        _ => None,
    }
}

/// The word that so many digits spell, that of weight 1 first.
pub fn word_of(digits: &[u8], bits: u8) -> Option<u8>
    requires { bits ≤ 8 }
    ensures value { result ≡ digits_in bits digits.now }
    ensures below { IfSome result (λ w. w < 2 ^ bits) }
{
    match digits {
        [] => { if bits == 0 { Some(0) } else { None } }
        [first, rest @ ..] => {
            if bits == 0 {
                return None;
            }
            let digit = digit_of(*first)?;
            let word = word_of(rest, bits - 1)?;
            Some(digit + 2 * word)
        }
    }
}

fn entry_of(byte: u8) -> Option<Bit3>
    ensures { result ≡ entry_in byte }
{
    match byte {
        b'0' => Some(Bit3::Zero),
        b'1' => Some(Bit3::One),
        b'-' => Some(Bit3::Free),
        _ => None,
    }
}

/// The bits that are given so far, and which of them are 1.
#[derive(Clone, Copy)]
struct Given {
    mask: u64,
    value: u64,
}

fn with_entry(given: Given, i: u8, entry: Bit3) -> Given
    requires bound { i < 8 }
    requires mask { given.mask < 2 ^ i }
    requires value { given.value < 2 ^ i }
    requires within { IsWithin given.value given.mask }
    ensures mask { result.mask < 2 ^ (i + 1) }
    ensures value { result.value < 2 ^ (i + 1) }
    ensures within { IsWithin result.value result.mask }
    ensures here { given_at result.mask result.value i ≡ entry }
    ensures same { (k : ℕ) → k < i → given_at result.mask result.value k ≡ given_at given.mask given.value k }
{
    let is_given = entry != Bit3::Free;
    let is_one = entry == Bit3::One;
    let mask = with_bit(given.mask, i, is_given);
    let value = with_bit(given.value, i, is_one);
    Given { mask, value }
}

/// The entries for so many bits.
fn entries_of(entries: &[u8], bits: u8) -> Option<Given>
    requires few { bits ≤ 8 }
    requires many { length entries.now ≡ bits }
    ensures some { IfSome result (λ g. entries_in entries.now ≡ Some (given_entries bits g.mask g.value)) }
    ensures mask { IfSome result (λ g. g.mask < 2 ^ bits) }
    ensures value { IfSome result (λ g. g.value < 2 ^ bits) }
    ensures within { IfSome result (λ g. IsWithin g.value g.mask) }
    ensures none { IfNone result (entries_in entries.now ≡ None) }
{
    let mut given = Given { mask: 0, value: 0 };
    for i in 0..bits {
        let Some(entry) = entry_of(entries[usize::from(i)]) else {
            return None;
        };
        given = with_entry(given, i, entry);
    }
    Some(given)
}

/// What is given of a code by an entry for each bit, of which some is given.
#[tactic(auto, unfolding(crate::specs::Codes::pattern_in))]
fn pattern_of(entries: &[u8], bits: u8) -> Option<Pattern>
    requires { bits ≤ 8 }
    ensures { result ≡ pattern_in bits entries.now }
{
    if entries.len() != usize::from(bits) {
        return None;
    }
    let Some(given) = entries_of(entries, bits) else {
        return None;
    };
    if given.mask == 0 {
        return None;
    }
    Some(Pattern::new(bits, given.mask as u8, given.value as u8))
}

/// What is given of a code, on the text behind its digits.
pub fn given_of(text: &[u8], bits: u8) -> Option<Pattern>
    requires { bits ≤ 8 }
    ensures { result ≡ given_in bits text.now }
{
    if text.is_empty() {
        return Some(Pattern::free(bits));
    }
    match behind(text, b" ") {
        None => None,
        Some(entries) => pattern_of(entries, bits),
    }
}

/// A code, and what is given of it.
#[tactic(auto, unfolding(crate::specs::Scenarios::code_in))]
pub fn code_of(text: &[u8], bits: u8) -> Option<(u8, Pattern)>
    requires { bits ≤ 8 }
    ensures value { result ≡ code_in bits text.now }
    ensures below { IfSome result (λ x. x.0 < 2 ^ bits) }
{
    let bound = usize::from(bits);
    if text.len() < bound {
        return None;
    }
    let (digits, rest) = text.split_at(bound);
    let code = word_of(digits, bits)?;
    let given = given_of(rest, bits)?;
    Some((code, given))
}
