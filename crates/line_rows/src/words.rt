ghost use Rattle.std.specs.Prelude.{◌≡◌, IfSome, ◌<◌, ◌≤◌, ◌^◌, ◌+◌, ◌*◌, length};
ghost use Rattle.std.specs.Fmt.{decimal};
ghost use Rattle.std.specs.Option.{option_copied, option_map};
ghost use Rattle.line_rows.specs.Words.{Recovers, number_in, behind, before, word_at};
ghost use Rattle.line_rows.specs.Words as words;

use line_text::first_place;

/// The number below the bound that the word spells, without a leading zero.
pub fn number_of(word: &[u8], bound: u64) -> Option<u64>
    ensures value { result ≡ number_in bound word.now }
    ensures below { IfSome result (λ n. n < bound) }
{
    number_by_digits(word, bound)
}

fn number_by_digits(word: &[u8], bound: u64) -> Option<u64>
    ensures { Recovers (λ n. n) (λ n. n < bound) decimal word.now result }
{
    if word.is_empty() {
        return None;
    }
    if word[0] == b'0' {
        return if word.len() == 1 && bound > 0 {
            Some(0)
        } else {
            None
        };
    }
    let mut n = 0u64;
    for b in word {
        if !b.is_ascii_digit() {
            return None;
        }
        let digit = u64::from(*b - b'0');
        if n > (u64::MAX - digit) / 10 {
            return None;
        }
        n = n * 10 + digit;
    }
    if n < bound { Some(n) } else { None }
}

/// What follows this front.
#[tactic(auto, unfolding(crate::specs::Words::behind))]
pub fn behind<'a>(bytes: &'a [u8], front: &[u8]) -> Option<&'a [u8]>
    ensures { option_copied result ≡ behind front.now bytes.now }
{
    if bytes.len() >= front.len() && &bytes[..front.len()] == front {
        Some(&bytes[front.len()..])
    } else {
        None
    }
}

/// What stands before this end.
#[tactic(auto, unfolding(crate::specs::Words::before))]
pub fn before<'a>(bytes: &'a [u8], end: &[u8]) -> Option<&'a [u8]>
    ensures { option_copied result ≡ before end.now bytes.now }
{
    if bytes.len() >= end.len() && &bytes[bytes.len() - end.len()..] == end {
        Some(&bytes[..bytes.len() - end.len()])
    } else {
        None
    }
}

/// The first word, and what follows its blank.
#[tactic(auto, unfolding(crate::specs::Words::word_at))]
pub fn word_at(bytes: &[u8]) -> Option<(&[u8], &[u8])>
    ensures { option_map (λ x. (x.0.now, x.1.now)) result ≡ word_at bytes.now }
{
    let end = first_place(bytes, b' ');
    if end < bytes.len() {
        Some((&bytes[..end], &bytes[end + 1..]))
    } else {
        None
    }
}
