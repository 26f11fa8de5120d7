//! A line is taken token by token from its front. Each function skips blanks, takes one token if it comes next, and
//! gives what follows it, so that no list of tokens is built.
ghost use Rattle.std.specs.Prelude.{◌≡◌, ◌+◌, ◌<◌, ◌≤◌, ◌++◌, List, ℕ, Bool, MatchOption, IfSome, length, true};
ghost use Rattle.std.specs.Bool.{MatchBool};
ghost use Rattle.std.specs.List.{prefix_len, list_all};
ghost use Rattle.pg_text.specs.Tokens.{name, word as word_token, sign as sign_token, bit_word, sign_text, word_text, is_blank, IsRun, StartsWith, BeginsWith, EndsHere, HasNoToken};
ghost use Rattle.line_text.specs.Words.{continues_name};

use crate::sign::{Fixed, Sign};
use line_text::{continues_name, is_free_name};
use std::str;

fn is_blank_byte(b: u8) -> bool
    ensures { result ≡ is_blank b }
{
    b == b' ' || b == b'\t'
}

fn count_blanks(bytes: &[u8]) -> usize
    ensures run { result ≡ prefix_len is_blank bytes.now }
    ensures bound { result ≤ length bytes.now }
{
    bytes.iter().take_while(|b| is_blank_byte(**b)).count()
}

/// The blanks at the front, and what follows.
fn split_blanks(bytes: &[u8]) -> (&[u8], &[u8])
    ensures { IsRun is_blank bytes.now result.0.now result.1.now }
{
    bytes.split_at(count_blanks(bytes))
}

fn count_word(bytes: &[u8]) -> usize
    ensures run { result ≡ prefix_len continues_name bytes.now }
    ensures bound { result ≤ length bytes.now }
{
    bytes.iter().take_while(|b| continues_name(**b)).count()
}

/// The word at the front, which may be empty, and what follows it.
fn split_word(bytes: &[u8]) -> (&[u8], &[u8])
    ensures { IsRun continues_name bytes.now result.0.now result.1.now }
{
    bytes.split_at(count_word(bytes))
}

/// Whether the line ends here: no byte is left, or a comment begins.
fn ends_here(bytes: &[u8]) -> bool
    ensures { MatchBool result (EndsHere bytes.now) (EndsHere bytes.now → ⊥) }
{
    match bytes.first() {
        Some(b) => *b == b'#',
        None => true,
    }
}

/// Whether no token is left: blanks alone, or blanks and a comment.
pub(crate) fn is_ended(bytes: &[u8]) -> bool
    ensures { MatchBool result (HasNoToken bytes.now) (HasNoToken bytes.now → ⊥) }
{
    let (_, after) = split_blanks(bytes);
    ends_here(after)
}

/// How the sign is spelled.
pub(crate) fn text_of_sign(sign: Sign) -> &'static [u8]
    ensures { result.now ≡ sign_text sign }
{
    match sign {
        Sign::Open => b"(",
        Sign::Close => b")",
        Sign::OpenSquare => b"[",
        Sign::CloseSquare => b"]",
        Sign::Not => b"!",
        Sign::Or => b"|",
        Sign::And => b"&",
        Sign::At => b"@",
        Sign::Comma => b",",
        Sign::Equals => b"=",
        Sign::Plus => b"+",
        Sign::Arrow => b"->",
    }
}

/// How the keyword or the bit is spelled.
pub(crate) fn text_of_word(word: Fixed) -> &'static [u8]
    ensures { result.now ≡ word_text word }
{
    match word {
        Fixed::Params => b"params",
        Fixed::Graph => b"graph",
        Fixed::Scenario => b"scenario",
        Fixed::With => b"with",
        Fixed::Empty => b"empty",
        Fixed::Zero => b"0",
        Fixed::One => b"1",
    }
}

/// What follows the sign, where no blank stands before it.
fn strip_sign(bytes: &[u8], sign: Sign) -> Option<&[u8]>
    ensures { MatchOption result ((rest : List ℕ) → bytes.now ≡ sign_text sign ++ rest → ⊥) (λ rest. bytes.now ≡ sign_text sign ++ rest.now) }
{
    bytes.strip_prefix(text_of_sign(sign))
}

/// What follows the sign, where it comes next.
pub(crate) fn after_sign(bytes: &[u8], sign: Sign) -> Option<&[u8]>
    ensures cases { MatchOption result ((rest : List ℕ) → BeginsWith bytes.now (sign_token sign) rest → ⊥) (λ rest. BeginsWith bytes.now (sign_token sign) rest.now) }
    ensures shorter { IfSome result (λ rest. length rest.now < length bytes.now) }
{
    let (_, after) = split_blanks(bytes);
    strip_sign(after, sign)
}

/// What follows the keyword or the bit, where it comes next.
pub(crate) fn after_word(bytes: &[u8], word: Fixed) -> Option<&[u8]>
    ensures cases { MatchOption result ((rest : List ℕ) → BeginsWith bytes.now (word_token word) rest → ⊥) (λ rest. BeginsWith bytes.now (word_token word) rest.now) }
    ensures shorter { IfSome result (λ rest. length rest.now < length bytes.now) }
{
    let (_, after) = split_blanks(bytes);
    let (front, rest) = split_word(after);
    if front == text_of_word(word) {
        Some(rest)
    } else {
        None
    }
}

/// A word as text.
fn text_of(word: &[u8]) -> &str
    requires { list_all continues_name word.now ≡ true }
    ensures { result.now ≡ word.now }
{
    match str::from_utf8(word) {
        Ok(text) => text,
        Err(_) => unreachable!(),
    }
}

/// The name that comes next, and what follows it.
pub(crate) fn name_at(bytes: &[u8]) -> Option<(&str, &[u8])>
    ensures cases { MatchOption result ((w : List ℕ) (rest : List ℕ) → BeginsWith bytes.now (name w) rest → ⊥) (λ p. BeginsWith bytes.now (name p.0.now) p.1.now) }
    ensures shorter { IfSome result (λ p. length p.1.now < length bytes.now) }
{
    let (_, after) = split_blanks(bytes);
    let (word, rest) = split_word(after);
    if is_free_name(word) {
        Some((text_of(word), rest))
    } else {
        None
    }
}

/// The bit that comes next, and what follows it.
pub(crate) fn bit_at(bytes: &[u8]) -> Option<(bool, &[u8])>
    ensures cases { MatchOption result ((b : Bool) (rest : List ℕ) → BeginsWith bytes.now (bit_word b) rest → ⊥) (λ p. BeginsWith bytes.now (bit_word p.0) p.1.now) }
    ensures shorter { IfSome result (λ p. length p.1.now < length bytes.now) }
{
    if let Some(rest) = after_word(bytes, Fixed::Zero) {
        return Some((false, rest));
    }
    match after_word(bytes, Fixed::One) {
        Some(rest) => Some((true, rest)),
        None => None,
    }
}
