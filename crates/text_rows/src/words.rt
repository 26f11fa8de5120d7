//! Words of a line, read in place: each reader takes the rest of a line and gives back what follows.
ghost use Rattle.std.specs.Prelude.{◌≡◌, ◌+◌, ◌<◌, ◌≤◌, ◌∷◌, ◌++◌, [], ℕ, Bool, true, false, MatchOption, IfSome, slice_index, length, take, List};
ghost use Rattle.std.specs.Bool.{MatchBool};
ghost use Rattle.std.specs.Fmt.{decimal};
ghost use Rattle.std.specs.Int.{IsInRange};
ghost use Rattle.std.specs.Str.Parse.{AllDigits, digits_value};
ghost use Rattle.text_rows.specs.Words.{tokens, EndsWord, NoSpace, signed_word};
ghost use Rattle.text_rows.specs.Words as words;

#[inline(always)]
fn is_space(b: u8) -> bool
    ensures { result ≡ words.is_space b }
{
    b == b' ' || b == b'\t'
}

/// The bytes from the first word on.
#[inline(always)]
fn skip_spaces(bytes: &[u8]) -> &[u8]
    ensures words { tokens result.now ≡ tokens bytes.now }
    ensures length { length result.now ≤ length bytes.now }
    ensures first { 0 < length result.now → words.is_space (slice_index result.now 0) ≡ false }
{
    let mut rest = bytes;
    while let [first, others @ ..] = rest {
        if !is_space(*first) {
            return rest;
        }
        rest = others;
    }
    rest
}

/// The digits in front, ten at most of a number without a leading zero, and where they end.
#[inline(always)]
fn digits(word: &[u8]) -> (u64, usize)
    ensures value { result.0 ≡ digits_value 10 (take result.1 word.now) }
    ensures digits { AllDigits 10 (take result.1 word.now) }
    ensures bound { result.0 < 10000000000 }
    ensures end { result.1 ≤ length word.now }
    ensures stops { result.1 < length word.now → result.0 < 1000000000 → IsInRange 48 57 (slice_index word.now result.1) → ⊥ }
{
    let mut n: u64 = 0;
    let mut i = 0;
    while i < word.len() && n < 1_000_000_000 {
        let b = word[i];
        if b < b'0' || b > b'9' {
            return (n, i);
        }
        n = n * 10 + (b - b'0') as u64;
        i += 1;
    }
    (n, i)
}

/// Whether there is more than one digit, and the first is 0.
#[inline(always)]
fn is_padded(word: &[u8], end: usize) -> bool
    requires { end ≤ length word.now }
    ensures { MatchBool result ((1 < end) × (slice_index word.now 0 ≡ 48)) (1 < end → slice_index word.now 0 ≡ 48 → ⊥) }
{
    end > 1 && word[0] == b'0'
}

/// Whether a word ends before these bytes.
#[inline(always)]
fn ends_word(bytes: &[u8]) -> bool
    ensures { MatchBool result (EndsWord bytes.now) (EndsWord bytes.now → ⊥) }
{
    match bytes {
        [] => true,
        [b, ..] => is_space(*b),
    }
}

/// What follows a minus, where it is the first byte.
#[inline(always)]
fn minus(bytes: &[u8]) -> Option<&[u8]>
    ensures { MatchOption result ((body : List ℕ) → bytes.now ≡ 45 ∷ body → ⊥) (λ x. bytes.now ≡ 45 ∷ x.now) }
{
    match bytes {
        [b'-', body @ ..] => Some(body),
        _ => None,
    }
}

/// The number of at most ten digits that the bytes begin with, up to a blank or their end.
#[inline(always)]
fn plain(word: &[u8]) -> Option<(u64, &[u8])>
    ensures { MatchOption result ((n : ℕ) (more : List ℕ) → n < 10000000000 → EndsWord more → word.now ≡ decimal n ++ more → ⊥) (λ x. (x.0 < 10000000000) × EndsWord x.1.now × (word.now ≡ decimal x.0 ++ x.1.now)) }
{
    let (n, end) = digits(word);
    if end == 0 {
        return None;
    }
    if is_padded(word, end) {
        return None;
    }
    let rest = &word[end..];
    if !ends_word(rest) {
        return None;
    }
    Some((n, rest))
}

/// The number of at most ten digits that the bytes are, where nothing else stands there.
pub fn whole_number(bytes: &[u8]) -> Option<u64>
    ensures { MatchOption result ((n : ℕ) → n < 10000000000 → bytes.now ≡ decimal n → ⊥) (λ n. (n < 10000000000) × (bytes.now ≡ decimal n)) }
{
    let (n, rest) = plain(bytes)?;
    if rest.is_empty() { Some(n) } else { None }
}

/// The first word as a number of at most ten digits, and what follows it.
#[inline(always)]
pub fn number(bytes: &[u8]) -> Option<(u64, &[u8])>
    ensures words { MatchOption result ((n : ℕ) (ws : List (List ℕ)) → n < 10000000000 → tokens bytes.now ≡ decimal n ∷ ws → ⊥) (λ x. (x.0 < 10000000000) × (tokens bytes.now ≡ decimal x.0 ∷ tokens x.1.now)) }
    ensures shorter { IfSome result (λ x. length x.1.now < length bytes.now) }
{
    let word = skip_spaces(bytes);
    let Some((n, rest)) = plain(word) else {
        return None;
    };
    Some((n, rest))
}

/// The first word as a number with or without a minus, and what follows it. There is no `-0`.
#[inline(always)]
pub fn signed(bytes: &[u8]) -> Option<(bool, u64, &[u8])>
    ensures words { MatchOption result ((negated : Bool) (n : ℕ) (ws : List (List ℕ)) → n < 10000000000 → (negated ≡ true → 0 < n) → tokens bytes.now ≡ signed_word negated n ∷ ws → ⊥) (λ x. (x.1 < 10000000000) × (x.0 ≡ true → 0 < x.1) × (tokens bytes.now ≡ signed_word x.0 x.1 ∷ tokens x.2.now)) }
    ensures shorter { IfSome result (λ x. length x.2.now < length bytes.now) }
{
    let word = skip_spaces(bytes);
    if let Some(body) = minus(word) {
        let Some((n, rest)) = plain(body) else {
            return None;
        };
        if n == 0 {
            return None;
        }
        return Some((true, n, rest));
    }
    let Some((n, rest)) = plain(word) else {
        return None;
    };
    Some((false, n, rest))
}

/// What follows this word, where it is the first.
#[inline(always)]
pub fn after_word<'a>(bytes: &'a [u8], word: &[u8]) -> Option<&'a [u8]>
    requires some { 0 < length word.now }
    requires no_space { NoSpace word.now }
    ensures words { MatchOption result ((ws : List (List ℕ)) → tokens bytes.now ≡ word.now ∷ ws → ⊥) (λ x. tokens bytes.now ≡ word.now ∷ tokens x.now) }
    ensures shorter { IfSome result (λ x. length x.now < length bytes.now) }
{
    let text = skip_spaces(bytes);
    if text.len() < word.len() {
        return None;
    }
    let (front, after) = text.split_at(word.len());
    if front != word {
        return None;
    }
    if !ends_word(after) {
        return None;
    }
    Some(after)
}

/// Whether no word is left.
pub fn is_blank(bytes: &[u8]) -> bool
    ensures { MatchBool result (tokens bytes.now ≡ []) (tokens bytes.now ≡ [] → ⊥) }
{
    skip_spaces(bytes).is_empty()
}
