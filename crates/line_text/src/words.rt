//! Names: the words that operations, graphs, parameters and scenarios are called by.
ghost use Rattle.std.specs.Prelude.{◌≡◌};
ghost use Rattle.line_text.specs.Words as words;

fn begins_name(b: u8) -> bool
    ensures { result ≡ words.begins_name b }
{
    matches!(b, b'a'..=b'z' | b'A'..=b'Z' | b'_')
}

/// Whether a byte may follow the first one of a name.
pub fn continues_name(b: u8) -> bool
    ensures { result ≡ words.continues_name b }
{
    begins_name(b) || b.is_ascii_digit()
}

fn all_continue(word: &[u8]) -> bool
    ensures { result ≡ words.all_continue word.now }
{
    for b in word {
        if !continues_name(*b) {
            return false;
        }
    }
    true
}

/// Whether the word is a letter or `_`, and then at most 31 letters, digits or `_`.
pub fn is_name(word: &[u8]) -> bool
    ensures { result ≡ words.is_name word.now }
{
    match word {
        [] => false,
        [first, others @ ..] => {
            begins_name(*first) && all_continue(others) && others.len() <= 31
        }
    }
}

/// Whether the word is one of the graph text that can't be a name there.
pub fn is_keyword(word: &[u8]) -> bool
    ensures { result ≡ words.is_keyword word.now }
{
    word == b"params".as_slice()
        || word == b"graph".as_slice()
        || word == b"scenario".as_slice()
        || word == b"with".as_slice()
        || word == b"empty".as_slice()
        || word == b"code".as_slice()
}

/// Whether the word is a name and no keyword.
pub fn is_free_name(word: &[u8]) -> bool
    ensures { result ≡ words.is_free_name word.now }
{
    is_name(word) && !is_keyword(word)
}
