ghost use Rattle.std.specs.Prelude.{◌≡◌, ◌≤◌, ◌++◌, ◌∷◌, [], true, None, length, MatchOption, IfSome, IfOk};
ghost use Rattle.line_text.specs.Words as words;
ghost use Rattle.report_reader.specs.Reading.{is_next, names_after, operations_in};

use cpog_base::{Memory, Names};
use line_rows::behind;
use line_text::{first_place, is_free_name};
use std::alloc::Global;
use std::str;

/// A name as text.
pub fn text_of(word: &[u8]) -> &str
    requires { words.is_free_name word.now ≡ true }
    ensures { result.now ≡ word.now }
{
    match str::from_utf8(word) {
        Ok(text) => text,
        Err(_) => unreachable!(),
    }
}

/// Whether the word is a name that may come next; it then goes last.
pub fn takes(names: &mut Names, word: &[u8], limit: u32) -> Result<bool, Memory>
    requires { limit ≤ 128 }
    ensures next { IfOk result (λ b. b ≡ is_next limit names.old word.now) }
    ensures names { IfOk result (λ b. b ≡ true → names.new ≡ names.old ++ word.now ∷ []) }
{
    if !is_free_name(word) {
        return Ok(false);
    }
    let before = names.len();
    if before >= limit {
        return Ok(false);
    }
    let name = text_of(word);
    names.insert(name)?;
    let is_new = names.len() > before;
    Ok(is_new)
}

/// What follows the name that comes next and now goes last, or nothing where none may come.
#[tactic(auto, using(crate::proofs::NameSteps::word_stops, crate::proofs::NameSteps::word_goes_on))]
fn next_name<'a>(names: &mut Names, more: &'a [u8], limit: u32) -> Result<Option<&'a [u8]>, Memory>
    requires { limit ≤ 128 }
    ensures names { IfOk result (λ o. MatchOption o (names_after limit names.old (32 ∷ more.now) ≡ None) (λ rest. names_after limit names.old (32 ∷ more.now) ≡ names_after limit names.new rest.now)) }
    ensures shorter { IfOk result (λ o. IfSome o (λ rest. length rest.now ≤ length more.now)) }
{
    let end = first_place(more, b' ');
    let (word, rest) = more.split_at(end);
    if takes(names, word, limit)? {
        Ok(Some(rest))
    } else {
        Ok(None)
    }
}

/// At most so many names, each behind a blank.
pub fn names_of(alloc: Global, text: &[u8], limit: u32) -> Result<Option<Names>, Memory>
    requires { limit ≤ 128 }
    ensures { IfOk result (λ o. o ≡ names_after limit [] text.now) }
{
    let mut names = Names::new(alloc);
    let mut rest = text;
    while let [first, more @ ..] = rest {
        if *first != b' ' {
            return Ok(None);
        }
        let Some(after) = next_name(&mut names, more, limit)? else {
            return Ok(None);
        };
        rest = after;
    }
    Ok(Some(names))
}

/// The names of the operations on their line.
#[tactic(auto, unfolding(crate::specs::Reading::operations_in))]
pub fn operations_of(alloc: Global, line: &[u8]) -> Result<Option<Names>, Memory>
    ensures { IfOk result (λ o. o ≡ operations_in line.now) }
{
    let Some(rest) = behind(line, b"operations") else {
        return Ok(None);
    };
    names_of(alloc, rest, 64)
}
