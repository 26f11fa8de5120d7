//! Lists in a line.
ghost use Rattle.std.specs.Prelude.{◌≡◌, ◌+◌, ◌-◌, ◌<◌, ◌≤◌, ◌^◌, ◌==◌, ◌++◌, ◌∷◌, [], ℕ, suc, true, false, length, codes, string_bytes, IfOk, MatchOption};
ghost use Rattle.std.specs.Fmt.{decimal};
ghost use Rattle.line_text.specs.Words as words;
ghost use Rattle.netlist_verilog.specs.Rows.{separator};
ghost use Rattle.module_reader.specs.Lists as lists;
ghost use Rattle.module_reader.specs.Lists.{run, is_new_name, names_run};

use cpog_base::{Memory, Names};
use line_rows::behind;
use line_text::{first_place, is_free_name};
use std::alloc::Global;
use std::str;

/// A numbered item of a list, behind a comma where it isn't the first.
fn item_text(alloc: Global, letter: &str, index: u32) -> Result<String, Memory>
    ensures { IfOk result (λ text. string_bytes text ≡ separator (index == 0) ++ (letter.now ++ decimal index)) }
{
    if index == 0 {
        return Ok(format!(in alloc; "{letter}{index}")?);
    }
    Ok(format!(in alloc; ", {letter}{index}")?)
}

/// As many numbered items as stand at the front, at most so many, and what is behind them.
pub(crate) fn items_of<'a>(
    alloc: Global,
    letter: &str,
    limit: u32,
    text: &'a [u8],
) -> Result<(u32, &'a [u8]), Memory>
    ensures few { IfOk result (λ x. x.0 ≤ limit) }
    ensures run { IfOk result (λ x. (x.0, x.1.now) ≡ run (λ i. separator (i == 0) ++ (letter.now ++ decimal i)) limit 0 text.now) }
{
    let mut rest = text;
    for index in 0..limit {
        let item = item_text(alloc, letter, index)?;
        let Some(more) = behind(rest, item.as_bytes()) else {
            return Ok((index, rest));
        };
        rest = more;
    }
    Ok((limit, rest))
}

/// A name as text.
fn text_of(word: &[u8]) -> &str
    requires { words.is_free_name word.now ≡ true }
    ensures { result.now ≡ word.now }
{
    match str::from_utf8(word) {
        Ok(text) => text,
        Err(_) => unreachable!(),
    }
}

/// Whether the word is a name that is new; it then goes last.
#[tactic(auto, using(crate::proofs::NameSteps::refused_word, crate::proofs::NameSteps::is_taken, crate::proofs::NameSteps::goes_last, crate::proofs::NameSteps::stays))]
fn takes(names: &mut Names, word: &[u8]) -> Result<bool, Memory>
    requires { length names.old < 2 ^ 32 - 1 }
    ensures new { IfOk result (λ b. b ≡ is_new_name names.old word.now) }
    ensures taken { IfOk result (λ b. b ≡ true → names.new ≡ names.old ++ word.now ∷ []) }
    ensures left { IfOk result (λ b. b ≡ false → names.new ≡ names.old) }
{
    if !is_free_name(word) {
        return Ok(false);
    }
    let before = names.len();
    let name = text_of(word);
    names.insert(name)?;
    let is_new = names.len() > before;
    Ok(is_new)
}

/// What follows the name that stands at the front and now goes last, or nothing where none stands there.
#[tactic(auto, using(crate::proofs::NameSteps::no_front, crate::proofs::NameSteps::word_stops, crate::proofs::NameSteps::word_goes_on))]
fn next_name<'a>(names: &mut Names, text: &'a [u8]) -> Result<Option<&'a [u8]>, Memory>
    requires { length names.old < 2 ^ 32 - 1 }
    ensures next { IfOk result (λ o. MatchOption o ((n : ℕ) → names_run (suc n) names.old text.now ≡ (names.new, text.now)) (λ rest. (n : ℕ) → names_run (suc n) names.old text.now ≡ names_run n names.new rest.now)) }
    ensures more { IfOk result (λ o. length names.new ≤ length names.old + 1) }
{
    let Some(more) = behind(text, b", a_") else {
        return Ok(None);
    };
    let end = first_place(more, b',');
    let (word, rest) = more.split_at(end);
    if takes(names, word)? {
        Ok(Some(rest))
    } else {
        Ok(None)
    }
}

/// As many new names behind commas as stand at the front, at most 128, and what is behind them.
pub(crate) fn names_of(alloc: Global, text: &[u8]) -> Result<(Names, &[u8]), Memory>
    ensures { IfOk result (λ x. (x.0, x.1.now) ≡ names_run 128 [] text.now) }
{
    let mut names = Names::new(alloc);
    let mut rest = text;
    for index in 0..128u32 {
        let Some(more) = next_name(&mut names, rest)? else {
            return Ok((names, rest));
        };
        rest = more;
    }
    Ok((names, rest))
}
