//! The codes of scenarios whose bits are partly given: the least list of distinct words that agree with the given bits.
//! A word for each scenario is found by augmenting a matching of scenarios and words. Then the word of each scenario in
//! turn is fixed to the least one that leaves a matching of the others.

ghost use Rattle.std.specs.Prelude.{◌≡◌, ◌≢◌, ℕ, List, [], ◌+◌, ◌^◌, ◌<◌, ◌≤◌, take, length, replicate, slice_index, IfOk, IsErrOf};
ghost use Rattle.cpog_defs.specs.declared.types.Bit3.TheVariants.{Free};
ghost use Rattle.cpog_defs.specs.Codes.{AreCodes, KeepGivenBits};
ghost use Rattle.gate_core.specs.Matching.{IsMatching};
ghost use Rattle.gate_core.specs.Patterns.{MayHave};
ghost use Rattle.gate_core.specs.Least.{IsFirstClash, AreLeast};

mod rematching;

use cpog_base::{BIT_LIMIT, Memory, Pattern, SCENARIO_LIMIT, ScenId};
use rematching::{Task, is_blocked, rematch};
use std::alloc::Global;

/// Why there are no codes.
#[derive(Clone, Copy, Debug, PartialEq, Eq)]
pub enum CodesFault {
    /// The least scenario for which those up to it have no distinct words.
    Clash(ScenId),
    /// No memory was left.
    Memory,
}

/// So many patterns of codes in which no bit is given.
///
/// # Errors
///
/// `Memory` where none is left.
pub fn free_patterns(alloc: Global, n: usize, bits: u8) -> Result<Vec<Pattern>, Memory>
    requires { bits ≤ BIT_LIMIT }
    ensures { IfOk result (λ patterns. patterns.items ≡ replicate n (replicate bits Free)) }
{
    Ok(vec![in alloc; Pattern::free(bits); n]?)
}

/// The least list of distinct words that agree with the patterns.
///
/// # Errors
///
/// `Clash` where there is none, and `Memory` where none is left.
pub fn least_codes(alloc: Global, given: &[Pattern], bits: u8) -> Result<Vec<u8>, CodesFault>
    requires few { length given.now ≤ SCENARIO_LIMIT }
    requires bits { bits ≤ BIT_LIMIT }
    ensures least { IfOk result (λ codes. AreLeast given.now (2 ^ bits) codes.items) }
    ensures codes { IfOk result (λ codes. AreCodes bits (length given.now) codes.items) }
    ensures given { IfOk result (λ codes. KeepGivenBits given.now codes.items) }
    ensures clash { (k : ℕ) → IsErrOf result (CodesFault.Clash (record { 0 = k })) → IsFirstClash given.now (2 ^ bits) k }
{
    let top = 1u16 << bits;
    let mut words = match match_all(given, top) {
        Ok(words) => words,
        Err(fault) => return Err(fault),
    };
    let mut fixed = [0; 64];
    for s in 0..given.len() {
        words = lower(given, top, &mut fixed, s, &words);
    }
    match fixed[..given.len()].to_vec(alloc) {
        Ok(codes) => Ok(codes),
        Err(_) => Err(CodesFault::Memory),
    }
}

/// Distinct words that agree.
fn match_all(given: &[Pattern], top: u16) -> Result<[u8; 64], CodesFault>
    requires few { length given.now ≤ SCENARIO_LIMIT }
    requires top { top ≤ 2 ^ BIT_LIMIT }
    ensures words { IfOk result (λ words. IsMatching (MayHave given.now []) top (length given.now) words) }
    ensures clash { (k : ℕ) → IsErrOf result (CodesFault.Clash (record { 0 = k })) → IsFirstClash given.now top k }
{
    let mut words = [0; 64];
    let mut marks = [false; 64];
    for k in 0..given.len() {
        let task = Task {
            given,
            fixed: &[],
            top,
            count: k + 1,
        };
        match rematch(&task, &words, k, &mut marks) {
            Some(all) => words = all,
            None => return Err(CodesFault::Clash(ScenId(k as u8))),
        }
    }
    Ok(words)
}

/// Fixes the least word of scenario s that leaves words for those after it, and answers words for all.
fn lower(given: &[Pattern], top: u16, fixed: &mut [u8; 64], s: usize, words: &[u8; 64]) -> [u8; 64]
    requires few { length given.now ≤ SCENARIO_LIMIT }
    requires top { top ≤ 2 ^ BIT_LIMIT }
    requires within { s < length given.now }
    requires words { IsMatching (MayHave given.now (take s fixed.old)) top (length given.now) words.now }
    ensures words { IsMatching (MayHave given.now (take (s + 1) fixed.new)) top (length given.now) result }
    ensures same { take s fixed.new ≡ take s fixed.old }
    ensures least { (other : List ℕ) → IsMatching (MayHave given.now (take s fixed.old)) top (length given.now) other → slice_index fixed.new s ≤ slice_index other s }
{
    let mut marks = [false; 64];
    for word in 0..words[s] {
        if !is_blocked(words, given.len(), s, word, &marks) {
            fixed[s] = word;
            let task = Task {
                given,
                fixed: &fixed[..s + 1],
                top,
                count: given.len(),
            };
            if let Some(all) = rematch(&task, words, s, &mut marks) {
                return all;
            }
        }
    }
    fixed[s] = words[s];
    *words
}
