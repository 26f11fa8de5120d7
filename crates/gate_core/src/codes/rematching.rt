//! One scenario more for a list of distinct words, or that there is none. Lists of words and of marks have a place for each of
//! `SCENARIO_LIMIT` scenarios, which is 64.
ghost use Rattle.std.specs.Prelude.{◌≡◌, ◌≢◌, ◌↔◌, ℕ, List, Bool, replicate, slice_set, ◌^◌, ◌<◌, ◌≤◌, false, true, IsTrue, IfSome, None, length};
ghost use Rattle.gate_core.specs.Matching.{IsMatching, IsMatchingBut, IsOwner, IsOwned, IsBlocked, IsHallViolator, IsReach, IsTried, Grows, is_in};
ghost use Rattle.gate_core.specs.Patterns.{MayHave};

use cpog_base::{BIT_LIMIT, Pattern, SCENARIO_LIMIT};

/// The given bits, the words that are fixed, how many words there are, and how many scenarios.
#[derive(Drop)]
pub(crate) struct Task<'a> {
    pub(crate) given: &'a [Pattern],
    pub(crate) fixed: &'a [u8],
    pub(crate) top: u16,
    pub(crate) count: usize,
}

impl Task<'_> {
    /// Whether a scenario may have a word.
    fn may_have(&self, s: usize, word: u8) -> bool
        requires { s < length self.now.given.now }
        ensures { IsTrue result ↔ MayHave self.now.given.now self.now.fixed.now s word }
    {
        let kept = match self.fixed.get(s) {
            Some(fixed) => *fixed == word,
            None => true,
        };
        kept && self.given[s].agrees(word)
    }

    /// The first of the words that a scenario may have, and the end of them: a fixed one is the only one.
    fn range(&self, s: usize) -> (u16, u16)
        requires { self.now.top ≤ 2 ^ BIT_LIMIT }
        ensures end { result.1 ≤ self.now.top }
        ensures within { (word : ℕ) → word < self.now.top → MayHave self.now.given.now self.now.fixed.now s word → (result.0 ≤ word) × (word < result.1) }
    {
        match self.fixed.get(s) {
            Some(fixed) => (u16::from(*fixed), self.top.min(u16::from(*fixed) + 1)),
            None => (0, self.top),
        }
    }
}

/// The scenario that has the word, but for the one without a word.
fn owner(words: &[u8], count: usize, hole: usize, word: u8) -> Option<usize>
    requires { count ≤ length words.now }
    ensures some { IfSome result (λ o. IsOwner count hole words.now word o) }
    ensures none { result ≡ None → (o : ℕ) → ¬ IsOwner count hole words.now word o }
{
    for i in 0..count {
        if i != hole && words[i] == word {
            return Some(i);
        }
    }
    None
}

/// Whether a scenario was reached and not tried yet: the first one.
fn next_untried(reached: &[bool], tried: &[bool], count: usize) -> Option<usize>
    requires reached { count ≤ length reached.now }
    requires tried { count ≤ length tried.now }
    ensures some { IfSome result (λ i. (i < count) × IsTrue (is_in reached.now i) × (is_in tried.now i ≡ false)) }
    ensures none { result ≡ None → (i : ℕ) → i < count → IsTrue (is_in reached.now i) → IsTrue (is_in tried.now i) }
{
    for i in 0..count {
        if reached[i] && !tried[i] {
            return Some(i);
        }
    }
    None
}

/// For each scenario, whether it can be the one without a word, and then the words of the others.
#[derive(Drop)]
pub(crate) struct Reach {
    lists: [[u8; 64]; 64],
    reached: [bool; 64],
}

impl Reach {
    /// Only the scenario without a word is reached.
    fn new(words: &[u8; 64], hole: usize) -> Reach
        requires { hole < SCENARIO_LIMIT }
        ensures lists { (empty : List (List ℕ)) × (empty ≡ replicate SCENARIO_LIMIT (replicate SCENARIO_LIMIT 0)) × (result.lists ≡ slice_set empty hole words.now) }
        ensures reached { (marks : List Bool) × (marks ≡ replicate SCENARIO_LIMIT false) × (result.reached ≡ slice_set marks hole true) }
    {
        let mut lists = [[0; 64]; 64];
        lists[hole] = *words;
        let mut reached = [false; 64];
        reached[hole] = true;
        Reach { lists, reached }
    }

    /// Gives a reached scenario a word: all have words then, or the one that had it has none.
    fn take_word(
        &mut self,
        task: &Task,
        words: &[u8],
        hole: usize,
        i: usize,
        word: u8,
    ) -> Option<[u8; 64]>
        requires small { task.now.count ≤ SCENARIO_LIMIT }
        requires size { task.now.count ≤ length words.now }
        requires reach { IsReach (MayHave task.now.given.now task.now.fixed.now) task.now.top task.now.count hole words.now self.old.lists self.old.reached }
        requires words { IsMatchingBut (MayHave task.now.given.now task.now.fixed.now) task.now.top task.now.count hole words.now }
        requires within { i < task.now.count }
        requires here { IsTrue (is_in self.old.reached i) }
        requires below { word < task.now.top }
        requires may { MayHave task.now.given.now task.now.fixed.now i word }
        ensures all { IfSome result (λ all. IsMatching (MayHave task.now.given.now task.now.fixed.now) task.now.top task.now.count all) }
        ensures reach { result ≡ None → IsReach (MayHave task.now.given.now task.now.fixed.now) task.now.top task.now.count hole words.now self.new.lists self.new.reached }
        ensures grows { result ≡ None → Grows self.old.reached self.new.reached }
        ensures owned { result ≡ None → IsOwned task.now.count hole words.now self.new.reached word }
    {
        match owner(words, task.count, hole, word) {
            Some(o) => {
                if !self.reached[o] {
                    let mut moved = self.lists[i];
                    moved[i] = word;
                    self.lists[o] = moved;
                    self.reached[o] = true;
                }
                None
            }
            None => {
                let mut all = self.lists[i];
                all[i] = word;
                Some(all)
            }
        }
    }

    /// Tries each word that a reached scenario may have.
    fn try_words(&mut self, task: &Task, words: &[u8], hole: usize, i: usize) -> Option<[u8; 64]>
        requires small { task.now.count ≤ SCENARIO_LIMIT }
        requires given { task.now.count ≤ length task.now.given.now }
        requires top { task.now.top ≤ 2 ^ BIT_LIMIT }
        requires size { task.now.count ≤ length words.now }
        requires reach { IsReach (MayHave task.now.given.now task.now.fixed.now) task.now.top task.now.count hole words.now self.old.lists self.old.reached }
        requires words { IsMatchingBut (MayHave task.now.given.now task.now.fixed.now) task.now.top task.now.count hole words.now }
        requires within { i < task.now.count }
        requires here { IsTrue (is_in self.old.reached i) }
        ensures all { IfSome result (λ all. IsMatching (MayHave task.now.given.now task.now.fixed.now) task.now.top task.now.count all) }
        ensures reach { result ≡ None → IsReach (MayHave task.now.given.now task.now.fixed.now) task.now.top task.now.count hole words.now self.new.lists self.new.reached }
        ensures grows { result ≡ None → Grows self.old.reached self.new.reached }
        ensures tried { result ≡ None → IsTried (MayHave task.now.given.now task.now.fixed.now) task.now.top task.now.count hole words.now self.new.reached i }
    {
        let (first, end) = task.range(i);
        for word in first..end {
            let word = word as u8;
            if task.may_have(i, word) {
                if let Some(all) = self.take_word(task, words, hole, i, word) {
                    return Some(all);
                }
            }
        }
        None
    }
}

/// Words for all, where all but one scenario have words; none where there is no list of distinct words for all.
pub(crate) fn rematch(
    task: &Task,
    words: &[u8; 64],
    hole: usize,
    marks: &mut [bool; 64],
) -> Option<[u8; 64]>
    requires small { task.now.count ≤ SCENARIO_LIMIT }
    requires given { task.now.count ≤ length task.now.given.now }
    requires top { task.now.top ≤ 2 ^ BIT_LIMIT }
    requires words { IsMatchingBut (MayHave task.now.given.now task.now.fixed.now) task.now.top task.now.count hole words.now }
    ensures all { IfSome result (λ all. IsMatching (MayHave task.now.given.now task.now.fixed.now) task.now.top task.now.count all) }
    ensures none { result ≡ None → (other : List ℕ) → ¬ IsMatching (MayHave task.now.given.now task.now.fixed.now) task.now.top task.now.count other }
    ensures closed { result ≡ None → IsHallViolator (MayHave task.now.given.now task.now.fixed.now) task.now.top task.now.count hole words.now (is_in marks.new) }
{
    let mut reach = Reach::new(words, hole);
    let mut tried = [false; 64];
    'turns: while let Some(i) = next_untried(&reach.reached, &tried, task.count) {
        if let Some(all) = reach.try_words(task, words, hole, i) {
            return Some(all);
        }
        tried[i] = true;
    }
    *marks = reach.reached;
    None
}

/// Whether the word is one of an earlier scenario, whose word is fixed, or of a marked one.
pub(crate) fn is_blocked(
    words: &[u8; 64],
    count: usize,
    hole: usize,
    word: u8,
    marks: &[bool; 64],
) -> bool
    requires { count ≤ SCENARIO_LIMIT }
    ensures { IsTrue result → IsBlocked count hole words.now marks.now word }
{
    match owner(words, count, hole, word) {
        Some(o) => o < hole || marks[o],
        None => false,
    }
}
