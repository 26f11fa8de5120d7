//! The words of the command line. A command stands first, its number behind it, and then its options in any order, each at
//! most once. The word `--exact` is an option, and each other option is a name with its value as the next word.
ghost use Rattle.std.specs.Prelude.{◌≡◌, ◌<◌, ◌≤◌, ◌∷◌, map, option_and_then};
ghost use Rattle.std.specs.String.{string_bytes};
ghost use Rattle.command_words.specs.Words.{number_within, bits_in, budget_in, option_in, joined, options_in, synth_of, cnf_of, solve_of, alone, cnf_in, command_of};

use cpog_base::{BIT_LIMIT, BUDGET_LIMIT, DEFAULT_BUDGET};
use text_rows::whole_number;

/// The most gates that `cnf` may be asked for.
pub const CNF_GATE_LIMIT: u32 = 4096;

/// A law: the limit is this number.
pub fn cnf_gate_limit_is_this()
    ensures { CNF_GATE_LIMIT ≡ 4096 }
{}

/// How a report is to be made.
#[derive(Clone, Copy, Debug, PartialEq, Eq)]
pub struct SynthOptions {
    /// The number of code bits, from 1 to 8; or else the fewest that give each scenario a code of its own.
    pub bits: Option<u8>,
    /// How many numbers the search may write to a log, from 1 to 8388608.
    pub budget: u32,
    /// Whether a report whose bound is open ends with a status of its own.
    pub exact: bool,
}

/// Which formula is to be made.
#[derive(Clone, Copy, Debug, PartialEq, Eq)]
pub struct CnfOptions {
    /// The number of gates, from 0 to 4096.
    pub gates: u32,
    /// The number of code bits, from 2 to 8; or else the fewest that give each scenario a code of its own.
    pub bits: Option<u8>,
}

/// The options that words say, each at most once.
#[derive(Clone, Copy, Debug, PartialEq, Eq)]
pub struct SaidOptions {
    /// The number of code bits, from 1 to 8.
    pub bits: Option<u8>,
    /// How many numbers a search may write to a log, from 1 to 8388608.
    pub budget: Option<u32>,
    /// Whether an open bound is to have a status of its own.
    pub exact: bool,
}

/// What the words of the command line ask for.
#[derive(Clone, Copy, Debug, PartialEq, Eq)]
pub enum Command {
    /// Print the report of the graph text that is read.
    Synth { options: SynthOptions },
    /// Print the normal forms of the graph text that is read.
    Normal,
    /// Print the formula that asks for an encoding of the graph text that is read.
    Cnf { options: CnfOptions },
    /// Judge whether the log that is read refutes the formula before it.
    Lrat,
    /// Decide the formula that is read, by a search that may write so many numbers to a log.
    Solve { budget: u32 },
    /// Judge whether the report that is read is good.
    Check,
    /// Print the module of the report that is read, where that is good.
    Verilog,
}

/// The number that a word says in decimal digits, without a sign and without a leading zero, where it is in this range.
fn number_within(word: &str, least: u32, most: u32) -> Option<u32>
    ensures { result ≡ number_within least most word.now }
{
    let number = whole_number(word.as_bytes())?;
    if number < u64::from(least) {
        return None;
    }
    if number > u64::from(most) {
        return None;
    }
    Some(number as u32)
}

/// The number of code bits that a word says.
fn bits_in(word: &str) -> Option<u8>
    ensures { result ≡ bits_in word.now }
{
    let bits = number_within(word, 1, u32::from(BIT_LIMIT))?;
    Some(bits as u8)
}

/// The budget that a word says.
fn budget_in(word: &str) -> Option<u32>
    ensures { result ≡ budget_in word.now }
{
    number_within(word, 1, BUDGET_LIMIT)
}

/// What an option and its value say.
fn option_in(name: &str, value: &str) -> Option<SaidOptions>
    ensures { result ≡ option_in name.now value.now }
{
    if name == "--bits" {
        let bits = bits_in(value)?;
        return Some(SaidOptions {
            bits: Some(bits),
            ..SaidOptions::NONE
        });
    }
    if name == "--budget" {
        let budget = budget_in(value)?;
        return Some(SaidOptions {
            budget: Some(budget),
            ..SaidOptions::NONE
        });
    }
    None
}

impl SaidOptions {
    /// No option.
    const NONE: SaidOptions = SaidOptions {
        bits: None,
        budget: None,
        exact: false,
    };

    /// The option `--exact` alone.
    const EXACT: SaidOptions = SaidOptions {
        bits: None,
        budget: None,
        exact: true,
    };

    /// These and others, where they don't both say one option.
    fn joined(self, other: SaidOptions) -> Option<SaidOptions>
        ensures { result ≡ joined self other }
    {
        let bits = match (self.bits, other.bits) {
            (None, bits) => bits,
            (bits, None) => bits,
            (Some(_), Some(_)) => return None,
        };
        let budget = match (self.budget, other.budget) {
            (None, budget) => budget,
            (budget, None) => budget,
            (Some(_), Some(_)) => return None,
        };
        if self.exact && other.exact {
            return None;
        }
        let exact = self.exact || other.exact;
        Some(SaidOptions {
            bits,
            budget,
            exact,
        })
    }
}

/// The options that words say beside those that were said before. No option is said twice, so calls are few.
fn options_after(said: SaidOptions, words: &[String]) -> Option<SaidOptions>
    ensures { result ≡ option_and_then (joined said) (options_in (map string_bytes words.now)) }
{
    match words {
        [] => Some(said),
        [word, rest @ ..] if word.as_str() == "--exact" => {
            let both = said.joined(SaidOptions::EXACT)?;
            options_after(both, rest)
        }
        [name, value, rest @ ..] => {
            let one = option_in(name.as_str(), value.as_str())?;
            let both = said.joined(one)?;
            options_after(both, rest)
        }
        _ => None,
    }
}

/// The command `synth` with these options.
fn synth_of(said: SaidOptions) -> Command
    ensures { result ≡ synth_of said }
{
    let options = SynthOptions {
        bits: said.bits,
        budget: said.budget.unwrap_or(DEFAULT_BUDGET),
        exact: said.exact,
    };
    Command::Synth { options }
}

/// The command `cnf` over so many gates with these options: codes have two bits at least, and nothing else is said.
fn cnf_of(gates: u32, said: SaidOptions) -> Option<Command>
    ensures { result ≡ cnf_of gates said }
{
    if said.exact {
        return None;
    }
    match said.budget {
        None => {}
        Some(_) => return None,
    }
    if said.bits == Some(1) {
        return None;
    }
    let options = CnfOptions {
        gates,
        bits: said.bits,
    };
    Some(Command::Cnf { options })
}

/// The command `solve` with these options, which say a budget at most.
fn solve_of(said: SaidOptions) -> Option<Command>
    ensures { result ≡ solve_of said }
{
    if said.exact {
        return None;
    }
    match said.bits {
        None => {
            let budget = said.budget.unwrap_or(DEFAULT_BUDGET);
            Some(Command::Solve { budget })
        }
        Some(_) => None,
    }
}

/// The command, where no words stand behind its own.
fn alone(command: Command, words: &[String]) -> Option<Command>
    ensures { result ≡ alone command (map string_bytes words.now) }
{
    if words.is_empty() {
        Some(command)
    } else {
        None
    }
}

/// The words behind `cnf`: a number of gates and its options.
fn cnf_in(words: &[String]) -> Option<Command>
    ensures { result ≡ cnf_in (map string_bytes words.now) }
{
    match words {
        [gates, options @ ..] => {
            let gates = number_within(gates.as_str(), 0, CNF_GATE_LIMIT)?;
            let said = options_after(SaidOptions::NONE, options)?;
            cnf_of(gates, said)
        }
        [] => None,
    }
}

/// The command of this word with those behind it.
fn command_in(word: &str, words: &[String]) -> Option<Command>
    ensures { result ≡ command_of (word.now ∷ map string_bytes words.now) }
{
    if word == "synth" {
        let said = options_after(SaidOptions::NONE, words)?;
        return Some(synth_of(said));
    }
    if word == "normal" {
        return alone(Command::Normal, words);
    }
    if word == "cnf" {
        return cnf_in(words);
    }
    if word == "lrat" {
        return alone(Command::Lrat, words);
    }
    if word == "solve" {
        let said = options_after(SaidOptions::NONE, words)?;
        return solve_of(said);
    }
    if word == "check" {
        return alone(Command::Check, words);
    }
    if word == "verilog" {
        return alone(Command::Verilog, words);
    }
    None
}

/// The command that the words name, without the program's name. There is none where they are outside the usage line.
pub fn read_words(words: &[String]) -> Option<Command>
    ensures { result ≡ command_of (map string_bytes words.now) }
{
    match words {
        [word, words @ ..] => command_in(word.as_str(), words),
        [] => None,
    }
}
