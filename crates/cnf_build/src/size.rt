//! How large a template is. Its numbers are sums of products, each of which fits a word of 64 bits.

ghost use Rattle.std.specs.Prelude.{◌≡◌, ◌+◌, ◌*◌, ◌<◌, ◌≤◌, if◌then◌else◌, length};
ghost use Rattle.std.specs.List.{All};
ghost use Rattle.gate_template.specs.Templates.{template, shape_of};
ghost use Rattle.gate_template.specs.Variables.{variables};
ghost use Rattle.clause_arena.specs.Arenas.{literals};
ghost use Rattle.gate_template.specs.Counts.{defined, all_defined, open_bits};
ghost use Rattle.cnf_build.specs.Sizes.{IsAsked};
ghost use Rattle.gate_template.specs.Counts.{pairs};
ghost use Rattle.gate_template.specs.Counts.{further_count};
ghost use Rattle.cnf_build.specs.Evidence.{template_for};
ghost use Rattle.cnf_build.specs.Totals.{AreFew, variable_total, clause_total, literal_total};

use crate::given::{given_at, is_defined, is_given_by_some};
use crate::numbers::{pairs_below, selections_of};
use cpog_base::{Column, Pattern, ScenId};
use cpog_merge::ClassList;
use gate_template::Template;

/// The most gates of a template, so that its counts are far below 2 to the power 64.
pub const GATE_LIMIT: u32 = 65535;

/// A law: the limit is this number.
pub fn gate_limit_is_this()
    ensures { GATE_LIMIT ≡ 65535 }
{}

/// How many variables, clauses and literals a template has.
#[derive(Clone, Copy, Debug, PartialEq, Eq)]
pub struct TemplateSize {
    pub variables: u64,
    pub clauses: u64,
    pub literals: u64,
}

/// 1 for what holds, else 0.
fn one_if(b: bool) -> u64
    ensures { result ≡ (if b then 1 else 0) }
{
    if b { 1 } else { 0 }
}

/// How many entries of a column ask for a bit.
fn defined_entries(column: &Column) -> u64
    ensures { result ≡ defined column.now }
{
    let mut count = 0;
    for s in 0..column.len() {
        count += one_if(is_defined(column.get(ScenId(s))));
    }
    count
}

/// How many entries of columns ask for a bit.
fn all_defined_entries(columns: &[Column]) -> u64
    requires few { length columns.now ≤ 16384 }
    requires entries { All (λ column. length column ≤ 64) columns.now }
    ensures count { result ≡ all_defined columns.now }
    ensures few { result ≤ 1048576 }
{
    let mut count = 0;
    for c in 0..columns.len() {
        count += defined_entries(&columns[c]);
    }
    count
}

/// How many entries of a pattern give a bit.
fn given_entries(pattern: &Pattern) -> u64
    ensures { result ≡ defined pattern.now }
{
    let mut count = 0;
    for i in 0..pattern.len() {
        count += one_if(is_defined(given_at(pattern, i)));
    }
    count
}

/// How many entries of patterns give a bit.
fn all_given_entries(patterns: &[Pattern]) -> u64
    requires few { length patterns.now ≤ 64 }
    requires entries { All (λ pattern. length pattern ≤ 8) patterns.now }
    ensures count { result ≡ all_defined patterns.now }
    ensures few { result ≤ 512 }
{
    let mut count = 0;
    for s in 0..patterns.len() {
        count += given_entries(&patterns[s]);
    }
    count
}

/// The template that a search asks: the third where a bit is given, else the second, under which codes are free.
pub fn template_for(given: &[Pattern]) -> Template
    requires few { length given.now ≤ 64 }
    requires entries { All (λ pattern. length pattern ≤ 8) given.now }
    ensures { result ≡ template_for given.now }
{
    if all_given_entries(given) == 0 {
        Template::Second
    } else {
        Template::Third
    }
}

/// How many of the first bits no pattern gives.
fn bits_left(patterns: &[Pattern], bits: u8) -> u64
    requires { All (λ pattern. length pattern ≡ bits) patterns.now }
    ensures count { result ≡ open_bits patterns.now bits }
    ensures few { result ≤ bits }
{
    let mut count = 0;
    for i in 0..bits {
        count += one_if(!is_given_by_some(patterns, i));
    }
    count
}

/// How many clauses of one literal a template adds to the first.
fn further_size(kind: Template, patterns: &[Pattern], bits: u8) -> u64
    requires few { length patterns.now ≤ 64 }
    requires few_bits { bits ≤ 8 }
    requires entries { All (λ pattern. length pattern ≡ bits) patterns.now }
    ensures count { result ≡ further_count kind bits patterns.now }
    ensures few { result ≤ 520 }
{
    match kind {
        Template::First => 0,
        Template::Second => u64::from(bits),
        Template::Third => all_given_entries(patterns) + bits_left(patterns, bits),
    }
}

/// How many pairs of scenarios there are.
fn scenario_pairs(scenarios: u64) -> u64
    requires { scenarios ≤ 64 }
    ensures count { result ≡ pairs scenarios }
    ensures few { result ≤ 2016 }
{
    pairs_below(scenarios)
}

/// The numbers that the sizes of a template are made of.
#[derive(Clone, Copy)]
struct Totals {
    scenarios: u64,
    bits: u64,
    gates: u64,
    classes: u64,
    pairs: u64,
    selections: u64,
    entries: u64,
    further: u64,
}

fn variables_of(t: Totals) -> u64
    requires { AreFew t }
    ensures { result ≡ variable_total t }
{
    t.scenarios * t.bits
        + t.pairs * t.bits
        + t.selections
        + t.gates * 3
        + t.gates * t.scenarios
        + t.classes * (t.bits + t.gates)
        + t.classes
}

fn clauses_of(t: Totals) -> u64
    requires { AreFew t }
    ensures { result ≡ clause_total t }
{
    t.pairs * (t.bits * 2 + 1)
        + (t.gates + t.selections * (t.scenarios * 7))
        + (t.classes + (t.bits + t.gates) * (t.entries * 2))
        + t.further
}

fn literals_of(t: Totals) -> u64
    requires { AreFew t }
    ensures { result ≡ literal_total t }
{
    t.pairs * (t.bits * 7)
        + t.selections * (t.scenarios * 34 + 1)
        + (t.classes * (t.bits + t.gates) + (t.bits + t.gates) * (t.entries * 6))
        + t.further
}

/// How many variables, clauses and literals a template has. It says so before anything is made, and takes no memory.
pub fn template_size(
    kind: Template,
    classes: &ClassList,
    given: &[Pattern],
    bits: u8,
    gates: u32,
) -> TemplateSize
    requires { IsAsked given.now bits gates classes.now.columns }
    ensures variables { result.variables ≡ length (variables (shape_of given.now bits gates classes.now.columns)) }
    ensures clauses { result.clauses ≡ length (template kind given.now bits gates classes.now.columns) }
    ensures literals { result.literals ≡ literals (template kind given.now bits gates classes.now.columns) }
{
    let totals = Totals {
        scenarios: given.len() as u64,
        bits: u64::from(bits),
        gates: u64::from(gates),
        classes: u64::from(classes.count()),
        pairs: scenario_pairs(given.len() as u64),
        selections: selections_of(u64::from(bits), u64::from(gates)),
        entries: all_defined_entries(classes.columns()),
        further: further_size(kind, given, bits),
    };
    TemplateSize {
        variables: variables_of(totals),
        clauses: clauses_of(totals),
        literals: literals_of(totals),
    }
}
