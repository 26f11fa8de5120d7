ghost use Rattle.std.specs.Prelude.{◌≡◌, IfOk};
ghost use Rattle.std.specs.String.{string_bytes};
ghost use Rattle.refusal_lines.specs.Refusal.{counted_word, names_text, scenario_text, limit_text, no_text, no_name_text, no_names_text, no_order_text, no_line_text, no_member_text, refusal_text};

use cpog_base::{Counted, Memory, Name};
use std::alloc::Global;

/// Why nothing is made of an input.
#[derive(Debug, Drop)]
pub enum Refusal {
    /// The words are outside the usage line.
    Usage,
    /// The source failed.
    ReadFault,
    /// This line, counted from 1, is the first that may not stand in its place.
    Text(u32),
    /// On this line a name is defined or bound again.
    Duplicate {
        line: u32,
        name: Name,
    },
    /// On this line a graph is named that no earlier line defines.
    UnknownGraph {
        line: u32,
        name: Name,
    },
    /// On this line a parameter is named that no earlier line defines.
    UnknownParam {
        line: u32,
        name: Name,
    },
    /// The scenario on this line, the first such, leaves this parameter open, the least such.
    Unbound {
        line: u32,
        name: Name,
    },
    /// The text has no scenario.
    NoScenario,
    /// In this scenario, the first such, this operation is the least one before itself.
    Cyclic {
        scenario: Name,
        operation: Name,
    },
    /// The first scenario is equal to the second: the least one that is equal to an earlier one, and the first such.
    Equal {
        later: Name,
        earlier: Name,
    },
    /// There are more of something than this number.
    Limit {
        what: Counted,
        number: u32,
    },
    /// This line of a log is the first that doesn't follow, and this hint of it the first that breaks the rule.
    /// Both are counted from 1, and the hint is 0 where the cause lies in none.
    NoLine {
        line: u32,
        hint: u32,
    },
    /// All lines of a log follow, and none is empty.
    NoEmptyClause,
    /// A report isn't good: in this scenario, the first such, this operation is the least one before itself.
    NoCyclic {
        scenario: Name,
        operation: Name,
    },
    /// The first scenario is equal to the second: the least one that is equal to an earlier one, and the first such.
    NoEqual {
        later: Name,
        earlier: Name,
    },
    /// The first scenario has the code of the second: the least one that has an earlier one's, and the first such.
    NoCodes {
        later: Name,
        earlier: Name,
    },
    /// This scenario is the first whose code hasn't its given bits.
    NoGiven(Name),
    /// This scenario is the first that its code doesn't leave, and this operation the first that tells it.
    NoOperation {
        scenario: Name,
        operation: Name,
    },
    /// The same where the operations are left, and these two are the first pair that tells it.
    NoOrder {
        scenario: Name,
        first: Name,
        second: Name,
    },
    /// The module is another one than that of the names, gates and conditions.
    NoNetlist,
    /// The bounds don't fit the number of gates.
    NoCount,
    /// The evidence doesn't speak of the lower bound.
    NoEvidence,
    /// This member of a count, from 1, is the first that doesn't count.
    NoEvidenceCondition(u32),
    /// This line of a refutation, from 1, is the first that doesn't follow, and this hint of it, from 1 or 0, breaks the rule.
    NoRefutationLine {
        line: u32,
        hint: u32,
    },
    /// All lines of a refutation follow, and none is empty.
    NoRefutationEmpty,
    /// The open part doesn't stand between the bounds.
    NoOpen,
    /// This line of an open log, from 1, is the first that doesn't follow, and this hint of it, from 1 or 0, breaks the rule.
    NoOpenLine {
        line: u32,
        hint: u32,
    },
    /// An open log has fewer numbers than the budget.
    NoOpenShort,
}

/// The word for what a limit counts.
fn word_of(what: Counted) -> &'static str
    ensures { result.now ≡ counted_word what }
{
    match what {
        Counted::Input => "input",
        Counted::Params => "params",
        Counted::Graphs => "graphs",
        Counted::Scenarios => "scenarios",
        Counted::Operations => "operations",
        Counted::Bits => "bits",
        Counted::Template => "template",
        Counted::Variables => "variables",
    }
}

/// The line that says what is wrong with a name.
fn names_line(alloc: Global, line: u32, what: &str, name: &Name) -> Result<String, Memory>
    ensures { IfOk result (λ text. string_bytes text ≡ names_text line what.now name.now) }
{
    let name = name.as_str();
    let text = format!(in alloc; "cpog: names: line {line}: {what} {name}\n")?;
    Ok(text)
}

/// The line that says what is wrong with a scenario, by the name of another thing.
fn scenario_line(
    alloc: Global,
    what: &str,
    scenario: &Name,
    kind: &str,
    other: &Name,
) -> Result<String, Memory>
    ensures { IfOk result (λ text. string_bytes text ≡ scenario_text what.now scenario.now kind.now other.now) }
{
    let scenario = scenario.as_str();
    let other = other.as_str();
    let text = format!(in alloc; "cpog: {what}: scenario {scenario}: {kind} {other}\n")?;
    Ok(text)
}

/// The line that says which limit is passed.
fn limit_line(alloc: Global, what: Counted, number: u32) -> Result<String, Memory>
    ensures { IfOk result (λ text. string_bytes text ≡ limit_text what number) }
{
    let word = word_of(what);
    let text = format!(in alloc; "cpog: limit: {word} {number}\n")?;
    Ok(text)
}

/// The line that says in these words why something isn't good.
fn no_words(alloc: Global, what: &str) -> Result<String, Memory>
    ensures { IfOk result (λ text. string_bytes text ≡ no_text what.now) }
{
    let text = format!(in alloc; "cpog: no: {what}\n")?;
    Ok(text)
}

/// The same of a name.
fn no_name(alloc: Global, what: &str, name: &Name) -> Result<String, Memory>
    ensures { IfOk result (λ text. string_bytes text ≡ no_name_text what.now name.now) }
{
    let name = name.as_str();
    let text = format!(in alloc; "cpog: no: {what} {name}\n")?;
    Ok(text)
}

/// The same of two names.
fn no_names(alloc: Global, what: &str, first: &Name, second: &Name) -> Result<String, Memory>
    ensures { IfOk result (λ text. string_bytes text ≡ no_names_text what.now first.now second.now) }
{
    let first = first.as_str();
    let second = second.as_str();
    let text = format!(in alloc; "cpog: no: {what} {first} {second}\n")?;
    Ok(text)
}

/// The same of the order of two operations in a scenario.
fn no_order(alloc: Global, scenario: &Name, first: &Name, second: &Name) -> Result<String, Memory>
    ensures { IfOk result (λ text. string_bytes text ≡ no_order_text scenario.now first.now second.now) }
{
    let scenario = scenario.as_str();
    let first = first.as_str();
    let second = second.as_str();
    let text = format!(in alloc; "cpog: no: order {scenario} {first} {second}\n")?;
    Ok(text)
}

/// The same of a line and a hint of it.
fn no_line(alloc: Global, what: &str, line: u32, hint: u32) -> Result<String, Memory>
    ensures { IfOk result (λ text. string_bytes text ≡ no_line_text what.now line hint) }
{
    let text = format!(in alloc; "cpog: no: {what} {line} hint {hint}\n")?;
    Ok(text)
}

/// The same of a member of a count.
fn no_member(alloc: Global, member: u32) -> Result<String, Memory>
    ensures { IfOk result (λ text. string_bytes text ≡ no_member_text member) }
{
    let text = format!(in alloc; "cpog: no: evidence condition {member}\n")?;
    Ok(text)
}

/// The line that says why, with its line feed.
///
/// # Errors
///
/// `Memory` where none is left.
pub fn refusal_line(alloc: Global, refusal: &Refusal) -> Result<Vec<u8>, Memory>
    ensures { IfOk result (λ line. line.items ≡ refusal_text refusal.now) }
{
    let line = match refusal {
        Refusal::Usage => format!(in alloc;
            "cpog: usage: synth [--bits D] [--budget D] [--exact] | normal | cnf G [--bits D] | solve [--budget D] | lrat | check | verilog | sim | bulk N\n"
        )?,
        Refusal::ReadFault => format!(in alloc; "cpog: read fault\n")?,
        Refusal::Text(line) => format!(in alloc; "cpog: text: line {line}\n")?,
        Refusal::Duplicate { line, name } => names_line(alloc, *line, "duplicate", name)?,
        Refusal::UnknownGraph { line, name } => names_line(alloc, *line, "unknown graph", name)?,
        Refusal::UnknownParam { line, name } => {
            names_line(alloc, *line, "unknown parameter", name)?
        }
        Refusal::Unbound { line, name } => names_line(alloc, *line, "unbound parameter", name)?,
        Refusal::NoScenario => format!(in alloc; "cpog: names: no scenario\n")?,
        Refusal::Cyclic {
            scenario,
            operation,
        } => scenario_line(alloc, "cyclic", scenario, "operation", operation)?,
        Refusal::Equal { later, earlier } => {
            scenario_line(alloc, "equal", later, "scenario", earlier)?
        }
        Refusal::Limit { what, number } => limit_line(alloc, *what, *number)?,
        Refusal::NoLine { line, hint } => no_line(alloc, "line", *line, *hint)?,
        Refusal::NoEmptyClause => no_words(alloc, "no empty clause")?,
        Refusal::NoCyclic {
            scenario,
            operation,
        } => no_names(alloc, "cyclic", scenario, operation)?,
        Refusal::NoEqual { later, earlier } => no_names(alloc, "equal", later, earlier)?,
        Refusal::NoCodes { later, earlier } => no_names(alloc, "codes", later, earlier)?,
        Refusal::NoGiven(scenario) => no_name(alloc, "given", scenario)?,
        Refusal::NoOperation {
            scenario,
            operation,
        } => no_names(alloc, "operation", scenario, operation)?,
        Refusal::NoOrder {
            scenario,
            first,
            second,
        } => no_order(alloc, scenario, first, second)?,
        Refusal::NoNetlist => no_words(alloc, "netlist")?,
        Refusal::NoCount => no_words(alloc, "count")?,
        Refusal::NoEvidence => no_words(alloc, "evidence")?,
        Refusal::NoEvidenceCondition(member) => no_member(alloc, *member)?,
        Refusal::NoRefutationLine { line, hint } => {
            no_line(alloc, "refutation line", *line, *hint)?
        }
        Refusal::NoRefutationEmpty => no_words(alloc, "refutation no empty clause")?,
        Refusal::NoOpen => no_words(alloc, "open")?,
        Refusal::NoOpenLine { line, hint } => no_line(alloc, "open line", *line, *hint)?,
        Refusal::NoOpenShort => no_words(alloc, "open short")?,
    };
    Ok(line.into_bytes())
}
