//! What `cnf` answers to a graph text: the formula that asks for an encoding of its scenarios with so many gates.
ghost use Rattle.std.specs.Prelude.{◌≡◌, ◌<◌, ◌≤◌, IfOk, IfErr, OnOk, OnErr, length};
ghost use Rattle.std.specs.String.{string_bytes};
ghost use Rattle.cpog_base.specs.declared.limits.Counted.TheVariants as counted;
ghost use Rattle.cpog_base.specs.declared.status.Status.TheVariants as status;
ghost use Rattle.clause_arena.specs.Arenas.{literals};
ghost use Rattle.dimacs_text.specs.Writing.{formula_lines};
ghost use Rattle.line_text.specs.Lines.{text_of};
ghost use Rattle.text_rows.specs.Lines.{IsUnbroken};
ghost use Rattle.refusal_lines.specs.declared.refusal.Refusal.TheVariants as refusals;
ghost use Rattle.graph_answers.specs.Answers.{IsGraphTextAnswer, IsCnfAnswer};
ghost use Rattle.graph_answers.specs.Bits.{cnf_length};
ghost use Rattle.command_words.specs.Ranges.{MayBeFormula};
ghost use Rattle.graph_answers.specs.Encodable.{IsEncodable};
ghost use Rattle.graph_answers.specs.Formula.{AreClassesIn, IsQuestion, open_template, open_variables, comment_text};
ghost use Rattle.refusal_lines.specs.Refusal.{Tells};
ghost use Rattle.refusal_lines.specs.Stops.{IsStop};

use crate::encodable::{CodeLength, Encodable, encodable_of};
use crate::graph_text::file_of;
use cnf_build::{Template, build, template_size};
use command_words::{CNF_GATE_LIMIT, CnfOptions};
use cpog_base::{Counted, INPUT_LIMIT, Memory, Pattern, Status, TEMPLATE_LIMIT};
use cpog_merge::{ClassList, classes, merge};
use dimacs_text::write_cnf;
use gate_core::free_patterns;
use refusal_lines::{Answer, Refusal, Stop, refuse};
use std::alloc::Global;

/// The classes of scenarios that can be encoded, and a pattern without a given bit for the code of each scenario.
#[derive(Drop)]
struct Question {
    classes: ClassList,
    given: Vec<Pattern>,
    bits: u8,
}

/// What a formula is made of, for a file whose scenarios can be encoded.
fn question_of(alloc: Global, options: CnfOptions, encodable: Encodable) -> Result<Question, Memory>
    requires { IsEncodable (cnf_length options) encodable.file encodable }
    ensures classes { IfOk result (λ q. AreClassesIn options encodable.file (length q.given.items) q.bits q.classes) }
    ensures question { IfOk result IsQuestion }
{
    let orders = encodable.orders.as_slice();
    let columns = merge(alloc, orders)?;
    let classes = classes(alloc, &columns)?;
    let given = free_patterns(alloc, orders.len(), encodable.bits)?;
    Ok(Question {
        classes,
        given,
        bits: encodable.bits,
    })
}

/// The comment that says what a formula asks for.
fn comment_of(alloc: Global, gates: u32, question: &Question) -> Result<String, Memory>
    requires { IsQuestion question.now }
    ensures text { IfOk result (λ text. string_bytes text ≡ comment_text (length question.now.given.items) question.now.bits gates (length question.now.classes.columns)) }
    ensures line { IfOk result (λ text. IsUnbroken (string_bytes text)) }
{
    let scenarios = question.given.as_slice().len();
    let bits = question.bits;
    let classes = question.classes.columns().len();
    let text = format!(in alloc;
        "cpog template 2 scenarios {scenarios} bits {bits} gates {gates} classes {classes}"
    )?;
    Ok(text)
}

/// Refuses a formula of too many literals.
fn check_size(alloc: Global, gates: u32, question: &Question) -> Result<(), Stop>
    requires gates { gates ≤ CNF_GATE_LIMIT }
    requires question { IsQuestion question.now }
    ensures ok { OnOk result (literals (open_template (length question.now.given.items) question.now.bits gates question.now.classes) ≤ TEMPLATE_LIMIT) }
    ensures large { OnErr result (TEMPLATE_LIMIT < literals (open_template (length question.now.given.items) question.now.bits gates question.now.classes)) }
    ensures err { IfErr result (IsStop (Tells status.Limit (refusals.Limit counted.Template TEMPLATE_LIMIT))) }
{
    let size = template_size(
        Template::Second,
        &question.classes,
        &question.given,
        question.bits,
        gates,
    );
    if size.literals > u64::from(TEMPLATE_LIMIT) {
        let refusal = Refusal::Limit {
            what: Counted::Template,
            number: TEMPLATE_LIMIT,
        };
        return Err(refuse(alloc, Status::Limit, &refusal));
    }
    Ok(())
}

/// The text of a formula that isn't too large.
fn formula_text(alloc: Global, gates: u32, question: &Question) -> Result<Vec<u8>, Memory>
    requires gates { gates ≤ CNF_GATE_LIMIT }
    requires question { IsQuestion question.now }
    requires size { literals (open_template (length question.now.given.items) question.now.bits gates question.now.classes) ≤ TEMPLATE_LIMIT }
    ensures { IfOk result (λ text. text.items ≡ text_of (formula_lines
        (comment_text (length question.now.given.items) question.now.bits gates (length question.now.classes.columns))
        (open_variables (length question.now.given.items) question.now.bits gates question.now.classes)
        (open_template (length question.now.given.items) question.now.bits gates question.now.classes))) }
{
    let cnf = build(
        alloc,
        Template::Second,
        &question.classes,
        &question.given,
        question.bits,
        gates,
    )?;
    let comment = comment_of(alloc, gates, question)?;
    write_cnf(alloc, comment.as_str(), &cnf)
}

/// The answer to a graph text: the formula of its file.
pub fn answer_cnf(alloc: Global, options: CnfOptions, bytes: &[u8]) -> Result<Answer, Stop>
    requires options { MayBeFormula options }
    requires few { length bytes.now ≤ INPUT_LIMIT }
    ensures ok { IfOk result (λ a. IsGraphTextAnswer (IsCnfAnswer options) bytes.now a.status a.output.items) }
    ensures err { IfErr result (IsStop (IsGraphTextAnswer (IsCnfAnswer options) bytes.now)) }
{
    let file = file_of(alloc, bytes)?;
    let asked = CodeLength {
        least: 2,
        said: options.bits,
    };
    let encodable = encodable_of(alloc, asked, file)?;
    let question = question_of(alloc, options, encodable)?;
    check_size(alloc, options.gates, &question)?;
    let output = formula_text(alloc, options.gates, &question)?;
    Ok(Answer {
        status: Status::Ok,
        output,
    })
}
