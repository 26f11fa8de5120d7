//! What is promised of templates.

ghost use Rattle.gate_template.specs.Laws.{TemplateLifts, RefutedTemplatesBound, FlippedSolutionsHaveZeros, SecondIsThirdWithOpenBits, TemplateIsWithin, TemplateIsCounted, VariablesAreFew};

/// A template is satisfiable exactly where the scenarios have an encoding of at most so many gates (Mokhov and Yakovlev
/// 2010: the encoding of scenarios as a search for satisfying assignments), whatever the number of the template.
pub fn template_lifts()
    ensures { TemplateLifts }
{}

/// A refutation of a template is a lower bound on the gates of every encoding that keeps the given bits, whatever the
/// number of the template.
pub fn refuted_templates_bound()
    ensures { RefutedTemplatesBound }
{}

/// What `flip` of `gate_forms` answers, for a mask of the open bits of the first code, is a solution whose first code is as
/// the template asks. So each solution gives an assignment that satisfies the template.
pub fn flipped_solutions_have_zeros()
    ensures { FlippedSolutionsHaveZeros }
{}

/// The second template is the third one with every bit open.
pub fn second_is_third_with_open_bits()
    ensures { SecondIsThirdWithOpenBits }
{}

/// The variable of each literal of a template is one of the template's.
pub fn template_is_within()
    ensures { TemplateIsWithin }
{}

/// How many variables, clauses and literals a template has.
pub fn template_is_counted()
    ensures { TemplateIsCounted }
{}

/// A template of open columns has no more variables than literals.
pub fn variables_are_few()
    ensures { VariablesAreFew }
{}
