//! What is allowed is one answer: the words and the bytes told decide the status and, but for what a search finds, the
//! output.
ghost use Rattle.cpog_app.specs.Complete.{RunsAreComplete};
ghost use Rattle.cpog_app.specs.Laws.{AllowedAgree};

/// Of the same words and the same told bytes, two allowed answers that are no read fault have the same status and the
/// same output. Where the words say `solve`, outputs of status `Ok` may be two finds of one formula.
pub fn allowed_answers_agree()
    ensures { AllowedAgree }
{}

/// Where no refusal has a cause, and no end fails, a run ends with status 0 or with want of memory.
pub fn runs_are_complete()
    ensures { RunsAreComplete }
{}
