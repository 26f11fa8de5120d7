//! What shows that no encoding has fewer gates than a number, and what is left open above that number. A reader needs
//! nothing else: places are compared two by two, and a log is followed line by line over a template that is made again.

use cpog_merge::Place;
use gate_template::Template;
use proof_check::Log;

/// What shows that no encoding has fewer gates than a number.
#[derive(Drop)]
pub enum Evidence {
    /// The number is 0.
    Zero,
    /// Places any two of whose columns are incompatible, the bits of a code more than the number.
    Count(Vec<Place>),
    /// A log that refutes the template with so many gates, one fewer than the number.
    Refutation {
        template: Template,
        gates: u32,
        log: Log,
    },
}

/// What is left open between a lower bound and the gates of an encoding.
#[derive(Drop)]
pub enum OpenPart {
    /// Nothing: they are equal.
    Closed,
    /// A progress log that spends the budget on the template with so many gates, as many as the bound says.
    Log {
        template: Template,
        gates: u32,
        log: Log,
    },
    /// The template with so many gates, as many as the bound says, is too large to be tried.
    Size {
        template: Template,
        gates: u32,
    },
}
