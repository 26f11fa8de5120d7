//! The answers that refuse an input end the making of an answer, as want of memory does.
ghost use Rattle.std.specs.Prelude.{◌≡◌};
ghost use Rattle.refusal_lines.specs.declared.stop.Stop.TheVariants as stop;
ghost use Rattle.refusal_lines.specs.Refusal.{Tells};
ghost use Rattle.refusal_lines.specs.Stops.{IsStop};

use crate::refusal::{Refusal, refusal_line};
use cpog_base::{Memory, Status};
use std::alloc::Global;

/// How the program ends, and what it prints.
#[derive(Drop)]
pub struct Answer {
    pub status: Status,
    pub output: Vec<u8>,
}

/// Why nothing more is made of an input.
#[derive(Drop)]
pub enum Stop {
    /// This answer refuses it.
    Refused(Answer),
    /// No memory was left.
    Memory,
}

impl From<Memory> for Stop {
    ghost from_gives = { λ _ e. e ≡ stop.Memory };

    fn from(_error: Memory) -> Stop {
        Stop::Memory
    }
}

/// Tells a refusal at a status.
pub fn refuse(alloc: Global, status: Status, refusal: &Refusal) -> Stop
    ensures { IsStop (Tells status refusal.now) result }
{
    match refusal_line(alloc, refusal) {
        Ok(output) => Stop::Refused(Answer { status, output }),
        Err(Memory) => Stop::Memory,
    }
}
