//! The states of the handshake machine and its events.

use cpog_base::{OpId, OpSet, ScenId};

/// A state: nothing runs; a scenario runs, with some operations acknowledged; or it returns, with the acknowledges
/// that still stand.
#[derive(Clone, Copy, Debug)]
pub enum Machine {
    Idle,
    Running { scenario: ScenId, acked: OpSet },
    Returning { scenario: ScenId, acked: OpSet },
}

/// What happens on the wires: go rises on a word, an acknowledge rises, go falls, an acknowledge falls.
#[derive(Clone, Copy, Debug)]
pub enum Event {
    Start(u8),
    Ack(OpId),
    Finish,
    Drop(OpId),
}
