//! A run over bytes in memory, and what is asked of it.
ghost use Rattle.std.specs.Prelude.{◌<◌, ◌≤◌};

use cpog_app::run_cpog;
use cpog_base::Status;
use cpog_outside::{MemSink, MemSource};
use std::alloc::Global;
use std::test::Fail;

/// The most bytes that a sink in these runs takes.
const ROOM: usize = 1048576;

/// How a run ended, and what was taken.
#[derive(Drop)]
pub struct Ending {
    pub status: Status,
    pub taken: Vec<u8>,
}

/// Runs the program on these words and bytes, which come and go by a few at a time.
pub fn run(alloc: Global, words: &[&str], input: &[u8]) -> Result<Ending, Fail> {
    run_failing(alloc, words, input, Vec::new(alloc), ROOM, Vec::new(alloc))
}

/// The same, where the reads and writes of these numbers fail, and the sink has so much room.
pub fn run_failing(
    alloc: Global,
    words: &[&str],
    input: &[u8],
    failing_reads: Vec<u32>,
    room: usize,
    failing_writes: Vec<u32>,
) -> Result<Ending, Fail> {
    let mut owned = Vec::new(alloc);
    for word in words {
        owned.push(String::from_str(alloc, word)?)?;
    }
    let mut source = MemSource::new(Vec::from_slice(alloc, input)?, 7, failing_reads);
    let mut sink = MemSink::new(alloc, room, 5, failing_writes)?;
    let status = run_cpog(alloc, owned.as_slice(), &mut source, &mut sink);
    let taken = Vec::from_slice(alloc, sink.taken())?;
    Ok(Ending { status, taken })
}
