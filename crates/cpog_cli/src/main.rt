//! The program: the words of the command line and the standard streams round the one call of `cpog_app`. Its exit
//! status is that call's status number. Where a word isn't text it prints nothing and ends with 14, and where memory is
//! refused before the call it prints nothing and ends with 1.
#![tactic(auto)]

ghost use Rattle.std.specs.Prelude.{◌≡◌, IfOk, IfErr};
ghost use Rattle.std.specs.IoError.{error_kind};
ghost use Rattle.std.specs.Process.{exit_status};
ghost use Rattle.cpog_base.specs.Status.{number_of};

use cpog_app::run_cpog;
use cpog_base::Status;
use cpog_outside::{StdSink, StdSource};
use std::io::ErrorKind;
use std::process::ExitCode;
use std::{env, io};

/// The exit status where a word isn't text, which no run of the call gives.
const NOT_TEXT: u8 = 14;

/// The words of the command line, without the program's name.
fn words_of(rt: &HostRuntime) -> io::Result<Vec<String>> {
    let mut words = Vec::new(rt.alloc());
    for word in env::args(rt)?.skip(1) {
        words.push(word)?;
    }
    Ok(words)
}

/// The status of the call on the words and the standard streams.
fn run(rt: &HostRuntime) -> io::Result<Status> {
    let words = words_of(rt)?;
    let mut source = StdSource::new(rt.reader());
    let mut sink = StdSink::new(io::writer(rt));
    Ok(run_cpog(rt.alloc(), words.as_slice(), &mut source, &mut sink))
}

/// How the process ends: with the call's status, or without a call where the words can't be had.
fn exit_code(ended: io::Result<Status>) -> ExitCode
    ensures ran { IfOk ended (λ status. exit_status result ≡ number_of status) }
    ensures no_memory { IfErr ended (λ error. error_kind error ≡ ErrorKind.OutOfMemory → exit_status result ≡ 1) }
    ensures not_text { IfErr ended (λ error. ¬ (error_kind error ≡ ErrorKind.OutOfMemory) → exit_status result ≡ 14) }
{
    let number = match ended {
        Ok(status) => status.number(),
        Err(error) if error.kind() == ErrorKind::OutOfMemory => Status::Memory.number(),
        Err(_) => NOT_TEXT,
    };
    ExitCode::from(number)
}

fn main(rt: HostRuntime) -> ExitCode {
    exit_code(run(&rt))
}
