//! The program `flutejoin`: `main` calls `run` with the words and the system, and ends with its
//! status.
#![tactic(auto)]

ghost use Rattle.std.specs.Prelude.{◌≡◌, ◌⊎◌, OnOk, IfErr};
ghost use Rattle.std.specs.Process.{exit_status};
ghost use Rattle.flutejoin.specs.Status.{exit_status as status_of};
ghost use Rattle.flutejoin.specs.declared.command_fault.CommandFault.TheVariants.{CommandLine};

mod aside;
mod asides;
mod input;
mod system;

use crate::system::System;
use flute_output::{LimitedStream, take_standard_streams};
use flute_parts::StdSink;
use flutejoin::CommandFault;
use flutejoin_run::run;
use std::env;
use std::io::{self, BufWriter, ErrorKind};
use std::process::ExitCode;
use std::rt::{Stderr, Stdout};

/// How many bytes of standard output are written at once.
const BUFFER: usize = 131_072;

type Output = LimitedStream<HostRuntime, Stdout>;

type Errors = LimitedStream<HostRuntime, Stderr>;

fn main(rt: HostRuntime) -> ExitCode {
    take_standard_streams(&rt);
    let output = LimitedStream::new(rt, rt.stdout());
    let errors = LimitedStream::new(rt, rt.stderr());
    end(&output, &errors, run_words(&rt, &output, &errors))
}

/// The status that the program ends with.
fn end(output: &Output, errors: &Errors, done: Result<(), CommandFault>) -> ExitCode
    ensures success { OnOk done (exit_status result ≡ 0) }
    ensures failed { IfErr done (λ fault. (exit_status result ≡ status_of fault)
        ⊎ ((error : _) × (fault ≡ CommandLine error))) }
{
    match done {
        Ok(()) => ExitCode::SUCCESS,
        // A refusal goes to standard error, and help and the version to standard output.
        Err(CommandFault::CommandLine(error)) => {
            if error.use_stderr() {
                let _ = errors.print(&error);
            } else if output.print(&error).is_err() {
                return fail(errors, &CommandFault::CannotWrite);
            }
            ExitCode::from(error.exit_code() as u8)
        }
        Err(fault) => fail(errors, &fault),
    }
}

fn run_words(rt: &HostRuntime, output: &Output, errors: &Errors) -> Result<(), CommandFault> {
    let words = match words_of(rt) {
        Ok(words) => words,
        Err(error) if error.kind() == ErrorKind::OutOfMemory => {
            return Err(CommandFault::OutOfMemory);
        }
        Err(_) => return Err(CommandFault::NotText),
    };
    // Nothing that is printed asks for memory.
    let Ok(writer) = BufWriter::with_capacity(rt.alloc(), BUFFER, io::writer(output)) else {
        return Err(CommandFault::OutOfMemory);
    };
    let mut output = StdSink::new(writer);
    let mut errors = StdSink::new(io::writer(errors));
    run(
        &mut System::new(rt),
        rt.alloc(),
        words.as_slice(),
        &mut output,
        &mut errors,
    )
}

/// The words after the program's name. One request for memory may be refused without a fault:
/// `collect` falls back to a capacity of one if its size hint can't be allocated.
fn words_of(rt: &HostRuntime) -> io::Result<Vec<String>> {
    let words = env::args(rt)?.skip(1).collect(rt.alloc())?;
    Ok(words)
}

/// Prints the fault on standard error, and returns its status.
fn fail(errors: &Errors, fault: &CommandFault) -> ExitCode
    ensures { exit_status result ≡ status_of fault.now }
{
    let _ = errors.println(fault);
    ExitCode::from(fault.status())
}
