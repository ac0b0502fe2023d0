//! The planner as a program: it hands the words, the system's files and the standard output to the top call, and ends with
//! its status.
//!
//! In the gate it has one row of words and standard output; `bench/check/rows` then runs it on the rows of `bench/check/rows.d`. It ends with
//! status 9 where the system does not give the words.
#![tactic(auto)]

ghost use Rattle.std.specs.Prelude.{◌≡◌, IsErr};
ghost use Rattle.std.specs.Process.{exit_status};

use pl_io::{FileShelf, OutSink};
use plan_endings::{NO_WORDS, words_of};
use plan_top::run;
use poll_run::BlockOn;
use solver_pool::OpenGate;
use std::alloc::{AllocGlobal, Global};
use std::env::{self, Args};
use std::io;
use std::process::ExitCode;
use std::random::RandomSource;
use std::rt::Files;
use std::sync::Wait;
use std::thread::Threads;

/// Runs the planner on the words that the system gives, of which the first names the program.
fn run_program<H: Files + Print + Threads + Wait + Sync + RandomSource + AllocGlobal>(
    rt: &H,
    alloc: Global,
    given: io::Result<Args<Global>>,
) -> ExitCode
    ensures no_words { IsErr given → exit_status result ≡ 9 }
{
    let Some(words) = words_of(alloc, given) else {
        return ExitCode::from(NO_WORDS);
    };
    let mut shelf = FileShelf::new(rt, alloc);
    let mut sink = OutSink::new(rt);
    let mut driver = BlockOn::new(rt);
    let status = run(
        rt,
        alloc,
        &words,
        &mut shelf,
        &mut sink,
        &OpenGate,
        &mut driver,
    );
    ExitCode::from(status.0)
}

fn main(rt: HostRuntime) -> ExitCode {
    run_program(&rt, rt.alloc(), env::args(&rt))
}
