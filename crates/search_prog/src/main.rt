//! The program that walks through states: it hands the words, the system's files, the standard input and the standard output to the top call,
//! and ends with its status.
#![tactic(auto)]

ghost use Rattle.std.specs.Prelude.{◌≡◌, IsErr};
ghost use Rattle.std.specs.Process.{exit_status};

use pl_io::{FileShelf, FileTape, OutSink};
use plan_endings::{NO_WORDS, words_of};
use search_top::top::run;
use std::alloc::{AllocGlobal, Global};
use std::env::{self, Args};
use std::io;
use std::process::ExitCode;
use std::rt::Files;
use std::thread::Threads;

/// Runs the program on the words that the system gives, of which the first names it.
fn run_program<H: Files + Input + Print + Threads + Sync + AllocGlobal>(
    rt: &H,
    alloc: Global,
    given: io::Result<Args<Global>>,
) -> ExitCode
    ensures no_words { IsErr given → exit_status result ≡ 9 }
{
    let Some(words) = words_of(alloc, given) else {
        return ExitCode::from(NO_WORDS);
    };
    let mut shelf = FileShelf::new(rt, alloc);
    let mut tape = FileTape::new(rt);
    let mut sink = OutSink::new(rt);
    let status = run(rt, alloc, &words, &mut shelf, &mut tape, &mut sink);
    ExitCode::from(status.0)
}

fn main(rt: HostRuntime) -> ExitCode {
    run_program(&rt, rt.alloc(), env::args(&rt))
}
