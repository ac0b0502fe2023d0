//! A program: the system gives it words, and it ends with the status that its top call answers.
ghost use Rattle.std.specs.Prelude.{◌≡◌, IsErr};
ghost use Rattle.std.specs.Process.{exit_status};

use crate::{NO_WORDS, Status, words_of};
use std::alloc::Global;
use std::env::Args;
use std::io;
use std::process::ExitCode;

/// A program over a system `H`.
pub trait Program<H> {
    /// Runs the program on the words after its name.
    fn run(rt: &H, alloc: Global, words: &[String]) -> Status;
}

/// Runs a program on the words that the system gives, of which the first names it.
pub fn start<H, P: Program<H>>(rt: &H, alloc: Global, given: io::Result<Args<Global>>) -> ExitCode
    ensures no_words { IsErr given → exit_status result ≡ 9 }
{
    let Some(words) = words_of(alloc, given) else {
        return ExitCode::from(NO_WORDS);
    };
    ExitCode::from(P::run(rt, alloc, &words).0)
}
