//! The words that the system gives a program.
ghost use Rattle.std.specs.Prelude.{◌≡◌, IsErr, None};

use std::alloc::Global;
use std::env::Args;
use std::io;

/// The exit status of a program where the system does not give the words, also for want of memory to hold them; no top call answers it.
pub const NO_WORDS: u8 = 9;

/// The words after the program's name; `None` where the system does not give them, or for want of memory to hold them.
pub fn words_of(alloc: Global, given: io::Result<Args<Global>>) -> Option<Vec<String>>
    ensures { IsErr given → result ≡ None }
{
    let Ok(given) = given else {
        return None;
    };
    given.skip(1).collect::<Vec<String>>(alloc).ok()
}
