//! One parse of a command line by `clap`, and the values that it gives.
//!
//! A command whose arguments all have a value, because each is required or has a default, is parsed
//! without any test of its own: the value of an argument passed the reader that the command gives it.
//!
//! ```text
//! let Some(matches) = parse(command, words)? else {
//!     return usage();
//! };
//! serve(text(&matches, "file"), number(&matches, "lines", 1, 100))
//! ```
//!
//! A command is made of its [`Argument`]s by [`with_all`].
ghost use Rattle.std.specs.Prelude.{◌≡◌, IfOk, IfSome, map, string_bytes, is_some};
ghost use Rattle.clap.specs.Words.{App, app_of, found_of, rows_of, takes, matches_of};
ghost use Rattle.requests.specs.Fit.{IsFit};
ghost use Rattle.requests.specs.Passed.{Passed};
ghost use Rattle.requests.specs.Same.{IsSame};

use clap::error::ErrorKind;
use clap::{ArgMatches, Command};
pub use containers::memory::Memory;

/// The matches of the words, of which the first is the program's name; `None` exactly where the
/// command does not take them.
///
/// A list of words that an argument may have is held by reference. Where its texts lie in memory is
/// of no account: the command stands for every command that is the same but for that.
pub fn parse<'a>(
    command: Command<'a>,
    words: &'a [String],
) -> Result<Option<ArgMatches<'a>>, Memory>
    requires { IsFit (app_of command) }
    ensures taken { (app : App) → IsSame (app_of command.entry) app
        → IfOk result (λ m. is_some m ≡ takes app (map string_bytes words.entry.now)) }
    ensures rows { (app : App) → IsSame (app_of command.entry) app
        → IfOk result (λ o. IfSome o (λ m. rows_of (found_of m) ≡ matches_of app (map string_bytes words.entry.now))) }
    // The value of each argument passed its reader.
    ensures passed { IfOk result (λ o. IfSome o (λ m. Passed (app_of command.entry).top.rules (rows_of (found_of m)))) }
{
    match command.try_get_matches_from(words) {
        Ok(matches) => Ok(Some(matches)),
        Err(error) => match error.kind() {
            ErrorKind::OutOfMemory => Err(Memory),
            _ => Ok(None),
        },
    }
}
