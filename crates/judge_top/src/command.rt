//! The commands, as `clap` is told of them.
ghost use Rattle.std.specs.Prelude.{◌≡◌, IfOk};
ghost use Rattle.clap.specs.Words.{app_of};
ghost use Rattle.requests.specs.Arguments.{TakesWords};
ghost use Rattle.judge_top.specs.Command.{command_of, named, step_words};

use clap::Command;
use clap::builder::ValueParser;
use horizon_rates::LAST_HORIZON;
use requests::{Argument, with_all};
use std::alloc::{AllocError, Global};

// The greatest horizon, in the type of a command line's numbers.
const GREATEST_HORIZON: i64 = LAST_HORIZON as i64;

/// The commands, by the word that names each.
#[derive(Clone, Copy)]
pub enum Name {
    Formula,
    Judge,
    Model,
}

static STEPS: [&str; 2] = ["exists", "all"];

/// The command that a word names.
pub(crate) fn name_of(word: &str) -> Option<Name>
    ensures { result ≡ named word.now }
{
    match word {
        "formula" => Some(Name::Formula),
        "judge" => Some(Name::Judge),
        "model" => Some(Name::Model),
        _ => None,
    }
}

/// The reader of the kinds of steps.
pub(crate) fn steps_reader() -> ValueParser<'static>
    ensures { TakesWords step_words result }
{
    ValueParser::Names(STEPS.as_slice())
}

/// The command of this name.
pub(crate) fn command_by<'a>(
    alloc: Global,
    name: Name,
    by: ValueParser<'a>,
) -> Result<Command<'a>, AllocError>
    ensures { IfOk result (λ c. app_of c ≡ command_of by.entry name) }
{
    let domain = Argument::Word("domain");
    let problem = Argument::Word("problem");
    let horizon = Argument::Read("horizon", ValueParser::Signed(0, GREATEST_HORIZON));
    let steps = Argument::Long("steps", by, "exists");
    match name {
        Name::Formula => with_all(alloc, "formula", &[domain, problem, horizon, steps]),
        Name::Judge => with_all(
            alloc,
            "judge",
            &[domain, problem, horizon, Argument::Word("proof"), steps],
        ),
        Name::Model => with_all(
            alloc,
            "model",
            &[domain, problem, horizon, Argument::Word("model"), steps],
        ),
    }
}
