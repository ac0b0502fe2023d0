//! The commands, as `clap` is told of them.
ghost use Rattle.std.specs.Prelude.{◌≡◌, IfOk};
ghost use Rattle.clap.specs.Words.{app_of};
ghost use Rattle.requests.specs.Arguments.{TakesWords};
ghost use Rattle.search_top.specs.Command.{command_of, named, list_words};

use crate::limits::{MOST_COUNT, MOST_MEMORY};
use clap::Command;
use clap::builder::ValueParser;
use requests::{Argument, with_all};
use std::alloc::{AllocError, Global};

// The greatest numbers, in the type of a command line's numbers.
const GREATEST_COUNT: i64 = MOST_COUNT as i64;

const GREATEST_MEMORY: i64 = MOST_MEMORY as i64;

/// The commands, by the word that names each.
#[derive(Clone, Copy)]
pub enum Name {
    Search,
    Never,
    NeverSearch,
    System,
    NeverFormula,
    NeverJudge,
}

static HOW: [&str; 2] = ["greedy", "least"];

static FORMATS: [&str; 2] = ["blif", "aiger"];

/// The command that a word names.
pub(crate) fn name_of(word: &str) -> Option<Name>
    ensures { result ≡ named word.now }
{
    match word {
        "search" => Some(Name::Search),
        "never" => Some(Name::Never),
        "never-search" => Some(Name::NeverSearch),
        "system" => Some(Name::System),
        "never-formula" => Some(Name::NeverFormula),
        "never-judge" => Some(Name::NeverJudge),
        _ => None,
    }
}

/// The reader of the option of a command that takes a word of a list.
pub(crate) fn list_reader(name: Name) -> ValueParser<'static>
    ensures { TakesWords (list_words name) result }
{
    match name {
        Name::System => ValueParser::Names(FORMATS.as_slice()),
        Name::Search | Name::Never | Name::NeverSearch => ValueParser::Names(HOW.as_slice()),
        Name::NeverFormula | Name::NeverJudge => ValueParser::Names(HOW.as_slice()),
    }
}

/// The command of this name.
pub(crate) fn command_by<'a>(
    alloc: Global,
    name: Name,
    by: ValueParser<'a>,
) -> Result<Command<'a>, AllocError>
    ensures { IfOk result (λ c. app_of c ≡ command_of by.entry name) }
{
    let domain = Argument::Word("domain");
    let problem = Argument::Word("problem");
    let certificate = Argument::Word("certificate");
    match name {
        Name::Search => {
            let how = Argument::Long("how", by, "greedy");
            let states = ValueParser::Signed(1, GREATEST_COUNT);
            let states = Argument::Long("states", states, "4294967295");
            let memory = ValueParser::Signed(1, GREATEST_MEMORY);
            let memory = Argument::Long("memory", memory, "1024");
            with_all(alloc, "search", &[domain, problem, how, states, memory])
        }
        Name::Never => with_all(alloc, "never", &[domain, Argument::Words("problem")]),
        Name::NeverSearch => {
            let budget = ValueParser::Signed(1, GREATEST_COUNT);
            let budget = Argument::Long("budget", budget, "1000000");
            with_all(alloc, "never-search", &[domain, problem, budget])
        }
        Name::System => {
            let format = Argument::Long("format", by, "blif");
            with_all(alloc, "system", &[domain, problem, format])
        }
        Name::NeverFormula => with_all(alloc, "never-formula", &[domain, problem, certificate]),
        Name::NeverJudge => {
            let proof = Argument::Word("proof");
            with_all(alloc, "never-judge", &[domain, problem, certificate, proof])
        }
    }
}
