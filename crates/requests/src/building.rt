//! The arguments of a command, as `clap` is told of them.
ghost use Rattle.std.specs.Prelude.{◌≡◌, ◌++◌, map, IfOk, OnOk, false};
ghost use Rattle.clap.specs.Words.{rule_of, app_of, with_rule, new_app};
ghost use Rattle.requests.specs.Arguments.{word, many_words, reading_word, option, rule_for, with_rules};

use clap::builder::ValueParser;
use clap::{Arg, ArgAction, Command};
use std::alloc::{AllocError, Global};

/// An argument of a command.
#[derive(Clone, Copy)]
pub enum Argument<'a> {
    /// A word that has to stand there.
    Word(&'a str),
    /// Words of which one or more have to stand there.
    Words(&'a str),
    /// A word that has to stand there, which this reader takes.
    Read(&'a str, ValueParser<'a>),
    /// `--name VALUE`, which this reader takes, and the value where it is not given.
    Long(&'a str, ValueParser<'a>, &'a str),
}

// A word that has to stand there.
fn word<'a>(alloc: Global, name: &'a str) -> Arg<'a>
    ensures rule { rule_of result ≡ word name.entry.now }
    ensures own { result.global ≡ false }
{
    Arg::new(alloc, name).required(true).action(ArgAction::Set)
}

// Words of which one or more have to stand there.
fn many_words<'a>(alloc: Global, name: &'a str) -> Arg<'a>
    ensures rule { rule_of result ≡ many_words name.entry.now }
    ensures own { result.global ≡ false }
{
    Arg::new(alloc, name).required(true).num_args(1..)
}

// A word that has to stand there, which this reader takes.
fn reading_word<'a>(alloc: Global, name: &'a str, by: ValueParser<'a>) -> Arg<'a>
    ensures rule { rule_of result ≡ reading_word name.entry.now by.entry }
    ensures own { result.global ≡ false }
{
    Arg::new(alloc, name)
        .required(true)
        .action(ArgAction::Set)
        .value_parser(by)
}

// `--name VALUE`, which this reader takes, and the value where it is not given.
fn option<'a>(alloc: Global, name: &'a str, by: ValueParser<'a>, default: &'a str) -> Arg<'a>
    ensures rule { rule_of result ≡ option name.entry.now by.entry default.entry.now }
    ensures own { result.global ≡ false }
{
    Arg::new(alloc, name)
        .long(name)
        .action(ArgAction::Set)
        .value_parser(by)
        .default_value(default)
}

// The argument, as `clap` is told of it.
fn arg_of<'a>(alloc: Global, argument: Argument<'a>) -> Arg<'a>
    ensures rule { rule_of result ≡ rule_for argument.entry }
    ensures own { result.global ≡ false }
{
    match argument {
        Argument::Word(name) => word(alloc, name),
        Argument::Words(name) => many_words(alloc, name),
        Argument::Read(name, by) => reading_word(alloc, name, by),
        Argument::Long(name, by, default) => option(alloc, name, by, default),
    }
}

// The command with one more argument.
fn with<'a>(
    alloc: Global,
    command: Command<'a>,
    argument: Argument<'a>,
) -> Result<Command<'a>, AllocError>
    ensures { IfOk result (λ c. app_of c ≡ with_rule (app_of command.entry) (rule_for argument.entry)) }
{
    command.arg(arg_of(alloc, argument))
}

/// The command of this name with these arguments.
pub fn with_all<'a>(
    alloc: Global,
    name: &'a str,
    arguments: &[Argument<'a>],
) -> Result<Command<'a>, AllocError>
    ensures { IfOk result (λ c. app_of c ≡ with_rules (new_app name.entry.now) (map rule_for arguments.now)) }
{
    let mut command = Command::new(alloc, name);
    for argument in arguments {
        command = with(alloc, command, *argument)?;
    }
    Ok(command)
}

/// Adds arguments to a list.
pub fn put<'a>(into: &mut Vec<Argument<'a>>, more: &[Argument<'a>]) -> Result<(), AllocError>
    ensures { OnOk result (map rule_for into.new.items ≡ map rule_for into.old.items ++ map rule_for more.now) }
{
    into.extend_from_slice(more)?;
    Ok(())
}
