//! How a run ends, with the exit status and the text due.
ghost use Rattle.std.specs.Prelude.{◌≡◌, ◌<◌, ◌^◌, ◌∷◌, ◌++◌, [], IsTrue, OnOk, IfOk, IsOk, decimal};
ghost use Rattle.report_lines.specs.Lines.{joined};
ghost use Rattle.plan_endings.specs.Ending.{status_of_race, status_of, text_of, bytes_of, word_of, kind_word, limit_word, is_there, IsSmall};

use crate::run_end::RunEnd;
use pl_io::{Bytes, Memory};
use report_lines::push_number;
use std::alloc::Global;

/// An input file.
#[derive(Clone, Copy, PartialEq, Eq)]
pub enum File {
    /// The domain.
    Domain,
    /// The problem.
    Problem,
    /// The plan.
    Plan,
    /// The certificate, which is told as `proof`.
    Proof,
}

/// What is wrong with a file that is refused.
#[derive(Clone, Copy, PartialEq, Eq)]
pub enum Kind {
    /// The bytes are no text tree.
    Syntax,
    /// Lists stand too deep in one another.
    Deep,
    /// An item that does not belong there, or one that is missing.
    Shape,
    /// A name that is declared nowhere.
    Unknown,
    /// Too few or too many terms.
    Arity,
    /// A name or a section that stands twice.
    Duplicate,
    /// PDDL that is not read.
    Unsupported,
    /// An object that does not fit its parameter; told as `type`.
    Mistyped,
}

/// What there may be too much of in a task.
#[derive(Clone, Copy, PartialEq, Eq)]
pub enum Limit {
    /// Tuples of objects for parameters and `forall`s: at most 4,000,000.
    Tuples,
    /// Facts: at most 2,048.
    Facts,
    /// Actions: at most 16,384.
    Actions,
    /// Effects with a condition: at most 65,536.
    Effects,
}

/// How a race ended.
#[derive(Clone, Copy, PartialEq, Eq)]
pub enum Outcome {
    /// With a plan.
    Planned,
    /// The last listed horizon is refuted.
    Exhausted,
    /// The budget is spent.
    Unfinished,
}

/// How a run ends, but for want of memory and a write fault.
#[derive(Drop)]
pub enum Ending {
    /// A race ended, with its report.
    Report { outcome: Outcome, text: Bytes },
    /// The lines of a ground task, or of its actions in published order, a text of a generated task, or a certificate.
    Listing(Bytes),
    /// The checked calls are a plan.
    Reaches,
    /// This call, counted from 0, is the first that cannot run.
    Blocked { index: u32 },
    /// All calls run, and the goal does not hold in the last state.
    Short,
    /// A file is refused, at the offset of a byte.
    Refused { kind: Kind, file: File, at: u32 },
    /// A file has more bytes than may be.
    TooLong(File),
    /// The task is past a limit, with the count; past 2^64 - 1, that number.
    TooMany { what: Limit, count: u64 },
    /// The formula of a horizon has too many literals, when the horizon's turn to start comes.
    TooLarge { horizon: u32, count: u64 },
    /// A file could not be read.
    ReadFault(File),
    /// The words are none that are taken.
    Usage,
    /// The run of a horizon found a plan after so many conflicts.
    Found { horizon: u32, conflicts: u64 },
    /// The run of a horizon is open after so many conflicts.
    Open { horizon: u32, conflicts: u64 },
    /// A certificate of a horizon is accepted, with so many entries.
    Accepted { horizon: u32, entries: u32 },
    /// This entry of a certificate, counted from 0, is the first that does not follow.
    Rejected { entry: u32 },
    /// The last entry of a certificate is not the empty clause, or there is none.
    NotEmpty,
    /// The parts of a batch, with the greatest of their statuses.
    Parts { status: u8, text: Bytes },
}

impl Outcome {
    /// The exit status of a race that ended so.
    fn status(self) -> u8
        ensures { result ≡ status_of_race self }
    {
        match self {
            Outcome::Planned => 0,
            Outcome::Exhausted => 1,
            Outcome::Unfinished => 2,
        }
    }
}

impl RunEnd for Ending {
    ghost status_of = { status_of };

    ghost text_of = { text_of };

    ghost is_there = { is_there };

    ghost is_small = { IsSmall };

    ghost plain = { λ end. end };

    fn of_plain(ending: Ending) -> Ending {
        ending
    }

    fn status(&self) -> u8 {
        match self {
            Ending::Report { outcome, .. } => outcome.status(),
            Ending::Listing(_) | Ending::Reaches | Ending::Accepted { .. } => 0,
            Ending::Blocked { .. } | Ending::Short => 1,
            Ending::Found { .. } | Ending::Rejected { .. } | Ending::NotEmpty => 1,
            Ending::Open { .. } => 2,
            Ending::Refused { .. } => 3,
            Ending::TooLong(_) | Ending::TooMany { .. } | Ending::TooLarge { .. } => 4,
            Ending::ReadFault(_) => 5,
            Ending::Usage => 7,
            Ending::Parts { status, .. } => *status,
        }
    }

    fn text(self, alloc: Global) -> Result<Due, Memory> {
        match self {
            Ending::Report { text, .. } => Ok(Due::Made(text)),
            Ending::Listing(text) => Ok(Due::Made(text)),
            Ending::Parts { text, .. } => Ok(Due::Made(text)),
            Ending::Reaches => Ok(Due::Fixed("; reaches the goal\n")),
            Ending::Blocked { index } => blocked(alloc, index),
            Ending::Short => Ok(Due::Fixed("; goal not reached\n")),
            Ending::Refused { kind, file, at } => refusal(alloc, kind, file, at),
            Ending::TooLong(file) => of_file(alloc, "; limit file ", file),
            Ending::TooMany { what, count } => too_many(alloc, what, count),
            Ending::TooLarge { horizon, count } => {
                let horizon = u64::from(horizon);
                of_numbers(alloc, "; limit literals ", count, " horizon ", horizon)
            }
            Ending::ReadFault(file) => of_file(alloc, "; read fault ", file),
            Ending::Usage => Ok(Due::Fixed("; usage: plan, check, ground, order or gen\n")),
            Ending::Found { horizon, conflicts } => {
                let horizon = u64::from(horizon);
                of_numbers(alloc, "; horizon ", horizon, " plan conflicts ", conflicts)
            }
            Ending::Open { horizon, conflicts } => {
                let horizon = u64::from(horizon);
                of_numbers(alloc, "; horizon ", horizon, " open conflicts ", conflicts)
            }
            Ending::Accepted { horizon, entries } => {
                let (horizon, entries) = (u64::from(horizon), u64::from(entries));
                of_numbers(alloc, "; accepted horizon ", horizon, " entries ", entries)
            }
            Ending::Rejected { entry } => of_number(alloc, "; rejected entry ", u64::from(entry)),
            Ending::NotEmpty => Ok(Due::Fixed("; not empty\n")),
        }
    }
}

/// A text that is due.
#[derive(Drop)]
pub enum Due {
    /// One that was made.
    Made(Bytes),
    /// One that is always the same.
    Fixed(&'static str),
}

impl Due {
    /// Its bytes.
    pub fn as_slice(&self) -> &[u8]
        ensures { result.now ≡ bytes_of self.now }
    {
        match self {
            Due::Made(bytes) => bytes.as_slice(),
            Due::Fixed(text) => text.as_bytes(),
        }
    }
}

fn file_word(file: File) -> &'static str
    ensures { result.now ≡ word_of file }
{
    match file {
        File::Domain => "domain",
        File::Problem => "problem",
        File::Plan => "plan",
        File::Proof => "proof",
    }
}

fn word_of_kind(kind: Kind) -> &'static str
    ensures { result.now ≡ kind_word kind }
{
    match kind {
        Kind::Syntax => "syntax",
        Kind::Deep => "deep",
        Kind::Shape => "shape",
        Kind::Unknown => "unknown",
        Kind::Arity => "arity",
        Kind::Duplicate => "duplicate",
        Kind::Unsupported => "unsupported",
        Kind::Mistyped => "type",
    }
}

fn word_of_limit(what: Limit) -> &'static str
    ensures { result.now ≡ limit_word what }
{
    match what {
        Limit::Tuples => "tuples",
        Limit::Facts => "facts",
        Limit::Actions => "actions",
        Limit::Effects => "effects",
    }
}

// The line of a text and a file.
fn of_file(alloc: Global, front: &str, file: File) -> Result<Due, Memory>
    ensures { IfOk result (λ due. bytes_of due ≡ joined ((front.now ++ word_of file) ∷ [])) }
{
    let mut text = Vec::from_slice(alloc, front.as_bytes())?;
    text.extend_from_slice(file_word(file).as_bytes())?;
    text.extend_from_slice(b"\n")?;
    Ok(Due::Made(Bytes::of(text)))
}

// The line of a text and a number, of which the text stands there.
fn numbered(mut text: Vec<u8>, number: u64) -> Result<Due, Memory>
    ensures text { IfOk result (λ due. bytes_of due ≡ joined ((text.items ++ decimal number) ∷ [])) }
    ensures small { OnOk result (number < 2 ^ 64) }
{
    push_number(&mut text, number)?;
    text.extend_from_slice(b"\n")?;
    Ok(Due::Made(Bytes::of(text)))
}

/// The line of a text and a number.
pub fn of_number(alloc: Global, front: &str, number: u64) -> Result<Due, Memory>
    ensures text { IfOk result (λ due. bytes_of due ≡ joined ((front.now ++ decimal number) ∷ [])) }
    ensures small { OnOk result (number < 2 ^ 64) }
{
    numbered(Vec::from_slice(alloc, front.as_bytes())?, number)
}

/// The line of two texts, each before a number.
pub fn of_numbers(
    alloc: Global,
    front: &str,
    one: u64,
    middle: &str,
    two: u64,
) -> Result<Due, Memory>
    ensures text { IfOk result (λ due. bytes_of due ≡ joined ((front.now ++ (decimal one ++ (middle.now ++ decimal two))) ∷ [])) }
    ensures small { OnOk result ((one < 2 ^ 64) × (two < 2 ^ 64)) }
{
    let mut text = Vec::from_slice(alloc, front.as_bytes())?;
    push_number(&mut text, one)?;
    text.extend_from_slice(middle.as_bytes())?;
    numbered(text, two)
}

fn blocked(alloc: Global, index: u32) -> Result<Due, Memory>
    ensures text { IfOk result (λ due. bytes_of due ≡ text_of (Ending.Blocked index)) }
    ensures small { OnOk result (index < 2 ^ 32) }
{
    of_number(alloc, "; blocked at action ", u64::from(index) + 1)
}

fn too_many(alloc: Global, what: Limit, count: u64) -> Result<Due, Memory>
    ensures text { IfOk result (λ due. bytes_of due ≡ text_of (Ending.TooMany what count)) }
    ensures small { OnOk result (count < 2 ^ 64) }
{
    let mut text = Vec::from_slice(alloc, b"; limit ")?;
    text.extend_from_slice(word_of_limit(what).as_bytes())?;
    text.extend_from_slice(b" ")?;
    numbered(text, count)
}

fn refusal(alloc: Global, kind: Kind, file: File, at: u32) -> Result<Due, Memory>
    ensures text { IfOk result (λ due. bytes_of due ≡ text_of (Ending.Refused kind file at)) }
    ensures small { OnOk result (at < 2 ^ 32) }
{
    let mut text = Vec::from_slice(alloc, b"; refused ")?;
    text.extend_from_slice(word_of_kind(kind).as_bytes())?;
    text.extend_from_slice(b" ")?;
    text.extend_from_slice(file_word(file).as_bytes())?;
    text.extend_from_slice(b" ")?;
    numbered(text, u64::from(at))
}
