//! Logs that are given as text, logs as text, and what the checker says of a log.

use crate::dimacs::first_number;
use crate::lines::{Out, keep, put};
use clause_base::clause::Clause;
use clause_base::formula::Formula;
use clause_base::literal::Lit;
use clause_base::log::{Entry, Hints};
use containers::memory::Memory;
use proof_log::log::Log;
use proof_log::numbers::Numbers;
use proof_log::reader::Step;
use rup_check::check::{CheckError, check};

/// The most clauses of a formula, and entries of a log, that are checked.
const MOST: u32 = 1_000_000;

/// Writes numbers, each after a space.
fn put_numbers(out: &mut Out, numbers: Numbers<'_>) {
    let mut left = numbers;
    while let Some(number) = left.next() {
        put(out, " #", &[number as u64]);
    }
}

/// Writes the line of a learned clause.
fn put_learned(out: &mut Out, clause: Numbers<'_>, hints: Numbers<'_>) {
    put(out, "learn", &[]);
    put_numbers(out, clause);
    put(out, " by", &[]);
    put_numbers(out, hints);
    put(out, "\n", &[]);
}

/// Writes the line of an entry.
fn put_step(out: &mut Out, step: Step<'_>) {
    match step {
        Step::Learn { clause, hints } => put_learned(out, clause, hints),
        Step::Drop { number } => put(out, "drop #\n", &[number as u64]),
    }
}

/// Writes a log, an entry a line.
pub(crate) fn put_log(out: &mut Out, log: &Log) {
    let mut reader = log.entries();
    while let Some(step) = reader.next() {
        put_step(out, step);
    }
}

/// Writes what the checker says of a log; where it accepts the log these words, with the number of entries.
pub(crate) fn put_answer(out: &mut Out, words: &str, formula: &Formula, log: &Log) {
    if formula.count() > MOST || log.len() > MOST as usize {
        return put(out, "check: too long\n", &[]);
    }
    match check(out.alloc, formula, log) {
        Ok(checked) => put(out, words, &[checked.entries() as u64]),
        Err(CheckError::Rejected { entry }) => put(
            out,
            "check: rejected at entry #\n",
            &[entry as u64],
        ),
        Err(CheckError::NotEmpty) => put(out, "check: not empty\n", &[]),
        Err(CheckError::Memory) => out.fail(),
    }
}

/// The numbers of a text.
fn numbers_of(out: &mut Out, text: &str) -> Vec<u32> {
    let mut numbers = Vec::new(out.alloc);
    for word in text.split(' ') {
        if let Ok(number) = word.parse::<u32>() {
            keep(out, numbers.push(number));
        }
    }
    numbers
}

/// The clause of the codes of a text's literals, where it is one.
fn clause_of(out: &mut Out, text: &str) -> Result<Option<Clause>, Memory> {
    let mut lits = Vec::new(out.alloc);
    for code in numbers_of(out, text).as_slice() {
        keep(out, lits.push(Lit(*code)));
    }
    Clause::of(out.alloc, lits.as_slice())
}

/// Adds an entry that learns a clause, of the codes of its literals and of its hints.
fn push_learned(out: &mut Out, log: &mut Log, clause: &str, hints: &str) {
    let hints = Hints::of(numbers_of(out, hints));
    match clause_of(out, clause) {
        Ok(Some(clause)) => keep(out, log.push(Entry::Learn { clause, hints })),
        _ => out.fail(),
    }
}

/// Adds the entry that drops the clause with the number that a text begins with.
fn push_drop(out: &mut Out, log: &mut Log, text: &str) {
    match first_number(text) {
        Some(number) => keep(out, log.push(Entry::Drop { number })),
        None => out.fail(),
    }
}

/// Adds the entry of a line, where it tells of one: `learn`, codes of literals, `by`, hints; or `drop` and a number.
fn push_line(out: &mut Out, log: &mut Log, line: &str) {
    if let Some(rest) = line.strip_prefix("drop ") {
        return push_drop(out, log, rest);
    }
    let Some(rest) = line.strip_prefix("learn ") else {
        return;
    };
    match rest.split_once("by") {
        Some((clause, hints)) => push_learned(out, log, clause, hints),
        None => out.fail(),
    }
}

/// The log of a text's lines.
pub(crate) fn log_of(out: &mut Out, text: &str) -> Log {
    let mut log = Log::new(out.alloc);
    for line in text.lines() {
        push_line(out, &mut log, line);
    }
    log
}
