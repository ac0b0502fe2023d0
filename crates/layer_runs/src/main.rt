//! Runs of the layers below the planner, to be compared and timed. The first word says what to run:
//!
//! - `solve` runs the solver, or the checker, on each formula of the input; `solve FILE [CONFLICTS [propagations]]` runs the solver on
//!   one formula in the DIMACS form, for at most 1,000 conflicts or so many, and with the last word counts propagations;
//! - `check` runs the checker on a long log, `order WORD..` publishes the orders of large tasks, `invariants WORD..` finds their
//!   invariants, and `forms WORD..` tells how large their formulas are;
//! - `rooms ROOMS HORIZON SIZES` builds and sums up a large formula, and adds up the sizes of all horizons SIZES times;
//! - `watches` makes literals true and takes them back over 100,000 clauses, `formulas` prints formulas of small tasks, clause by
//!   clause, and `all-formulas` what is known of two formulas of all-steps;
//! - `never` checks certificates that small tasks have no plan, and tells what excludes their goals;
//! - `all` makes a run of each but `forms`, each under a line with its first word.
//!
//! The gate runs `all`. The file `stdout` is not this program's: scripts that read the definitions plainly wrote it, or it was worked
//! out by hand.
//!
//! It is one program with a module for each subject, since each program pays for all that stands below it and is built by two compilers. What
//! the runs print goes through `lines`, whose `Out` keeps whether something could not be made. What `formulas` and `large_tasks` have to print was
//! written by scripts of `bench/reference` over `bench/reference/definitions.py`, which read the definitions plainly and nothing of the code.
#![tactic(auto)]

mod all_formulas;
mod dimacs;
mod formulas;
mod known;
mod large_tasks;
mod lines;
mod logs;
mod long_log;
mod model;
mod never;
mod propagations;
mod solver;
mod watched;

use crate::lines::{Out, keep, put};
use std::io::Write;
use std::rt::Files;
use std::thread::Threads;
use std::{env, fs, io};

/// The runs of the word `all`.
const ALL: &str =
    "solve|check|watches|order none ring conditional|invariants takers|rooms 1000 95 1|formulas|all-formulas|never";

/// What a run has of the system.
trait Host: Input + Files + AllocGlobal + Threads + Sync {}

impl<R: Input + Files + AllocGlobal + Threads + Sync> Host for R {}

/// The number that the word at a place spells, or another one.
fn number(words: &[String], place: usize, other: u32) -> u32 {
    match words.get(place) {
        Some(word) => word.parse::<u32>().unwrap_or(other),
        None => other,
    }
}

/// Runs the solver on each formula of the input.
fn solve_input(rt: &impl Host, out: &mut Out) {
    match io::read_to_string(out.alloc, rt.reader()) {
        Ok(text) => solver::put_all_parts(out, text.as_str()),
        Err(_) => out.fail(),
    }
}

/// Runs the solver on the formula of a file.
fn solve_file(rt: &impl Host, out: &mut Out, path: &str, words: &[String]) {
    let conflicts = number(words, 1, 1000);
    match fs::read_to_string(rt, path) {
        Ok(text) => solver::put_solved(out, text.as_str(), conflicts, words.len() > 2),
        Err(_) => out.fail(),
    }
}

/// Runs the solver on the formula of a file, or on those of the input.
fn solve(rt: &impl Host, out: &mut Out, words: &[String]) {
    match words.first() {
        Some(path) => solve_file(rt, out, path.as_str(), words),
        None => solve_input(rt, out),
    }
}

/// Sums up a formula of a robot in rooms.
fn sum_up(out: &mut Out, words: &[String]) {
    let rooms = number(words, 0, 3);
    let horizon = number(words, 1, 1);
    let sizes = number(words, 2, 0);
    large_tasks::put_rooms(out, rooms, horizon, sizes);
}

/// Publishes the orders of the large tasks for several words, finds their invariants, or tells how large their formulas are.
fn run_on_tasks(rt: &impl Host, out: &mut Out, first: &str, words: &[String]) {
    for word in words {
        large_tasks::put_large(rt, out, first, word.as_str());
    }
}

/// Does what a first word says.
fn run(rt: &impl Host, out: &mut Out, first: &str, others: &[String]) {
    match first {
        "solve" => solve(rt, out, others),
        "check" => long_log::put_accepted(out),
        "watches" => watched::put_sums(out),
        "order" | "invariants" | "forms" => run_on_tasks(rt, out, first, others),
        "rooms" => sum_up(out, others),
        "formulas" => formulas::put_tasks(out),
        "all-formulas" => all_formulas::put_tasks(rt, out),
        "never" => never::put_tasks(rt, out),
        _ => out.fail(),
    }
}

/// The words of a line.
fn words_of(out: &mut Out, line: &str) -> Vec<String> {
    let mut words = Vec::new(out.alloc);
    for word in line.split(' ') {
        match word.to_owned(out.alloc) {
            Ok(word) => keep(out, words.push(word)),
            Err(_) => out.fail(),
        }
    }
    words
}

/// Does what words say, under the first of them.
fn run_titled(rt: &impl Host, out: &mut Out, words: &[String]) {
    let Some((first, others)) = words.split_first() else {
        return;
    };
    put(out, "== ", &[]);
    put(out, first.as_str(), &[]);
    put(out, "\n", &[]);
    run(rt, out, first.as_str(), others);
}

/// Makes a run of each kind but `forms`.
fn run_all(rt: &impl Host, out: &mut Out) {
    for line in ALL.split('|') {
        let words = words_of(out, line);
        run_titled(rt, out, words.as_slice());
    }
}

/// Does what the words after the program's name say.
fn run_words(rt: &impl Host, out: &mut Out, words: &[String]) {
    let Some((_, words)) = words.split_first() else {
        return out.fail();
    };
    match words.split_first() {
        Some((first, _)) if first.as_str() == "all" => run_all(rt, out),
        Some((first, others)) => run(rt, out, first.as_str(), others),
        None => out.fail(),
    }
}

fn main(rt: HostRuntime) -> io::Result<()> {
    let words = env::args(&rt)?.collect::<Vec<String>>(rt.alloc())?;
    let mut out = Out::new(rt.alloc());
    run_words(&rt, &mut out, words.as_slice());
    io::writer(&rt).write_all(out.printed())?;
    out.ended()
}
