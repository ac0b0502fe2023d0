//! Runs the solver with the plain chooser.
//!
//! On one formula it prints how the solver stands, its conflicts and its log, or how many propagations the run makes. `bench/time/solve`
//! times that beside another solver. Of many formulas, each ended by a `%`, it prints the first line of each. One with a line
//! `c conflicts NUMBER` it runs in one go, and in pieces of 1, of 7 and of 64 conflicts, says whether these come to the same, and
//! what the checker says of the log; with a line `c trail` it prints the trail where the run stops, and with `c brief` it leaves
//! the log out. Of one without that line it says what the checker says of the log whose lines, in the form in which logs are
//! printed, stand before the line `p cnf`.

use crate::dimacs::{first_number, formula_of, line_after};
use crate::lines::{Out, keep, put};
use crate::logs::{log_of, put_answer, put_log};
use crate::propagations::count_propagations;
use cdcl_core::Standing;
use cdcl_core::solver::Solver;
use clause_base::chooser::PlainChooser;
use containers::memory::Memory;

/// The solver with the plain chooser.
pub(crate) type Plain = Solver<PlainChooser>;

/// The most conflicts of a run.
const MOST: u32 = 1_000_000;

/// What is written of a log that the checker accepts.
const ACCEPTED: &str = "check: accepted, entries #\n";

/// The solver of a text's formula.
fn solver_of(out: &mut Out, text: &str) -> Result<Plain, Memory> {
    let formula = formula_of(out, text);
    Solver::new(out.alloc, formula, PlainChooser::new())
}

/// Goes on for so many conflicts, unless there were too many.
pub(crate) fn go_on(out: &mut Out, solver: &mut Plain, conflicts: u32) {
    if solver.conflicts() <= u64::from(MOST) {
        keep(out, solver.advance(conflicts.min(MOST)));
    }
}

/// Goes on for so many conflicts in pieces: first for none, then for a piece each time, of which the last may be shorter.
fn go_on_in_pieces(out: &mut Out, solver: &mut Plain, conflicts: u32, piece: u32) {
    let mut left = conflicts;
    go_on(out, solver, 0);
    for _ in 0..conflicts {
        let next = left.min(piece);
        go_on(out, solver, next);
        left -= next;
    }
}

/// Writes how a solver stands, and its conflicts.
fn put_standing(out: &mut Out, solver: &Plain) {
    let words = match solver.standing() {
        Standing::Going => "standing going\nconflicts #\n",
        Standing::Found => "standing found\nconflicts #\n",
        Standing::Refuted => "standing refuted\nconflicts #\n",
    };
    put(out, words, &[solver.conflicts()]);
}

/// Writes the literals that are true where a solver stopped, oldest first.
fn put_trail(out: &mut Out, solver: &Plain) {
    put(out, "trail", &[]);
    for entry in solver.trail() {
        put(out, " #", &[entry.literal.0 as u64]);
    }
    put(out, "\n", &[]);
}

/// Writes how a solver stands, its conflicts, its log, and the literals that are true where its text asks for them.
fn put_run(out: &mut Out, solver: &Plain, text: &str) {
    put_standing(out, solver);
    put_log(out, solver.log());
    if line_after("c trail", text).is_some() {
        put_trail(out, solver);
    }
}

/// What is written of a solver.
fn report(out: &mut Out, solver: &Plain, text: &str) -> Vec<u8> {
    let mut told = Out::new(out.alloc);
    put_run(&mut told, solver, text);
    out.taken(told)
}

/// What is written of the solver of a text's formula after a run in pieces.
fn report_in_pieces(out: &mut Out, text: &str, conflicts: u32, piece: u32) -> Vec<u8> {
    let Ok(mut solver) = solver_of(out, text) else {
        out.fail();
        return Vec::new(out.alloc);
    };
    go_on_in_pieces(out, &mut solver, conflicts, piece);
    report(out, &solver, text)
}

/// Writes how a run in pieces ends where that is otherwise than in one go.
fn put_cut(out: &mut Out, piece: u32, cut: &[u8], whole: &[u8]) {
    if cut == whole {
        return put(out, "in pieces of #: the same\n", &[piece as u64]);
    }
    put(out, "in pieces of #:\n", &[piece as u64]);
    out.add(cut);
}

/// Runs a text's formula in pieces of 1, of 7 and of 64 conflicts.
fn put_pieces(out: &mut Out, text: &str, conflicts: u32, whole: &[u8]) {
    for piece in [1, 7, 64] {
        let cut = report_in_pieces(out, text, conflicts, piece);
        put_cut(out, piece, cut.as_slice(), whole);
    }
}

/// How many lines a report has.
fn line_count(report: &[u8]) -> u64 {
    let mut count: u64 = 0;
    for byte in report {
        if *byte == b'\n' {
            count = count.saturating_add(1);
        }
    }
    count
}

/// Writes a solver's report, or only its first two lines and how many there are where the text says so.
fn put_whole(out: &mut Out, solver: &Plain, text: &str, whole: &[u8]) {
    if line_after("c brief", text).is_none() {
        return out.add(whole);
    }
    put_standing(out, solver);
    put(out, "lines #\n", &[line_count(whole)]);
}

/// Writes how a solver that was run in one go stands, and where runs in pieces end otherwise, these; and lets its log be checked.
fn put_compared(out: &mut Out, solver: &Plain, text: &str, conflicts: u32) {
    let whole = report(out, solver, text);
    put_whole(out, solver, text, whole.as_slice());
    put_pieces(out, text, conflicts, whole.as_slice());
    put_answer(out, ACCEPTED, solver.formula(), solver.log());
}

/// Runs a text's formula in one go and in pieces, and lets its log be checked.
fn put_runs(out: &mut Out, text: &str, conflicts: u32) {
    let Ok(mut solver) = solver_of(out, text) else {
        return out.fail();
    };
    go_on(out, &mut solver, conflicts);
    put_compared(out, &solver, text, conflicts);
}

/// Checks the log that a text has.
fn put_checked(out: &mut Out, text: &str) {
    let formula = formula_of(out, text);
    let log = log_of(out, text);
    put_answer(out, ACCEPTED, &formula, &log);
}

/// Writes the first line of a text, without the letter before it, and runs or checks its formula.
fn put_part(out: &mut Out, text: &str) {
    let Some(title) = line_after("c ", text) else {
        return out.fail();
    };
    put(out, title, &[]);
    put(out, "\n", &[]);
    let Some(line) = line_after("c conflicts ", text) else {
        return put_checked(out, text);
    };
    match first_number(line) {
        Some(conflicts) => put_runs(out, text, conflicts),
        None => out.fail(),
    }
}

/// Runs or checks each of the formulas of a text, each ended by a `%`.
pub(crate) fn put_all_parts(out: &mut Out, text: &str) {
    for part in text.split('%') {
        if line_after("p cnf", part).is_some() {
            put_part(out, part);
        }
    }
}

/// Runs a text's formula for at most so many conflicts, and writes how that ends, or how many propagations the run makes.
pub(crate) fn put_solved(out: &mut Out, text: &str, conflicts: u32, are_counted: bool) {
    let Ok(mut solver) = solver_of(out, text) else {
        return out.fail();
    };
    if are_counted {
        let count = count_propagations(out, &mut solver, conflicts);
        put(out, "propagations #\n", &[count]);
    } else {
        go_on(out, &mut solver, conflicts);
        put_run(out, &solver, text);
    }
}
