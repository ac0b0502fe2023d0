// Logs, an entry after another.
use super::holding::{holds, is};
use clause_base::clause::Clause;
use clause_base::literal::Lit;
use clause_base::log::{Entry, Hints};
use proof_log::log::Log;
use proof_log::numbers::Numbers;
use proof_log::reader::Step;
use std::alloc::Global;
use std::process::Abort;

/// What the first clause is learned by.
const BY: [u32; 4] = [900, 3, 4_294_967_295, 0];

/// A clause with its hints.
fn learned(rt: &impl Abort, alloc: Global) -> Entry {
    let read = Clause::of(alloc, &[Lit(300), Lit(7)])
        .ok()
        .expect(rt, "memory");
    let clause = read.expect(rt, "a clause");
    let hints = Hints::copied_from(alloc, &BY).expect(rt, "memory");
    Entry::Learn { clause, hints }
}

/// A clause goes in, then a drop, and a clause without literals.
fn go_in(rt: &impl Abort, alloc: Global, log: &mut Log) {
    log.push(learned(rt, alloc)).ok().expect(rt, "memory");
    log.push_drops(&[70_000]).ok().expect(rt, "memory");
    log.push_learned(&[], &[5]).ok().expect(rt, "memory");
}

/// Whether numbers are these, and no more.
fn are(numbers: &Numbers, wanted: &[u32]) -> bool {
    let mut left = numbers.copy();
    let mut same = numbers.len() == wanted.len();
    for number in wanted {
        same &= is(left.next(), *number);
    }
    same && left.next().is_none()
}

/// Whether a step learns the clause of these literals by these hints.
fn learns(step: Option<Step>, lits: &[u32], by: &[u32]) -> bool {
    match step {
        Some(Step::Learn { clause, hints }) => are(&clause, lits) && are(&hints, by),
        _ => false,
    }
}

/// Whether a step drops the clause of this number.
fn drops(step: Option<Step>, wanted: u32) -> bool {
    match step {
        Some(Step::Drop { number }) => number == wanted,
        _ => false,
    }
}

/// The entries of the log, read one after another.
fn are_read(rt: &impl Abort, log: &Log) {
    let mut reader = log.entries();
    holds(rt, learns(reader.next(), &[7, 300], &BY), "a clause");
    holds(rt, drops(reader.next(), 70_000), "a drop");
    holds(rt, learns(reader.next(), &[], &[5]), "the empty clause");
    holds(rt, reader.next().is_none(), "the end");
}

#[test]
fn entries_go_in_and_come_back(rt: HostRuntime) {
    let mut log = Log::new(rt.alloc());
    go_in(&rt, rt.alloc(), &mut log);
    holds(&rt, log.len() == 3, "three entries");
    holds(&rt, log.learned_count() == 2, "two learned clauses");
    are_read(&rt, &log);
}
