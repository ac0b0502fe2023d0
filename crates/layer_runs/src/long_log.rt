//! The checker on a log of 400,000 entries of 20 hints each, over a chain of implications.
//!
//! The formula says that variable 0 is true, that each variable of a chain implies the next one, and that the last one is
//! false. So each entry follows by going along the chain. `bench/time/layers log` times a run.

use crate::dimacs::formula_of;
use crate::lines::{Out, keep};
use crate::logs::put_answer;
use clause_base::clause::Clause;
use clause_base::literal::Lit;
use proof_log::log::Log;

/// How many entries the log has.
const ENTRIES: u32 = 400_000;

/// The links of the chain, then that its last variable is false, then that its first is true. Learned clauses alone have others.
const CHAIN: &str = "p cnf 1000 20
-1 2 0
-2 3 0
-3 4 0
-4 5 0
-5 6 0
-6 7 0
-7 8 0
-8 9 0
-9 10 0
-10 11 0
-11 12 0
-12 13 0
-13 14 0
-14 15 0
-15 16 0
-16 17 0
-17 18 0
-18 19 0
-19 0
1 0
";

/// The clauses along the chain: its first variable, each link, and the last variable.
const HINTS: [u32; 20] = [
    19, 0, 1, 2, 3, 4, 5, 6, 7, 8, 9, 10, 11, 12, 13, 14, 15, 16, 17, 18,
];

/// The log of all entries: each learns a literal past the chain, and the last one the empty clause.
fn refutation(out: &mut Out) -> Log {
    let mut log = Log::new(out.alloc);
    for number in 0..ENTRIES - 1 {
        let lit = Lit::of(19 + number % 981, true);
        keep(out, log.push_learned(&[lit], &HINTS));
    }
    let last = Clause::empty(out.alloc);
    keep(out, log.push_learned(last.as_slice(), &HINTS));
    log
}

/// Checks the log, and writes how many entries are accepted.
pub(crate) fn put_accepted(out: &mut Out) {
    let formula = formula_of(out, CHAIN);
    let log = refutation(out);
    put_answer(out, "accepted # entries\n", &formula, &log);
}
