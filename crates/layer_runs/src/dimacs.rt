//! Formulas in the DIMACS form.
ghost use Rattle.std.specs.Prelude.{◌≡◌};

use crate::lines::{Out, keep};
use clause_base::clause::Clause;
use clause_base::formula::Formula;
use clause_base::literal::Lit;

/// How many variables a formula may have.
const MOST_VARIABLES: u32 = 1_000_000_000;

/// What stands after some words in the first line that begins with them.
pub(crate) fn line_after<'a>(words: &str, text: &'a str) -> Option<&'a str> {
    for line in text.lines() {
        if let Some(rest) = line.strip_prefix(words) {
            return Some(rest);
        }
    }
    None
}

/// The first number of a line.
pub(crate) fn first_number(line: &str) -> Option<u32> {
    line.split(' ').next()?.parse::<u32>().ok()
}

/// The literal of a word, and nothing where it is none.
fn literal_of(word: &str) -> Option<Lit> {
    let (digits, value) = match word.strip_prefix('-') {
        Some(digits) => (digits, false),
        None => (word, true),
    };
    match digits.parse::<u32>() {
        Ok(number) if 0 < number && number <= MOST_VARIABLES => Some(Lit::of(number - 1, value)),
        _ => None,
    }
}

/// Adds a clause, if it fits.
fn add_fitting(out: &mut Out, formula: &mut Formula, clause: Clause)
    ensures { formula.new.variables ≡ formula.old.variables }
{
    if formula.has_room() && clause.fits(formula.variables()) {
        match formula.add(clause) {
            Ok(()) => (),
            Err(_) => out.fail(),
        }
    }
}

/// Adds the clause of some literals, if it is one that fits.
pub(crate) fn add_clause(out: &mut Out, formula: &mut Formula, lits: &[Lit])
    ensures { formula.new.variables ≡ formula.old.variables }
{
    match Clause::of(out.alloc, lits) {
        Ok(Some(clause)) => add_fitting(out, formula, clause),
        Ok(None) => (),
        Err(_) => out.fail(),
    }
}

/// Makes a list the literals of a line.
fn read_literals(out: &mut Out, lits: &mut Vec<Lit>, line: &str) {
    lits.clear();
    for word in line.split(' ') {
        if let Some(lit) = literal_of(word) {
            keep(out, lits.push(lit));
        }
    }
}

/// Adds the clauses of a text, a line each.
fn add_lines(out: &mut Out, formula: &mut Formula, text: &str) {
    let mut lits = Vec::new(out.alloc);
    for line in text.lines() {
        read_literals(out, &mut lits, line);
        add_clause(out, formula, lits.as_slice());
    }
}

/// The number of variables and the clauses of a text in the form of `formula_of`.
fn sizes_and_clauses(text: &str) -> Option<(u32, &str)> {
    let (_, told) = text.split_once("p cnf ")?;
    let (sizes, clauses) = told.split_once('\n')?;
    let variables = first_number(sizes)?;
    if variables <= MOST_VARIABLES {
        Some((variables, clauses))
    } else {
        None
    }
}

/// The formula of a text: after a line `p cnf VARIABLES CLAUSES` a clause a line, each ended by 0, and no other line. Of a text that
/// is none, a formula without clauses.
pub(crate) fn formula_of(out: &mut Out, text: &str) -> Formula {
    let Some((variables, clauses)) = sizes_and_clauses(text) else {
        out.fail();
        return Formula::new(out.alloc, 0, 0);
    };
    let mut formula = Formula::new(out.alloc, 0, variables.min(MOST_VARIABLES));
    add_lines(out, &mut formula, clauses);
    formula
}
