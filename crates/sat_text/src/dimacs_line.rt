//! The lines of the text.
ghost use Rattle.std.specs.Prelude.{◌≡◌, ◌<◌, ◌++◌, OnOk, length};
ghost use Rattle.sat_text.specs.Dimacs.{literal_text, clause_line, comment_line, problem_line};

use clause_base::formula::Formula;
use clause_base::literal::Lit;
use clause_base::view::View;
use report_lines::push_number;
use std::alloc::AllocError;

// Appends a literal.
#[inline]
fn push_literal(text: &mut Vec<u8>, lit: Lit) -> Result<(), AllocError>
    ensures { OnOk result (text.new.items ≡ text.old.items ++ literal_text lit) }
{
    if !lit.is_positive() {
        text.push(b'-')?;
    }
    push_number(text, u64::from(lit.variable()) + 1)
}

/// Appends the line of a clause.
pub fn push_clause(text: &mut Vec<u8>, clause: &View<'_>) -> Result<(), AllocError>
    ensures line { OnOk result (text.new.items ≡ text.old.items ++ clause_line clause.now) }
    ensures some { OnOk result (0 < length text.new.items) }
{
    for place in 0..clause.len() {
        push_literal(text, clause.get(place))?;
        text.push(b' ')?;
    }
    text.push(b'0')?;
    text.push(b'\n')?;
    Ok(())
}

// Appends the first line.
fn push_comment(text: &mut Vec<u8>, word: &[u8], horizon: u32) -> Result<(), AllocError>
    ensures { OnOk result (text.new.items ≡ text.old.items ++ comment_line word.now horizon) }
{
    text.extend_from_slice(b"c horizon ".as_slice())?;
    push_number(text, u64::from(horizon))?;
    text.extend_from_slice(b" steps ".as_slice())?;
    text.extend_from_slice(word)?;
    text.push(b'\n')?;
    Ok(())
}

// Appends the second line.
fn push_problem(text: &mut Vec<u8>, variables: u32, clauses: u32) -> Result<(), AllocError>
    ensures line { OnOk result (text.new.items ≡ text.old.items ++ problem_line variables clauses) }
    ensures some { OnOk result (0 < length text.new.items) }
{
    text.extend_from_slice(b"p cnf ".as_slice())?;
    push_number(text, u64::from(variables))?;
    text.push(b' ')?;
    push_number(text, u64::from(clauses))?;
    text.push(b'\n')?;
    Ok(())
}

/// Appends the first two lines.
pub fn push_head(
    text: &mut Vec<u8>,
    word: &[u8],
    horizon: u32,
    formula: &Formula,
) -> Result<(), AllocError>
    ensures lines { OnOk result (text.new.items ≡ text.old.items ++ comment_line word.now horizon ++ problem_line formula.now.variables (length formula.now.clauses)) }
    ensures some { OnOk result (0 < length text.new.items) }
{
    push_comment(text, word, horizon)?;
    push_problem(text, formula.variables(), formula.count())
}
