//! The text of clauses.

ghost use Rattle.std.specs.Prelude.{◌≡◌, ◌<◌, ◌++◌, OnOk};
ghost use Rattle.sat_text.specs.Dimacs.{literal_text, clause_line, clause_lines};
ghost use Rattle.never_text.specs.Certificate.{kind_line, clauses_text};

use containers::FlatLists;
use containers::memory::Memory;
use report_lines::push_number;

/// Appends a literal.
fn put_literal(text: &mut Vec<u8>, lit: u32) -> Result<(), Memory>
    ensures { OnOk result (text.new.items ≡ text.old.items ++ literal_text lit) }
{
    if lit % 2 == 1 {
        text.push(b'-')?;
    }
    push_number(text, u64::from(lit / 2) + 1)?;
    Ok(())
}

/// Appends the line of a clause.
fn put_clause(text: &mut Vec<u8>, clause: &[u32]) -> Result<(), Memory>
    ensures { OnOk result (text.new.items ≡ text.old.items ++ clause_line clause.now) }
{
    for lit in clause {
        put_literal(text, *lit)?;
        text.push(b' ')?;
    }
    text.extend_from_slice(b"0\n".as_slice())?;
    Ok(())
}

/// Appends the line that says how clauses are read.
fn put_kind(text: &mut Vec<u8>, forward: bool) -> Result<(), Memory>
    ensures { OnOk result (text.new.items ≡ text.old.items ++ kind_line forward) }
{
    if forward {
        text.extend_from_slice(b"clauses forward\n".as_slice())?;
    } else {
        text.extend_from_slice(b"clauses backward\n".as_slice())?;
    }
    Ok(())
}

/// Appends the text of a certificate that is clauses, read forward or backward.
pub fn put_clauses(
    text: &mut Vec<u8>,
    forward: bool,
    clauses: &FlatLists<u32>,
) -> Result<(), Memory>
    ensures { OnOk result (text.new.items ≡ text.old.items ++ clauses_text forward clauses.now) }
{
    put_kind(text, forward)?;
    for number in 0..clauses.len() {
        put_clause(text, clauses.at(number))?;
    }
    Ok(())
}
