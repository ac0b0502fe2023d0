//! What goes to a SAT solver and what comes from it, as text: the formula in DIMACS format (`dimacs`), a line of a proof in LRAT format
//! (`lrat_line`), and the values of a model (`value_reader`, `first_false`).
//!
//! A text is cut into lines by `lines`, and a line into words and numbers by `words`. A formula is handed out a piece at a time, and values
//! are taken in pieces of any length; a line of a proof is `ID LITERALS 0 HINTS 0`, which adds a clause, or `ID d IDS 0`, which deletes
//! clauses. What is read is numbers; whether a line follows from a formula and the lines before it is for whoever checks it.
//!
//! The end of a line is searched by `memchr` of the toolchain. A number of at most seven digits is read at once (`short`), a longer one without
//! tests of its size up to its 19th digit. Whoever writes a formula holds one piece and no second copy of it; `value_reader` holds one line and
//! the table of the literals that were told (`values`). Which values a text gives is a definition (`specs/Values.antt`), by which the reader is
//! exact, however the text is cut into pieces.
#![tactic(auto)]

pub mod dimacs;
mod dimacs_line;
pub mod first_false;
pub mod lines;
pub mod lrat_line;
mod short;
mod value_lines;
pub mod value_reader;
mod values;
pub mod words;
