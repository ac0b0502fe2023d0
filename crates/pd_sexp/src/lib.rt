//! Trees of words, with the places of their first bytes: what PDDL files are made of.
//!
//! A file is one list in parentheses, with blanks and comments between its tokens. A word is a longest
//! run of the bytes 33 to 126 other than parentheses and semicolons, read in small letters. Lists stand
//! at most 64 deep. `specs/File.antt` says which bytes are a file and of which tree, `specs/Fault.antt`
//! which fault other bytes have.
//!
//! `Lexer` tells blanks, comments and words apart, one call a byte; which tokens may stand where is for its reader to say. `pd_plan` reads
//! with it too.
#![tactic(auto)]

ghost use Rattle.std.specs.Prelude.{◌≡◌, ◌≤◌, ℕ, IfOk, IsTrue, length};
ghost use Rattle.pd_sexp.specs.Fault.{Reads, IsFault, syntax, deep};
ghost use Rattle.pd_sexp.specs.View.{view};
ghost use Rattle.pd_sexp.specs.Word.{has_words};
ghost use Rattle.containers.specs.Limits.{most_bytes};

mod kinds;
mod lexer;
mod reader;
mod tree;

pub use kinds::{is_blank, is_letter, lowered};
pub use lexer::{Lexed, Lexer};
use reader::Reader;
use std::alloc::Global;
pub use tree::{Name, Tree, TreeError, Trees};

/// Reads the one tree that the bytes are.
///
/// Places are offsets of bytes, from 0. `Syntax` is told at the first byte that no file has after the
/// bytes before it, or at the length where the list is not closed or is missing. `Deep` is told at the
/// first parenthesis that opens a list of the 65th level. Of the two, the one at the smaller place.
pub fn read_tree(alloc: Global, bytes: &[u8]) -> Result<Tree, TreeError>
    requires { length bytes.now ≤ most_bytes }
    ensures read { IfOk result (λ tree. Reads bytes.now (view tree)) }
    ensures words { IfOk result (λ tree. IsTrue (has_words (view tree))) }
    ensures syntax { (at : ℕ) → result ≡ Err (TreeError.Syntax at) → IsFault bytes.now (syntax at) }
    ensures deep { (at : ℕ) → result ≡ Err (TreeError.Deep at) → IsFault bytes.now (deep at) }
{
    let mut reader = Reader::new(alloc);
    for (at, byte) in bytes.iter().enumerate() {
        reader.step(at as u32, *byte)?;
    }
    reader.finish(bytes.len() as u32)
}
