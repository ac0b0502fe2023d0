// The lists of words that a plan file is.
ghost use Rattle.std.specs.Prelude.{◌≡◌, ◌≤◌, length};
ghost use Rattle.pd_plan.specs.own.Answers.{GivesAs};
ghost use Rattle.pd_plan.specs.WordLists.{word_lists};
ghost use Rattle.containers.specs.Limits.{most_bytes};

use crate::PlanFault;
use crate::reader::Reader;
use containers::ListOf;
use pd_words::Named;
use std::alloc::Global;

/// Words with their places, from the left.
pub type Words = ListOf<Named>;

/// A list of words, and the offset of its parenthesis.
#[derive(Drop)]
pub struct WordList {
    /// The offset of its parenthesis in the file, from 0.
    pub at: u32,
    /// Its words, from the left.
    pub words: Words,
}

/// Reads the lists of words, in one pass over the bytes.
pub fn read_lists(alloc: Global, bytes: &[u8]) -> Result<Vec<WordList>, PlanFault>
    requires { length bytes.now ≤ most_bytes }
    ensures { GivesAs (λ lists. lists.items) (word_lists bytes.now) result }
{
    let mut reader = Reader::new(alloc);
    for (at, byte) in bytes.iter().enumerate() {
        reader.step(at as u32, *byte)?;
    }
    reader.finish(bytes.len() as u32)
}
