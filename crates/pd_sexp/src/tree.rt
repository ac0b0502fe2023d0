// The trees that a file is read as.
ghost use Rattle.std.specs.Prelude.{◌≡◌, ℕ, List};

use containers::ListOf;
use std::alloc::{AllocError, AllocFailed};

/// The bytes of a word, in small letters.
pub type Name = ListOf<u8>;

/// A word, or a list of trees. Each has the offset of its first byte in the file, from 0.
#[derive(Drop)]
#[cycle(tree)]
pub enum Tree {
    Word { at: u32, text: Name },
    List { at: u32, items: Trees },
}

/// The items of a list, in the order of the file.
#[derive(Drop)]
#[cycle(tree)]
pub struct Trees {
    /// The items.
    pub items: Vec<Tree>,
}

/// Why bytes are read as no tree; places are offsets, from 0.
#[derive(Clone, Copy, PartialEq, Eq)]
pub enum TreeError {
    /// No file goes on so at this byte, or the file ends too early.
    Syntax { at: u32 },
    /// The first parenthesis of the 65th level.
    Deep { at: u32 },
    /// Want of memory.
    Memory,
}

impl From<AllocError> for TreeError {
    ghost use Rattle.std.specs.Prelude.{◌≡◌};
    ghost use Rattle.pd_sexp.specs.declared.tree.TreeError.TheVariants as error;

    ghost from_gives = { λ _ e. e ≡ error.Memory };

    fn from(_: AllocError) -> Self {
        TreeError::Memory
    }
}

impl<T: Drop> From<AllocFailed<T>> for TreeError {
    ghost use Rattle.std.specs.Prelude.{◌≡◌};
    ghost use Rattle.pd_sexp.specs.declared.tree.TreeError.TheVariants as error;

    ghost from_gives = { λ _ e. e ≡ error.Memory };

    fn from(_: AllocFailed<T>) -> Self {
        TreeError::Memory
    }
}
