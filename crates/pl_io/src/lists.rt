// Lists of bytes, numbers, files and names. Contracts see each as a plain list of its items.
ghost use Rattle.std.specs.Prelude.{◌≡◌, ◌+◌, ◌≤◌, ◌++◌, ℕ, List, [], ◌∷◌, vec_len, vec_capacity, IsOk, OnOk, OnErr, IfOk};

use containers::ListOf;
use std::alloc::{AllocError, Global};

/// Bytes: a text, a name or the content of a file. Contracts see the list of the bytes, each from 0 to 255.
pub type Bytes = ListOf<u8>;

/// Numbers from 0 to 4,294,967,295. Contracts see the list of them.
pub type Numbers = ListOf<u32>;

/// A file's name and the bytes that it holds.
#[derive(Drop)]
pub struct NamedFile {
    /// The file's name.
    pub name: Bytes,
    /// What the file holds.
    pub bytes: Bytes,
}

/// Files, each with its name. Where a name stands twice, the first file is the one of that name. Contracts see the list
/// of the files.
pub type Files = ListOf<NamedFile>;

/// Names of files. Contracts see the list of the names, each the list of its bytes.
pub type Names = ListOf<Bytes>;
