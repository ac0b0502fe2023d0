//! Lines of words and numbers, as a run prints them. Whether something could not be made is kept, and told at the end
//! in place of all lines.

use itoa::Buffer;
use std::alloc::Global;
use std::io;

/// What is printed where something could not be made.
const FAILED: &str =
    "no memory, or no such formula, task or file; or none of solve, check, watches, order, invariants, forms, rooms, formulas, all-formulas, never and all\n";

/// What a run has written, and whether it made all that it had to.
#[derive(Drop)]
pub(crate) struct Out {
    /// Where what a run makes has its memory.
    pub(crate) alloc: Global,
    bytes: Vec<u8>,
    is_whole: bool,
}

impl Out {
    /// Nothing so far.
    pub(crate) fn new(alloc: Global) -> Out {
        Out {
            alloc,
            bytes: Vec::new(alloc),
            is_whole: true,
        }
    }

    /// Keeps that something could not be made.
    pub(crate) fn fail(&mut self) {
        self.is_whole = false;
    }

    /// Adds bytes.
    pub(crate) fn add(&mut self, bytes: &[u8]) {
        if self.bytes.extend_from_slice(bytes).is_err() {
            self.fail();
        }
    }

    /// The bytes of lines that are no part of what is printed. Where they are not whole, neither is this.
    pub(crate) fn taken(&mut self, other: Out) -> Vec<u8> {
        if !other.is_whole {
            self.fail();
        }
        other.bytes
    }

    /// How a run ends: with an error where something could not be made.
    pub(crate) fn ended(&self) -> io::Result<()> {
        if self.is_whole {
            return Ok(());
        }
        Err(io::Error::from(io::ErrorKind::Other))
    }

    /// What is printed.
    pub(crate) fn printed(&self) -> &[u8] {
        if self.is_whole {
            self.bytes.as_slice()
        } else {
            FAILED.as_bytes()
        }
    }
}

/// Keeps whether something was made.
pub(crate) fn keep<E: Drop>(out: &mut Out, made: Result<(), E>) {
    if made.is_err() {
        out.fail();
    }
}

/// Writes a number.
fn put_number(out: &mut Out, number: u64) {
    let mut digits = Buffer::new();
    out.add(digits.format(number).as_bytes());
}

/// Writes words, and the number after them where there is one.
fn put_part(out: &mut Out, words: &str, number: Option<&u64>) {
    out.add(words.as_bytes());
    if let Some(number) = number {
        put_number(out, *number);
    }
}

/// Writes words in which a `#` stands for the next of some numbers. As many `#` are among the words as there are numbers.
pub(crate) fn put(out: &mut Out, words: &str, numbers: &[u64]) {
    let mut left = numbers.iter();
    for part in words.split('#') {
        put_part(out, part, left.next());
    }
}

/// Writes numbers, a blank before each.
pub(crate) fn put_all(out: &mut Out, numbers: &[u32]) {
    for number in numbers {
        put(out, " #", &[*number as u64]);
    }
}
