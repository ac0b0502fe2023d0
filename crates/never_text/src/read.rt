//! The reader of a certificate.

ghost use Rattle.std.specs.Prelude.{◌≡◌, ◌≤◌, Ok, length, IfOk};
ghost use Rattle.containers.specs.Limits.{certificate_bytes};
ghost use Rattle.never_text.specs.Certificate.{certificate_of, ended};
ghost use Rattle.never_text.specs.Reading.{IsReading, IsUsable};
ghost use Rattle.never_text.specs.own.Reading.{IsReader, told_by};

use crate::fault::Fault;
use crate::kind::Kind;
use crate::line::next_line;
use crate::reader::Reader;
use containers::FlatLists;
use containers::memory::Memory;
use std::alloc::Global;

/// What a text is. A literal is twice the number of a fact, counted from 0, and one more where it says that the fact is false.
#[derive(Drop)]
pub enum Reading {
    /// Clauses that are read forward.
    Forward(FlatLists<u32>),
    /// Clauses that are read backward.
    Backward(FlatLists<u32>),
    /// Weights: literals, each with a number.
    Weights(Vec<(u32, u64)>),
    /// No certificate: the offset of the first line at fault, or the length of the text where it says nothing that a certificate
    /// is, and what is wrong.
    Faulty { at: u64, fault: Fault },
}

/// What was read where a text of so many bytes has ended.
fn finish(reader: Reader, long: usize) -> Reading
    ensures { IsReading result (ended long (Ok (told_by reader))) }
{
    let Reader {
        alloc: _,
        facts: _,
        kind,
        clauses,
        weights,
        sum: _,
        held: _,
    } = reader;
    match kind {
        None => Reading::Faulty {
            at: long as u64,
            fault: Fault::Kind,
        },
        Some(Kind::Forward) => Reading::Forward(clauses),
        Some(Kind::Backward) => Reading::Backward(clauses),
        Some(Kind::Weights) => Reading::Weights(weights),
    }
}

/// Reads the text of a certificate of a task with so many facts.
pub fn read(alloc: Global, facts: u32, text: &[u8]) -> Result<Reading, Memory>
    requires few { facts ≤ 1073741824 }
    requires small { length text.now ≤ certificate_bytes }
    ensures exact { IfOk result (λ reading. IsReading reading (certificate_of facts text.now)) }
    ensures usable { IfOk result (IsUsable facts) }
{
    let mut reader = Reader::new(alloc, facts);
    let mut left = Some(text);
    let mut at = 0;
    'reading: while let Some(rest) = left {
        let (line, more) = next_line(rest);
        if let Some(fault) = reader.take(line)? {
            return Ok(Reading::Faulty { at, fault });
        }
        at += line.len() as u64 + 1;
        left = more;
    }
    Ok(finish(reader, text.len()))
}
