ghost use Rattle.std.specs.Prelude.{◌≡◌, ◌∷◌, [], ◌++◌, ◌<◌, length, map, slice_index_or, IfOk, OnOk, OnErr};
ghost use Rattle.clause_base.specs.Clause.{IsClause};
ghost use Rattle.clause_base.specs.Derivation.{clauses_of};

use crate::literals::Literals;
use crate::reader::Reader;
use crate::steps::{add_drops, add_learned};
use clause_base::literal::Lit;
use clause_base::log::Entry;
use containers::memory::Memory;
use containers::{SharedListOf, let_go};
use std::alloc::Global;
use std::marker::Model;

/// A list of entries: clauses that are learned from a formula and the entries before, and clauses that are dropped. The literals of a
/// learned clause may be in memory that others share, or stand as bytes; its hints, and what is dropped, stand as bytes.
pub struct Log {
    alloc: Global,
    count: usize,
    learned: Vec<Literals>,
    steps: Vec<u8>,
}

impl Model for Log {
    ghost use Rattle.std.specs.Prelude.{List};
    ghost use Rattle.clause_base.specs.declared.log.Entry.{Entry};
    ghost use Rattle.proof_log.specs.own.Held.{entries_of, IsHeld};

    ghost Value = { List Entry };

    ghost view = { λ l. entries_of l.count l.learned.items l.steps.items };

    ghost invariant = { λ l. IsHeld (entries_of l.count l.learned.items l.steps.items) l.count l.learned.items l.steps.items };
}

/// All parts are let go in one call, so that a proof has one step for it and not one for each part.
impl Drop for Log {
    fn drop(self) {
        let_go!(self: Log { alloc, count, learned, steps });
    }
}

/// Keeps the literals of the clause at a place as bytes, if there is one. The clauses are the same.
fn pack_at(alloc: Global, learned: &mut Vec<Literals>, place: usize) -> Result<(), Memory>
    ensures { learned.new.items ≡ learned.old.items }
{
    if place < learned.len() {
        learned[place] = learned[place].packed(alloc)?;
    }
    Ok(())
}

/// Keeps the literals of the clauses with these numbers as bytes, where the first one has the number `first`. The clauses are the same.
fn pack_all(
    alloc: Global,
    learned: &mut Vec<Literals>,
    numbers: &[u32],
    first: u32,
) -> Result<(), Memory>
    ensures { learned.new.items ≡ learned.old.items }
{
    for number in numbers {
        if *number >= first {
            pack_at(alloc, learned, (*number - first) as usize)?;
        }
    }
    Ok(())
}

impl Log {
    /// The log without entries. It takes no memory, and keeps the allocator for the entries to come.
    pub fn new(alloc: Global) -> Log
        ensures { result ≡ [] }
    {
        Log {
            alloc,
            count: 0,
            learned: Vec::new(alloc),
            steps: Vec::new(alloc),
        }
    }

    /// How many entries there are.
    pub fn len(&self) -> usize
        ensures { result ≡ length self.now }
    {
        self.count
    }

    /// The entries, from the first on.
    pub fn entries(&self) -> Reader<'_>
        ensures { result ≡ self.now }
    {
        Reader::of(self.count, &self.learned, &self.steps)
    }

    /// How many clauses are learned.
    pub fn learned_count(&self) -> usize
        ensures { result ≡ length (clauses_of self.now) }
    {
        self.learned.len()
    }

    /// Adds an entry that learns a clause by these hints; its literals stay in the memory that they are in. After want of memory the
    /// log is unchanged.
    pub fn push_shared(&mut self, clause: &SharedListOf<Lit>, hints: &[u32]) -> Result<(), Memory>
        requires { IsClause clause.now }
        ensures ok { OnOk result (self.new ≡ self.old ++ Entry.Learn clause.now hints.now ∷ []) }
        ensures err { OnErr result (self.new ≡ self.old) }
    {
        add_learned(&mut self.learned, &mut self.steps, clause, hints)?;
        self.count += 1;
        Ok(())
    }

    /// Adds an entry that learns a clause by these hints. After want of memory the log is unchanged.
    pub fn push_learned(&mut self, clause: &[Lit], hints: &[u32]) -> Result<(), Memory>
        requires { IsClause clause.now }
        ensures ok { OnOk result (self.new ≡ self.old ++ Entry.Learn clause.now hints.now ∷ []) }
        ensures err { OnErr result (self.new ≡ self.old) }
    {
        let shared = SharedListOf::copied_from(self.alloc, clause)?;
        self.push_shared(&shared, hints)
    }

    /// Adds entries that drop the clauses with these numbers, in this order. After want of memory the log is unchanged.
    pub fn push_drops(&mut self, numbers: &[u32]) -> Result<(), Memory>
        ensures ok { OnOk result (self.new ≡ self.old ++ map (λ n. Entry.Drop n) numbers.now) }
        ensures err { OnErr result (self.new ≡ self.old) }
    {
        add_drops(&mut self.steps, numbers)?;
        self.count += numbers.len();
        Ok(())
    }

    /// The literals of a learned clause, counted from 0 over all of these, in the memory that they are in.
    pub fn literals(&self, place: usize) -> Result<Literals, Memory>
        requires { place < length (clauses_of self.now) }
        ensures { IfOk result (λ literals. literals ≡ slice_index_or (clauses_of self.now) place []) }
    {
        self.learned[place].copy()
    }

    /// Keeps the literals of some learned clauses as bytes, where the first one has this number. Numbers of no learned clause are
    /// passed over. The entries are the same, after want of memory too.
    pub fn pack(&mut self, numbers: &[u32], first: u32) -> Result<(), Memory>
        ensures { self.new ≡ self.old }
    {
        pack_all(self.alloc, &mut self.learned, numbers, first)
    }

    /// Adds an entry at the end. After want of memory the log is unchanged.
    pub fn push(&mut self, entry: Entry) -> Result<(), Memory>
        ensures ok { OnOk result (self.new ≡ self.old ++ entry ∷ []) }
        ensures err { OnErr result (self.new ≡ self.old) }
    {
        match entry {
            Entry::Learn { clause, hints } => self.push_learned(
                clause.as_slice(),
                hints.as_slice(),
            ),
            Entry::Drop { number } => self.push_drops(&[number]),
        }
    }
}
