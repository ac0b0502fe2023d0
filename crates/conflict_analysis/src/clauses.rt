//! A solver's clauses by number: first come the formula's, then those that the log learns. Whoever wants the literals of a
//! learned clause reads them in the store of what is watched.
ghost use Rattle.std.specs.Prelude.{◌≡◌, ◌<◌, ◌≤◌, ◌==◌, ◌∷◌, [], ◌++◌, true, not, map, filter, length, replicate, vec_capacity, if◌then◌else◌, IsOk, IfOk, OnOk, OnErr};
ghost use Rattle.std.specs.List.{list_any};
ghost use Rattle.clause_base.specs.Clause.{IsClause, IsRising};
ghost use Rattle.clause_base.specs.Derivation.{clauses_of};
ghost use Rattle.clause_base.specs.declared.log.Entry.TheVariants.{Learn, Drop};
ghost use Rattle.cdcl_defs.specs.Reduce.{kept_without};
ghost use Rattle.cdcl_defs.specs.State.{clause_at};
ghost use Rattle.conflict_analysis.specs.Clauses.{all_clauses};
ghost use Rattle.conflict_analysis.specs.Longs.{long_ones};

use clause_base::formula::Formula;
use clause_base::literal::Lit;
use containers::memory::Memory;
use containers::{SharedListOf, let_go};
use proof_log::literals::Literals;
use proof_log::log::Log;
use std::alloc::{AllocError, Global};
use std::marker::Model;

/// A learned clause with no more literals than these is never dropped.
const SHORT: usize = 8;

/// A solver's clauses, with the numbers of the learned ones that are kept and long. Which clauses are kept is what the log says:
/// the flags that a search reads are those of the tables that it propagates with.
pub struct Clauses {
    formula: Formula,
    log: Log,
    longs: Vec<u32>,
}

impl Model for Clauses {
    ghost use Rattle.std.specs.Prelude.{◌≡◌, ◌≤◌, ◌++◌, length};
    ghost use Rattle.clause_base.specs.Derivation.{clauses_of};
    ghost use Rattle.conflict_analysis.specs.Clauses.{ClausesView, kept_of};
    ghost use Rattle.conflict_analysis.specs.Longs.{long_ones};

    ghost Value = { ClausesView };

    ghost view = { λ c. record { formula = c.formula; log = c.log; kept = kept_of (length c.formula.clauses) c.log } };

    // The number of a learned clause has 32 bits; a restart finds what it may drop in the list, without a look at all clauses.
    ghost invariant = { λ c. (length (clauses_of c.log) ≤ 1073741824) × (c.longs.items ≡ long_ones (length c.formula.clauses) (c.formula.clauses ++ clauses_of c.log) (kept_of (length c.formula.clauses) c.log)) };
}

/// All parts are let go in one call, so that a proof has one step for it and not one for each part.
impl Drop for Clauses {
    fn drop(self) {
        let_go!(self: Clauses { formula, log, longs });
    }
}

/// Adds a number for which there is room, if it is that of a long clause.
fn add_long(longs: &mut Vec<u32>, number: u32, is_long: bool) -> Result<(), AllocError>
    requires { length longs.old.items < vec_capacity longs.old }
    ensures ok { IsOk result }
    ensures added { longs.new.items ≡ (if is_long then longs.old.items ++ number ∷ [] else longs.old.items) }
{
    if is_long {
        longs.push(number)?;
    }
    Ok(())
}

/// Whether a number is among these, which rise.
fn is_among(numbers: &[u32], number: u32) -> bool
    requires { IsRising numbers.now }
    ensures { result ≡ list_any (λ n. n == number) numbers.now }
{
    numbers.binary_search(&number).is_ok()
}

/// Takes those that were dropped out of some numbers.
fn keep_longs(longs: &mut Vec<u32>, dropped: &[u32])
    requires { IsRising dropped.now }
    ensures { longs.new.items ≡ filter (λ k. not (list_any (λ n. n == k) dropped.now)) longs.old.items }
{
    longs.retain(|number| !is_among(dropped, *number));
}

impl Clauses {
    /// The clauses of a formula, all kept. It takes no memory.
    pub fn new(alloc: Global, formula: Formula) -> Clauses
        ensures { result ≡ record { formula = formula; log = []; kept = replicate (length formula.clauses) true } }
    {
        Clauses {
            formula,
            log: Log::new(alloc),
            longs: Vec::new(alloc),
        }
    }

    /// The formula.
    pub fn formula(&self) -> &Formula
        ensures { result.now ≡ self.now.formula }
    {
        &self.formula
    }

    /// The log of what was learned and dropped.
    pub fn log(&self) -> &Log
        ensures { result.now ≡ self.now.log }
    {
        &self.log
    }

    /// How many clauses were learned.
    pub fn learned_count(&self) -> u32
        ensures value { result ≡ length (clauses_of self.now.log) }
        ensures few { result ≤ 1073741824 }
    {
        self.log.learned_count() as u32
    }

    /// How many clauses there are, dropped ones too.
    pub fn count(&self) -> u32
        ensures value { result ≡ length (all_clauses self.now) }
        ensures flags { length self.now.kept ≡ length (all_clauses self.now) }
        ensures few { result ≤ 2147483648 }
    {
        self.formula.count() + self.learned_count()
    }

    /// The numbers of the learned clauses that are kept and have more than 8 literals, rising.
    pub fn longs(&self) -> &[u32]
        ensures { result.now ≡ long_ones (length self.now.formula.clauses) (all_clauses self.now) self.now.kept }
    {
        self.longs.as_slice()
    }

    /// Learns a clause from those that the hints name. After want of memory nothing has changed.
    pub fn learn(&mut self, clause: &SharedListOf<Lit>, hints: &[u32]) -> Result<(), Memory>
        requires lawful { IsClause clause.now }
        requires room { length (clauses_of self.old.log) < 1073741824 }
        ensures ok { OnOk result (self.new ≡ record self.old { log = self.old.log ++ Learn clause.now hints.now ∷ []; kept = self.old.kept ++ true ∷ [] }) }
        ensures err { OnErr result (self.new ≡ self.old) }
    {
        let number = self.count();
        let is_long = clause.as_slice().len() > SHORT;
        self.longs.reserve(1)?;
        self.log.push_shared(clause, hints)?;
        add_long(&mut self.longs, number, is_long)?;
        Ok(())
    }

    /// The literals of a learned clause, in the memory that they are in.
    pub fn literals(&self, number: u32) -> Result<Literals, Memory>
        requires learned { length self.now.formula.clauses ≤ number }
        requires inside { number < length (all_clauses self.now) }
        ensures { IfOk result (λ literals. literals ≡ clause_at (all_clauses self.now) number) }
    {
        self.log.literals((number - self.formula.count()) as usize)
    }

    /// Drops the clauses with these numbers, which rise. After want of memory nothing has changed.
    pub fn drop_all(&mut self, numbers: &[u32]) -> Result<(), Memory>
        requires rising { IsRising numbers.now }
        ensures ok { OnOk result (self.new ≡ record self.old { log = self.old.log ++ map (λ n. Drop n) numbers.now; kept = kept_without self.old.kept numbers.now }) }
        ensures err { OnErr result (self.new ≡ self.old) }
    {
        self.log.pack(numbers, self.formula.count())?;
        self.log.push_drops(numbers)?;
        keep_longs(&mut self.longs, numbers);
        Ok(())
    }
}
