//! What takes the lines of a certificate.

ghost use Rattle.std.specs.Prelude.{◌≡◌, ◌≤◌, ◌<◌, [], Ok, Err, None, IfOk, MatchOption};
ghost use Rattle.never_text.specs.Certificate.{Nothing, begun, kind_of, literals_of, weight_of, sum_of, with_clause, with_weight, with_words, with_line};
ghost use Rattle.never_text.specs.own.Reading.{IsReader, AnswersTo, told_by};

use crate::fault::Fault;
use crate::kind::{Kind, kind_of};
use crate::literals::read_literals;
use crate::sorted::sort;
use crate::weight::weight_of;
use containers::FlatLists;
use containers::memory::Memory;
use sat_text::lrat_line::is_passed;
use sat_text::words::Words;
use std::alloc::Global;

/// The sum of weights is below this.
const MOST_SUM: u64 = 9_223_372_036_854_775_808;

/// The literals of a line, as they stand in it, and in order, each once.
#[derive(Drop)]
pub struct Held {
    pub told: Vec<u32>,
    pub lits: Vec<u32>,
}

/// What takes the lines of a certificate of a task with so many facts.
#[derive(Drop)]
pub struct Reader {
    pub alloc: Global,
    pub facts: u32,
    pub kind: Option<Kind>,
    pub clauses: FlatLists<u32>,
    pub weights: Vec<(u32, u64)>,
    pub sum: u64,
    pub held: Held,
}

/// Reads a clause from the words of a line; what is wrong with them, if something is.
fn take_clause(
    alloc: Global,
    facts: u32,
    words: &mut Words<'_>,
    held: &mut Held,
    clauses: &mut FlatLists<u32>,
) -> Result<Option<Fault>, Memory>
    requires { facts ≤ 1073741824 }
    ensures { IfOk result (λ o. MatchOption o
        (with_clause facts clauses.old (literals_of facts [] words.old) ≡ Ok clauses.new)
        (λ fault. with_clause facts clauses.old (literals_of facts [] words.old) ≡ Err fault)) }
{
    held.told.clear();
    let fault = read_literals(words, facts, &mut held.told)?;
    if fault.is_some() {
        return Ok(fault);
    }
    sort(alloc, facts, &held.told, &mut held.lits)?;
    clauses.push(&held.lits)?;
    Ok(None)
}

/// Reads a weight from the words of a line; what is wrong with them, if something is.
fn take_weight(
    facts: u32,
    words: &mut Words<'_>,
    weights: &mut Vec<(u32, u64)>,
    sum: &mut u64,
) -> Result<Option<Fault>, Memory>
    requires few { facts ≤ 1073741824 }
    requires sum { sum_of weights.old.items ≡ sum.old }
    requires small { sum.old < 9223372036854775808 }
    ensures sum { IfOk result (λ _. sum_of weights.new.items ≡ sum.new) }
    ensures small { sum.new < 9223372036854775808 }
    ensures told { IfOk result (λ o. MatchOption o
        (with_weight weights.old.items (weight_of facts words.old) ≡ Ok weights.new.items)
        (λ fault. with_weight weights.old.items (weight_of facts words.old) ≡ Err fault)) }
{
    let weight = match weight_of(words, facts) {
        Ok(weight) => weight,
        Err(fault) => return Ok(Some(fault)),
    };
    if MOST_SUM - *sum <= weight.1 {
        return Ok(Some(Fault::Sum));
    }
    weights.push(weight)?;
    *sum += weight.1;
    Ok(None)
}

impl Reader {
    /// Before the first line, for a task with so many facts.
    pub fn new(alloc: Global, facts: u32) -> Reader
        requires { facts ≤ 1073741824 }
        ensures reader { IsReader result }
        ensures facts { result.facts ≡ facts }
        ensures told { told_by result ≡ Nothing }
    {
        Reader {
            alloc,
            facts,
            kind: None,
            clauses: FlatLists::new(alloc),
            weights: Vec::new(alloc),
            sum: 0,
            held: Held {
                told: Vec::new(alloc),
                lits: Vec::new(alloc),
            },
        }
    }

    /// Reads what the certificate is from the words of a line.
    fn take_kind(&mut self, words: &mut Words<'_>) -> Option<Fault>
        requires reader { IsReader self.old }
        requires first { self.old.kind ≡ None }
        ensures reader { IsReader self.new }
        ensures facts { self.new.facts ≡ self.old.facts }
        ensures told { AnswersTo (begun (kind_of words.old)) (told_by self.new) result }
    {
        self.kind = kind_of(words);
        if self.kind.is_none() {
            return Some(Fault::Kind);
        }
        None
    }

    /// Takes the words of a line.
    fn take_words(&mut self, words: &mut Words<'_>) -> Result<Option<Fault>, Memory>
        requires { IsReader self.old }
        ensures reader { IfOk result (λ _. IsReader self.new) }
        ensures facts { self.new.facts ≡ self.old.facts }
        ensures told { IfOk result (AnswersTo (with_words self.old.facts (told_by self.old) words.old) (told_by self.new)) }
    {
        match self.kind {
            None => Ok(self.take_kind(words)),
            Some(Kind::Weights) => take_weight(self.facts, words, &mut self.weights, &mut self.sum),
            Some(_) => take_clause(
                self.alloc,
                self.facts,
                words,
                &mut self.held,
                &mut self.clauses,
            ),
        }
    }

    /// Takes the bytes of the next line, without its LF; what is wrong with it, if something is.
    pub fn take(&mut self, line: &[u8]) -> Result<Option<Fault>, Memory>
        requires { IsReader self.old }
        ensures reader { IfOk result (λ _. IsReader self.new) }
        ensures facts { self.new.facts ≡ self.old.facts }
        ensures told { IfOk result (AnswersTo (with_line self.old.facts (told_by self.old) line.now) (told_by self.new)) }
    {
        if is_passed(line) {
            return Ok(None);
        }
        self.take_words(&mut Words::of(line))
    }
}
