ghost use Rattle.std.specs.Prelude.{◌≡◌, ◌%◌, ◌<◌, ◌≤◌, ◌/◌, ◌==◌, [], ◌++◌, ◌∷◌, true, None, All, take, length, reverse, vec_capacity, IfOk};
ghost use Rattle.clause_base.specs.Literal.{opposite};
ghost use Rattle.cdcl_defs.specs.State.{is_on, value_of, values_of, decision_count};
ghost use Rattle.cdcl_defs.specs.Learn.{backtracked, level_of};
ghost use Rattle.cdcl_tables.specs.Assignment.{literals};
ghost use Rattle.cdcl_tables.specs.Mirrored.{TrailView, begun, IsOnce, IsCount, AreRising, IsStart};

use crate::assignment::Assignment;
use crate::lookup::Lookup;
use cdcl_defs::trail::Assigned;
use clause_base::literal::Lit;
use clause_base::values::Values;
use containers::let_go;
use containers::memory::Memory;
use std::alloc::Global;
use std::marker::Model;

/// The literals that are true, oldest first, over a number of variables; the values that they give; for each variable on the trail
/// its position; and the positions of the decisions, where the levels begin. No entry keeps its level: an entry is of the current
/// level where its position is not before the last beginning, and another level is found by halving.
pub struct Trail {
    variables: u32,
    entries: Vec<Assigned>,
    values: Values,
    positions: Vec<u32>,
    starts: Vec<u32>,
}

impl Model for Trail {
    ghost use Rattle.std.specs.Prelude.{◌≤◌, vec_capacity};
    ghost use Rattle.cdcl_tables.specs.Assignment.{literals};
    ghost use Rattle.cdcl_tables.specs.Mirrored.{TrailView, IsMirrored, IsPlaced};

    ghost Value = { TrailView };

    ghost view = { λ t. record { variables = t.variables; entries = t.entries.items } };

    ghost invariant = { λ t. IsMirrored t.variables t.entries.items t.values t.starts.items × IsPlaced t.variables (literals t.entries.items) t.positions.items × (t.variables ≤ vec_capacity t.entries) × (t.variables ≤ vec_capacity t.starts) };
}

/// All parts are let go in one call, so that a proof has one step for it and not one for each part.
impl Drop for Trail {
    fn drop(self) {
        let_go!(self: Trail { variables, entries, values, positions, starts });
    }
}

/// How many of some numbers, which rise, are below a bound.
fn count_below(numbers: &[u32], bound: u32) -> u32
    requires rising { AreRising numbers.now }
    requires few { length numbers.now ≤ 4294967295 }
    ensures { IsCount numbers.now bound result }
{
    let mut low = 0;
    let mut high = numbers.len();
    while low < high {
        let middle = low + (high - low) / 2;
        if numbers[middle] < bound {
            low = middle + 1;
        } else {
            high = middle;
        }
    }
    low as u32
}

/// Takes back the values that entries give but for the first ones, the last one's first.
fn take_back(values: &mut Values, entries: &[Assigned], kept: usize)
    requires values { values.old ≡ values_of (length values.old) entries.now }
    requires below { All (λ a. a.literal / 2 < length values.old) entries.now }
    requires once { IsOnce (reverse entries.now) }
    requires within { kept ≤ length entries.now }
    ensures { values.new ≡ values_of (length values.old) (take kept entries.now) }
{
    let mut place = entries.len();
    while place > kept {
        place -= 1;
        values.take_back(entries[place].literal);
    }
}

/// Adds the position of an entry to those of the decisions, if it is one.
#[inline]
fn add_start(starts: &mut Vec<u32>, position: u32, reason: Option<u32>)
    requires { length starts.old.items < vec_capacity starts.old }
    ensures added { starts.new.items ≡ starts.old.items ++ begun reason position }
    ensures capacity { vec_capacity starts.new ≡ vec_capacity starts.old }
{
    match reason {
        None => starts.push_reserved(position),
        Some(_) => {}
    }
}

impl Trail {
    /// The empty trail over so many variables, in the memory of these vectors.
    fn over(
        alloc: Global,
        variables: u32,
        mut entries: Vec<Assigned>,
        mut positions: Vec<u32>,
        mut starts: Vec<u32>,
    ) -> Result<Trail, Memory>
        requires { variables ≤ 2147483647 }
        ensures { IfOk result (λ t. t ≡ record { variables = variables; entries = [] }) }
    {
        let values = Values::new(alloc, variables)?;
        entries.clear();
        entries.reserve(variables as usize)?;
        // A position is read only of a variable on the trail.
        positions.resize(variables as usize, 0)?;
        starts.clear();
        starts.reserve(variables as usize)?;
        Ok(Trail {
            variables,
            entries,
            values,
            positions,
            starts,
        })
    }

    /// The empty trail over so many variables.
    pub fn new(alloc: Global, variables: u32) -> Result<Trail, Memory>
        requires { variables ≤ 2147483647 }
        ensures { IfOk result (λ t. t ≡ record { variables = variables; entries = [] }) }
    {
        Trail::over(
            alloc,
            variables,
            Vec::new(alloc),
            Vec::new(alloc),
            Vec::new(alloc),
        )
    }

    /// The empty trail over so many variables, in the memory of one that is done with. The values are made anew. Where memory is
    /// wanting, all of it is let go.
    pub fn renewed(self, alloc: Global, variables: u32) -> Result<Trail, Memory>
        requires { variables ≤ 2147483647 }
        ensures { IfOk result (λ t. t ≡ record { variables = variables; entries = [] }) }
    {
        let Trail {
            variables: _,
            entries,
            values: _,
            positions,
            starts,
        } = self;
        Trail::over(alloc, variables, entries, positions, starts)
    }

    /// The value of a variable, if it has one; none past the last variable.
    pub fn value(&self, v: u32) -> Option<bool>
        ensures value { result ≡ value_of self.now.entries v }
        ensures past { self.now.variables ≤ v → result ≡ None }
    {
        self.values.get(v)
    }

    /// The values of all variables.
    pub fn values(&self) -> &Values
        ensures { result.now ≡ values_of self.now.variables self.now.entries }
    {
        &self.values
    }

    /// The entries, oldest first; they are of the variables, each of which has at most one.
    pub fn entries(&self) -> &[Assigned]
        ensures value { result.now ≡ self.now.entries }
        ensures below { All (λ a. a.literal / 2 < self.now.variables) self.now.entries }
        ensures short { length self.now.entries ≤ self.now.variables }
    {
        self.entries.as_slice()
    }

    /// How many entries there are.
    pub fn length(&self) -> u32
        ensures is { result ≡ length self.now.entries }
        ensures short { result ≤ self.now.variables }
    {
        self.entries.len() as u32
    }

    /// The current level, which is the number of decisions.
    pub fn level(&self) -> u32
        ensures { result ≡ decision_count self.now.entries }
    {
        self.starts.len() as u32
    }

    /// The level of the first so many entries.
    pub fn level_within(&self, length: u32) -> u32
        ensures { result ≡ decision_count (take length self.now.entries) }
    {
        count_below(&self.starts, length)
    }

    /// How many entries there are up to the one that made a literal false, with it.
    #[inline]
    pub fn length_with(&self, lit: Lit) -> u32
        requires { is_on self.now.entries (opposite lit) ≡ true }
        ensures level { decision_count (take result self.now.entries) ≡ level_of self.now.entries lit }
        ensures within { result ≤ length self.now.entries }
        ensures below { lit / 2 < self.now.variables }
        ensures small { self.now.variables ≤ 2147483647 }
    {
        self.positions[lit.variable() as usize] + 1
    }

    /// Whether a false literal became false at the current level.
    #[inline]
    pub fn is_current(&self, lit: Lit) -> bool
        requires { is_on self.now.entries (opposite lit) ≡ true }
        ensures current { result ≡ (level_of self.now.entries lit == decision_count self.now.entries) }
        ensures below { lit / 2 < self.now.variables }
        ensures small { self.now.variables ≤ 2147483647 }
    {
        let lookup = self.lookup();
        // For the proof: the variables are few.
        let _few = lookup.entries();
        lookup.is_current(lookup.position(lit))
    }

    /// The position where the current level begins; 0 where there is no decision.
    fn start(&self) -> u32
        ensures { IsStart self.now.entries result }
    {
        let level = self.starts.len();
        if level == 0 {
            return 0;
        }
        self.starts[level - 1]
    }

    /// The trail as a walk over it reads it.
    #[inline(always)]
    pub fn lookup(&self) -> Lookup<'_>
        ensures { result ≡ self.now }
    {
        let start = self.start();
        Lookup::of(
            self.variables,
            self.entries.as_slice(),
            self.positions.as_slice(),
            start,
        )
    }

    /// Lets a chooser's search for the least variable without a value begin where it should. The trail stays as it is.
    pub fn pass_given(&mut self)
        ensures { self.new ≡ self.old }
    {
        self.values.pass_given();
    }

    /// What the trail says.
    #[inline(always)]
    pub fn assignment(&self) -> Assignment<'_>
        ensures { result ≡ record { variables = self.now.variables; trail = literals self.now.entries } }
    {
        Assignment::of(
            self.variables,
            self.entries.as_slice(),
            self.values.truths(),
            self.positions.as_slice(),
        )
    }

    /// Makes a literal true whose variable has no value. It takes no memory.
    #[inline]
    pub fn push(&mut self, entry: Assigned)
        requires below { entry.literal / 2 < self.old.variables }
        requires opened { value_of self.old.entries (entry.literal / 2) ≡ None }
        ensures { self.new ≡ record self.old { entries = self.old.entries ++ entry ∷ [] } }
    {
        let position = self.entries.len() as u32;
        self.values.make_true(entry.literal);
        self.positions[entry.literal.variable() as usize] = position;
        add_start(&mut self.starts, position, entry.reason);
        self.entries.push_reserved(entry);
    }

    /// Takes back all but the first entries, which have so many decisions.
    fn keep(&mut self, kept: usize, level: usize)
        requires within { kept ≤ length self.old.entries }
        requires level { level ≡ decision_count (take kept self.old.entries) }
        ensures { self.new ≡ record self.old { entries = take kept self.old.entries } }
    {
        take_back(&mut self.values, &self.entries, kept);
        self.entries.truncate(kept);
        self.starts.truncate(level);
    }

    /// Takes back what stands above a level. It takes no memory.
    pub fn backtrack(&mut self, level: u32)
        ensures { self.new ≡ record self.old { entries = backtracked level self.old.entries } }
    {
        if level < self.level() {
            let kept = self.starts[level as usize] as usize;
            self.keep(kept, level as usize);
        }
    }

    /// Takes back what stands above a length. It takes no memory.
    pub fn cut(&mut self, length: u32)
        ensures { self.new ≡ record self.old { entries = take length self.old.entries } }
    {
        if length < self.length() {
            let level = self.level_within(length);
            self.keep(length as usize, level as usize);
        }
    }
}
