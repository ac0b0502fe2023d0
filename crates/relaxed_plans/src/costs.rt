//! What the literals cost from a state, and a relaxed plan.

use crate::relaxation::Relaxation;
use containers::memory::Memory;
use std::alloc::Global;
use successors::row::tells;

/// More than any cost.
pub const NEVER: u32 = 4_294_967_295;

/// The greatest cost that is told apart.
const MOST: u32 = 100_000;

/// No literal.
const NONE: u32 = 4_294_967_295;

/// For each literal its cost, the operator that makes it at this cost, and whether it is one of the goal; for each operator how many
/// literals it needs, how many of them have no cost yet, and the sum of the others; the literals by cost, in chains; which are in the
/// relaxed plan, and which of these its actions make. All memory is taken when it is made.
#[derive(Drop)]
pub struct Costs {
    cost: Vec<u32>,
    maker: Vec<u32>,
    is_goal: Vec<bool>,
    counts: Vec<u32>,
    left: Vec<u32>,
    sum: Vec<u32>,
    heads: Vec<u32>,
    top: usize,
    lits: Vec<u32>,
    nexts: Vec<u32>,
    marked: Vec<bool>,
    list: Vec<u32>,
    made: Vec<u32>,
}

/// The value at a place, or 0.
fn at(values: &[u32], place: usize) -> u32 {
    match values.get(place) {
        Some(value) => *value,
        None => 0,
    }
}

/// Writes a value at a place, if there is one.
fn put(values: &mut [u32], place: usize, value: u32) {
    if let Some(old) = values.get_mut(place) {
        *old = value;
    }
}

/// Gives all places one value.
fn fill(values: &mut [u32], value: u32) {
    for place in 0..values.len() {
        values[place] = value;
    }
}

/// Takes all marks away.
pub(crate) fn unmark(marks: &mut [bool]) {
    for place in 0..marks.len() {
        marks[place] = false;
    }
}

/// Writes values over others.
fn write(values: &mut [u32], from: &[u32]) {
    for place in 0..values.len() {
        values[place] = at(from, place);
    }
}

/// How many literals each operator needs.
fn counts_of(alloc: Global, all: &Relaxation) -> Result<Vec<u32>, Memory> {
    let mut counts = Vec::new(alloc);
    for op in 0..all.needs.len() {
        counts.push(all.needs.at(op).len().min(1_000_000) as u32)?;
    }
    Ok(counts)
}

/// How many literals all operators make.
fn made_by(all: &Relaxation) -> usize {
    let mut made = 0usize;
    for op in 0..all.makes.len() {
        made = made.saturating_add(all.makes.at(op).len());
    }
    made
}

/// Which literals are those of the goal.
fn goals_of(alloc: Global, all: &Relaxation) -> Result<Vec<bool>, Memory> {
    let mut is_goal = vec![in alloc; false; all.users.len()]?;
    for lit in &all.goal {
        if let Some(is) = is_goal.get_mut(*lit as usize) {
            *is = true;
        }
    }
    Ok(is_goal)
}

impl Costs {
    /// Room for the costs of a relaxation.
    pub fn new(alloc: Global, all: &Relaxation) -> Result<Costs, Memory> {
        let literals = all.users.len();
        let ops = all.acts.len();
        let chained = literals.saturating_add(made_by(all));
        Ok(Costs {
            cost: vec![in alloc; NEVER; literals]?,
            maker: vec![in alloc; NEVER; literals]?,
            is_goal: goals_of(alloc, all)?,
            counts: counts_of(alloc, all)?,
            left: vec![in alloc; 0; ops]?,
            sum: vec![in alloc; 0; ops]?,
            heads: vec![in alloc; NONE; MOST as usize + 1]?,
            top: 0,
            lits: Vec::with_capacity(alloc, chained)?,
            nexts: Vec::with_capacity(alloc, chained)?,
            marked: vec![in alloc; false; literals]?,
            list: Vec::with_capacity(alloc, literals)?,
            made: Vec::with_capacity(alloc, literals)?,
        })
    }

    /// Nothing is reached.
    fn clear(&mut self) {
        fill(&mut self.cost, NEVER);
        fill(&mut self.sum, 0);
        write(&mut self.left, &self.counts);
        for key in 0..self.top.saturating_add(1) {
            put(&mut self.heads, key, NONE);
        }
        self.top = 0;
        self.lits.clear();
        self.nexts.clear();
    }

    /// A literal is made at a cost, where it had none or a greater one.
    fn reach(&mut self, lit: u32, cost: u32, maker: u32) -> Result<(), Memory> {
        if cost >= at(&self.cost, lit as usize) {
            return Ok(());
        }
        put(&mut self.cost, lit as usize, cost);
        put(&mut self.maker, lit as usize, maker);
        let number = self.lits.len().min(4_294_967_295) as u32;
        self.lits.push(lit)?;
        self.nexts.push(at(&self.heads, cost as usize))?;
        put(&mut self.heads, cost as usize, number);
        self.top = self.top.max(cost as usize);
        Ok(())
    }

    /// An operator's literals are reached: so is what it makes.
    fn fire(&mut self, all: &Relaxation, op: u32) -> Result<(), Memory> {
        if op as usize >= all.makes.len() {
            return Ok(());
        }
        let cost = at(&self.sum, op as usize).saturating_add(1).min(MOST);
        for lit in all.makes.at(op as usize) {
            self.reach(*lit, cost, op)?;
        }
        Ok(())
    }

    /// A literal has its least cost: the operators that need it count it.
    fn settle(&mut self, all: &Relaxation, lit: u32, cost: u32) -> Result<(), Memory> {
        let Some(users) = all.users.get(lit as usize) else {
            return Ok(());
        };
        for user in users.as_slice() {
            let op = *user as usize;
            let left = at(&self.left, op).saturating_sub(1);
            put(&mut self.left, op, left);
            let sum = at(&self.sum, op).saturating_add(cost);
            put(&mut self.sum, op, sum);
            if left == 0 {
                self.fire(all, *user)?;
            }
        }
        Ok(())
    }

    /// The literals of one cost are settled. The result is how many of the goal are among them.
    fn settle_all(&mut self, all: &Relaxation, cost: u32) -> Result<usize, Memory> {
        let mut goals = 0usize;
        let mut number = at(&self.heads, cost as usize);
        for _turn in 0..self.lits.len() {
            if number == NONE {
                break;
            }
            let lit = at(&self.lits, number as usize);
            if at(&self.cost, lit as usize) == cost {
                if self.is_goal.get(lit as usize) == Some(&true) {
                    goals = goals.saturating_add(1);
                }
                self.settle(all, lit, cost)?;
            }
            number = at(&self.nexts, number as usize);
        }
        Ok(goals)
    }

    /// What costs nothing is reached: the literals that hold in the state of a row, and what is made without a need.
    fn begin(&mut self, all: &Relaxation, row: &[u64]) -> Result<(), Memory> {
        for lit in 0..self.cost.len().min(4_294_967_295) {
            if tells(row, lit as u32) {
                self.reach(lit as u32, 0, NEVER)?;
            }
        }
        for op in 0..self.counts.len().min(4_294_967_295) {
            if at(&self.counts, op) == 0 {
                self.fire(all, op as u32)?;
            }
        }
        Ok(())
    }

    /// The costs from the state of a row, as far as the goal asks for: their sum over the goal, or `NEVER`.
    pub fn compute(&mut self, all: &Relaxation, row: &[u64]) -> Result<u32, Memory> {
        self.clear();
        self.begin(all, row)?;
        let mut goals = all.goal.len();
        for cost in 0..MOST {
            if cost as usize > self.top || goals == 0 {
                break;
            }
            goals = goals.saturating_sub(self.settle_all(all, cost)?);
        }
        Ok(self.of_goal(all))
    }

    /// The sum of the costs of the goal.
    fn of_goal(&self, all: &Relaxation) -> u32 {
        let mut sum = 0u32;
        for lit in &all.goal {
            let cost = at(&self.cost, *lit as usize);
            if cost == NEVER {
                return NEVER;
            }
            sum = sum.saturating_add(cost).min(NEVER - 1);
        }
        sum
    }

    /// Takes a literal into the relaxed plan, if it is not there.
    fn mark(&mut self, lit: u32) -> Result<(), Memory> {
        if let Some(marked) = self.marked.get_mut(lit as usize) {
            if !*marked {
                *marked = true;
                self.list.push(lit)?;
            }
        }
        Ok(())
    }

    /// After `plan`: the literals that the actions of the relaxed plan make.
    pub fn made(&self) -> &[u32] {
        &self.made
    }

    /// After `compute` with a cost: marks the actions of a relaxed plan.
    pub fn plan(&mut self, all: &Relaxation, used: &mut [bool]) -> Result<(), Memory> {
        unmark(&mut self.marked);
        self.list.clear();
        self.made.clear();
        for lit in &all.goal {
            self.mark(*lit)?;
        }
        for place in 0..self.cost.len() {
            if place >= self.list.len() {
                break;
            }
            let lit = at(&self.list, place) as usize;
            let op = at(&self.maker, lit) as usize;
            if at(&self.cost, lit) == 0 || op >= all.needs.len() {
                continue;
            }
            self.made.push(at(&self.list, place))?;
            if let Some(mark) = used.get_mut(at(&all.acts, op) as usize) {
                *mark = true;
            }
            for needed in all.needs.at(op) {
                self.mark(*needed)?;
            }
        }
        Ok(())
    }
}
