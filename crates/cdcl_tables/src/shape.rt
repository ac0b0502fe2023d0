//! How many variables and clauses the parts of a formula have.
ghost use Rattle.std.specs.Prelude.{◌≡◌, ◌+◌, ◌*◌, ◌≤◌, length};
ghost use Rattle.clause_base.specs.Repeats.{repeated as repeated_clauses, variables_of};
ghost use Rattle.cdcl_tables.specs.own.Lists.{AreNumbers, IsShape};

use clause_base::clause_list::ClauseList;
use clause_base::divisor::Divisor;
use clause_base::repeated::Repeated;

/// The numbers of a formula's parts.
#[derive(Clone, Copy)]
pub struct Shape {
    /// How many variables there are in all.
    pub variables: u32,
    /// How many steps there are.
    pub horizon: u32,
    /// How many variables a step has, without facts.
    pub width: u32,
    /// How many facts there are at a time.
    pub facts: u32,
    /// How many clauses are told.
    pub tolds: u32,
    /// How many clauses a step has.
    pub steps: usize,
    /// How many clauses all steps have.
    pub all_steps: u32,
    /// How many clauses a time has.
    pub times: u32,
    /// How many clauses come after those of all steps and times.
    pub afters: u32,
    /// How many clauses come before these.
    pub before: u32,
    /// The code of the first fact at time 0.
    pub facts_begin: u32,
    /// The code after that of the last fact at the last time.
    pub facts_end: u32,
    /// How many codes the variables of a step have.
    pub step_codes: Divisor,
    /// How many codes the facts at a time have.
    pub time_codes: Divisor,
}

/// How many clauses all steps have.
fn all_steps(part: &Repeated) -> u32
    ensures { result ≡ part.now.horizon * length part.now.step }
{
    let horizon = part.horizon();
    let steps = part.step().count();
    (horizon as usize * steps) as u32
}

/// The numbers of a formula's parts.
pub fn shape_of(variables: u32, told: &ClauseList, part: &Repeated, after: &ClauseList) -> Shape
    requires small { variables ≤ 2147483647 }
    requires fits { variables_of part.now ≤ variables }
    requires few { length told.now + (length (repeated_clauses part.now) + length after.now) ≤ 1073741824 }
    ensures numbers { AreNumbers result variables told.now part.now after.now }
    ensures shape { IsShape result }
{
    let horizon = part.horizon();
    let width = part.width();
    let facts = part.facts();
    let facts_begin = 2 * (horizon * width);
    let tolds = told.count() as u32;
    let steps = part.step().count();
    let all_steps = all_steps(part);
    let times = part.time().count() as u32;
    let afters = after.count() as u32;
    let repeats = part.count();
    let step_codes = Divisor::of(2 * width as usize);
    let time_codes = Divisor::of(2 * facts as usize);
    Shape {
        variables,
        horizon,
        width,
        facts,
        tolds,
        steps,
        all_steps,
        times,
        afters,
        before: tolds + repeats,
        facts_begin,
        facts_end: facts_begin + 2 * (horizon * facts + facts),
        step_codes,
        time_codes,
    }
}
