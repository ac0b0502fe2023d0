//! What is made of the text of a model that a tape gives.
ghost use Rattle.std.specs.Prelude.{◌≡◌, ◌≤◌, ◌<◌, ℕ, [], length, IfOk};
ghost use Rattle.clause_base.specs.Formula.{IsModel};
ghost use Rattle.pl_io.specs.Outside.{Rose};
ghost use Rattle.pl_io.specs.Tape.{Given as GivenBytes, IsAtFront, given_more};
ghost use Rattle.plan_endings.specs.Ends.{StopsBy};
ghost use Rattle.plan_tasks.specs.Stepping.{places_by};
ghost use Rattle.step_encoding.specs.{Limits.most_literals, Numbers.literals_of};
ghost use Rattle.sat_text.specs.Values.{Values as values_read};
ghost use Rattle.sat_text.specs.Stands.{HasRead};
ghost use Rattle.proof_verdict.specs.Verdict.{TapeRun, tape_run};
ghost use Rattle.judge_top.specs.Answers.{IsReadAs, OfKnown, IsTold, IsToldOf, IsBelow, IsGiven, IsTooMany, TellsTooMany};
ghost use Rattle.horizon_rates.specs.Limits.{last_horizon};

use crate::formula::formula_of;
use action_order::publish::publish;
use all_steps::form::BothWays;
use clause_base::formula::Formula;
use containers::memory::Memory;
use gt_core::task::Task;
use pl_io::{Reading, TakeError, Tape};
use plan_endings::stop::Stop;
use proof_verdict::verdict::PIECE;
use requests::Stepping;
use sat_text::first_false::first_false;
use sat_text::value_reader::{Reader, Refused};
use std::alloc::Global;
use std::thread::Threads;
use step_encoding::exists::Components;
use step_encoding::form::StepForm;
use step_encoding::placed::{Placed, Placing};
use step_encoding::steps::Steps;
use two_invariants::find;

/// What was made of the text of a model.
#[derive(Drop)]
pub enum Told {
    /// It could not be read.
    Unread,
    /// It is none, or has a line that is too long.
    Refused(Refused),
    /// This clause of the formula, counted from 0, is the first that its values do not make true.
    NoModel { clause: u32 },
    /// Its values satisfy the formula, and stand for these steps.
    Plan(Steps),
}

/// What was read of the text of a model.
#[derive(Drop)]
pub enum Given {
    /// It could not be read.
    Unread,
    /// It is none, or has a line that is too long.
    Refused(Refused),
    /// Its values.
    Values(Reader),
}

// What the text that was read to its end is.
fn finished(mut reader: Reader) -> Given
    ensures { (variables : ℕ) (given : GivenBytes) (tape : TapeRun) → HasRead variables given.bytes reader → given.reading ≡ Reading.Goes → tape.given ≡ given_more given [] → IsGiven variables tape result }
{
    match reader.finish() {
        Some(refused) => Given::Refused(refused),
        None => Given::Values(reader),
    }
}

// Reads the text that is open, of the values of so many variables, to its end, or to the first line that tells.
fn read_given<T: Tape>(alloc: Global, variables: u32, tape: &mut T) -> Result<Given, Memory>
    requires front { IsAtFront (T.given tape.old) }
    ensures given { IfOk result (IsGiven variables (tape_run (T.faults tape.old) (T.faults tape.new) (T.given tape.old) (T.given tape.new))) }
    ensures opened { (T.given tape.new).opened ≡ (T.given tape.old).opened }
    ensures later { T.faults tape.old ≤ T.faults tape.new }
{
    let mut reader = Reader::new(alloc, variables)?;
    let mut piece = [0u8; PIECE];
    'reading: loop {
        match tape.take(&mut piece) {
            Ok(0) => return Ok(finished(reader)),
            Ok(count) => {
                if let Some(refused) = reader.take(&piece[..count])? {
                    return Ok(Given::Refused(refused));
                }
            }
            Err(TakeError::Failed) => return Ok(Given::Unread),
            Err(TakeError::Memory) => return Err(Memory),
        }
    }
}

// What values are, for the formula of a horizon of a form.
fn told_values<F: StepForm>(
    alloc: Global,
    form: &F,
    horizon: u32,
    formula: &Formula,
    values: &[bool],
) -> Result<Told, Memory>
    requires horizon { horizon ≤ last_horizon }
    requires small { literals_of (F.formula_of form.now horizon) ≤ most_literals }
    requires formula { formula.now ≡ F.formula_of form.now horizon }
    requires long { length values.now ≡ formula.now.variables }
    ensures told { (tape : TapeRun) → IsReadAs formula.now.variables tape.given (values_read values.now)
        → IfOk result (IsToldOf (F.formula_of form.now horizon) (F.stands_for form.now horizon) tape) }
    ensures members { IfOk result (IsBelow (length (F.task form.now).actions)) }
{
    // For the proof: the form is lawful, so its laws hold.
    let _lawful = form.size(horizon);
    if let Some(clause) = first_false(formula, values) {
        return Ok(Told::NoModel { clause });
    }
    let steps = form.steps_of(alloc, horizon, values)?;
    Ok(Told::Plan(steps))
}

// What was made of the text that is open, for a form.
fn told_of<F: StepForm, T: Tape>(
    alloc: Global,
    form: &F,
    horizon: u32,
    tape: &mut T,
) -> Result<Told, Stop>
    requires horizon { horizon ≤ last_horizon }
    requires front { IsAtFront (T.given tape.old) }
    ensures told { IfOk result (IsToldOf (F.formula_of form.now horizon) (F.stands_for form.now horizon) (tape_run (T.faults tape.old) (T.faults tape.new) (T.given tape.old) (T.given tape.new))) }
    ensures opened { (T.given tape.new).opened ≡ (T.given tape.old).opened }
    ensures members { IfOk result (IsBelow (length (F.task form.now).actions)) }
    ensures stops { StopsBy (IsTooMany (F.formula_of form.now horizon) horizon) result }
    ensures later { T.faults tape.old ≤ T.faults tape.new }
{
    let formula = formula_of(alloc, form, horizon)?;
    match read_given(alloc, formula.variables(), tape)? {
        Given::Unread => Ok(Told::Unread),
        Given::Refused(refused) => Ok(Told::Refused(refused)),
        Given::Values(reader) => {
            let told = told_values(alloc, form, horizon, &formula, reader.as_slice())?;
            Ok(told)
        }
    }
}

// What was made of the text that is open, for the places of the chains of one form.
fn told_in<P: Placing, H: Threads + Sync, T: Tape>(
    rt: &H,
    alloc: Global,
    task: &Task,
    horizon: u32,
    tape: &mut T,
) -> Result<Told, Stop>
    requires horizon { horizon ≤ last_horizon }
    requires front { IsAtFront (T.given tape.old) }
    ensures told { IfOk result (λ told. OfKnown task.now (IsTold P.places horizon (tape_run (T.faults tape.old) (T.faults tape.new) (T.given tape.old) (T.given tape.new)) told)) }
    ensures opened { (T.given tape.new).opened ≡ (T.given tape.old).opened }
    ensures members { IfOk result (IsBelow (length task.now.actions)) }
    ensures stops { StopsBy (TellsTooMany P.places horizon task.now) result }
    ensures later { T.faults tape.old ≤ T.faults tape.new }
{
    let pairs = find(rt, alloc, task)?;
    let order = publish(alloc, task, &pairs)?;
    let form = Placed::<P>::new(alloc, task, &pairs, &order)?;
    told_of(alloc, &form, horizon, tape)
}

/// What is made of the text of a model that is open, for a horizon of a task; or the run stops, where its formula is past the
/// limit.
pub fn told_by<H: Threads + Sync, T: Tape>(
    rt: &H,
    alloc: Global,
    steps: Stepping,
    task: &Task,
    horizon: u32,
    tape: &mut T,
) -> Result<Told, Stop>
    requires horizon { horizon ≤ last_horizon }
    requires front { IsAtFront (T.given tape.old) }
    ensures told { IfOk result (λ told. OfKnown task.now (IsTold (places_by steps) horizon (tape_run (T.faults tape.old) (T.faults tape.new) (T.given tape.old) (T.given tape.new)) told)) }
    ensures opened { (T.given tape.new).opened ≡ (T.given tape.old).opened }
    ensures members { IfOk result (IsBelow (length task.now.actions)) }
    ensures stops { StopsBy (TellsTooMany (places_by steps) horizon task.now) result }
    ensures later { T.faults tape.old ≤ T.faults tape.new }
{
    match steps {
        Stepping::Exists => told_in::<Components, H, T>(rt, alloc, task, horizon, tape),
        Stepping::All => told_in::<BothWays, H, T>(rt, alloc, task, horizon, tape),
    }
}
