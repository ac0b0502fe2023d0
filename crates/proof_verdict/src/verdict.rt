//! The verdict on a proof that a tape gives.
ghost use Rattle.std.specs.Prelude.{◌≡◌, ◌≤◌, ◌<◌, ℕ, [], length, take, Ok, None, OnOk, IfOk, IfSome};
ghost use Rattle.clause_base.specs.Formula.{IsUnsatisfiable};
ghost use Rattle.pl_io.specs.Outside.{Rose};
ghost use Rattle.pl_io.specs.Tape.{IsAtFront, given_opened, given_more};
ghost use Rattle.plan_endings.specs.Ends.{StopsBy};
ghost use Rattle.proof_verdict.specs.Verdict.{IsUnread, IsVerdictOn, stop_of};

use clause_base::formula::Formula;
use lrat_judge::judge::Judge;
use lrat_judge::verdict::Verdict;
use pl_io::{TakeError, Tape};
use plan_endings::stop::Stop;
use plan_endings::{Ending, File};
use std::alloc::Global;

/// How many bytes a piece of a file on a tape has at most.
pub const PIECE: usize = 65536;

// The stop of a tape that gave nothing.
fn stop_of(error: TakeError) -> Stop
    ensures { result ≡ stop_of error }
{
    match error {
        TakeError::Failed => Stop::Ends(Ending::ReadFault(File::Proof)),
        TakeError::Memory => Stop::Memory,
    }
}

/// Opens the file of a proof.
pub fn open<T: Tape>(tape: &mut T, name: &str) -> Result<(), Stop>
    ensures given { OnOk result (T.given tape.new ≡ given_opened (T.given tape.old) name.now) }
    ensures stops { StopsBy (IsUnread (T.faults tape.old) (T.faults tape.new)) result }
    ensures later { T.faults tape.old ≤ T.faults tape.new }
{
    match tape.open(name) {
        Ok(()) => Ok(()),
        Err(error) => Err(stop_of(error)),
    }
}

// Takes the next piece, and answers how many bytes it has; nothing at the end.
fn next<T: Tape>(tape: &mut T, piece: &mut [u8]) -> Result<Option<usize>, Stop>
    requires { 0 < length piece.old }
    ensures room { length piece.new ≡ length piece.old }
    ensures bound { IfOk result (λ o. IfSome o (λ count. count ≤ length piece.new)) }
    ensures given { IfOk result (λ o. IfSome o (λ count. (0 < count) × (T.given tape.new ≡ given_more (T.given tape.old) (take count piece.new)))) }
    ensures opened { (T.given tape.new).opened ≡ (T.given tape.old).opened }
    ensures end { result ≡ Ok None → T.given tape.new ≡ given_more (T.given tape.old) [] }
    ensures fewer { IfOk result (λ o. IfSome o (λ count. T.pieces tape.new < T.pieces tape.old)) }
    ensures stops { StopsBy (IsUnread (T.faults tape.old) (T.faults tape.new)) result }
    ensures later { T.faults tape.old ≤ T.faults tape.new }
{
    match tape.take(piece) {
        Ok(0) => Ok(None),
        Ok(count) => Ok(Some(count)),
        Err(error) => Err(stop_of(error)),
    }
}

/// What the judge says of the proof that is open, over a formula: of a proof that is read to its end, or to the first line that tells.
pub fn verdict_on<T: Tape>(alloc: Global, formula: &Formula, tape: &mut T) -> Result<Verdict, Stop>
    ensures refuted { (entries : ℕ) → result ≡ Ok (Verdict.Refuted entries) → IsUnsatisfiable formula.now.clauses }
    ensures verdict { IsAtFront (T.given tape.old) → IfOk result (IsVerdictOn formula.now (T.given tape.new)) }
    ensures opened { (T.given tape.new).opened ≡ (T.given tape.old).opened }
    ensures stops { StopsBy (IsUnread (T.faults tape.old) (T.faults tape.new)) result }
    ensures later { T.faults tape.old ≤ T.faults tape.new }
{
    let mut judge = Judge::new(alloc, formula)?;
    let mut piece = [0u8; PIECE];
    'reading: loop {
        let Some(count) = next(tape, &mut piece)? else {
            let last = judge.finish()?;
            return Ok(last);
        };
        match judge.take(&piece[..count])? {
            Verdict::More => {}
            verdict => return Ok(verdict),
        }
    }
}
