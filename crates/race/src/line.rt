// The line of a horizon, by its run.
ghost use Rattle.std.specs.Prelude.{◌≡◌, IfOk};
ghost use Rattle.race.specs.{Clears.passed_line, Found.open_line, Input.RaceInput, Lines.IsLine, Runs.live_run_of, Runs.IsRunOf};
ghost use Rattle.race_outcome.specs.Ends.{line_view};

use cdcl_defs::standing::Standing;
use containers::memory::Memory;
use horizon_run::AheadRun;
use race_outcome::{Line, LineEnd};
use std::alloc::Global;

/// The line of a run that ended so.
fn line_of(run: &AheadRun, end: LineEnd) -> Line
    ensures { result ≡ record { horizon = run.now.formula.name; conflicts = run.now.state.conflicts; end = end } }
{
    Line {
        horizon: run.horizon(),
        conflicts: run.conflicts(),
        end,
    }
}

/// The line of a refuted run, with the mark of its log.
fn refuted(alloc: Global, run: &mut AheadRun) -> Result<Line, Memory>
    ghost input: { RaceInput }
    requires run { IsRunOf input run.old }
    requires refuted { run.old.state.standing ≡ Standing.Refuted }
    ensures told { IfOk result (λ line. line_view line ≡ open_line (live_run_of run.old)) }
    ensures line { IfOk result (λ line. IsLine input line) }
{
    let horizon = run.horizon();
    let conflicts = run.conflicts();
    let end = LineEnd::Refuted(run.take_mark(alloc)?);
    Ok(Line {
        horizon,
        conflicts,
        end,
    })
}

/// The line of a run that is live at the end.
pub(crate) fn open(alloc: Global, run: AheadRun) -> Result<Line, Memory>
    ghost input: { RaceInput }
    requires run { IsRunOf input run }
    ensures told { IfOk result (λ line. line_view line ≡ open_line (live_run_of run)) }
    ensures line { IfOk result (λ line. IsLine input line) }
{
    let mut run = run;
    match run.standing() {
        Standing::Refuted => refuted(alloc, &mut run),
        Standing::Going => Ok(line_of(&run, LineEnd::Going)),
        Standing::Found => Ok(line_of(&run, LineEnd::Found)),
    }
}

/// The line of a run that ends here, since it is passed by a refuted one or refuted itself.
pub(crate) fn ended(alloc: Global, run: &mut AheadRun) -> Result<Line, Memory>
    ghost input: { RaceInput }
    requires run { IsRunOf input run.old }
    requires unfound { run.old.state.standing ≡ Standing.Found → ⊥ }
    ensures told { IfOk result (λ line. line_view line ≡ passed_line (live_run_of run.old)) }
    ensures line { IfOk result (λ line. IsLine input line) }
{
    if !matches!(run.standing(), Standing::Refuted) {
        return Ok(line_of(run, LineEnd::Dropped));
    }
    refuted(alloc, run)
}
