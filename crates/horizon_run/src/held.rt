// How far a run that was started is.
ghost use Rattle.std.specs.Prelude.{◌≡◌, ℕ, true, false, IfOk, OnErr};
ghost use Rattle.horizon_run.specs.Run.{RunView, choice_in, IsMoved, IsReached, Stays};
ghost use Rattle.horizon_run.specs.own.Held.{lost_of, run_in, HasLaws, IsOfLaws};
ghost use Rattle.horizon_run.specs.own.Started.{may_go};

use crate::lost::Lost;
use crate::{AheadRun, HorizonRun, Unmade};
use cdcl_defs::standing::Standing;
use containers::memory::Memory;
use std::alloc::Global;
use std::mem;

/// A run that is not made yet, with a run that ended, whose tables it may use; one that is made; or one that could not be made.
#[derive(Drop)]
pub(crate) enum Held {
    Unmade {
        run: Unmade,
        old: Option<HorizonRun>,
    },
    Made(AheadRun),
    Lost(Lost),
}

impl Held {
    /// The run, made. Its solver may be so many conflicts ahead, where it is made now.
    pub(crate) fn made(self, alloc: Global, most: u32) -> Result<AheadRun, Memory>
        ensures made { IfOk result (λ run. run ≡ run_in self) }
        ensures new { OnErr result ((run_in self).granted ≡ 0) }
        ensures lost { OnErr result ((run_in self).spoilt ≡ true → lost_of (run_in self) ≡ run_in self) }
    {
        match self {
            Held::Unmade { run, old } => {
                let made = run.made(alloc, old)?;
                Ok(AheadRun::of(alloc, made).allowed(most))
            }
            Held::Made(run) => Ok(run),
            Held::Lost(_) => Err(Memory),
        }
    }

    /// The run, whose solver may be so many conflicts ahead from now on, where it is made.
    pub(crate) fn allowed(self, most: u32) -> Held
        ensures run { run_in result ≡ run_in self }
        ensures laws { HasLaws self → HasLaws result }
    {
        match self {
            Held::Made(run) => Held::Made(run.allowed(most)),
            other => other,
        }
    }

    /// What holds of every run, wherever it is.
    pub(crate) fn keeps_laws(&self)
        requires { HasLaws self.now }
        ensures moved { (run_in self.now).spoilt ≡ false → IsMoved (run_in self.now) }
        ensures reached { (k : ℕ) → IsReached (choice_in (run_in self.now)) (run_in self.now).formula k }
        ensures settled { Stays (choice_in (run_in self.now)) (run_in self.now).formula }
    {
        match self {
            Held::Unmade { run, old: _ } => run.keeps_laws(),
            Held::Made(run) => run.keeps_laws(),
            Held::Lost(_) => {}
        }
    }
    /// How many conflicts the run was granted.
    pub(crate) fn granted(&self) -> u64
        ensures { result ≡ (run_in self.now).granted }
    {
        match self {
            Held::Unmade { run, old: _ } => {
                // For the proof: it was granted nothing.
                run.keeps_laws();
                0
            }
            Held::Made(run) => run.granted(),
            Held::Lost(_) => 0,
        }
    }

    /// Whether the run found no memory once.
    pub(crate) fn spoilt(&self) -> bool
        ensures { result ≡ (run_in self.now).spoilt }
    {
        match self {
            Held::Unmade { run, old: _ } => {
                // For the proof: it is not spoilt.
                run.keeps_laws();
                false
            }
            Held::Made(run) => run.spoilt(),
            Held::Lost(_) => true,
        }
    }

    /// Whether the run was granted nothing yet, or is neither found nor refuted.
    pub(crate) fn may_go(&self) -> bool
        ensures { result ≡ may_go (run_in self.now) }
    {
        match self {
            Held::Unmade { run, old: _ } => {
                // For the proof: it was granted nothing.
                run.keeps_laws();
                true
            }
            Held::Made(run) => run.granted() == 0 || matches!(run.standing(), Standing::Going),
            Held::Lost(_) => true,
        }
    }
}

/// Takes a run out of its place. What stands there then is a run that could not be made.
pub(crate) fn take(held: &mut Held) -> Held
    ghost run: { RunView }
    ensures taken { result ≡ held.old }
    ensures left { run_in held.new ≡ lost_of run }
    ensures laws { IsOfLaws run → HasLaws held.new }
{
    mem::replace(held, Held::Lost(Lost::of()))
}
