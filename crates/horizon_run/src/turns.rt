// A run that was started, as one that workers advance and pass on.
ghost use Rattle.std.specs.Prelude.{◌≡◌, ◌+◌};

use crate::Started;
use crate::held::Held;
use solver_pool::{Memory, Resume};

impl Resume for Started {
    ghost use Rattle.horizon_run.specs.own.Resume.{origin, moved_by};
    ghost use Rattle.horizon_run.specs.own.Started.{still_begun, may_go, may_go-still};

    ghost key_of = { λ r. r.formula.name };

    ghost granted_of = { λ r. r.granted };

    ghost origin_of = { origin };

    ghost moved = { moved_by };

    ghost state_of = { still_begun };

    ghost unsettled_at = { may_go };

    ghost spoilt_at = { λ r. r.spoilt };

    fn advance(&mut self, conflicts: u32) -> Result<(), Memory> {
        self.go_on(conflicts)
    }

    fn horizon(&self) -> u32 {
        self.horizon
    }

    fn unsettled(&self) -> bool {
        self.keeps_laws();
        self.held.may_go()
    }

    fn spoilt(&self) -> bool {
        self.held.spoilt()
    }

    fn granted(&self) -> u64 {
        self.keeps_laws();
        self.held.granted()
    }

    fn work_ahead(&mut self) -> bool {
        match &mut self.held {
            Held::Made(run) => run.go_ahead(),
            _ => false,
        }
    }

    ghost by_state = { may_go-still };
}
