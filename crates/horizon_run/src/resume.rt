// The run of a horizon as one that workers advance and pass on.
ghost use Rattle.std.specs.Prelude.{◌≡◌, ◌+◌};

use crate::HorizonRun;
use cdcl_defs::standing::Standing;
use solver_pool::{Memory, Resume};

impl Resume for HorizonRun {
    ghost use Rattle.std.specs.Prelude.{refl};
    ghost use Rattle.horizon_run.specs.own.Resume.{origin, moved_by, still, goes};

    ghost key_of = { λ r. r.formula.name };

    ghost granted_of = { λ r. r.granted };

    ghost origin_of = { origin };

    ghost moved = { moved_by };

    ghost state_of = { still };

    ghost unsettled_at = { goes };

    ghost spoilt_at = { λ r. r.spoilt };

    fn advance(&mut self, conflicts: u32) -> Result<(), Memory> {
        self.go_on(conflicts)
    }

    fn horizon(&self) -> u32 {
        self.solver.formula().name()
    }

    fn unsettled(&self) -> bool {
        matches!(self.standing(), Standing::Going)
    }

    fn spoilt(&self) -> bool {
        self.solver.is_spoilt()
    }

    fn granted(&self) -> u64 {
        self.granted
    }

    ghost by_state = { λ r. refl };
}
