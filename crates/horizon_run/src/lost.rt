// What is left of a run where there was no memory to make it. Clauses alone read it.
ghost use Rattle.std.specs.Prelude.{◌≡◌};
ghost use Rattle.std.specs.Borrow.{ftrue};
ghost use Rattle.horizon_run.specs.Run.{RunView};

use std::marker::{Model, PhantomData};

/// The run that could not be made. It takes no memory.
#[derive(Drop)]
pub(crate) struct Lost {
    marker: PhantomData<u8>,
    pub(crate) ghost run: { RunView },
}

impl Model for Lost {
    ghost also_owns = { λ _. ftrue };
}

// It owns nothing, so any thread may have it. Proved by hand, since it is a struct with `also_owns`.
unsafe impl Send for Lost {}

impl Lost {
    /// This run could not be made. Proved by hand, since only such a proof sets what no field holds.
    pub(crate) fn of() -> Lost
        ghost run: { RunView }
        ensures { result.run ≡ run }
    {
        Lost {
            marker: PhantomData,
        }
    }
}
