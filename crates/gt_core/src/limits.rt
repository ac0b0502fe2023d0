//! How large a task may be.

/// How many facts a task may have.
pub const MOST_FACTS: u64 = 2048;

/// How many actions a task may have.
pub const MOST_ACTIONS: u64 = 16384;

/// How many effects with a condition a task may have.
pub const MOST_CONDITIONAL: u64 = 65536;

/// How many facts a task may have from which states are searched.
pub const MOST_WIDE_FACTS: u64 = 65536;

/// How many actions such a task may have.
pub const MOST_WIDE_ACTIONS: u64 = 1048576;

/// How many effects with a condition such a task may have.
pub const MOST_WIDE_CONDITIONAL: u64 = 4194304;

/// How many facts, actions and effects with a condition a task may have.
#[derive(Clone, Copy)]
pub struct Limits {
    /// How many facts.
    pub facts: u64,
    /// How many actions.
    pub actions: u64,
    /// How many effects with a condition.
    pub conditional: u64,
}

impl Limits {
    ghost use Rattle.std.specs.Prelude.{◌≡◌};
    ghost use Rattle.gt_core.specs.Limits.{race_limits, wide_limits};

    /// The limits of what is encoded: tables of pairs of facts are made of it.
    pub fn race() -> Self
        ensures { result ≡ race_limits }
    {
        Limits {
            facts: MOST_FACTS,
            actions: MOST_ACTIONS,
            conditional: MOST_CONDITIONAL,
        }
    }

    /// The limits of what is searched state by state.
    pub fn wide() -> Self
        ensures { result ≡ wide_limits }
    {
        Limits {
            facts: MOST_WIDE_FACTS,
            actions: MOST_WIDE_ACTIONS,
            conditional: MOST_WIDE_CONDITIONAL,
        }
    }
}
