//! The actions, counted by their effects with a condition while they are made.
ghost use Rattle.std.specs.Prelude.{◌≡◌, ◌+◌, ◌≤◌, ◌++◌, ◌∷◌, [], min, count_by, OnOk};
ghost use Rattle.gt_core.specs.Lawful.{is_conditional};
ghost use Rattle.gt_core.specs.Limits.{most_conditional};

use gt_core::act::Act;
use gt_core::limits::MOST_CONDITIONAL;
use pd_model::Memory;

/// The actions that were made, and how many of their effects have a condition; past the greatest number of 64 bits, that
/// number. Once these are more than may be, no action is kept.
#[derive(Drop)]
pub(crate) struct Counted {
    pub(crate) acts: Vec<Act>,
    pub(crate) conditional: u64,
}

impl Counted {
    /// Counts an action, and keeps it as long as there are no more such effects than may be.
    pub(crate) fn add(&mut self, act: Act) -> Result<(), Memory>
        ensures count { OnOk result (self.new.conditional ≡ min (self.old.conditional + count_by is_conditional act.effects) 18446744073709551615) }
        ensures acts { OnOk result (self.new.conditional ≤ most_conditional → self.new.acts.items ≡ self.old.acts.items ++ act ∷ []) }
    {
        let more = act.conditional() as u64;
        self.conditional = self.conditional.saturating_add(more);
        if self.conditional > MOST_CONDITIONAL {
            self.acts.clear();
            return Ok(());
        }
        self.acts.push(act)?;
        Ok(())
    }
}
