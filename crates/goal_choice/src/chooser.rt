//! The chooser.

ghost use Rattle.std.specs.Prelude.{◌≡◌, length, IfOk};
ghost use Rattle.gt_core.specs.Lawful.{conditional_in};
ghost use Rattle.formula_defs.specs.Layout.{variables};
ghost use Rattle.goal_choice.specs.Means.{means_of, gathered_of};
ghost use Rattle.goal_choice.specs.Choice.{choice_by, or_plain};
ghost use Rattle.goal_choice.specs.ChoiceLaw.{choice-open};

use crate::descent::whole_walk;
use crate::literals::Literals;
use crate::supporters::Supporters;
use crate::told_walk::ToldWalk;
use clause_base::chooser::{Chooser, PlainChooser};
use clause_base::literal::Lit;
use clause_base::values::Values;
use containers::memory::Memory;
use formula_defs::layout::Layout;
use gt_core::task::Task;
use std::alloc::Global;
use std::marker::Model;

/// The chooser of actions backwards from the goals. It fits the number of variables of the layout that it was made with. Beside
/// what it chooses by it has two sets to write over.
/// It borrows nothing, so that it can be handed to a worker.
#[derive(Drop)]
pub struct GoalChooser {
    means: Supporters,
    wanted: Literals,
    before: Literals,
}

impl Model for GoalChooser {
    ghost use Rattle.std.specs.Prelude.{◌≡◌};
    ghost use Rattle.goal_choice.specs.Means.{Means};

    ghost Value = { Means };

    ghost view = { λ c. c.means };

    ghost invariant = { λ c. (c.wanted.facts ≡ c.means.layout.facts) × (c.before.facts ≡ c.means.layout.facts) };
}

impl GoalChooser {
    /// The chooser for a task over its variables by this layout.
    pub fn new(alloc: Global, task: &Task, layout: Layout) -> Result<GoalChooser, Memory>
        requires actions { layout.actions ≡ length task.now.actions }
        requires conditional { layout.conditional ≡ conditional_in task.now.actions }
        requires facts { layout.facts ≡ task.now.facts }
        ensures { IfOk result (λ c. c ≡ means_of task.now layout) }
    {
        let supporters = Supporters::new(alloc, task)?;
        GoalChooser::sharing(alloc, &supporters, layout)
    }

    /// The chooser over variables by this layout that looks at these supporters, which other choosers share. It is that of each
    /// task whose supporters these are.
    pub fn sharing(
        alloc: Global,
        supporters: &Supporters,
        layout: Layout,
    ) -> Result<GoalChooser, Memory>
        requires actions { layout.actions ≡ supporters.now.layout.actions }
        requires conditional { layout.conditional ≡ supporters.now.layout.conditional }
        requires facts { layout.facts ≡ supporters.now.layout.facts }
        ensures made { IfOk result (λ c. c ≡ record supporters.now { layout = layout }) }
        ensures of { IfOk result (λ c. (task : Task) → supporters.now ≡ gathered_of task → c ≡ means_of task layout) }
    {
        let means = supporters.over(layout)?;
        let facts = means.layout().facts;
        let wanted = Literals::new(alloc, facts)?;
        let before = Literals::new(alloc, facts)?;
        Ok(GoalChooser {
            means,
            wanted,
            before,
        })
    }
}

impl Chooser for GoalChooser {
    ghost fits = { λ c n. n ≡ variables c.layout };

    ghost choice = { λ c values. choice_by c values };

    ghost opens = { λ c values _. choice-open c values };

    type Told = ToldWalk;

    ghost knows = { λ c t ls. (t.means ≡ c) × (t.told ≡ ls) };

    fn start(&self, alloc: Global) -> Result<ToldWalk, Memory> {
        ToldWalk::new(alloc, self.means.over(*self.means.layout())?)
    }

    fn tell(&self, told: &mut ToldWalk, lit: Lit) {
        told.tell(lit);
    }

    fn untell(&self, told: &mut ToldWalk, length: usize) {
        told.untell(length);
    }

    fn choose_told(&mut self, told: &mut ToldWalk, values: &Values) -> Option<Lit> {
        or_plain(told.choice(values), values)
    }

    fn choose(&mut self, values: &Values) -> Option<Lit> {
        let found = whole_walk(&self.means, values, &mut self.wanted, &mut self.before);
        or_plain(found, values)
    }
}

/// A choice, or else the plain one: the least variable without a value, made false.
fn or_plain(found: Option<Lit>, values: &Values) -> Option<Lit>
    ensures { result ≡ or_plain values.now found }
{
    match found {
        Some(lit) => Some(lit),
        None => PlainChooser::new().choose(values),
    }
}
