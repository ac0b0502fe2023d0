//! The literals that an action surely makes true: those of its sure gains and of its sure losses.

ghost use Rattle.std.specs.Prelude.{◌≡◌, ℕ, ◌*◌, ◌<◌, ◌≤◌, false, OnOk, IfOk};
ghost use Rattle.std.specs.List.{AllByRecursion};
ghost use Rattle.bit_sets.specs.Rows.{row_has};
ghost use Rattle.action_order.specs.own.Readers.{ActionWithin};
ghost use Rattle.action_order.specs.own.Sure.{IsSure, AreSure, AreMade, makes_surely};
ghost use Rattle.gt_core.specs.Limits.{most_facts};

use bit_sets::row::BitRow;
use gt_core::act::Act;
use gt_core::eff::Eff;
use gt_core::lits::Lits;
use std::alloc::{AllocError, Global};

/// Puts the literals of effects into an empty set.
fn collect_literals(made: &mut BitRow, effects: &[Eff]) -> Result<(), AllocError>
    requires { (l : ℕ) → row_has made.old l ≡ false }
    ensures { OnOk result (AreMade made.new effects.now) }
{
    for effect in effects {
        made.insert(effect.lit())?;
    }
    Ok(())
}

/// Whether an effect surely makes its literal true; `made` has the literals of all effects of its action.
fn makes_surely(effect: &Eff, made: &BitRow) -> bool
    ensures { result ≡ makes_surely made.now effect.now }
{
    let lit = effect.lit();
    !effect.is_conditional() && (lit % 2 == 0 || !made.contains(lit - 1))
}

/// The literals that effects without a condition make true, less those of facts that some effect adds and one
/// deletes: of these the adds alone. `made` has the literals of all effects.
fn sure_literals(
    alloc: Global,
    effects: &[Eff],
    made: &BitRow,
    facts: u32,
) -> Result<Lits, AllocError>
    requires made { AreMade made.now effects.now }
    requires within { AllByRecursion (λ e. e.literal < 2 * facts) effects.now }
    ensures { IfOk result (λ sure. IsSure (2 * facts) effects.now sure) }
{
    let mut sure = Vec::new(alloc);
    for effect in effects {
        if makes_surely(effect, made) {
            sure.push(effect.lit())?;
        }
    }
    Ok(Lits::of(sure))
}

/// The literals that each action surely makes true.
pub fn all_sure(alloc: Global, facts: u32, acts: &[Act]) -> Result<Vec<Lits>, AllocError>
    requires facts { facts ≤ most_facts }
    requires within { AllByRecursion (ActionWithin facts) acts.now }
    ensures { IfOk result (λ sure. AreSure (2 * facts) acts.now sure.items) }
{
    let mut made = BitRow::new(alloc);
    let mut all = Vec::new(alloc);
    for act in acts {
        made.clear();
        collect_literals(&mut made, act.effects())?;
        all.push(sure_literals(alloc, act.effects(), &made, facts)?)?;
    }
    Ok(all)
}
