//! The clauses that cubes are the opposites of.

ghost use Rattle.std.specs.Prelude.{◌*◌, ◌<◌, ◌≤◌, length, IfOk, OnOk};
ghost use Rattle.std.specs.List.{AllByRecursion};
ghost use Rattle.gt_core.specs.Limits.{most_facts};
ghost use Rattle.never_text.specs.Laws.{IsAsRead};

use crate::layers::Layer;
use bit_sets::row::BitRow;
use containers::FlatLists;
use containers::codes::opposite;
use containers::memory::Memory;
use never_text::laws::laws;
use never_text::sorted::sort;
use std::alloc::Global;

/// Makes a list the opposites of the literals of a cube, over so many facts.
fn make_opposites(cube: &BitRow, facts: u32, lits: &mut Vec<u32>) -> Result<(), Memory>
    requires { facts ≤ 1073741824 }
    ensures { OnOk result (AllByRecursion (λ l. l < 2 * facts) lits.new.items) }
{
    lits.clear();
    for lit in 0..2 * facts {
        if cube.contains(opposite(lit)) {
            lits.push(lit)?;
        }
    }
    Ok(())
}

/// The clauses of all cubes, over so many facts.
pub fn clauses_of(alloc: Global, facts: u32, layers: &[Layer]) -> Result<FlatLists<u32>, Memory>
    requires { facts ≤ most_facts }
    ensures few { IfOk result (λ clauses. length clauses ≤ length layers.now) }
    ensures over { IfOk result (λ clauses. AllByRecursion (AllByRecursion (λ l. l < 2 * facts)) clauses) }
    ensures as_read { IfOk result (λ clauses. AllByRecursion (IsAsRead facts) clauses) }
{
    // For the proof: literals in order are a clause as it is read.
    laws();
    let mut clauses = FlatLists::new(alloc);
    let mut lits = Vec::new(alloc);
    let mut clause = Vec::new(alloc);
    for layer in layers {
        make_opposites(&layer.cube, facts, &mut lits)?;
        sort(alloc, facts, &lits, &mut clause)?;
        clauses.push(&clause)?;
    }
    Ok(clauses)
}
