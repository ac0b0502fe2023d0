//! The clauses of chains.
ghost use Rattle.std.specs.Prelude.{◌≡◌, ◌+◌, ◌≤◌, ◌<◌, ◌++◌, ℕ, List, [], ◌∷◌, true, false, if◌then◌else◌, OnOk};
ghost use Rattle.clause_base.specs.Clause.{clause_of};
ghost use Rattle.std.specs.List.{cons_option};
ghost use Rattle.formula_defs.specs.Formula.{chain_clauses};
ghost use Rattle.step_chains.specs.Chains.{AreChains, all_clauses};
ghost use Rattle.gt_core.specs.Task.{Task};
ghost use Rattle.formula_defs.specs.Layout.{action_at, chain_at};
ghost use Rattle.formula_defs.specs.Clause.{Is, Not, code};
ghost use Rattle.step_chains.specs.own.Walk.{HasChain};
ghost use Rattle.step_chains.specs.own.Links.{enter_links, pass_links, enter_of, pass_of};
ghost use Rattle.formula_defs.specs.Coded.{Appends};
ghost use Rattle.formula_defs.specs.Variables.{chains};

use crate::chain::Chain;
use crate::chains::Chains;
use crate::link::Link;
use crate::walk::Walk;
use clause_base::clause_list::ClauseList;
use clause_base::literal::Lit;
use containers::memory::Memory;
use formula_defs::layout::Layout;

/// Appends the clause of two literals, unless they are opposite.
fn add_pair(clauses: &mut ClauseList, one: Lit, other: Lit) -> Result<(), Memory>
    ensures { OnOk result (clauses.new ≡ clauses.old ++ cons_option (clause_of (one ∷ other ∷ [])) []) }
{
    clauses.add_of(&[one, other])?;
    Ok(())
}

/// The literal that an action is not in the first step.
fn not_action(layout: &Layout, action: u32) -> Lit
    requires horizon { 0 < layout.now.horizon }
    requires action { action < layout.now.actions }
    ensures { result ≡ code (Not (action_at layout.now 0 action)) }
{
    // For the proof: the layout is lawful, so what it numbers are variables of the formula.
    let _all = layout.variables();
    Lit::of(layout.action(0, action), false)
}

/// The literal of a chain variable in the first step.
fn chain_lit(layout: &Layout, chain: u32, value: bool) -> Lit
    requires horizon { 0 < layout.now.horizon }
    requires chain { chain < layout.now.chains }
    ensures { result ≡ code (if value then Is (chain_at layout.now 0 chain) else Not (chain_at layout.now 0 chain)) }
{
    // For the proof: the layout is lawful, so what it numbers are variables of the formula.
    let _all = layout.variables();
    Lit::of(layout.chain(0, chain), value)
}

/// Appends the clause by which a taker makes a variable true, where a reader is left.
fn add_enter(
    layout: &Layout,
    link: Link,
    variable: u32,
    left: bool,
    clauses: &mut ClauseList,
) -> Result<(), Memory>
    requires horizon { 0 < layout.now.horizon }
    requires action { link.action < layout.now.actions }
    requires variable { link.takes ≡ true → left ≡ true → variable < layout.now.chains }
    ensures { OnOk result (Appends clauses.old clauses.new (enter_of layout.now link variable left)) }
{
    if link.takes && left {
        add_pair(
            clauses,
            not_action(layout, link.action),
            chain_lit(layout, variable, true),
        )?;
    }
    Ok(())
}

/// Appends the clauses by which a reader's variable, where it is true, forbids it and makes the next variable true, where
/// a reader is left.
fn add_pass(
    layout: &Layout,
    action: u32,
    reads: bool,
    variable: u32,
    left: bool,
    clauses: &mut ClauseList,
) -> Result<(), Memory>
    requires horizon { 0 < layout.now.horizon }
    requires action { action < layout.now.actions }
    requires variable { reads ≡ true → variable < layout.now.chains }
    requires next { reads ≡ true → left ≡ true → variable + 1 < layout.now.chains }
    ensures { OnOk result (Appends clauses.old clauses.new (pass_of layout.now action reads variable left)) }
{
    if !reads {
        return Ok(());
    }
    let not = chain_lit(layout, variable, false);
    add_pair(clauses, not, not_action(layout, action))?;
    if left {
        add_pair(clauses, not, chain_lit(layout, variable + 1, true))?;
    }
    Ok(())
}

/// Appends the clauses of a chain's takers.
fn add_enters(layout: &Layout, chain: &Chain, clauses: &mut ClauseList) -> Result<(), Memory>
    requires { HasChain layout.now chain.now }
    ensures { OnOk result (Appends clauses.old clauses.new (enter_links (action_at layout.now 0) (chain_at layout.now 0) false chain.now.first chain.now.links)) }
{
    let mut walk = Walk::of(chain);
    for link in chain.links.as_slice() {
        walk = walk.past(*link);
        add_enter(layout, *link, walk.next, walk.left > 0, clauses)?;
    }
    Ok(())
}

/// Appends the clauses of a chain's variables.
fn add_passes(layout: &Layout, chain: &Chain, clauses: &mut ClauseList) -> Result<(), Memory>
    requires { HasChain layout.now chain.now }
    ensures { OnOk result (Appends clauses.old clauses.new (pass_links (action_at layout.now 0) (chain_at layout.now 0) false chain.now.first chain.now.links)) }
{
    let mut walk = Walk::of(chain);
    for link in chain.links.as_slice() {
        let after = walk.past(*link);
        let reads = walk.seen & link.reads;
        add_pass(
            layout,
            link.action,
            reads,
            walk.next,
            after.left > 0,
            clauses,
        )?;
        walk = after;
    }
    Ok(())
}

impl Chains {
    /// Appends the clauses of the chains in the first step of a layout.
    pub fn add_clauses(&self, layout: &Layout, clauses: &mut ClauseList) -> Result<(), Memory>
        requires horizon { 0 < layout.now.horizon }
        requires actions { layout.now.actions ≡ self.now.actions }
        requires chains { layout.now.chains ≡ self.now.variables }
        ensures found { OnOk result (Appends clauses.old clauses.new (all_clauses (action_at layout.now 0) (chain_at layout.now 0) self.now.chains)) }
        ensures of_task { (task : Task) (places : List (List ℕ × ℕ)) → AreChains task places self.now → OnOk result (Appends clauses.old clauses.new (chain_clauses (action_at layout.now 0) (chain_at layout.now 0) task (chains task places))) }
    {
        for chain in self.as_slice() {
            add_enters(layout, chain, clauses)?;
            add_passes(layout, chain, clauses)?;
        }
        Ok(())
    }
}
