//! The actions that touch one fact literal.
ghost use Rattle.std.specs.Prelude.{◌≡◌, ◌≢◌, [], ◌||◌, true, ◌++◌, List, Bool, OnOk};
ghost use Rattle.step_chains.specs.declared.link.Link.{Link as LinkValue};
ghost use Rattle.step_chains.specs.own.Index.{entry, IsAway};

use containers::ListOf;
use containers::memory::Memory;

/// An action beside a fact literal: whether it may take the literal away, and whether it reads it.
#[derive(Clone, Copy)]
pub struct Link {
    /// The number of the action.
    pub action: u32,
    /// Whether it may take the literal away.
    pub takes: bool,
    /// Whether it reads the literal.
    pub reads: bool,
}

/// A link that takes or reads the literal also by what these say.
fn joined(link: Link, takes: bool, reads: bool) -> Link
    ensures { result ≡ record { action = link.action; takes = link.takes || takes; reads = link.reads || reads } }
{
    Link {
        action: link.action,
        takes: link.takes || takes,
        reads: link.reads || reads,
    }
}

/// The links of one literal, in the order of their actions.
pub(crate) type Links = ListOf<Link>;

/// Notes that an action takes the literal of some links, or reads it. The action is the last one that was noted, or none that
/// was.
pub(crate) fn mark(links: &mut Links, action: u32, takes: bool, reads: bool) -> Result<(), Memory>
    requires { (takes || reads) ≡ true }
    ensures some { OnOk result (links.new ≢ []) }
    ensures marked { OnOk result ((base : List LinkValue) (t r : Bool) → IsAway action base → links.old ≡ base ++ entry action t r → links.new ≡ base ++ entry action (t || takes) (r || reads)) }
{
    let link = Link {
        action,
        takes,
        reads,
    };
    let Some(last) = links.pop() else {
        links.push(link)?;
        return Ok(());
    };
    if last.action == action {
        links.push(joined(last, takes, reads))?;
        return Ok(());
    }
    links.push(last)?;
    links.push(link)?;
    Ok(())
}
