//! A walk along the links of a chain.

use crate::chain::{Chain, left_after, readers};
use crate::link::Link;

/// Where a walk along the links of a chain stands: whether a taker was seen, the number of the next variable, and how many
/// readers are left.
#[derive(Clone, Copy)]
pub(crate) struct Walk {
    pub(crate) seen: bool,
    pub(crate) next: u32,
    pub(crate) left: usize,
}

impl Walk {
    ghost use Rattle.std.specs.Prelude.{◌≡◌, ◌≤◌, true, false, count_by};
    ghost use Rattle.step_chains.specs.own.Walk.{IsAfter};

    /// Before the first link.
    pub(crate) fn of(chain: &Chain) -> Walk
        ensures seen { result.seen ≡ false }
        ensures next { result.next ≡ chain.now.first }
        ensures left { result.left ≡ count_by (λ k. k.reads) chain.now.links }
    {
        Walk {
            seen: false,
            next: chain.first,
            left: readers(&chain.links),
        }
    }

    /// After one more link.
    pub(crate) fn past(self, link: Link) -> Walk
        requires next { self.next ≤ 1073741824 }
        requires left { link.reads ≡ true → 1 ≤ self.left }
        ensures { IsAfter link self result }
    {
        let reads = self.seen && link.reads;
        Walk {
            seen: self.seen || link.takes,
            next: if reads { self.next + 1 } else { self.next },
            left: left_after(link, self.left),
        }
    }
}
