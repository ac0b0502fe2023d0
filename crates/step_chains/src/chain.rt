//! One chain.
ghost use Rattle.std.specs.Prelude.{◌≡◌, ◌+◌, ◌*◌, ◌≤◌, ◌&&◌, ◌||◌, Bool, true, false, length, count_by, if◌then◌else◌};
ghost use Rattle.step_chains.specs.own.Links.{link_count, link_size, is_read};

use crate::link::Link;
use std::marker::Model;

/// A chain: the number of its first variable, counted from 0, and its members.
pub(crate) struct Chain {
    pub(crate) first: u32,
    pub(crate) links: Vec<Link>,
}

impl Drop for Chain {
    fn drop(self) {
        let Chain { first: _, links: _ } = self;
    }
}

impl Model for Chain {
    ghost use Rattle.step_chains.specs.Chains.{LinkedChain};

    ghost Value = { LinkedChain };

    ghost view = { λ c. record { first = c.first; links = c.links.items } };
}

/// How many variables a chain of these links has: one for each reader after a taker.
pub(crate) fn count(links: &[Link]) -> usize
    ensures count { result ≡ link_count false links.now }
    ensures few { result ≤ length links.now }
{
    let mut seen = false;
    let mut count = 0;
    for link in links {
        if seen && link.reads {
            count += 1;
        }
        seen = seen || link.takes;
    }
    count
}

/// How many of the links read.
pub(crate) fn readers(links: &[Link]) -> usize
    ensures { result ≡ count_by (λ k. k.reads) links.now }
{
    links.iter().filter(|k| k.reads).count()
}

/// How many readers are left after a link.
pub(crate) fn left_after(link: Link, left: usize) -> usize
    requires { link.reads ≡ true → 1 ≤ left }
    ensures { (if link.reads then 1 else 0) + result ≡ left }
{
    if link.reads { left - 1 } else { left }
}

/// How many literals the clauses of one link have, where a taker was seen before it or not, and a reader is left after it
/// or not.
fn one_size(link: Link, seen: bool, read: bool) -> u64
    ensures value { result ≡ (if link.takes && read then 2 else 0) + (if seen && link.reads then (if read then 4 else 2) else 0) }
    ensures few { result ≤ 6 }
{
    let enters = if link.takes && read { 2 } else { 0 };
    let passes = match (seen && link.reads, read) {
        (true, true) => 4,
        (true, false) => 2,
        (false, _) => 0,
    };
    enters + passes
}

/// How many literals the clauses of a chain of these links have.
pub(crate) fn chain_size(links: &[Link]) -> u64
    requires { length links.now ≤ 1073741824 }
    ensures size { result ≡ link_size false links.now }
    ensures few { result ≤ 6 * length links.now }
{
    let mut seen = false;
    let mut left = readers(links);
    let mut size = 0;
    for link in links {
        left = left_after(*link, left);
        size += one_size(*link, seen, left > 0);
        seen = seen || link.takes;
    }
    size
}
