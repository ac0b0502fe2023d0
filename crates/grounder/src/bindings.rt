//! The tuples of objects for the variables of a `forall`, by number. None is listed.
ghost use Rattle.std.specs.Prelude.{◌≡◌, ◌<◌, ◌≤◌, ◌++◌, IfOk, OnOk, map};
ghost use Rattle.pd_model.specs.Fits.{fitting};
ghost use Rattle.grounding_defs.specs.Tuples.{product_of, saturated};
ghost use Rattle.grounding_defs.specs.Limits.{most_tuples};
ghost use Rattle.grounder.specs.own.Bindings.{size, tuple_at, AreBindings};

use pd_model::{Memory, Objects};
use schema_domains::Domains;
use std::alloc::Global;

/// The objects that fit the type of each variable, and how many tuples of them there are.
#[derive(Drop)]
pub(crate) struct Bindings {
    domains: Vec<Objects>,
    pub(crate) count: u64,
}

/// The objects that fit each of these types.
fn domains_of(alloc: Global, lists: &Domains, over: &[u32]) -> Result<Vec<Objects>, Memory>
    ensures { IfOk result (λ domains. domains.items ≡ map (fitting lists.now) over.now) }
{
    let mut domains = Vec::with_capacity(alloc, over.len())?;
    for kind in over {
        domains.push(Objects::of(lists.copied(alloc, *kind)?))?;
    }
    Ok(domains)
}

/// How many tuples there are with one object of each list; past the greatest number of 64 bits, that number.
fn size_of(domains: &[Objects]) -> u64
    ensures { result ≡ saturated (size domains.now) }
{
    let mut count: u64 = 1;
    for domain in domains {
        count = count.saturating_mul(domain.as_slice().len() as u64);
    }
    count
}

/// The bindings of variables of these types.
pub(crate) fn bindings_of(alloc: Global, lists: &Domains, over: &[u32]) -> Result<Bindings, Memory>
    requires { product_of lists.now over.now ≤ most_tuples }
    ensures { IfOk result (λ b. AreBindings lists.now over.now b) }
{
    let domains = domains_of(alloc, lists, over)?;
    let count = size_of(&domains);
    Ok(Bindings { domains, count })
}

/// Appends the tuple of a number, of so many.
fn push_tuple(
    domains: &[Objects],
    count: u64,
    first: u64,
    into: &mut Vec<u32>,
) -> Result<(), Memory>
    requires count { count ≡ size domains.now }
    requires number { first < count }
    ensures { OnOk result (into.new.items ≡ into.old.items ++ tuple_at domains.now first) }
{
    let mut rest = count;
    let mut number = first;
    for domain in domains {
        let objects = domain.as_slice();
        rest /= objects.len() as u64;
        into.push(objects[(number / rest) as usize])?;
        number %= rest;
    }
    Ok(())
}

impl Bindings {
    /// These objects, and then the tuple of a number.
    pub(crate) fn extended(
        &self,
        alloc: Global,
        objects: &[u32],
        number: u64,
    ) -> Result<Vec<u32>, Memory>
        requires count { self.now.count ≡ size self.now.domains.items }
        requires number { number < self.now.count }
        ensures { IfOk result (λ all. all.items ≡ objects.now ++ tuple_at self.now.domains.items number) }
    {
        let mut all = Vec::from_slice(alloc, objects)?;
        push_tuple(&self.domains, self.count, number, &mut all)?;
        Ok(all)
    }
}
