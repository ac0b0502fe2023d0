//! What is known while literals are simplified.

use atom_join::AtomTable;
use schema_domains::Domains;
use std::alloc::Global;

/// The task with the objects that fit its types, the facts, in order, and the initial atoms, and where memory comes from. Of
/// the atoms that are no facts, the initial ones are constant and the rest are not reachable.
#[derive(Drop)]
pub(crate) struct Known<'a> {
    pub(crate) alloc: Global,
    pub(crate) domains: &'a Domains<'a>,
    pub(crate) facts: AtomTable<'a>,
    pub(crate) initial: AtomTable<'a>,
}
