//! Actions from their literals.

use gt_core::act::Act;
use gt_core::eff::{Eff, Effs};
use gt_core::lits::Lits;
use std::alloc::{AllocError, Global};

/// An effect where some literals hold.
pub fn when(alloc: Global, condition: &[u32], lit: u32) -> Result<Eff, AllocError> {
    Eff::new(alloc, Lits::of(Vec::from_slice(alloc, condition)?), lit)
}

/// The action that needs some literals and has these effects.
pub fn action(alloc: Global, needed: &[u32], effects: Vec<Eff>) -> Result<Act, AllocError> {
    let pre = Lits::of(Vec::from_slice(alloc, needed)?);
    Ok(Act::new(pre, Effs::of(effects)))
}

/// The action that needs some literals and makes others true, without effect conditions.
pub fn plain(alloc: Global, needed: &[u32], made: &[u32]) -> Result<Act, AllocError> {
    let mut effects = Vec::new(alloc);
    for lit in made {
        effects.push(Eff::sure(*lit))?;
    }
    action(alloc, needed, effects)
}
