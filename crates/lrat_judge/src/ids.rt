//! The ids of clauses, which rise, each found again by its place.

ghost use Rattle.std.specs.Prelude.{◌≡◌, ◌++◌, ◌∷◌, [], ◌<◌, ◌≤◌, ℕ, true, false, Some, length, slice_get, slice_index, IfSome, IfNone};
ghost use Rattle.std.specs.List.{range_with_len};
ghost use Rattle.lrat_judge.specs.Ids.{Rises, Follow, place_of};

use std::alloc::{AllocError, Global};
use std::marker::Model;

/// Ids in rising order. Contracts see the list of them. Those from 1 on up to the first gap take no memory.
#[derive(Drop)]
pub struct IdTable {
    dense: u64,
    later: Vec<u64>,
}

impl Model for IdTable {
    ghost use Rattle.std.specs.Prelude.{List, ℕ, ◌++◌};
    ghost use Rattle.std.specs.List.{range_with_len};
    ghost use Rattle.lrat_judge.specs.Ids.{Follow};

    ghost Value = { List ℕ };

    ghost view = { λ t. range_with_len 1 t.dense ++ t.later.items };

    ghost invariant = { λ t. Follow t.dense t.later.items };
}

// The place at which an id would be if there were no gaps, where it is there.
fn place_without_gaps(ids: &[u64], id: u64) -> Option<usize>
    ensures { IfSome result (λ place. slice_get ids.now place ≡ Some id) }
{
    let first = ids.first()?;
    let place = id.checked_sub(*first)? as usize;
    match ids.get(place) {
        Some(found) if *found == id => Some(place),
        _ => None,
    }
}

// The place of an id in ids that rise.
fn place_in(ids: &[u64], id: u64) -> Option<usize>
    requires { (i j : ℕ) → i < j → j < length ids.now → slice_index ids.now i < slice_index ids.now j }
    ensures some { IfSome result (λ place. slice_get ids.now place ≡ Some id) }
    ensures none { IfNone result ((place : ℕ) → slice_get ids.now place ≡ Some id → ⊥) }
{
    if let Some(place) = place_without_gaps(ids, id) {
        return Some(place);
    }
    match ids.binary_search(&id) {
        Ok(place) => Some(place),
        Err(_) => None,
    }
}

impl IdTable {
    /// The ids from 1 to a number.
    pub fn new(alloc: Global, count: u32) -> IdTable
        ensures { result ≡ range_with_len 1 count }
    {
        IdTable {
            dense: u64::from(count),
            later: Vec::new(alloc),
        }
    }

    // The last id; 0 where there is none.
    fn last(&self) -> u64
        ensures most { (k : ℕ) → k < length self.now → slice_index self.now k ≤ result }
        ensures is { 0 < result → (k : ℕ) × (k < length self.now) × (slice_index self.now k ≡ result) }
    {
        let count = self.later.len();
        if count == 0 {
            self.dense
        } else {
            self.later[count - 1]
        }
    }

    /// Adds an id at the end where it is above all that there are, and says whether it is. Else, and after want of memory, the
    /// table is unchanged.
    pub fn push(&mut self, id: u64) -> Result<bool, AllocError>
        ensures added { result ≡ Ok true → self.new ≡ self.old ++ id ∷ [] }
        ensures rises { result ≡ Ok true → Rises id self.old }
        ensures falls { result ≡ Ok false → Rises id self.old → ⊥ }
        ensures same { (result ≡ Ok true → ⊥) → self.new ≡ self.old }
    {
        if id <= self.last() {
            return Ok(false);
        }
        if self.later.is_empty() && id - 1 == self.dense {
            self.dense = id;
        } else {
            self.later.push(id)?;
        }
        Ok(true)
    }

    /// The place of an id, from 0.
    pub fn find(&self, id: u64) -> Option<u64>
        ensures some { IfSome result (λ place. slice_get self.now place ≡ Some id) }
        ensures none { IfNone result ((place : ℕ) → slice_get self.now place ≡ Some id → ⊥) }
        ensures first { result ≡ place_of self.now id }
    {
        let dense = self.dense;
        if id == 0 {
            return None;
        }
        if id <= dense {
            return Some(id - 1);
        }
        match place_in(&self.later, id) {
            Some(place) => Some(dense + place as u64),
            None => None,
        }
    }
}
