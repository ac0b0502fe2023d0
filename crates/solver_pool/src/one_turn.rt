//! What a turn of a worker does that hangs on no run: how many units it grants, and where the job goes that is done.

ghost use Rattle.std.specs.Prelude.{◌≡◌, ◌++◌, ◌∷◌, ◌⊎◌, [], min, true};

/// The units of one turn: a slice, or what is left to the target where that is less.
pub fn units_of_turn(left: u64, slice: u32) -> u32
    ensures { result ≡ min slice left }
{
    if left < slice as u64 {
        left as u32
    } else {
        slice
    }
}

/// Puts an item behind a list, or notes that it was lost for want of memory.
pub fn put_or_note<T: Drop>(items: &mut Vec<T>, item: T, lost: &mut bool)
    ensures { ((lost.new ≡ true) × (items.new.items ≡ items.old.items)) ⊎ ((lost.new ≡ lost.old) × (items.new.items ≡ items.old.items ++ item ∷ [])) }
{
    if items.push(item).is_err() {
        *lost = true;
    }
}
