ghost use Rattle.std.specs.Prelude.{◌≡◌, ◌∷◌, [], length, IfSome, IfNone};

use std::marker::Model;

/// The items of a slice, from the next one on. Contracts see the list of them.
#[derive(Drop)]
pub struct Left<'a, T> {
    items: &'a [T],
    place: usize,
}

impl<'a, T> Model for Left<'a, T> {
    ghost use Rattle.std.specs.Prelude.{◌≤◌, List, drop, length};

    ghost Value = { List T };

    ghost view = { λ l. drop l.place l.items.now };

    ghost invariant = { λ l. l.place ≤ length l.items.now };
}

impl<'a, T> Left<'a, T> {
    /// All items of a slice.
    pub fn of(items: &'a [T]) -> Left<'a, T>
        ensures { result ≡ items.now }
    {
        Left { items, place: 0 }
    }
}

impl<'a, T: Copy> Left<'a, T> {
    /// How many items are left.
    pub fn len(&self) -> usize
        ensures { result ≡ length self.now }
    {
        self.items.len() - self.place
    }

    /// Takes the next item out.
    pub fn next(&mut self) -> Option<T>
        ensures some { IfSome result (λ item. self.old ≡ item ∷ self.new) }
        ensures none { IfNone result (self.old ≡ []) }
    {
        if self.place == self.items.len() {
            return None;
        }
        let item = self.items[self.place];
        self.place += 1;
        Some(item)
    }
}
