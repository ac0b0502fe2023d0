// The files that were handed over, each under its name. Clauses alone read them.
ghost use Rattle.std.specs.Prelude.{◌≡◌, ℕ, Bool, true, false, List, [], ◌∷◌, ◌++◌};
ghost use Rattle.std.specs.Borrow.{ftrue};

use std::marker::{Model, PhantomData};

/// The names that were asked for, each with whether all of its file was handed over, and the bytes that were, in the order of
/// the calls. It takes no memory.
#[derive(Drop)]
pub struct Heard {
    marker: PhantomData<u8>,
    pub ghost entries: { List (List ℕ × (Bool × List ℕ)) },
}

impl Model for Heard {
    ghost also_owns = { λ _. ftrue };
}

impl Heard {
    /// Nothing was handed over.
    pub fn new() -> Heard
        ensures { result.entries ≡ [] }
    {
        Heard {
            marker: PhantomData,
        }
    }

    /// These bytes were handed over under this name, and are all of the file.
    pub fn note(&mut self, name: &[u8], bytes: &[u8])
        ensures { self.new.entries ≡ self.old.entries ++ (name.now, (true, bytes.now)) ∷ [] }
    {
        self.add(name, true, bytes);
    }

    /// These bytes were handed over under this name, and the file has more.
    pub fn note_front(&mut self, name: &[u8], bytes: &[u8])
        ensures { self.new.entries ≡ self.old.entries ++ (name.now, (false, bytes.now)) ∷ [] }
    {
        self.add(name, false, bytes);
    }

    /// One entry more. Proved by hand, since only such a proof sets what no field holds.
    fn add(&mut self, _name: &[u8], _whole: bool, _bytes: &[u8])
        ensures { self.new.entries ≡ self.old.entries ++ (_name.now, (_whole, _bytes.now)) ∷ [] }
    {}
}
