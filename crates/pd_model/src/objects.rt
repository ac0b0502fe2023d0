// The objects.
use containers::ListOf;
use pd_sexp::Name;
use std::cmp::Ordering;
use std::marker::Model;

/// A declared object. Objects are numbered from 0, the constants of the domain first.
#[derive(Drop)]
pub struct ObjectDecl {
    /// Its name.
    pub name: Name,
    /// The number of its type.
    pub kind: u32,
}

/// The declared objects, by number.
pub type ObjectDecls = ListOf<ObjectDecl>;

/// Numbers of objects: those of a ground atom or of a call.
#[derive(Drop)]
pub struct Objects {
    items: Vec<u32>,
}

impl Model for Objects {
    ghost use Rattle.std.specs.Prelude.{List, ℕ};

    ghost Value = { List ℕ };

    ghost view = { λ l. l.items.items };
}

impl Objects {
    ghost use Rattle.std.specs.Prelude.{◌≡◌};

    /// The list of these items; takes no memory.
    pub fn of(items: Vec<u32>) -> Self
        ensures { result ≡ items.items }
    {
        Objects { items }
    }

    /// The items.
    pub fn as_slice(&self) -> &[u32]
        ensures { result.now ≡ self.now }
    {
        &self.items
    }

    /// The items themselves; takes no memory.
    pub fn into_vec(self) -> Vec<u32>
        ensures { result.items ≡ self }
    {
        self.items
    }
}

impl PartialEq for Objects {
    ghost use Rattle.std.specs.Prelude.{◌==◌};
    ghost use Rattle.std.proofs.Common.{rules};
    ghost use Rattle.std.specs.Cmp.Rules.{comparing};
    ghost use Rattle.std.specs.Cmp.Lexicographic.{pointwise};

    ghost eq = { pointwise ◌==◌ };

    ghost laws = { Prim.search (comparing, rules) };

    fn eq(&self, other: &Objects) -> bool {
        self.items.as_slice() == other.items.as_slice()
    }
}

impl Eq for Objects {
    ghost use Rattle.std.proofs.Common.{rules};
    ghost use Rattle.std.specs.Cmp.Rules.{comparing};

    ghost laws = { Prim.search (comparing, rules) };
}

impl PartialOrd for Objects {
    ghost use Rattle.std.proofs.Common.{rules};
    ghost use Rattle.std.specs.Cmp.{partial_order_from_own_ties};
    ghost use Rattle.std.specs.Cmp.Rules.{comparing};
    ghost use Rattle.std.specs.Cmp.Lexicographic.{slice_cmp};
    ghost use Rattle.std.specs.Ordering.{nat_cmp, as_partial_cmp};

    ghost partial_cmp = { as_partial_cmp (slice_cmp nat_cmp) };

    ghost laws = { partial_order_from_own_ties (Prim.search (comparing, rules)) (Prim.search (comparing, rules)) };

    fn partial_cmp(&self, other: &Objects) -> Option<Ordering> {
        Some(self.cmp(other))
    }
}

impl Ord for Objects {
    ghost use Rattle.std.proofs.Common.{rules};
    ghost use Rattle.std.specs.Cmp.Rules.{comparing};
    ghost use Rattle.std.specs.Cmp.Lexicographic.{slice_cmp};
    ghost use Rattle.std.specs.Ordering.{nat_cmp};

    ghost cmp = { slice_cmp nat_cmp };

    ghost total = { Prim.search (comparing, rules) };

    ghost matches_partial_cmp = { Prim.search (comparing, rules) };

    ghost matches_eq = { Prim.search (comparing, rules) };

    fn cmp(&self, other: &Objects) -> Ordering {
        self.items.as_slice().cmp(&other.items.as_slice())
    }
}
