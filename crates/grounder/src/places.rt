//! Look-ups of facts.
ghost use Rattle.std.specs.Prelude.{◌≡◌};
ghost use Rattle.pd_model.specs.Instance.{instance};
ghost use Rattle.grounding_defs.specs.Sorted.{IsSorted, atom_less};
ghost use Rattle.grounding_defs.specs.Simplify.{place_in};

use atom_join::AtomTable;
use pd_model::Pattern;

/// The place of the fact, counted from 0, that a pattern stands for with these objects, where it stands for one.
pub(crate) fn place_in(facts: &AtomTable, objects: &[u32], pattern: &Pattern) -> Option<usize>
    requires { IsSorted atom_less facts.now }
    ensures { result ≡ place_in facts.now (instance objects.now pattern.now) }
{
    facts.place(objects, pattern)
}
