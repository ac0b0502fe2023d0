//! What makes invariants useful, as a contract.

ghost use Rattle.two_invariants.specs.Laws.{InvariantsHold, OneListOfInvariants};

/// The laws of invariants. It does nothing.
pub fn laws()
    ensures hold { InvariantsHold }
    ensures one_set { OneListOfInvariants }
{}
