//! What shows that no plan exists, however long: sets of clauses that actions keep, read forward or backward, and weights that
//! no action raises. `specs/Sets.antt` says what they are, `Forward.antt`, `Backward.antt` and `Weights.antt` how they are
//! checked by unit propagation (`Propagation.antt`), and `laws` has what they are good for.
#![tactic(auto)]

pub mod laws;
