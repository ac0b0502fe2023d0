// The parts of a task.
use crate::{Atoms, Conds, ObjectDecls, Predicates, Schemas, Types};
use containers::let_go;

/// What a domain and a problem declare, before it is known to be a task.
pub struct Parts {
    /// The types, `object` first.
    pub types: Types,
    /// The predicates.
    pub predicates: Predicates,
    /// The objects, the constants of the domain first.
    pub objects: ObjectDecls,
    /// The action schemas.
    pub schemas: Schemas,
    /// The atoms of the initial state.
    pub init: Atoms,
    /// The goal.
    pub goal: Conds,
}

/// All parts are let go in one call, so that a proof has one step for it and not one for each part.
impl Drop for Parts {
    fn drop(self) {
        let_go!(self: Parts { types, predicates, objects, schemas, init, goal });
    }
}
