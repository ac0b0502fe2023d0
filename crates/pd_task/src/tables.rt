// What a domain declares.
ghost use Rattle.std.specs.Prelude.{◌≡◌};
ghost use Rattle.pd_model.specs.Names.{type_names};

use crate::objects::ObjectTable;
use crate::predicates::PredicateTable;
use pd_model::Schema;
use pd_words::TypeTable;

/// What a domain declares, with its tables of names.
#[derive(Drop)]
pub struct DomainTables {
    pub types: TypeTable,
    pub objects: ObjectTable,
    pub predicates: PredicateTable,
    pub schemas: Vec<Schema>,
    ghost types_named: { types.names ≡ type_names types.decls },
}
