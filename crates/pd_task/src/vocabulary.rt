// What names may stand for.
ghost use Rattle.std.specs.Prelude.{◌≡◌, length};

use pd_words::Table;

/// The names of types, predicates and objects, and the arities of the predicates.
#[derive(Drop)]
pub struct Vocabulary<'a> {
    pub types: &'a Table,
    pub predicates: &'a Table,
    pub arities: &'a [u32],
    pub objects: &'a Table,
    ghost each_arity: { length arities.now ≡ length predicates.now },
}
