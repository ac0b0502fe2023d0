// Constants and objects.
ghost use Rattle.std.specs.Prelude.{◌≡◌, [], List};
ghost use Rattle.pd_sexp.specs.View.{views};
ghost use Rattle.pd_model.specs.Names.{object_names};
ghost use Rattle.pd_model.specs.declared.objects.ObjectDecl.{ObjectDecl};
ghost use Rattle.pd_words.specs.First.{Leaves};
ghost use Rattle.pd_words.specs.Names.{number_of};
ghost use Rattle.pd_words.specs.Typed as typed;
ghost use Rattle.pd_task.specs.Declarations as declarations;

use pd_model::ObjectDecl;
use pd_sexp::Tree;
use pd_words::{
    Fault, Named, OBJECT, ReadError, Table, TypedList, copy_name, is_name, read_type, read_typed,
};
use std::alloc::Global;

/// Objects by number, and their names.
#[derive(Drop)]
pub struct ObjectTable {
    pub names: Table,
    pub decls: Vec<ObjectDecl>,
    ghost named: { names ≡ object_names decls.items },
}

impl ObjectTable {
    /// No objects; takes no memory.
    pub fn new(alloc: Global) -> Self
        ensures { result.decls.items ≡ [] }
    {
        ObjectTable {
            names: Table::new(alloc),
            decls: Vec::new(alloc),
        }
    }

    // Declares an object, or meets one that was declared with the same type.
    #[tactic(auto, using(crate::proofs::ObjectLemmas::kind_is, crate::proofs::ObjectLemmas::map_push))]
    fn declare(&mut self, alloc: Global, kind: u32, word: &Named) -> Result<(), ReadError>
        ensures { Leaves (declarations.declare self.old.decls.items kind word.now (number_of word.now.name (object_names self.old.decls.items))) self.new.decls.items result }
    {
        match self.names.number(&word.name) {
            None => {
                let name = copy_name(alloc, &word.name)?;
                self.decls.reserve(1)?;
                self.names.add(alloc, &word.name)?;
                self.decls.push(ObjectDecl { name, kind })?;
                Ok(())
            }
            Some(object) => {
                if self.decls[object as usize].kind != kind {
                    return Err(ReadError::Fault(Fault::Duplicate(word.at)));
                }
                Ok(())
            }
        }
    }

    /// Adds the objects of a typed list.
    pub fn read(&mut self, alloc: Global, types: &Table, items: &[Tree]) -> Result<(), ReadError>
        ensures { Leaves (declarations.and_objects types.now self.old.decls.items (views items.now)) self.new.decls.items result }
    {
        read_typed(alloc, types, self, items)
    }
}

impl TypedList for ObjectTable {
    type Types = Table;

    type Kind = u32;

    ghost Listed = { List ObjectDecl };

    ghost listed = { λ objects. objects.decls.items };

    ghost admits = { declarations.admit_object };

    ghost kind_of = { typed.type_of };

    ghost gives = { declarations.give_objects };

    ghost untyped = { typed.object };

    fn admit(&mut self, _: Global, word: &Named) -> Result<(), ReadError> {
        if !is_name(&word.name) {
            return Err(ReadError::Fault(Fault::Shape(word.at)));
        }
        Ok(())
    }

    fn read_kind(alloc: Global, types: &Table, tree: &Tree) -> Result<u32, ReadError> {
        read_type(alloc, types, tree)
    }

    fn give(&mut self, alloc: Global, kind: &u32, waiting: &[Named]) -> Result<(), ReadError> {
        for word in waiting {
            self.declare(alloc, *kind, word)?;
        }
        Ok(())
    }

    fn no_type(_: Global) -> Result<u32, ReadError> {
        Ok(OBJECT)
    }
}
