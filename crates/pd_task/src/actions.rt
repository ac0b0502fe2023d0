// The actions of a domain.
ghost use Rattle.std.specs.Prelude.{◌≡◌, ◌++◌, ◌∷◌, [], None, OnOk, IfErr};
ghost use Rattle.pd_sexp.specs.View.{view, views};
ghost use Rattle.pd_model.specs.Names.{schema_names};
ghost use Rattle.pd_words.specs.Names.{number_of};
ghost use Rattle.pd_words.specs.declared.fault.ReadError.TheVariants as errors;
ghost use Rattle.pd_words.specs.First.{Leaves, GivesAs, each};
ghost use Rattle.pd_task.specs.Action as action;
ghost use Rattle.pd_task.specs.Reading as reading;
ghost use Rattle.pd_task.specs.own.Scope.{names_with};

use crate::action::{read_keys, read_schema};
use crate::vocabulary::Vocabulary;
use pd_model::Schema;
use pd_sexp::{Name, Tree};
use pd_words::{Fault, ReadError, Table, name_at, place_of, section_with};
use std::alloc::Global;

/// Actions by number, and their names.
#[derive(Drop)]
pub struct ActionTable {
    pub names: Table,
    pub decls: Vec<Schema>,
    ghost named: { names ≡ schema_names decls.items },
}

impl ActionTable {
    fn new(alloc: Global) -> Self
        ensures { result.decls.items ≡ [] }
    {
        ActionTable {
            names: Table::new(alloc),
            decls: Vec::new(alloc),
        }
    }

    // Adds an action of this name. It fails only for want of memory.
    #[tactic(auto, using(crate::proofs::ObjectLemmas::map_push))]
    fn add(&mut self, alloc: Global, name: &Name, schema: Schema) -> Result<(), ReadError>
        requires new { number_of name.now self.old.names ≡ None }
        requires named { schema.name ≡ name.now }
        ensures added { OnOk result (self.new.decls.items ≡ self.old.decls.items ++ schema ∷ []) }
        ensures memory { IfErr result (λ e. e ≡ errors.Memory) }
    {
        self.decls.reserve(1)?;
        self.names.add(alloc, name)?;
        self.decls.push(schema)?;
        Ok(())
    }

    // Adds the action that the list at this place, with these items after `:action`, is.
    fn read(
        &mut self,
        alloc: Global,
        vocabulary: &Vocabulary,
        at: u32,
        items: &[Tree],
    ) -> Result<(), ReadError>
        ensures { Leaves (action.and_action vocabulary.now.types.now (names_with vocabulary.now []) self.old.decls.items at (views items.now)) self.new.decls.items result }
    {
        let Some((title, rest)) = items.split_first() else {
            return Err(ReadError::Fault(Fault::Shape(at)));
        };
        let name = name_at(title)?;
        if self.names.number(name).is_some() {
            return Err(ReadError::Fault(Fault::Duplicate(place_of(title))));
        }
        let keys = read_keys(at, rest)?;
        let schema = read_schema(alloc, vocabulary, name, &keys)?;
        self.add(alloc, name, schema)
    }

    // Adds the action of a section, if it is one.
    fn read_section(
        &mut self,
        alloc: Global,
        vocabulary: &Vocabulary,
        section: &Tree,
    ) -> Result<(), ReadError>
        ensures { Leaves (reading.and_section vocabulary.now.types.now (names_with vocabulary.now []) self.old.decls.items (view section.now)) self.new.decls.items result }
    {
        match section_with(":action", section) {
            None => Ok(()),
            Some((at, items)) => self.read(alloc, vocabulary, at, items),
        }
    }
}

/// The actions of a domain, in the order of the file.
pub fn read_actions(
    alloc: Global,
    vocabulary: &Vocabulary,
    sections: &[Tree],
) -> Result<Vec<Schema>, ReadError>
    ensures { GivesAs (λ v. v.items) (each (reading.and_section vocabulary.now.types.now (names_with vocabulary.now [])) [] (views sections.now)) result }
{
    let mut actions = ActionTable::new(alloc);
    for section in sections {
        actions.read_section(alloc, vocabulary, section)?;
    }
    Ok(actions.decls)
}
