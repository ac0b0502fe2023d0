// Actions.
ghost use Rattle.std.specs.Prelude.{◌≡◌, [], option_map, IfOk};
ghost use Rattle.pd_sexp.specs.View.{view, views};
ghost use Rattle.pd_words.specs.Typed as typed;
ghost use Rattle.pd_words.specs.First.{Gives, GivesAs};
ghost use Rattle.pd_task.specs.Atoms.{condition};
ghost use Rattle.pd_task.specs.Effects as effects;
ghost use Rattle.pd_task.specs.Action as action;
ghost use Rattle.pd_task.specs.own.Scope.{names_with, site_of};
ghost use Rattle.pd_task.specs.own.KeyValues.{keys_of};

use crate::cond::read_cond;
use crate::effects::read_effect;
use crate::found::Found;
use crate::vocabulary::Vocabulary;
use pd_model::{Cond, Conds, Effects, Schema, SharedTypeNumbers, TypeNumbers};
use pd_sexp::{Name, Tree};
use pd_words::{
    Fault, ReadError, Scope, Table, Variables, copy_name, is, place_of, read_variable_list,
};
use std::alloc::Global;

/// A key of an action.
#[derive(Clone, Copy)]
pub enum Key {
    Parameters,
    Precondition,
    Effect,
}

/// The values of the keys that stand in an action.
#[derive(Drop)]
pub struct Keys<'a> {
    pub parameters: Option<&'a Tree>,
    pub precondition: Option<&'a Tree>,
    pub effect: Option<&'a Tree>,
}

fn read_key(tree: &Tree) -> Result<Key, ReadError>
    ensures { Gives (action.key_of (view tree.now)) result }
{
    match tree {
        Tree::List { at, .. } => Err(ReadError::Fault(Fault::Shape(*at))),
        Tree::Word { at, text } => {
            if is(text, ":parameters") {
                Ok(Key::Parameters)
            } else if is(text, ":precondition") {
                Ok(Key::Precondition)
            } else if is(text, ":effect") {
                Ok(Key::Effect)
            } else {
                Err(ReadError::Fault(Fault::Shape(*at)))
            }
        }
    }
}

/// The keys and values after the name of the action at this place.
pub fn read_keys(at: u32, items: &[Tree]) -> Result<Keys<'_>, ReadError>
    ensures { GivesAs keys_of (action.keys_from at action.no_keys (views items.now)) result }
{
    let mut parameters = None;
    let mut precondition = None;
    let mut effect = None;
    let mut rest = items;
    while let Some((word, after)) = rest.split_first() {
        let key = read_key(word)?;
        let taken = match key {
            Key::Parameters => parameters.is_some(),
            Key::Precondition => precondition.is_some(),
            Key::Effect => effect.is_some(),
        };
        if taken {
            return Err(ReadError::Fault(Fault::Duplicate(place_of(word))));
        }
        let Some((value, later)) = after.split_first() else {
            return Err(ReadError::Fault(Fault::Shape(at)));
        };
        match key {
            Key::Parameters => parameters = Some(value),
            Key::Precondition => precondition = Some(value),
            Key::Effect => effect = Some(value),
        }
        rest = later;
    }
    Ok(Keys {
        parameters,
        precondition,
        effect,
    })
}

fn read_parameters(
    alloc: Global,
    types: &Table,
    tree: Option<&Tree>,
) -> Result<Variables, ReadError>
    ensures { GivesAs (λ v. typed.listed v.names v.kinds.items) (typed.variable_list types.now (action.value_of (option_map (λ t. view t.now) tree.entry))) result }
{
    match tree {
        None => Ok(Variables::new(alloc)),
        Some(tree) => read_variable_list(alloc, types, tree),
    }
}

fn read_precondition(
    alloc: Global,
    vocabulary: &Vocabulary,
    scope: &Scope,
    tree: Option<&Tree>,
) -> Result<Conds, ReadError>
    ensures { Gives (condition (names_with vocabulary.now scope.now.levels) [] (action.value_of (option_map (λ t. view t.now) tree.entry))) result }
{
    let mut conds = Vec::new(alloc);
    if let Some(tree) = tree {
        read_cond(alloc, vocabulary, scope, tree, &mut conds)?;
    }
    Ok(Conds::of(conds))
}

fn read_effects(
    alloc: Global,
    vocabulary: &Vocabulary,
    scope: &mut Scope,
    tree: Option<&Tree>,
) -> Result<Effects, ReadError>
    ensures { Gives (effects.effect vocabulary.now.types.now (site_of vocabulary.now scope.old []) [] (action.value_of (option_map (λ t. view t.now) tree.entry))) result }
{
    let over = SharedTypeNumbers::copied_from(alloc, scope.over())?;
    let mut found = Found::new(alloc, over)?;
    if let Some(tree) = tree {
        read_effect(alloc, vocabulary, scope, tree, &mut found)?;
    }
    Ok(found.into_effects())
}

/// The parts of an action of this name.
pub fn read_schema(
    alloc: Global,
    vocabulary: &Vocabulary,
    name: &Name,
    keys: &Keys,
) -> Result<Schema, ReadError>
    ensures schema { Gives (action.schema vocabulary.now.types.now (names_with vocabulary.now []) name.now (keys_of keys.now)) result }
    ensures name { IfOk result (λ s. s.name ≡ name.now) }
{
    let variables = read_parameters(alloc, vocabulary.types, keys.parameters)?;
    let Variables { names, kinds } = variables;
    let mut scope = Scope::of(alloc, names)?;
    let pre = read_precondition(alloc, vocabulary, &scope, keys.precondition)?;
    let effects = read_effects(alloc, vocabulary, &mut scope, keys.effect)?;
    Ok(Schema {
        name: copy_name(alloc, name)?,
        parameters: TypeNumbers::of(kinds),
        pre,
        effects,
    })
}
