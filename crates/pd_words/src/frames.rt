// The frames of files.
ghost use Rattle.std.specs.Prelude.{◌≡◌, ◌++◌, ◌∷◌, [], List, ℕ, option_map, IfOk};
ghost use Rattle.pd_sexp.specs.View.{view, views};
ghost use Rattle.pd_words.specs.Words.{is_one_of};
ghost use Rattle.pd_words.specs.First.{Gives, GivesAs, Leaves, each, every};
ghost use Rattle.pd_words.specs.Frames as frames;

use crate::fault::{Fault, ReadError};
use crate::items::{name_at, no_more, place_of};
use crate::table::Table;
use crate::words::{is, is_any};
use pd_model::Which;
use pd_sexp::{Name, Tree};
use std::alloc::Global;

fn exactly(text: &str, tree: &Tree) -> Result<(), ReadError>
    ensures { Gives (frames.exactly text.now (view tree.now)) result }
{
    match tree {
        Tree::List { at, .. } => Err(ReadError::Fault(Fault::Shape(*at))),
        Tree::Word { at, text: word } => {
            if !is(word, text) {
                return Err(ReadError::Fault(Fault::Shape(*at)));
            }
            Ok(())
        }
    }
}

fn read_one_name(at: u32, items: &[Tree]) -> Result<(), ReadError>
    ensures { Gives (frames.one_name at (views items.now)) result }
{
    let Some((name, more)) = items.split_first() else {
        return Err(ReadError::Fault(Fault::Shape(at)));
    };
    name_at(name)?;
    no_more(more)
}

fn read_title(kind: &str, tree: &Tree) -> Result<(), ReadError>
    ensures { Gives (frames.title kind.now (view tree.now)) result }
{
    match tree {
        Tree::Word { at, .. } => Err(ReadError::Fault(Fault::Shape(*at))),
        Tree::List { at, items } => {
            let Some((first, rest)) = items.items.as_slice().split_first() else {
                return Err(ReadError::Fault(Fault::Shape(*at)));
            };
            exactly(kind, first)?;
            read_one_name(*at, rest)
        }
    }
}

fn kind_word(file: Which) -> &'static str
    ensures { result.now ≡ frames.kind_word file }
{
    match file {
        Which::Domain => "domain",
        Which::Problem => "problem",
        Which::Plan => "",
    }
}

// The sections of a file of this kind.
fn read_sections(file: Which, tree: &Tree) -> Result<&[Tree], ReadError>
    ensures { GivesAs (λ s. views s.now) (frames.sections_of file (view tree.now)) result }
{
    match tree {
        Tree::Word { at, .. } => Err(ReadError::Fault(Fault::Shape(*at))),
        Tree::List { at, items } => {
            let Some((define, rest)) = items.items.as_slice().split_first() else {
                return Err(ReadError::Fault(Fault::Shape(*at)));
            };
            exactly("define", define)?;
            let Some((named, sections)) = rest.split_first() else {
                return Err(ReadError::Fault(Fault::Shape(*at)));
            };
            read_title(kind_word(file), named)?;
            Ok(sections)
        }
    }
}

fn is_single(file: Which, head: &Name) -> bool
    ensures { result ≡ is_one_of (frames.single file) head.now }
{
    match file {
        Which::Domain => is_any!(head; ":requirements", ":types", ":constants", ":predicates"),
        Which::Problem => {
            is_any!(head; ":domain", ":requirements", ":objects", ":init", ":goal", ":length")
        }
        Which::Plan => false,
    }
}

fn is_repeated(file: Which, head: &Name) -> bool
    ensures { result ≡ is_one_of (frames.repeated file) head.now }
{
    match file {
        Which::Domain => is(head, ":action"),
        Which::Problem | Which::Plan => false,
    }
}

fn is_left_out(file: Which, head: &Name) -> bool
    ensures { result ≡ is_one_of (frames.left_out file) head.now }
{
    match file {
        Which::Domain => {
            is_any!(head; ":functions", ":durative-action", ":derived", ":axiom", ":constraints")
        }
        Which::Problem => is_any!(head; ":metric", ":constraints"),
        Which::Plan => false,
    }
}

fn check_word(tree: &Tree) -> Result<(), ReadError>
    ensures { Gives (frames.a_word (view tree.now)) result }
{
    match tree {
        Tree::Word { .. } => Ok(()),
        Tree::List { at, .. } => Err(ReadError::Fault(Fault::Shape(*at))),
    }
}

fn check_words(items: &[Tree]) -> Result<(), ReadError>
    ensures { Gives (frames.words (views items.now)) result }
{
    for item in items {
        check_word(item)?;
    }
    Ok(())
}

fn check_items(head: &Name, at: u32, items: &[Tree]) -> Result<(), ReadError>
    ensures { Gives (frames.section_items head.now at (views items.now)) result }
{
    if is(head, ":requirements") {
        return check_words(items);
    }
    if is(head, ":domain") {
        return read_one_name(at, items);
    }
    Ok(())
}

// A section with this head, at this place, after single ones with the heads of the table.
fn check_section_under(
    alloc: Global,
    file: Which,
    seen: &mut Table,
    head: &Name,
    at: u32,
    items: &[Tree],
) -> Result<(), ReadError>
    ensures { Leaves (frames.section_under file seen.old head.now at (views items.now)) seen.new result }
{
    if is_repeated(file, head) {
        return Ok(());
    }
    if is_left_out(file, head) {
        return Err(ReadError::Fault(Fault::Unsupported(at)));
    }
    if !is_single(file, head) {
        return Err(ReadError::Fault(Fault::Shape(at)));
    }
    if seen.number(head).is_some() {
        return Err(ReadError::Fault(Fault::Duplicate(at)));
    }
    check_items(head, at, items)?;
    seen.add(alloc, head)
}

fn check_section(alloc: Global, file: Which, seen: &mut Table, tree: &Tree) -> Result<(), ReadError>
    ensures { Leaves (frames.section file seen.old (view tree.now)) seen.new result }
{
    match tree {
        Tree::Word { at, .. } => Err(ReadError::Fault(Fault::Shape(*at))),
        Tree::List { at, items } => match items.items.as_slice().split_first() {
            Some((Tree::Word { text, .. }, rest)) => {
                check_section_under(alloc, file, seen, text, *at, rest)
            }
            _ => Err(ReadError::Fault(Fault::Shape(*at))),
        },
    }
}

// The heads of the single sections.
fn check_sections(alloc: Global, file: Which, sections: &[Tree]) -> Result<Table, ReadError>
    ensures { Gives (each (frames.section file) [] (views sections.now)) result }
{
    let mut seen = Table::new(alloc);
    for section in sections {
        check_section(alloc, file, &mut seen, section)?;
    }
    Ok(seen)
}

/// The place and the items of a section with this head.
pub fn section_with<'a>(head: &str, tree: &'a Tree) -> Option<(u32, &'a [Tree])>
    ensures { option_map (λ s. (s.0, views s.1.now)) result ≡ frames.section_with head.now (view tree.now) }
{
    match tree {
        Tree::Word { .. } => None,
        Tree::List { at, items } => match items.items.as_slice().split_first() {
            Some((Tree::Word { text, .. }, rest)) if is(text, head) => Some((*at, rest)),
            _ => None,
        },
    }
}

/// The place and the items of the first section with this head.
pub fn find_section<'a>(head: &str, sections: &'a [Tree]) -> Option<(u32, &'a [Tree])>
    ensures { option_map (λ s. (s.0, views s.1.now)) result ≡ frames.find_section head.now (views sections.now) }
{
    for section in sections {
        if let Some(found) = section_with(head, section) {
            return Some(found);
        }
    }
    None
}

/// The items of the first section with this head; a missing one is empty.
pub fn items_under<'a>(head: &str, sections: &'a [Tree]) -> &'a [Tree]
    ensures { views result.now ≡ frames.items_under head.now (views sections.now) }
{
    match find_section(head, sections) {
        None => &[],
        Some((_, items)) => items,
    }
}

/// The sections of a domain.
pub fn read_domain_frame(alloc: Global, tree: &Tree) -> Result<&[Tree], ReadError>
    ensures { GivesAs (λ s. views s.now) (frames.domain_frame (view tree.now)) result }
{
    let sections = read_sections(Which::Domain, tree)?;
    check_sections(alloc, Which::Domain, sections)?;
    Ok(sections)
}

/// The sections of a problem, of which the goal is not missing.
pub fn read_problem_frame(alloc: Global, tree: &Tree) -> Result<&[Tree], ReadError>
    ensures { GivesAs (λ s. views s.now) (frames.problem_frame (view tree.now)) result }
{
    let sections = read_sections(Which::Problem, tree)?;
    check_sections(alloc, Which::Problem, sections)?;
    if find_section(":goal", sections).is_none() {
        return Err(ReadError::Fault(Fault::Shape(place_of(tree))));
    }
    Ok(sections)
}
