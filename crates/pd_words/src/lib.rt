//! What PDDL files are written in: words, names and keywords, typed lists, the frames of files with their
//! sections, tables of names and the variables in scope; and faults, each at the place of its first byte.
//!
//! `Table` has names in order and an ordered map to their numbers, tied by the type's invariant to the look-up in a list. There is one loop
//! over typed lists (`typed`, over the trait `TypedList`, whose ghost members are the arguments of the definition `typed_from`); variables and
//! the arguments of a predicate (`variables`), types (`types`) and, in pd_task, objects say what becomes of a word and of a type. Whether
//! types lie under `object` is computed for all types at once, by composing the map from types to parents with itself.
#![tactic(auto)]

mod ancestors;
mod fault;
mod frames;
mod items;
mod keyword;
mod named;
mod number;
mod scope;
mod table;
mod typed;
mod types;
mod variables;
mod words;

pub use fault::{Fault, ReadError};
pub use frames::{find_section, items_under, read_domain_frame, read_problem_frame, section_with};
pub use items::{name_at, no_more, place_of};
pub use keyword::{Keyword, head_keyword, keyword_of};
pub use named::{Named, copy_name};
pub use number::next_number;
pub use scope::Scope;
pub use table::Table;
pub use typed::{OBJECT, TypedList, read_type, read_type_name, read_typed};
pub use types::{TypeTable, read_types};
pub use variables::{Variables, read_arity, read_variable_list, read_variables};
pub use words::{is, is_dash, is_name, is_variable};
