//! Lists of action numbers.

use containers::ListOf;
use std::alloc::{AllocError, Global};

/// Numbers of actions.
pub type ActNumbers = ListOf<u32>;
