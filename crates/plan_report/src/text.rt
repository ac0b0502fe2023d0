//! Texts.

use containers::ListOf;

/// Bytes that are written.
pub type Text = ListOf<u8>;
