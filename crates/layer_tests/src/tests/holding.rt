// What tests of several layers compare.
use std::process::Abort;

// That this is so.
pub(crate) fn holds(rt: &impl Abort, is: bool, what: &str) {
    assert!(rt; is, "{what}");
}

// Whether a number is there, and this one.
pub(crate) fn is(found: Option<u32>, wanted: u32) -> bool {
    match found {
        Some(number) => number == wanted,
        None => false,
    }
}

// Whether bytes are the same.
pub(crate) fn is_same(bytes: &[u8], wanted: &[u8]) -> bool {
    bytes == wanted
}
